//! Each request of a session has its outcome.
ghost use Rattle.kn_request.specs.Terms.{watched};
ghost use Rattle.kn_session.specs.Rounds.{IsPaced};
ghost use Rattle.kn_outcomes.specs.Outcomes.{EachHasItsOutcome, EachHasItsOutcomeInRounds};

use kn_io::{Caller, Clock};
use kn_record::facts::fact_laws;
use kn_session::Pace;
use kn_sizes::server::request_laws;

/// After the whole history of a session over a revision that began with no live request, no request is live: each that was
/// taken in has ended. The one clause says so of slots that went on as this pace says, the other of slots that served a
/// number of rounds, both by this clock.
pub fn outcome_laws<C: Caller, L, K: Clock, P: Pace<C>>(_clock: &K, _pace: &P)
    ensures lasting { EachHasItsOutcome C L (watched (K.reading _clock.now) P.Watch.leaves)
        (IsPaced (P.begins _pace.now) (P.ends _pace.now)) }
    ensures rounds { EachHasItsOutcomeInRounds C L (K.reading _clock.now) }
{
    fact_laws();
    request_laws();
}
