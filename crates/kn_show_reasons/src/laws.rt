//! What holds of the lines of every decision, and of a run's own. Nothing is computed here.
ghost use Rattle.std.specs.Prelude.{ℕ};
ghost use Rattle.kn_event.specs.Revision.{AreInRange};
ghost use Rattle.kn_event.specs.declared.revision.Spec.{Spec};
ghost use Rattle.kn_show_reasons.specs.Holding.{AtEachDecision, RatesTell, Tells};
ghost use Rattle.kn_show_reasons.specs.Reading.{NamesWant};
ghost use Rattle.kn_show_reasons.specs.Runs.{AtEachDecided, AtEachRow, IsByPast, NamesOwnWant, TellsBreaker, TellsOwnBounds, ZeroTells};

use kn_laws::parts::part_laws;

/// Read from the top, the counts that the lines of a decision name come to the pods that it wants. The lines of the rates,
/// the activation scale, the delay and the bounds stand exactly where these change the count.
pub fn reason_laws()
    ensures what_counts { AtEachDecision NamesWant }
    ensures rates { (s : Spec) (ready pods : ℕ) → AreInRange s → RatesTell s ready pods }
    ensures bounds { AtEachDecision Tells }
{}

/// Of a run, row by row and by the trace before each: a decision is the one by that trace's past, the counts that its lines name end
/// at the pods that it wants, its lines stand where their rules changed the count, and which line of scale to zero stands is which case
/// of that rule. That the breaker is full is told exactly where a request comes to a full one.
pub fn told_laws()
    ensures decided { AtEachDecided IsByPast }
    ensures counts { AtEachDecided NamesOwnWant }
    ensures bounds { AtEachDecided TellsOwnBounds }
    ensures zero { AtEachDecided ZeroTells }
    ensures breaker { AtEachRow TellsBreaker }
{
    part_laws();
}
