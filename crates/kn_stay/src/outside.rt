//! What is seen of the outside of a server that goes on, in clauses alone.
use kn_io::{Caller, Clock, PodLink, Sink};
use kn_request::Slot;
use kn_session::{Attendant, Pace, Sided};

/// What is seen of callers and links, of a clock, of an output, of a pace and of a page's attendant.
pub trait StayOutside<C, L, K, O, P, W> {
    ghost use Rattle.kn_stay.specs.Staying.{SeenStaying};

    ghost seen: { SeenStaying C L K O P W };
}

impl<C: Caller, L: PodLink, K: Clock, O: Sink, P: Pace<C>, W: Attendant> StayOutside<
    C,
    L,
    K,
    O,
    P,
    W,
> for () {
    ghost seen = { record {
      at = ⟦<Slot<C, L> as Sided>⟧.at;
      told = L.told;
      faults = L.Faulty.faults;
      reading = K.reading;
      held = O.held;
      begins = P.begins;
      ends = P.ends;
      leaves = P.Watch.leaves;
      attends = W.attends;
    } };
}
