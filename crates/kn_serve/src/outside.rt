//! What is seen of the outside of a session, in clauses alone.
use crate::opening::Opener;
use kn_io::{Caller, Clock, PodLink, Sink, Source};
use kn_request::{Slot, WideSlot};
use kn_session::Sided;

/// What is seen of an input, of callers and links, of a clock and of an output.
pub trait Outside<S, C, L, K, O> {
    ghost use Rattle.kn_serve.specs.Course.{Seen};

    ghost seen: { Seen S C L K O };
}

impl<S: Source, C: Caller, L: PodLink, K: Clock, O: Sink> Outside<S, C, L, K, O> for () {
    ghost seen = { record {
      left = S.left;
      at = ⟦<Slot<C, L> as Sided>⟧.at;
      wide_at = ⟦<WideSlot<C, L> as Sided>⟧.at;
      told = L.told;
      faults = L.Faulty.faults;
      reading = K.reading;
      held = O.held;
    } };
}

/// What is seen of them and of an opener.
pub trait Opens<S, C, L, K, O> {
    ghost use Rattle.std.specs.Prelude.{List, Option};
    ghost use Rattle.kn_plan.specs.declared.plan.Plan.{Plan};
    ghost use Rattle.kn_request.specs.declared.slot.Slot.{Slot};
    ghost use Rattle.kn_serve.specs.Course.{SeenOpening};

    ghost seen: { SeenOpening Self Plan (List (Slot C L)) (Option L) S C L K O };
}

impl<W: Opener<C, L>, S: Source, C: Caller, L: PodLink, K: Clock, O: Sink> Opens<S, C, L, K, O>
    for W {
    ghost seen = { record { outside = ⟦<() as Outside<S, C, L, K, O>>⟧.seen; opener_faults = W.Faulty.faults; gives = W.gives } };
}
