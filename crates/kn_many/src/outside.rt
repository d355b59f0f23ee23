//! What is seen of the outside of a session over several revisions, in clauses alone.
use crate::wide_opening::WideOpener;
use kn_io::{Caller, Clock, PodLink, Sink, Source};
use kn_serve::Outside;

/// What is seen of an input, of callers and links, of a clock, of an output, and of an opener.
pub trait OpensAll<S, C, L, K, O> {
    ghost use Rattle.std.specs.Prelude.{List};
    ghost use Rattle.kn_plan.specs.declared.wide_plan.WidePlan.{WidePlan};
    ghost use Rattle.kn_request.specs.declared.slot.WideSlot.{WideSlot};
    ghost use Rattle.kn_serve.specs.Course.{SeenOpening};

    ghost seen: { SeenOpening Self WidePlan (List (WideSlot C L)) (List L) S C L K O };
}

impl<W: WideOpener<C, L>, S: Source, C: Caller, L: PodLink, K: Clock, O: Sink> OpensAll<
    S,
    C,
    L,
    K,
    O,
> for W {
    ghost seen = { record { outside = ⟦<() as Outside<S, C, L, K, O>>⟧.seen; opener_faults = W.Faulty.faults; gives = W.gives } };
}
