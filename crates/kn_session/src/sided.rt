//! What is told of a slot.
use kn_io::{Caller, PodLink};
use kn_request::{Slot, WideSlot};

/// What is told of a slot's caller and of its links, in clauses alone.
pub trait Sided {
    ghost Sides: { Type 0 };

    ghost at: { Self → Sides };
}

impl<C: Caller, L: PodLink> Sided for Slot<C, L> {
    ghost use Rattle.kn_session.specs.Rounds.{Sides as SlotSides, sides};

    ghost Sides = { SlotSides };

    ghost at = { λ s. sides (C.Sink.kept s.caller) (C.Sink.held s.caller) (C.Faulty.faults s.caller) (L.told s.link) (L.Faulty.faults s.link) };
}

impl<C: Caller, L: PodLink> Sided for WideSlot<C, L> {
    ghost use Rattle.std.specs.Prelude.{map};
    ghost use Rattle.kn_session.specs.Wide.{WideSides, wide_sides};

    ghost Sides = { WideSides };

    ghost at = { λ s. wide_sides (C.Sink.kept s.caller) (C.Sink.held s.caller) (C.Faulty.faults s.caller) (map (λ l. L.told l) s.links.items) (map (λ l. L.Faulty.faults l) s.links.items) };
}
