//! What makes the slots and the keeper that a plan asks for.
ghost use Rattle.std.specs.Prelude.{◌≡◌, ◌≤◌, List, [], Option, None, Err, All, OnOk, OnErr};
ghost use Rattle.kn_io.specs.Causes.{Rose};
ghost use Rattle.kn_plan.specs.declared.plan.Plan.{Plan as PlanValue};
ghost use Rattle.kn_request.specs.declared.slot.Slot.{Slot as SlotValue};
ghost use Rattle.kn_serve.specs.Opening.{IsFreshBy, IsUnused, MadeNew};

use crate::open_error::OpenError;
use kn_io::{Caller, Faulty, PodLink};
use kn_plan::Plan;
use kn_request::Slot;
use kn_session::Sided;
use std::alloc::Global;
use std::marker::Model;
use std::mem;

/// Makes what a plan asks for.
pub trait Opener<C: Caller, L: PodLink>: Faulty {
    /// What an opening gives: the opener as it was, the plan, the opener as it is then, the slots in their order, and the keeper.
    ghost gives: { Self → PlanValue → Self → List (SlotValue C L) → Option L → Type 0 };

    /// Puts as many slots as the plan says into `slots`, each with an empty work, a caller that met nobody and a link that
    /// called nothing, and a link that probed nothing into `keeper`. After an error there are none.
    fn open(
        &mut self,
        alloc: Global,
        plan: &Plan,
        slots: &mut Vec<Slot<C, L>>,
        keeper: &mut Option<L>,
    ) -> Result<(), OpenError>
        requires slots { slots.old.items ≡ [] }
        requires keeper { keeper.old ≡ None }
        ensures opened { OnOk result (MadeNew ⟦<Slot<C, L> as Sided>⟧.at L.told plan.now.slots slots.new.items keeper.new) }
        ensures given { OnOk result (gives self.old plan.now self.new slots.new.items keeper.new) }
        ensures no_slots { OnErr result (slots.new.items ≡ []) }
        ensures no_keeper { OnErr result (keeper.new ≡ None) }
        ensures never_falls { Self.faults self.old ≤ Self.faults self.new }
        ensures failed { result ≡ Err OpenError.Failed → Rose (Self.faults self.old) (Self.faults self.new) };
}

/// An opener in memory, which hands out what it was given, once.
#[derive(Drop)]
pub struct MemOpener<C: Caller, L: PodLink> {
    slots: Vec<Slot<C, L>>,
    keeper: Option<L>,
    fail: bool,
    faults: u64,
}

impl<C: Caller, L: PodLink> Model for MemOpener<C, L> {
    ghost use Rattle.kn_request.specs.Outside.{said};
    ghost use Rattle.kn_serve.specs.Opening.{IsFresh, IsOffer, IsUnused, Offer};

    ghost Value = { Offer C L };

    ghost view = { λ o. record { slots = o.slots.items; keeper = o.keeper; fail = o.fail; faults = o.faults } };

    ghost invariant = { λ o. IsOffer (λ s. IsFresh (said (C.Sink.kept s.caller) (C.Sink.held s.caller)) (L.told s.link) s.work) (λ k. IsUnused (L.told k)) o.slots.items o.keeper };
}

impl<C: Caller, L: PodLink> MemOpener<C, L> {
    ghost use Rattle.std.specs.Prelude.{Some};

    /// Hands out these slots and this keeper, or fails.
    pub fn new(slots: Vec<Slot<C, L>>, keeper: L, fail: bool) -> MemOpener<C, L>
        requires slots { All (IsFreshBy ⟦<Slot<C, L> as Sided>⟧.at) slots.items }
        requires keeper { IsUnused (L.told keeper) }
        ensures slots { result.slots ≡ slots.items }
        ensures keeper { result.keeper ≡ Some keeper }
        ensures fail { result.fail ≡ fail }
        ensures faults { result.faults ≡ 0 }
    {
        MemOpener {
            slots,
            keeper: Some(keeper),
            fail,
            faults: 0,
        }
    }
}

impl<C: Caller, L: PodLink> Faulty for MemOpener<C, L> {
    ghost faults = { λ o. o.faults };

    fn faults(&self) -> u64 {
        self.faults
    }
}

impl<C: Caller, L: PodLink> Opener<C, L> for MemOpener<C, L> {
    ghost gives = { λ o _ _ slots keeper. (slots ≡ o.slots) × (keeper ≡ o.keeper) };

    /// Fails where it was told so, where the plan asks for another number of slots, and at each call after one that didn't.
    fn open(
        &mut self,
        _alloc: Global,
        plan: &Plan,
        slots: &mut Vec<Slot<C, L>>,
        keeper: &mut Option<L>,
    ) -> Result<(), OpenError> {
        if self.fail || self.keeper.is_none() || self.slots.len() as u64 != plan.slots {
            self.faults = self.faults.saturating_add(1);
            return Err(OpenError::Failed);
        }
        mem::swap(&mut self.slots, slots);
        mem::swap(&mut self.keeper, keeper);
        Ok(())
    }
}
