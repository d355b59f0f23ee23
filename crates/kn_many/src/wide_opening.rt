//! What makes the slots and the keepers that a plan for several revisions asks for.
ghost use Rattle.std.specs.Prelude.{◌≡◌, ◌≤◌, List, [], All, Err, MatchBool, OnErr, OnOk};
ghost use Rattle.kn_io.specs.Causes.{Rose};
ghost use Rattle.kn_plan.specs.declared.wide_plan.WidePlan.{WidePlan as WideValue};
ghost use Rattle.kn_request.specs.declared.slot.WideSlot.{WideSlot as WideSlotValue};
ghost use Rattle.kn_session.specs.Wide.{HasOfEach};
ghost use Rattle.kn_serve.specs.Opening.{IsUnused};
ghost use Rattle.kn_many.specs.WideOpening.{IsFreshWideBy, AllNew};

use kn_io::{Caller, Faulty, PodLink};
use kn_plan::WidePlan;
use kn_request::WideSlot;
use kn_serve::OpenError;
use kn_session::Sided;
use std::alloc::Global;
use std::marker::Model;
use std::mem;

/// Makes what a plan for several revisions asks for.
pub trait WideOpener<C: Caller, L: PodLink>: Faulty {
    /// What an opening gives: the opener as it was, the plan, the opener as it is then, the slots in their order, and the keepers in
    /// that of the lists.
    ghost gives: { Self → WideValue → Self → List (WideSlotValue C L) → List L → Type 0 };

    /// Puts as many slots as the plan says into `slots`, each with a caller that met nobody, and for each list of pods a link that
    /// called nothing and an empty work; and for each list a link that probed nothing into `keepers`. After an error there are none.
    fn open(
        &mut self,
        alloc: Global,
        plan: &WidePlan,
        slots: &mut Vec<WideSlot<C, L>>,
        keepers: &mut Vec<L>,
    ) -> Result<(), OpenError>
        requires slots { slots.old.items ≡ [] }
        requires keepers { keepers.old.items ≡ [] }
        ensures opened { OnOk result (AllNew ⟦<WideSlot<C, L> as Sided>⟧.at L.told plan.now slots.new.items keepers.new.items) }
        ensures given { OnOk result (gives self.old plan.now self.new slots.new.items keepers.new.items) }
        ensures no_slots { OnErr result (slots.new.items ≡ []) }
        ensures no_keepers { OnErr result (keepers.new.items ≡ []) }
        ensures never_falls { Self.faults self.old ≤ Self.faults self.new }
        ensures failed { result ≡ Err OpenError.Failed → Rose (Self.faults self.old) (Self.faults self.new) };
}

/// An opener in memory, which hands out what it was given, once.
#[derive(Drop)]
pub struct MemWideOpener<C: Caller, L: PodLink> {
    slots: Vec<WideSlot<C, L>>,
    keepers: Vec<L>,
    fail: bool,
    faults: u64,
}

impl<C: Caller, L: PodLink> Model for MemWideOpener<C, L> {
    ghost use Rattle.std.specs.Prelude.{map};
    ghost use Rattle.kn_request.specs.Outside.{said};
    ghost use Rattle.kn_serve.specs.Opening.{IsUnused};
    ghost use Rattle.kn_many.specs.WideOpening.{IsFreshWide, IsWideOffer, WideOffer};

    ghost Value = { WideOffer C L };

    ghost view = { λ o. record { slots = o.slots.items; keepers = o.keepers.items; fail = o.fail; faults = o.faults } };

    ghost invariant = { λ o. IsWideOffer (λ s. IsFreshWide (said (C.Sink.kept s.caller) (C.Sink.held s.caller)) (map (λ l. L.told l) s.links.items) s.works.items) (λ k. IsUnused (L.told k)) o.slots.items o.keepers.items };
}

impl<C: Caller, L: PodLink> MemWideOpener<C, L> {
    /// Hands out these slots and these keepers, or fails.
    pub fn new(slots: Vec<WideSlot<C, L>>, keepers: Vec<L>, fail: bool) -> MemWideOpener<C, L>
        requires slots { All (IsFreshWideBy ⟦<WideSlot<C, L> as Sided>⟧.at) slots.items }
        requires keepers { All (λ k. IsUnused (L.told k)) keepers.items }
        ensures slots { result.slots ≡ slots.items }
        ensures keepers { result.keepers ≡ keepers.items }
        ensures fail { result.fail ≡ fail }
        ensures faults { result.faults ≡ 0 }
    {
        MemWideOpener {
            slots,
            keepers,
            fail,
            faults: 0,
        }
    }
}

impl<C: Caller, L: PodLink> Faulty for MemWideOpener<C, L> {
    ghost faults = { λ o. o.faults };

    fn faults(&self) -> u64 {
        self.faults
    }
}

/// Whether the slot has a link and a work for each of so many revisions.
fn has_of_each<C, L>(slot: &WideSlot<C, L>, lists: usize) -> bool
    ensures { MatchBool result (HasOfEach lists slot.now) (HasOfEach lists slot.now → ⊥) }
{
    slot.links.len() == lists && slot.works.len() == lists
}

/// Whether each slot has.
fn have_of_each<C, L>(slots: &[WideSlot<C, L>], lists: usize) -> bool
    ensures { MatchBool result (All (HasOfEach lists) slots.now) (All (HasOfEach lists) slots.now → ⊥) }
{
    slots.iter().all(|s| has_of_each(s, lists))
}

impl<C: Caller, L: PodLink> WideOpener<C, L> for MemWideOpener<C, L> {
    ghost gives = { λ o _ _ slots keepers. (slots ≡ o.slots) × (keepers ≡ o.keepers) };

    /// Fails where it was told so, and where the plan asks for another number of slots or another number of lists than it has of keepers
    /// and, in each slot, of links and works. So it fails at each call after one that didn't.
    fn open(
        &mut self,
        _alloc: Global,
        plan: &WidePlan,
        slots: &mut Vec<WideSlot<C, L>>,
        keepers: &mut Vec<L>,
    ) -> Result<(), OpenError> {
        let lists = plan.pods.items().len();
        if self.fail
            || self.keepers.len() != lists
            || self.slots.len() as u64 != plan.slots
            || !have_of_each(&self.slots, lists)
        {
            self.faults = self.faults.saturating_add(1);
            return Err(OpenError::Failed);
        }
        mem::swap(&mut self.slots, slots);
        mem::swap(&mut self.keepers, keepers);
        Ok(())
    }
}
