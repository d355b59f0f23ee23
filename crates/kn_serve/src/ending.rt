//! How a session ends by what became of its slots.
ghost use Rattle.std.specs.Prelude.{◌≡◌};
ghost use Rattle.std.specs.List.{list_any, position};
ghost use Rattle.kn_serve.specs.Ending.{AreCleared, status_of_slots};

use kn_journal::Status;
use kn_request::{Slot, Work};

/// The least slot with a round that ended in a fault comes first, then want of memory in a round.
pub fn end_of<C, L>(slots: &[Slot<C, L>]) -> Status
    ensures { result ≡ status_of_slots slots.now }
{
    match least_fault(slots) {
        Some(slot) => Status::SlotFault(slot as u64),
        None => match any_want(slots) {
            true => Status::Memory,
            false => Status::Ok,
        },
    }
}

fn least_fault<C, L>(slots: &[Slot<C, L>]) -> Option<usize>
    ensures { result ≡ position (λ s. s.work.fault) slots.now }
{
    slots.iter().position(|s| s.work.fault)
}

fn any_want<C, L>(slots: &[Slot<C, L>]) -> bool
    ensures { result ≡ list_any (λ s. s.work.memory) slots.now }
{
    slots.iter().any(|s| s.work.memory)
}

/// Makes the works empty.
pub fn clear<C, L>(slots: &mut [Slot<C, L>])
    ensures { AreCleared slots.old slots.new }
{
    for i in 0..slots.len() {
        slots[i].work = Work::new();
    }
}
