//! How a session over several revisions ends by what became of its slots.
ghost use Rattle.std.specs.Prelude.{◌≡◌, All, length};
ghost use Rattle.std.specs.List.{list_any, position};
ghost use Rattle.kn_serve.specs.Ending.{status_by};
ghost use Rattle.kn_serve.specs.Opening.{IsEmptyWork};
ghost use Rattle.kn_many.specs.Ending.{AreAllCleared, has_fault, has_want};

use kn_journal::Status;
use kn_request::{WideSlot, Work};

/// The least slot with a round that ended in a fault comes first, then want of memory in a round, whatever revision the round is of.
pub fn end_of_all<C, L>(slots: &[WideSlot<C, L>]) -> Status
    ensures { result ≡ status_by (position has_fault slots.now) (list_any has_want slots.now) }
{
    match first_faulty(slots) {
        Some(slot) => Status::SlotFault(slot as u64),
        None => match any_wanting(slots) {
            true => Status::Memory,
            false => Status::Ok,
        },
    }
}

fn has_fault<C, L>(slot: &WideSlot<C, L>) -> bool
    ensures { result ≡ has_fault slot.now }
{
    slot.works.iter().any(|w| w.fault)
}

fn has_want<C, L>(slot: &WideSlot<C, L>) -> bool
    ensures { result ≡ has_want slot.now }
{
    slot.works.iter().any(|w| w.memory)
}

fn first_faulty<C, L>(slots: &[WideSlot<C, L>]) -> Option<usize>
    ensures { result ≡ position has_fault slots.now }
{
    slots.iter().position(|s| has_fault(s))
}

fn any_wanting<C, L>(slots: &[WideSlot<C, L>]) -> bool
    ensures { result ≡ list_any has_want slots.now }
{
    slots.iter().any(|s| has_want(s))
}

/// Makes works empty.
fn clear_works(works: &mut [Work])
    ensures many { length works.new ≡ length works.old }
    ensures empty { All IsEmptyWork works.new }
{
    for v in 0..works.len() {
        works[v] = Work::new();
    }
}

/// Makes the works of the slots empty.
pub fn clear_all<C, L>(slots: &mut [WideSlot<C, L>])
    ensures { AreAllCleared slots.old slots.new }
{
    for i in 0..slots.len() {
        clear_works(&mut slots[i].works);
    }
}
