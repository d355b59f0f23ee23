//! The rounds of one slot, one after the other.
ghost use Rattle.std.specs.Prelude.{◌≡◌, ◌≤◌, ◌<◌, ◌+◌, ◌^◌, ◌||◌, Some};
ghost use Rattle.kn_session.specs.Passes.{HasPass};
ghost use Rattle.kn_session.specs.Rounds.{HasMade, HasServed, is_fault, is_memory};

use crate::pace::Pace;
use crate::shared::Common;
use crate::sided::Sided;
use kn_cell::{Pass, RevisionCell};
use kn_io::{Caller, Clock, Gate, PodLink};
use kn_request::{Served, Slot, serve_guest};
use std::sync::Wait;

pub fn is_fault(served: &Served) -> bool
    ensures { result ≡ is_fault served.now }
{
    match *served {
        Served::LinkFault => true,
        Served::CallerFault => true,
        _ => false,
    }
}

pub fn is_memory(served: &Served) -> bool
    ensures { result ≡ is_memory served.now }
{
    match *served {
        Served::Memory => true,
        _ => false,
    }
}

pub fn either(a: bool, b: bool) -> bool
    ensures { result ≡ (a || b) }
{
    a || b
}

/// Serves a slot with the pass for as long as its pace goes on, and says whether a round ended in a fault, and
/// whether one in want of memory.
fn serve_passes<R: Wait, C: Caller, L: PodLink, K: Clock, G: Gate, P: Pace<C>>(
    rt: &R,
    cell: &RevisionCell,
    common: &Common<K, G, P>,
    pass: &mut Pass,
    slot: &mut Slot<C, L>,
    first: u64,
) -> (bool, bool)
    requires cell { pass.old.cell ≡ cell.now }
    requires few { first + 10 ^ 12 < 2 ^ 64 }
    ensures rounds { HasMade ⟦<Slot<C, L> as Sided>⟧.at K.reading P.Watch.leaves P.begins P.ends
        common.now first pass slot result.0 result.1 }
    ensures cell { pass.new.cell ≡ pass.old.cell }
    ensures work { slot.new.work ≡ slot.old.work }
{
    let mut fault = false;
    let mut memory = false;
    let mut round = 0;
    while common.pace.goes_on(rt, &mut slot.caller, round) {
        let served = serve_guest(
            rt,
            common.alloc,
            cell,
            pass,
            common.spec,
            slot,
            first + round,
            common.clock,
            common.gate,
            common.pace,
        );
        common.pace.note(rt, &served);
        fault = either(is_fault(&served), fault);
        memory = either(is_memory(&served), memory);
        round += 1;
    }
    // Nobody is met any more, so the last client would wait for the end of its answer until all slots are done.
    slot.caller.part();
    (fault, memory)
}

/// Serves slot i with the pass that lies in its work.
pub fn serve_rounds<R: Wait, C: Caller, L: PodLink, K: Clock, G: Gate, P: Pace<C>>(
    rt: &R,
    cell: &RevisionCell,
    common: &Common<K, G, P>,
    slot: &mut Slot<C, L>,
    i: u64,
)
    requires pass { HasPass cell.now slot.old.work.pass }
    requires few { i < 1024 }
    requires apart { common.now.apart ≤ 10 ^ 12 }
    ensures { HasServed ⟦<Slot<C, L> as Sided>⟧.at K.reading P.Watch.leaves P.begins P.ends common.now i
        slot.old slot.new }
{
    match slot.work.pass.take() {
        None => {}
        Some(pass) => {
            let mut pass = pass;
            let first = i * common.apart;
            let (fault, memory) = serve_passes(rt, cell, common, &mut pass, slot, first);
            slot.work.pass = Some(pass);
            slot.work.fault = fault;
            slot.work.memory = memory;
        }
    }
}
