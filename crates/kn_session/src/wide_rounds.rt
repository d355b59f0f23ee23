//! The rounds of one slot that serves several revisions.
ghost use Rattle.std.specs.Prelude.{◌≡◌, ◌≤◌, ◌<◌, ◌||◌, length, IfSome};
ghost use Rattle.kn_request.specs.Wide.{faults_in, memories_in, passes_in};
ghost use Rattle.kn_session.specs.Rounds.{is_fault, is_memory};
ghost use Rattle.kn_session.specs.Wide.{faults_at, wants_at};
ghost use Rattle.kn_session.specs.WidePasses.{HasServedWide, IsNoted, IsReadySlot};

use crate::rounds::{either, is_fault, is_memory};
use crate::sided::Sided;
use crate::wide_setting::WideSetting;
use kn_cell::RevisionCell;
use kn_io::{Caller, Clock, Gate, PodLink};
use kn_request::{Ended, Served, WideSlot, Work, serve_wide};
use std::sync::Wait;

/// Keeps in the work whether a round ended so, beside what is noted there.
fn mark(work: &mut Work, served: &Served)
    ensures pass { work.new.pass ≡ work.old.pass }
    ensures fault { work.new.fault ≡ (is_fault served.now || work.old.fault) }
    ensures memory { work.new.memory ≡ (is_memory served.now || work.old.memory) }
{
    work.fault = either(is_fault(served), work.fault);
    work.memory = either(is_memory(served), work.memory);
}

/// Keeps how a round ended in the work of the revision that its head named, or in the first where it named none.
fn note(works: &mut [Work], ended: &Ended)
    requires some { 0 < length works.old }
    requires inside { IfSome ended.now.revision (λ v. v < length works.old) }
    ensures count { length works.new ≡ length works.old }
    ensures passes { passes_in works.new ≡ passes_in works.old }
    ensures faults { IsNoted faults_at faults_in ended.now works.old works.new }
    ensures wants { IsNoted wants_at memories_in ended.now works.old works.new }
{
    let v = match ended.revision {
        Some(v) => v,
        None => 0,
    };
    mark(&mut works[v], &ended.served);
}

/// Serves the rounds of slot i, each by the revision that its head names. Whether one ended in a fault or in want of memory is in
/// the works then.
pub fn serve_wide_rounds<R: Wait, C: Caller, L: PodLink, K: Clock, G: Gate>(
    rt: &R,
    cells: &[RevisionCell],
    setting: &WideSetting<K, G>,
    slot: &mut WideSlot<C, L>,
    i: u64,
)
    requires ready { IsReadySlot cells.now (length setting.now.specs.now) slot.old }
    requires few { i < 1024 }
    requires rounds { setting.now.rounds ≤ 10000 }
    ensures { HasServedWide ⟦<WideSlot<C, L> as Sided>⟧.at K.reading cells.now setting.now i slot.old slot.new }
{
    let first = i * setting.rounds;
    for j in 0..setting.rounds {
        let ended = serve_wide(
            rt,
            setting.alloc,
            cells,
            setting.specs,
            slot,
            first + j,
            setting.clock,
            setting.gate,
        );
        note(&mut slot.works, &ended);
    }
    // Nobody is met any more, so the last client would wait for the end of its answer until all slots are done.
    slot.caller.part();
}
