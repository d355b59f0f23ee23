//! A whole session over one revision.
ghost use Rattle.std.specs.Prelude.{◌≡◌, ◌≤◌, length, None, IfOk, OnErr};
ghost use Rattle.kn_event.specs.Lists.{EachIs};
ghost use Rattle.kn_cell.specs.Lists.{Each};
ghost use Rattle.kn_session.specs.Passes.{IsUnmarked};
ghost use Rattle.kn_session.specs.Session.{AreServed, IsAfter, IsFine, IsOneHistory, KeeperServed, MayBegin};

use crate::attendant::NoAttendant;
use crate::laws::session_laws;
use crate::over::serve_over;
use crate::pace::Rounds;
use crate::setting::Setting;
use crate::shared::Common;
use crate::sided::Sided;
use kn_cell::{History, RevisionCell};
use kn_core::Revision;
use kn_event::Memory;
use kn_io::{Caller, Clock, Gate, PodLink};
use kn_request::Slot;
use std::sync::Wait;
use std::thread::Threads;

/// Serves the rounds of each slot over a revision with no live request, with the ticker beside the slots, each in a thread of
/// its own where one can be made, and else in the caller's. The tag of round j of slot i is i * rounds + j.
///
/// Answers the revision as it is then, and the one history of all that was done to it; or `Memory`, and then nothing was
/// done at all. Whether a round of a slot ended in a fault, or in want of memory, is in its work.
pub fn serve_session<
    C: Caller + Send,
    L: PodLink + Send,
    K: Clock + Sync,
    G: Gate + Sync,
    R: Threads + Wait + Sync,
>(
    rt: &R,
    setting: &Setting<K, G>,
    revision: Revision,
    slots: &mut [Slot<C, L>],
    keeper: &mut L,
) -> Result<(Revision, History), Memory>
    requires slots { length slots.old ≤ 64 }
    requires plan { (setting.now.rounds ≤ 10000) × (setting.now.room ≤ 1000000) }
    requires revision { MayBegin revision }
    ensures history { IfOk result (λ r. IsOneHistory (length slots.old) revision r.1) }
    ensures after { IfOk result (λ r. IsAfter revision r.1 r.0) }
    ensures slots { IfOk result (λ r. AreServed ⟦<Slot<C, L> as Sided>⟧.at K.reading setting.now revision r.1 slots) }
    ensures keeper { IfOk result (λ r. KeeperServed L.told L.Faulty.faults K.reading setting.now revision r.1 keeper) }
    ensures fine { IfOk result (λ r. EachIs (λ t. IsUnmarked t.work) slots.new → Each IsFine r.1) }
    ensures empty { IfOk result (λ r. EachIs (λ t. t.work.pass ≡ None) slots.new) }
    ensures nothing { OnErr result ((slots.new ≡ slots.old) × (keeper.new ≡ keeper.old)) }
{
    session_laws();
    let passes = slots.len() as u64 + 3;
    let (cell, first) = RevisionCell::new(setting.alloc, revision, setting.room, passes)?;
    let pace = Rounds {
        count: setting.rounds as u32,
    };
    let common = Common {
        alloc: setting.alloc,
        spec: setting.spec,
        clock: setting.clock,
        gate: setting.gate,
        start: setting.start,
        pace: &pace,
        apart: setting.rounds,
    };
    Ok(serve_over(
        rt,
        &common,
        cell,
        first,
        slots,
        keeper,
        &mut NoAttendant,
        &mut NoAttendant,
    ))
}
