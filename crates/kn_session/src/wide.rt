//! A whole session over several revisions.
ghost use Rattle.std.specs.Prelude.{◌≡◌, ◌≤◌, ℕ, length, None, IfOk, OnErr};
ghost use Rattle.kn_event.specs.Lists.{EachIs};
ghost use Rattle.kn_request.specs.Wide.{at_pass, passes_in};
ghost use Rattle.kn_session.specs.Session.{MayBegin};
ghost use Rattle.kn_session.specs.Wide.{AreOneEach, AreFine, AreHistories, StayMany, AreServedWide, HasOfEach, KeepersServed};

use crate::laws::session_laws;
use crate::sided::Sided;
use crate::wide_close::close_cells;
use crate::wide_open::{OpenedAll, open_cells};
use crate::wide_run::run_all;
use crate::wide_setting::WideSetting;
use kn_cell::History;
use kn_core::Revision;
use kn_event::Memory;
use kn_io::{Caller, Clock, Gate, PodLink};
use kn_request::WideSlot;
use std::sync::Wait;
use std::thread::Threads;

/// Serves the rounds of each slot over 1 to 16 revisions with no live request, each with a cell of its own, and with one ticker of all
/// revisions beside the slots; each in a thread of its own where one can be made, and else in the caller's. A request is served by the
/// first revision that its head names.
///
/// Answers the history of each revision, in their order; or `Memory`, and then nothing was done at all. Whether a round of a slot
/// ended in a fault, or in want of memory, is in its work for the revision that the head named, or in its first where it named none.
pub fn serve_wide_session<
    C: Caller + Send,
    L: PodLink + Send,
    K: Clock + Sync,
    G: Gate + Sync,
    R: Threads + Wait + Sync,
>(
    rt: &R,
    setting: &WideSetting<K, G>,
    revisions: Vec<Revision>,
    slots: &mut [WideSlot<C, L>],
    keepers: &mut [L],
) -> Result<Vec<History>, Memory>
    requires few { length slots.old ≤ 64 }
    requires slots { EachIs (HasOfEach (length setting.now.specs.now)) slots.old }
    requires count { AreOneEach (length setting.now.specs.now) (length revisions.items) (length keepers.old) }
    requires plan { (setting.now.rounds ≤ 10000) × (setting.now.room ≤ 1000000) }
    requires revisions { EachIs MayBegin revisions.items }
    ensures histories { IfOk result (AreHistories (length slots.old) revisions.items) }
    ensures slots { IfOk result (AreServedWide ⟦<WideSlot<C, L> as Sided>⟧.at K.reading setting.now revisions.items slots) }
    ensures kept { IfOk result (λ hs. StayMany slots keepers) }
    ensures keepers { IfOk result (KeepersServed L.told L.Faulty.faults K.reading setting.now revisions.items keepers) }
    ensures fine { IfOk result (AreFine (length setting.now.specs.now) slots.new) }
    ensures empty { IfOk result (λ hs. EachIs (λ t. (v : ℕ) → at_pass (passes_in t.works.items) v ≡ None) slots.new) }
    ensures nothing { OnErr result ((slots.new ≡ slots.old) × (keepers.new ≡ keepers.old)) }
{
    session_laws();
    let count = slots.len() as u64;
    let opened = open_cells(setting.alloc, revisions, setting.room, count + 2)?;
    let OpenedAll {
        cells,
        firsts,
        ticks,
        lasts,
        histories,
    } = opened;
    let mut firsts = firsts;
    let mut ticks = ticks;
    let mut lasts = lasts;
    run_all(
        rt,
        setting,
        &cells,
        &mut firsts,
        &mut ticks,
        &mut lasts,
        slots,
        keepers,
    );
    Ok(close_cells(cells, firsts, ticks, histories))
}
