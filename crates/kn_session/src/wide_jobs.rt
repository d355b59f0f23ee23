//! The slots over several revisions beside each other in threads, and the ticker of all revisions beside them.
ghost use Rattle.std.specs.Prelude.{◌≡◌, ◌≤◌, length};
ghost use Rattle.kn_event.specs.Lists.{EachIs};
ghost use Rattle.kn_request.specs.Wide.{ArePassesOf};
ghost use Rattle.kn_session.specs.WidePasses.{HasServedWide, HaveAllTicked, HaveServedWide, IsReadySlot};

use crate::jobs::{Job, beside};
use crate::sided::Sided;
use crate::wide_rounds::serve_wide_rounds;
use crate::wide_setting::WideSetting;
use kn_cell::{Pass, RevisionCell};
use kn_io::{Caller, Clock, Gate, PodLink};
use kn_request::{Left, WideSlot, tick_all};
use std::sync::Wait;
use std::thread::Threads;

/// What all slots and the ticker share.
#[derive(Drop)]
pub struct WideShared<'a, K, G> {
    pub cells: &'a [RevisionCell],
    pub setting: &'a WideSetting<'a, K, G>,
    pub left: &'a Left,
}

impl<'a, C: Caller, L: PodLink, K: Clock, G: Gate> Job<WideShared<'a, K, G>> for WideSlot<C, L> {
    ghost ready = { λ x s. IsReadySlot x.cells.now (length x.setting.now.specs.now) s × (x.setting.now.rounds ≤ 10000) };

    ghost done = { λ x i s t. HasServedWide ⟦<WideSlot<C, L> as Sided>⟧.at K.reading x.cells.now x.setting.now i s t };

    fn work<R: Wait>(&mut self, rt: &R, shared: &WideShared<'a, K, G>, i: u64) {
        serve_wide_rounds(rt, shared.cells, shared.setting, self, i);
        shared.left.done();
    }
}

/// The slots, with the ticker of all revisions beside them, which has a pass of each cell and the time of its last tick.
pub fn serve_all_beside<
    C: Caller + Send,
    L: PodLink + Send,
    K: Clock + Sync,
    G: Gate + Sync,
    R: Threads + Wait + Sync,
>(
    rt: &R,
    shared: &WideShared<K, G>,
    slots: &mut [WideSlot<C, L>],
    keepers: &mut [L],
    ticks: &mut [Pass],
    lasts: &mut [u64],
)
    requires few { length slots.old ≤ 64 }
    requires rounds { shared.now.setting.now.rounds ≤ 10000 }
    requires slots { EachIs (IsReadySlot shared.now.cells.now (length shared.now.setting.now.specs.now)) slots.old }
    requires ticks { ArePassesOf shared.now.cells.now ticks.old }
    requires lasts { length lasts.old ≡ length shared.now.cells.now }
    requires keepers { length keepers.old ≡ length shared.now.cells.now }
    ensures slots { HaveServedWide ⟦<WideSlot<C, L> as Sided>⟧.at K.reading shared.now slots }
    ensures ticks { HaveAllTicked L.told L.Faulty.faults K.reading shared.now.setting.now ticks keepers }
{
    let mut turns = ||
        requires passes { ArePassesOf shared.now.cells.now ticks.now }
        requires lasts { length lasts.now ≡ length shared.now.cells.now }
        requires keepers { length keepers.now ≡ length shared.now.cells.now }
        ensures { HaveAllTicked L.told L.Faulty.faults K.reading shared.entry.now.setting.now ticks keepers }
    {
        let setting = shared.setting;
        tick_all(
            rt,
            shared.cells,
            ticks,
            lasts,
            keepers,
            setting.clock,
            shared.left,
            setting.start,
        );
    };
    beside(rt, shared, slots, &mut turns);
}
