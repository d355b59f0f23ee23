//! The slots and the ticker over cells that were opened, from the first pass handed out to the last one taken back.
ghost use Rattle.std.specs.Prelude.{◌≡◌, ◌≤◌, ◌<◌, length};
ghost use Rattle.kn_event.specs.Lists.{EachIs};
ghost use Rattle.kn_request.specs.Wide.{ArePassesOf};
ghost use Rattle.kn_session.specs.Wide.{HasOfEach};
ghost use Rattle.kn_session.specs.WidePasses.{EachMayGive, HaveAllTicked, HaveRun};

use crate::sided::Sided;
use crate::wide_jobs::{WideShared, serve_all_beside};
use crate::wide_passes::{hand_all, take_all};
use crate::wide_setting::WideSetting;
use kn_cell::{Pass, RevisionCell};
use kn_io::{Caller, Clock, Gate, PodLink};
use kn_request::{Left, WideSlot};
use std::sync::Wait;
use std::thread::Threads;

/// Hands each slot a pass of each cell, serves all rounds, and takes the passes back in.
pub fn run_all<
    C: Caller + Send,
    L: PodLink + Send,
    K: Clock + Sync,
    G: Gate + Sync,
    R: Threads + Wait + Sync,
>(
    rt: &R,
    setting: &WideSetting<K, G>,
    cells: &[RevisionCell],
    firsts: &mut [Pass],
    ticks: &mut [Pass],
    lasts: &mut [u64],
    slots: &mut [WideSlot<C, L>],
    keepers: &mut [L],
)
    requires few { (length slots.old ≤ 64) × (setting.now.rounds ≤ 10000) }
    requires some { (0 < length setting.now.specs.now) × (length cells.now ≡ length setting.now.specs.now) }
    requires may { EachMayGive (length slots.old) cells.now firsts.old }
    requires slots { EachIs (HasOfEach (length setting.now.specs.now)) slots.old }
    requires ticks { ArePassesOf cells.now ticks.old }
    requires lasts { length lasts.old ≡ length cells.now }
    requires keepers { length keepers.old ≡ length cells.now }
    ensures ran { HaveRun ⟦<WideSlot<C, L> as Sided>⟧.at K.reading cells.now setting.now firsts slots }
    ensures ticks { HaveAllTicked L.told L.Faulty.faults K.reading setting.now ticks keepers }
    ensures firsts { ArePassesOf cells.now firsts.new }
{
    hand_all(cells, firsts, slots);
    let left = Left::new(slots.len() as u64);
    let shared = WideShared {
        cells,
        setting,
        left: &left,
    };
    serve_all_beside(rt, &shared, slots, keepers, ticks, lasts);
    take_all(cells, firsts, slots);
}
