//! The attendants of a session beside its slots.
ghost use Rattle.std.specs.Prelude.{◌≡◌, ◌≤◌, ◌^◌, length};
ghost use Rattle.kn_event.specs.Lists.{EachIs};
ghost use Rattle.kn_session.specs.Attending.{HasAttended};
ghost use Rattle.kn_session.specs.Passes.{HasPass};
ghost use Rattle.kn_session.specs.Rounds.{HaveServed};
ghost use Rattle.kn_session.specs.Session.{HasTicked};

use crate::attendant::Attendant;
use crate::jobs::beside;
use crate::pace::Pace;
use crate::shared::Shared;
use crate::sided::Sided;
use kn_cell::{Pass, RevisionCell};
use kn_io::{Caller, Clock, Gate, PodLink};
use kn_request::{Left, Slot, ticker};
use std::sync::Wait;
use std::thread::{Threads, join_mut};

/// The scribe and the page beside each other. Where no thread can be made the scribe comes first, which ends the page.
fn attend_both<S: Attendant + Send, W: Attendant + Send, R: Threads + Wait + Sync>(
    rt: &R,
    cell: &RevisionCell,
    left: &Left,
    scribe: &mut S,
    first: &mut Pass,
    page: &mut W,
    pages: &mut Pass,
)
    requires first { (first.old.cell ≡ cell.now) × S.may scribe.old first.old }
    requires pages { (pages.old.cell ≡ cell.now) × W.may page.old pages.old }
    ensures scribe { HasAttended S.attends scribe first }
    ensures page { HasAttended W.attends page pages }
{
    let mut show = ||
        requires { (pages.now.cell ≡ cell.now) × W.may page.now pages.now }
        ensures { HasAttended W.attends page pages }
    { page.attend(rt, cell, pages, left) };
    let mut write = ||
        requires { (first.now.cell ≡ cell.now) × S.may scribe.now first.now }
        ensures { HasAttended S.attends scribe first }
    { scribe.attend(rt, cell, first, left) };
    join_mut(rt, &mut show, &mut write);
}

/// The ticker, and the attendants beside it, which come last where no thread can be made.
fn attend_all<
    L: PodLink + Send,
    K: Clock + Sync,
    G: Sync,
    P: Sync,
    S: Attendant + Send,
    W: Attendant + Send,
    R: Threads + Wait + Sync,
>(
    rt: &R,
    shared: &Shared<K, G, P>,
    keeper: &mut L,
    ticks: &mut Pass,
    scribe: &mut S,
    first: &mut Pass,
    page: &mut W,
    pages: &mut Pass,
)
    requires ticks { ticks.old.cell ≡ shared.now.cell.now }
    requires first { (first.old.cell ≡ shared.now.cell.now) × S.may scribe.old first.old }
    requires pages { (pages.old.cell ≡ shared.now.cell.now) × W.may page.old pages.old }
    ensures ticker { HasTicked L.told L.Faulty.faults K.reading shared.now.common.now ticks keeper }
    ensures scribe { HasAttended S.attends scribe first }
    ensures page { HasAttended W.attends page pages }
{
    let mut attend = ||
        requires first { (first.now.cell ≡ shared.now.cell.now) × S.may scribe.now first.now }
        requires pages { (pages.now.cell ≡ shared.now.cell.now) × W.may page.now pages.now }
        ensures scribe { HasAttended S.attends scribe first }
        ensures page { HasAttended W.attends page pages }
    { attend_both(rt, shared.cell, shared.left, scribe, first, page, pages) };
    let mut tick = ||
        requires { ticks.now.cell ≡ shared.now.cell.now }
        ensures { HasTicked L.told L.Faulty.faults K.reading shared.entry.now.common.now ticks keeper }
    {
        let common = shared.common;
        ticker(
            rt,
            shared.cell,
            ticks,
            keeper,
            common.clock,
            shared.left,
            common.start,
        );
    };
    join_mut(rt, &mut attend, &mut tick);
}

/// The slots, and beside them the ticker and the attendants, which come last where no thread can be made.
pub fn serve_beside<
    C: Caller + Send,
    L: PodLink + Send,
    K: Clock + Sync,
    G: Gate + Sync,
    P: Pace<C> + Sync,
    S: Attendant + Send,
    W: Attendant + Send,
    R: Threads + Wait + Sync,
>(
    rt: &R,
    shared: &Shared<K, G, P>,
    slots: &mut [Slot<C, L>],
    keeper: &mut L,
    ticks: &mut Pass,
    scribe: &mut S,
    first: &mut Pass,
    page: &mut W,
    pages: &mut Pass,
)
    requires few { length slots.old ≤ 1024 }
    requires passes { EachIs (λ s. HasPass shared.now.cell.now s.work.pass) slots.old }
    requires apart { shared.now.common.now.apart ≤ 10 ^ 12 }
    requires ticks { ticks.old.cell ≡ shared.now.cell.now }
    requires first { (first.old.cell ≡ shared.now.cell.now) × S.may scribe.old first.old }
    requires pages { (pages.old.cell ≡ shared.now.cell.now) × W.may page.old pages.old }
    ensures slots { HaveServed ⟦<Slot<C, L> as Sided>⟧.at K.reading P.Watch.leaves P.begins P.ends
        shared.now.common.now slots }
    ensures ticker { HasTicked L.told L.Faulty.faults K.reading shared.now.common.now ticks keeper }
    ensures scribe { HasAttended S.attends scribe first }
    ensures page { HasAttended W.attends page pages }
{
    let mut others = ||
        requires ticks { ticks.now.cell ≡ shared.now.cell.now }
        requires first { (first.now.cell ≡ shared.now.cell.now) × S.may scribe.now first.now }
        requires pages { (pages.now.cell ≡ shared.now.cell.now) × W.may page.now pages.now }
        ensures ticker { HasTicked L.told L.Faulty.faults K.reading shared.entry.now.common.now ticks keeper }
        ensures scribe { HasAttended S.attends scribe first }
        ensures page { HasAttended W.attends page pages }
    { attend_all(rt, shared, keeper, ticks, scribe, first, page, pages) };
    beside(rt, shared, slots, &mut others);
}
