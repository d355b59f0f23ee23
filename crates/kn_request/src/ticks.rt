//! The ticker.
ghost use Rattle.std.specs.Prelude.{◌≡◌, ◌⊎◌, ◌≤◌, ◌<◌, ◌+◌, ◌||◌, ℕ, MatchBool};
ghost use Rattle.kn_event.specs.declared.event.Act.TheVariants as act;
ghost use Rattle.kn_cell.specs.Shown.{Looks};
ghost use Rattle.kn_request.specs.Ticking.{ProbesAll, ProbesNext, TakesTurn, Ticks, TicksApart, TicksOnce, Turns};

use crate::laws::server_laws;
use kn_cell::{Pass, RevisionCell};
use kn_event::Act;
use kn_io::{Clock, PodLink};
use std::sync::Wait;
use std::sync::atomic::{AtomicU64, Ordering};

/// How many slots are at work.
#[derive(Drop)]
pub struct Left {
    slots: AtomicU64,
}

impl Left {
    /// So many.
    pub fn new(n: u64) -> Left {
        Left {
            slots: AtomicU64::new(n),
        }
    }

    /// One is done.
    pub fn done(&self) {
        self.slots.fetch_sub(1, Ordering::SeqCst);
    }

    /// Whether none is.
    pub fn is_zero(&self) -> bool {
        self.count() == 0
    }

    /// How many are at work. It promises nothing.
    pub fn count(&self) -> u64 {
        self.slots.load(Ordering::SeqCst)
    }
}

/// What a turn came to.
#[derive(Clone, Copy, Drop)]
pub struct Turn {
    /// The time of the last tick that was due.
    pub last: u64,
    /// Whether there was no room for a row.
    pub full: bool,
}

/// Records an act of the ticker at this time. Says whether there was no room.
fn act_once<R: Wait>(rt: &R, cell: &RevisionCell, pass: &mut Pass, what: Act, now: u64) -> bool
    requires cell { pass.old.cell ≡ cell.now }
    requires what { (what ≡ act.Tick) ⊎ ((p : ℕ) × (what ≡ act.Ready p)) }
    ensures looks { Looks pass.old pass.new }
    ensures once { TicksOnce now what result pass.old pass.new }
{
    server_laws();
    match cell.on(rt, pass, what, now) {
        Ok(_) => false,
        Err(_) => true,
    }
}

/// What was found of the next Starting pod that has an address: none, or its number, and whether there was no room for its Ready.
#[derive(Clone, Copy, Drop)]
pub enum Probed {
    Done,
    One(u64, bool),
}

/// Probes the least Starting pod that is not below this number and has an address, at its address.
fn probe_next<R: Wait, L: PodLink>(
    rt: &R,
    cell: &RevisionCell,
    pass: &mut Pass,
    keeper: &mut L,
    now: u64,
    from: u64,
) -> Probed
    requires cell { pass.old.cell ≡ cell.now }
    ensures looks { Looks pass.old pass.new }
    ensures next { ProbesNext now from pass.old pass.new (L.told keeper.old) (L.told keeper.new) result }
    ensures never_falls { L.Faulty.faults keeper.old ≤ L.Faulty.faults keeper.new }
{
    match cell.next_to_probe(rt, pass, from) {
        None => Probed::Done,
        Some((pod, address)) => {
            let answer = keeper.probe(address);
            match answer {
                Err(_) => Probed::One(pod, false),
                Ok(ready) => match ready {
                    false => Probed::One(pod, false),
                    true => {
                        let full = act_once(rt, cell, pass, Act::Ready(pod), now);
                        Probed::One(pod, full)
                    }
                },
            }
        }
    }
}

fn either(a: bool, b: bool) -> bool
    ensures { result ≡ (a || b) }
{
    a || b
}

/// Probes all Starting pods that have an address, in order, and says whether there was no room for a Ready.
fn probe_all<R: Wait, L: PodLink>(
    rt: &R,
    cell: &RevisionCell,
    pass: &mut Pass,
    keeper: &mut L,
    now: u64,
) -> bool
    requires cell { pass.old.cell ≡ cell.now }
    ensures looks { Looks pass.old pass.new }
    ensures all { ProbesAll now result pass.old pass.new (L.told keeper.old) (L.told keeper.new) }
    ensures never_falls { L.Faulty.faults keeper.old ≤ L.Faulty.faults keeper.new }
{
    server_laws();
    let mut from = 0;
    let mut full = false;
    for _ in rt.forever() {
        match probe_next(rt, cell, pass, keeper, now, from) {
            Probed::Done => return full,
            Probed::One(pod, none) => {
                full = either(none, full);
                from = pod + 1;
            }
        }
    }
    unreachable!()
}

/// Whether now is at least 2,000 above the last one. No sum is made, since a reading may be near 2^64.
fn is_due(now: u64, last: u64) -> bool
    ensures { MatchBool result (last + 2000 ≤ now) (now < last + 2000) }
{
    if now < 2000 {
        return false;
    }
    now - 2000 >= last
}

/// Records a Tick where one is due: where now is at least 2,000 above the last one.
fn tick_once<R: Wait>(rt: &R, cell: &RevisionCell, pass: &mut Pass, now: u64, last: u64) -> Turn
    requires cell { pass.old.cell ≡ cell.now }
    ensures tick { Ticks now last pass.old pass.new result }
{
    match is_due(now, last) {
        true => {
            let full = act_once(rt, cell, pass, Act::Tick, now);
            Turn { last: now, full }
        }
        false => Turn { last, full: false },
    }
}

/// One turn: a Tick where one is due, then the probes of the Starting pods, each at its address. A pod that waits for an
/// address isn't probed. Where the cell has no book of addresses, a pod's number is its address.
pub fn tick_turn<R: Wait, L: PodLink>(
    rt: &R,
    cell: &RevisionCell,
    pass: &mut Pass,
    keeper: &mut L,
    now: u64,
    last: u64,
) -> Turn
    requires cell { pass.old.cell ≡ cell.now }
    ensures turn { TakesTurn now last pass.old pass.new (L.told keeper.old) (L.told keeper.new) result }
    ensures never_falls { L.Faulty.faults keeper.old ≤ L.Faulty.faults keeper.new }
{
    server_laws();
    let tick = tick_once(rt, cell, pass, now, last);
    let full = probe_all(rt, cell, pass, keeper, now);
    let full = either(tick.full, full);
    Turn {
        last: tick.last,
        full,
    }
}

/// Takes a turn at once, and further turns until no slot is at work. Its Ticks are 2,000 milliseconds apart.
pub fn ticker<R: Wait, L: PodLink, K: Clock>(
    rt: &R,
    cell: &RevisionCell,
    pass: &mut Pass,
    keeper: &mut L,
    clock: &K,
    left: &Left,
    start: u64,
)
    requires cell { pass.old.cell ≡ cell.now }
    ensures turns { Turns (K.reading clock.now) start pass.old pass.new (L.told keeper.old) (L.told keeper.new) }
    ensures apart { TicksApart (K.reading clock.now) start pass.old pass.new }
    ensures never_falls { L.Faulty.faults keeper.old ≤ L.Faulty.faults keeper.new }
{
    let now = clock.now_ms();
    let turn = tick_turn(rt, cell, pass, keeper, now, start);
    let mut last = turn.last;
    for _ in rt.forever() {
        if left.is_zero() {
            return;
        }
        clock.nap();
        let now = clock.now_ms();
        let turn = tick_turn(rt, cell, pass, keeper, now, last);
        last = turn.last;
    }
    unreachable!()
}
