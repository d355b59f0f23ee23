//! What threads bring, and one that takes rows out meanwhile.
ghost use Rattle.std.specs.Prelude.{◌≡◌, ◌≤◌, [], true, vec_capacity};
ghost use Rattle.kn_tests_cell.specs.Numbers.{IsStill};

use crate::answers::Answer;
use crate::calls::{Call, make};
use crate::notes::Notes;
use kn_cell::{Pass, Past, RevisionCell};
use kn_event::{Act, Event};
use std::alloc::Global;
use std::sync::Wait;
use std::sync::atomic::Ordering;

/// Brings an event once there is room for it, but tries no longer than some 5 seconds.
pub fn bring<R: Wait>(rt: &R, cell: &RevisionCell, pass: &mut Pass, time: u64, act: Act) -> Answer
    requires { pass.old.cell ≡ cell.now }
    ensures { IsStill pass.old pass.new }
{
    for _ in 0..5000 {
        match make(rt, cell, pass, Call::On(Event { time, act })) {
            Answer::Full(_) => {}
            answer => return answer,
        }
        make(rt, cell, pass, Call::Rest);
    }
    Answer::Nothing
}

/// So many requests arrive, and each is finished. Where one doesn't run at once, no more come.
pub fn serve<R: Wait>(rt: &R, cell: &RevisionCell, pass: &mut Pass, count: u64)
    requires { pass.old.cell ≡ cell.now }
    ensures { IsStill pass.old pass.new }
{
    for i in 0..count {
        let Some(request) = bring(rt, cell, pass, i, Act::Arrive(i)).request() else {
            return;
        };
        bring(rt, cell, pass, i, Act::Finish(request, true));
    }
}

/// The word picks an act; about as many requests arrive as end.
fn act_of(word: u64) -> Act {
    let request = word / 16 % 200;
    match word % 16 {
        0..=5 => Act::Arrive(word),
        6..=9 => Act::Finish(request, word % 32 < 16),
        10..=11 => Act::Cancel(request),
        12 => Act::Ready(word / 16 % 2),
        13 => Act::Limit(0, word / 16 % 5),
        14 => Act::Tick,
        _ => Act::Pass,
    }
}

/// 60 mixed acts.
pub fn mix<R: Wait>(rt: &R, cell: &RevisionCell, pass: &mut Pass, seed: u64)
    requires { pass.old.cell ≡ cell.now }
    ensures { IsStill pass.old pass.new }
{
    let mut word = seed;
    for i in 0..60 {
        word = word
            .wrapping_mul(6364136223846793005)
            .wrapping_add(1442695040888963407);
        bring(rt, cell, pass, 5 * i, act_of(word >> 33));
    }
}

/// Makes the call, again and again, until a thread was told that another has the turn.
pub fn meet<R: Wait>(rt: &R, cell: &RevisionCell, pass: &mut Pass, call: Call, notes: &Notes)
    requires { pass.old.cell ≡ cell.now }
    ensures { IsStill pass.old pass.new }
{
    for _ in 0..50_000_000 {
        if notes.busy.load(Ordering::SeqCst) {
            return;
        }
        if let Answer::Busy = make(rt, cell, pass, call) {
            notes.busy.store(true, Ordering::SeqCst);
        }
    }
}

/// Takes rows out until so many threads are done, some milliseconds one after the other.
fn take_all<R: Wait>(
    rt: &R,
    cell: &RevisionCell,
    pass: &mut Pass,
    rows: &mut Vec<Past>,
    threads: u64,
    notes: &Notes,
)
    requires cell { pass.old.cell ≡ cell.now }
    requires scribe { pass.old.scribe ≡ true }
    requires empty { rows.old.items ≡ [] }
    requires room { pass.old.room ≤ vec_capacity rows.old }
    ensures { IsStill pass.old pass.new }
{
    for _ in 0..20_000 {
        let over = notes.done.load(Ordering::SeqCst) >= threads;
        cell.take(rt, pass, rows);
        notes.taken.fetch_add(rows.len() as u64, Ordering::SeqCst);
        rows.clear();
        if over {
            return;
        }
        make(rt, cell, pass, Call::Rest);
    }
}

/// Takes rows out while so many threads work.
pub fn scribe<R: Wait>(
    rt: &R,
    alloc: Global,
    cell: &RevisionCell,
    pass: &mut Pass,
    room: u64,
    threads: u64,
    notes: &Notes,
)
    requires cell { pass.old.cell ≡ cell.now }
    requires scribe { pass.old.scribe ≡ true }
    requires room { pass.old.room ≤ room }
    ensures { IsStill pass.old pass.new }
{
    if let Ok(mut rows) = Vec::with_capacity(alloc, room as usize) {
        take_all(rt, cell, pass, &mut rows, threads, notes);
        drop(rows);
    }
}
