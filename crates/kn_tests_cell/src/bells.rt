//! Passes that wait for their requests, each on its own bell.
ghost use Rattle.std.specs.Prelude.{◌≡◌};
ghost use Rattle.kn_tests_cell.specs.Numbers.{IsStill};

use crate::answers::Answer;
use crate::calls::{Call, make};
use crate::crowd::bring;
use crate::notes::Notes;
use kn_cell::{Course, Pass, RevisionCell};
use kn_event::{Act, Event, Stand};
use std::sync::Wait;
use std::sync::atomic::Ordering;

/// How a thread waits for its one request.
#[derive(Clone, Copy)]
pub struct Waiting {
    /// By `arrive` and `course`; else by `on` and `look`.
    pub by_course: bool,
    /// So many others wait before a request that runs is finished.
    pub others: u64,
    /// And this happens before, which ends the others' waits.
    pub end: Option<Event>,
}

/// What a request does by an answer.
#[derive(Clone, Copy)]
enum Way {
    Waits,
    Runs,
    Over,
}

fn way_of(answer: &Answer) -> Way {
    match *answer {
        Answer::Stand(Stand::Held) => Way::Waits,
        Answer::Stand(Stand::Queued(_)) => Way::Waits,
        Answer::Stand(Stand::Running(_)) => Way::Runs,
        Answer::Course(Course::Waits) => Way::Waits,
        Answer::Course(Course::Runs(_)) => Way::Runs,
        Answer::Came(_, Course::Waits) => Way::Waits,
        Answer::Came(_, Course::Runs(_)) => Way::Runs,
        _ => Way::Over,
    }
}

/// Waits while the request waits, by this answer and then by those to the call. Says whether it runs then. Where there
/// are more waits than there can be, as where nobody is rung, it gives up.
fn await_run<R: Wait>(
    rt: &R,
    cell: &RevisionCell,
    pass: &mut Pass,
    first: Answer,
    ask: Call,
    most: u64,
    notes: &Notes,
) -> bool
    requires { pass.old.cell ≡ cell.now }
    ensures { IsStill pass.old pass.new }
{
    let mut answer = first;
    for _ in 0..1000 {
        match way_of(&answer) {
            Way::Runs => return true,
            Way::Over => return false,
            Way::Waits => {}
        }
        if notes.waits.fetch_add(1, Ordering::SeqCst) >= most {
            return false;
        }
        make(rt, cell, pass, Call::Wait);
        answer = make(rt, cell, pass, ask);
    }
    false
}

/// Waits until there were so many waits, but no longer than some 20 seconds.
fn await_waits<R: Wait>(rt: &R, cell: &RevisionCell, pass: &mut Pass, count: u64, notes: &Notes)
    requires { pass.old.cell ≡ cell.now }
    ensures { IsStill pass.old pass.new }
{
    for _ in 0..20_000 {
        if notes.waits.load(Ordering::SeqCst) >= count {
            return;
        }
        make(rt, cell, pass, Call::Rest);
    }
}

/// Makes 50 events that move no request that waits, so slowly that one whom each of them woke would wait again in
/// between.
fn make_noise<R: Wait>(rt: &R, cell: &RevisionCell, pass: &mut Pass)
    requires { pass.old.cell ≡ cell.now }
    ensures { IsStill pass.old pass.new }
{
    for _ in 0..25 {
        bring(rt, cell, pass, 0, Act::Pass);
        make(rt, cell, pass, Call::Rest);
        bring(rt, cell, pass, 0, Act::Limit(0, 1));
        make(rt, cell, pass, Call::Rest);
    }
}

/// Ends the waits of the others, where that is asked for, and then the request, which runs.
fn end<R: Wait>(rt: &R, cell: &RevisionCell, pass: &mut Pass, request: u64, end: Option<Event>)
    requires { pass.old.cell ≡ cell.now }
    ensures { IsStill pass.old pass.new }
{
    let time = match end {
        Some(event) => {
            make_noise(rt, cell, pass);
            bring(rt, cell, pass, event.time, event.act);
            event.time
        }
        None => 0,
    };
    bring(rt, cell, pass, time, Act::Finish(request, true));
}

/// A request arrives, and is ended once it runs.
pub fn queue<R: Wait>(
    rt: &R,
    cell: &RevisionCell,
    pass: &mut Pass,
    waiting: &Waiting,
    notes: &Notes,
)
    requires { pass.old.cell ≡ cell.now }
    ensures { IsStill pass.old pass.new }
{
    let event = Event {
        time: 0,
        act: Act::Arrive(0),
    };
    let came = if waiting.by_course {
        make(rt, cell, pass, Call::Arrive(event))
    } else {
        make(rt, cell, pass, Call::On(event))
    };
    let Some(request) = came.request() else {
        return;
    };
    let (first, ask) = if waiting.by_course {
        (came, Call::Course(request))
    } else {
        (
            make(rt, cell, pass, Call::Look(request)),
            Call::Look(request),
        )
    };
    let most = waiting.others.saturating_add(10);
    if await_run(rt, cell, pass, first, ask, most, notes) {
        await_waits(rt, cell, pass, waiting.others, notes);
        end(rt, cell, pass, request, waiting.end);
    }
}
