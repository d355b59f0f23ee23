//! Calls of a cell by one of its passes. All go through one function, which says no more than that the pass still has
//! its numbers, so that no other proof sees what was seen.
ghost use Rattle.std.specs.Prelude.{◌≡◌, true};
ghost use Rattle.kn_core.specs.Steps.{IsWithinRange};
ghost use Rattle.kn_cell.specs.History.{MayCome};
ghost use Rattle.kn_tests_cell.specs.Numbers.{IsStill};

use crate::answers::Answer;
use kn_cell::{Pass, RevisionCell, TryError};
use kn_event::{Act, Event, read_event};
use std::sync::Wait;

/// Milliseconds, more than a test may take: who isn't rung is late.
const LONG_MS: u64 = 20_000;

/// Milliseconds that a nap takes at least.
pub const NAP_MS: u64 = 100;

#[derive(Clone, Copy)]
pub enum Call {
    On(Event),
    Try(Event),
    /// `arrive`, where the event is an arrival.
    Arrive(Event),
    Look(u64),
    Course(u64),
    Proxied(u64),
    NextStarting(u64),
    NextToProbe(u64),
    Figures,
    Rest,
    /// It waits for a ring.
    Wait,
    /// It waits in vain.
    Nap,
}

/// The event that is spelled as in a journal; where it isn't one, that time passes.
pub fn event_of(line: &str) -> Event {
    match read_event(line.as_bytes(), 1) {
        Ok(event) => event,
        Err(_) => Event {
            time: 0,
            act: Act::Pass,
        },
    }
}

/// The number of a pass, and the call that it is to make.
pub fn call_of(words: &str) -> (usize, Call) {
    let (number, rest) = words.split_once(' ').unwrap_or((words, ""));
    let (how, what) = rest.split_once(' ').unwrap_or((rest, ""));
    let place = what.parse().unwrap_or(0);
    let call = match how {
        "on" => Call::On(event_of(what)),
        "try" => Call::Try(event_of(what)),
        "arrive" => Call::Arrive(event_of(what)),
        "look" => Call::Look(place),
        "course" => Call::Course(place),
        "proxied" => Call::Proxied(place),
        "starting" => Call::NextStarting(place),
        "probe" => Call::NextToProbe(place),
        "figures" => Call::Figures,
        "wait" => Call::Wait,
        "nap" => Call::Nap,
        _ => Call::Rest,
    };
    (number.parse().unwrap_or(0), call)
}

/// Whether the act may come to a cell, and to a revision.
pub fn may_come(act: &Act) -> bool
    ensures cell { result ≡ true → MayCome act.now }
    ensures revision { result ≡ true → IsWithinRange act.now }
{
    match *act {
        Act::Limit(_, limit) => limit <= 1000,
        Act::Lost(_) => false,
        _ => true,
    }
}

fn on<R: Wait>(rt: &R, cell: &RevisionCell, pass: &mut Pass, event: Event) -> Answer
    requires { pass.old.cell ≡ cell.now }
    ensures { IsStill pass.old pass.new }
{
    if !may_come(&event.act) {
        return Answer::Nothing;
    }
    match cell.on(rt, pass, event.act, event.time) {
        Ok(told) => Answer::Told(told),
        Err(full) => Answer::Full(full),
    }
}

fn try_on(cell: &RevisionCell, pass: &mut Pass, event: Event) -> Answer
    requires { pass.old.cell ≡ cell.now }
    ensures { IsStill pass.old pass.new }
{
    if !may_come(&event.act) {
        return Answer::Nothing;
    }
    match cell.try_on(pass, event.act, event.time) {
        Ok(told) => Answer::Told(told),
        Err(TryError::Busy) => Answer::Busy,
        Err(TryError::Full(full)) => Answer::Full(full),
    }
}

fn arrive<R: Wait>(rt: &R, cell: &RevisionCell, pass: &mut Pass, event: Event) -> Answer
    requires { pass.old.cell ≡ cell.now }
    ensures { IsStill pass.old pass.new }
{
    let Act::Arrive(tag) = event.act else {
        return Answer::Nothing;
    };
    match cell.arrive(rt, pass, tag, event.time) {
        Ok((told, course)) => Answer::Came(told, course),
        Err(full) => Answer::Full(full),
    }
}

fn counts<R: Wait>(rt: &R, cell: &RevisionCell, pass: &mut Pass) -> Answer
    requires { pass.old.cell ≡ cell.now }
    ensures { IsStill pass.old pass.new }
{
    let it = cell.figures(rt, pass);
    Answer::Counts([it.held, it.queued, it.running, it.recorded, it.unprinted])
}

/// Waits three times, since a wait may end for no reason.
fn nap<R: Wait>(rt: &R, cell: &RevisionCell, pass: &mut Pass) -> Answer
    requires { pass.old.cell ≡ cell.now }
    ensures { pass.new ≡ pass.old }
{
    for _ in 0..3 {
        cell.wait(rt, pass, NAP_MS);
    }
    Answer::Nothing
}

/// Makes the call.
pub fn make<R: Wait>(rt: &R, cell: &RevisionCell, pass: &mut Pass, call: Call) -> Answer
    requires { pass.old.cell ≡ cell.now }
    ensures { IsStill pass.old pass.new }
{
    match call {
        Call::On(event) => on(rt, cell, pass, event),
        Call::Try(event) => try_on(cell, pass, event),
        Call::Arrive(event) => arrive(rt, cell, pass, event),
        Call::Look(request) => Answer::Stand(cell.look(rt, pass, request)),
        Call::Course(request) => Answer::Course(cell.course(rt, pass, request)),
        Call::Proxied(request) => Answer::Is(cell.proxied(rt, pass, request)),
        Call::NextStarting(from) => Answer::Pod(cell.next_starting(rt, pass, from)),
        Call::NextToProbe(from) => Answer::Probe(cell.next_to_probe(rt, pass, from)),
        Call::Figures => counts(rt, cell, pass),
        Call::Rest => {
            cell.rest(rt, pass);
            Answer::Nothing
        }
        Call::Wait => {
            cell.wait(rt, pass, LONG_MS);
            Answer::Nothing
        }
        Call::Nap => nap(rt, cell, pass),
    }
}
