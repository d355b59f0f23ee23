//! A request waits, until it runs or has ended.
ghost use Rattle.std.specs.Prelude.{◌≡◌, ◌⊎◌, ◌≤◌, IfSome, IfNone};
ghost use Rattle.kn_event.specs.declared.event.Stand.TheVariants as stand;
ghost use Rattle.kn_cell.specs.Shown.{Looks};
ghost use Rattle.kn_request.specs.Sight.{HasCourse, RunsAt, StandsAt, IsKnown, IsLeft, IsAlone, IsOwn};
ghost use Rattle.kn_request.specs.Terms.{unwatched};
ghost use Rattle.kn_request.specs.Requests.{Cancels};
ghost use Rattle.kn_request.specs.Served.{IsFound, IsWaitingNoMore};
ghost use Rattle.kn_request.specs.Calls.{watched_by};

use crate::laws::server_laws;
use kn_cell::{Course, Pass, RevisionCell, Run};
use kn_door::Watch;
use kn_event::Act;
use kn_io::{Caller, Clock};
use std::sync::Wait;

#[derive(Clone, Copy, Drop)]
pub enum Waited {
    /// It runs there.
    Runs(Run),
    Ended,
    /// It waited when it was looked at last. This is the time of then, and it was due or its client had left.
    GivenUp(u64),
}

/// Waits while the request waits, until the clock has come to the time or its client has left. It was found waiting. The watch is
/// asked each time before it sleeps, and says how long that may be: a clock that was set costs no more than this.
fn wait_while<R: Wait, C: Caller, W: Watch<C>, K: Clock>(
    rt: &R,
    cell: &RevisionCell,
    pass: &mut Pass,
    r: u64,
    due: u64,
    caller: &mut C,
    watch: &W,
    clock: &K,
) -> Waited
    requires cell { pass.old.cell ≡ cell.now }
    requires known { IsKnown pass.old r }
    ensures looks { (pass.new ≡ pass.old) ⊎ Looks pass.old pass.new }
    ensures mine { pass.new.mine ≡ pass.old.mine }
    ensures found { IsFound (watched_by K.reading W.leaves C.Faulty clock caller) due pass.new r result }
    ensures kept { C.Sink.kept caller.new ≡ C.Sink.kept caller.old }
    ensures held { C.Sink.held caller.new ≡ C.Sink.held caller.old }
    ensures never_falls { C.Faulty.faults caller.old ≤ C.Faulty.faults caller.new }
{
    server_laws();
    for _ in rt.forever() {
        let now = clock.now_ms();
        if now >= due || watch.has_left(caller) {
            return Waited::GivenUp(now);
        }
        cell.wait(rt, pass, (due - now).min(watch.often_ms()));
        match cell.course(rt, pass, r) {
            Course::Waits => {}
            Course::Runs(run) => return Waited::Runs(run),
            Course::Over => return Waited::Ended,
        }
    }
    unreachable!()
}

/// Waits until the request runs, and says where; or until it has ended. When its time is over or its client has left it is
/// cancelled.
fn wait_out<R: Wait, C: Caller, W: Watch<C>, K: Clock>(
    rt: &R,
    cell: &RevisionCell,
    pass: &mut Pass,
    r: u64,
    due: u64,
    caller: &mut C,
    watch: &W,
    clock: &K,
) -> Option<Run>
    requires cell { pass.old.cell ≡ cell.now }
    requires own { IsOwn pass.old }
    requires known { IsKnown pass.old r }
    ensures looks { (pass.new ≡ pass.old) ⊎ Looks pass.old pass.new }
    ensures cancels { Cancels (watched_by K.reading W.leaves C.Faulty clock caller) due r pass.old pass.new }
    ensures runs { IfSome result (λ x. RunsAt pass.new r x) }
    ensures ended { IfNone result (StandsAt pass.new r stand.Ended) }
    ensures left { IsLeft pass.old r → IsAlone pass.new r → IsLeft pass.new r }
    ensures kept { C.Sink.kept caller.new ≡ C.Sink.kept caller.old }
    ensures held { C.Sink.held caller.new ≡ C.Sink.held caller.old }
    ensures never_falls { C.Faulty.faults caller.old ≤ C.Faulty.faults caller.new }
{
    server_laws();
    match wait_while(rt, cell, pass, r, due, caller, watch, clock) {
        Waited::Runs(run) => Some(run),
        Waited::Ended => None,
        Waited::GivenUp(now) => {
            cancel(rt, cell, pass, r, now);
            look_once(rt, cell, pass, r)
        }
    }
}

/// Where the request runs, whose course is this: at once, or once it has waited. None where it has ended.
pub fn leave_queue<R: Wait, C: Caller, W: Watch<C>, K: Clock>(
    rt: &R,
    cell: &RevisionCell,
    pass: &mut Pass,
    r: u64,
    course: Course,
    due: u64,
    caller: &mut C,
    watch: &W,
    clock: &K,
) -> Option<Run>
    requires cell { pass.old.cell ≡ cell.now }
    requires own { IsOwn pass.old }
    requires known { IsKnown pass.old r }
    requires course { HasCourse pass.old r course }
    ensures looks { (pass.new ≡ pass.old) ⊎ Looks pass.old pass.new }
    ensures cancels { Cancels (watched_by K.reading W.leaves C.Faulty clock caller) due r pass.old pass.new }
    ensures runs { IfSome result (λ x. RunsAt pass.new r x) }
    ensures ended { IfNone result (StandsAt pass.new r stand.Ended) }
    ensures left { IsLeft pass.old r → IsAlone pass.new r → IsLeft pass.new r }
    ensures kept { C.Sink.kept caller.new ≡ C.Sink.kept caller.old }
    ensures held { C.Sink.held caller.new ≡ C.Sink.held caller.old }
    ensures never_falls { C.Faulty.faults caller.old ≤ C.Faulty.faults caller.new }
{
    match course {
        Course::Waits => wait_out(rt, cell, pass, r, due, caller, watch, clock),
        Course::Runs(run) => Some(run),
        Course::Over => None,
    }
}

/// Where a request that waits no more runs, if it runs.
fn look_once<R: Wait>(rt: &R, cell: &RevisionCell, pass: &mut Pass, r: u64) -> Option<Run>
    requires cell { pass.old.cell ≡ cell.now }
    requires known { IsKnown pass.old r }
    requires left { IsWaitingNoMore pass.old r }
    ensures looks { Looks pass.old pass.new }
    ensures mine { pass.new.mine ≡ pass.old.mine }
    ensures runs { IfSome result (λ x. RunsAt pass.new r x) }
    ensures ended { IfNone result (StandsAt pass.new r stand.Ended) }
{
    server_laws();
    match cell.course(rt, pass, r) {
        Course::Waits => None,
        Course::Runs(run) => Some(run),
        Course::Over => None,
    }
}

/// Cancels the request at this time. Then it waits no more, whatever was answered.
fn cancel<R: Wait>(rt: &R, cell: &RevisionCell, pass: &mut Pass, r: u64, now: u64)
    requires cell { pass.old.cell ≡ cell.now }
    ensures looks { Looks pass.old pass.new }
    ensures cancels { Cancels (unwatched (λ t. t ≡ now)) now r pass.old pass.new }
    ensures left { IsWaitingNoMore pass.new r }
{
    server_laws();
    match cell.on(rt, pass, Act::Cancel(r), now) {
        Ok(_) => {}
        Err(_) => {}
    }
}
