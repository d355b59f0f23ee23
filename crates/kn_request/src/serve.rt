//! One request, from its arrival to what is to be answered.
ghost use Rattle.std.specs.Prelude.{◌≡◌, ◌≢◌, ◌⊎◌, ◌≤◌, ◌^◌, Bool, length, None, MatchResult};
ghost use Rattle.kn_sizes.specs.Told.{arrival_told};
ghost use Rattle.kn_cell.specs.Shown.{Looks};
ghost use Rattle.kn_head.specs.Forwarding.{forwarded};
ghost use Rattle.kn_request.specs.Sight.{HasCourse, IsKnown, IsOwn};
ghost use Rattle.kn_request.specs.Served.{IsTakenIn, IsTurnedAway, MeantCause};
ghost use Rattle.kn_request.specs.Calls.{ServesArrival, TakesCourse};

use crate::laws::server_laws;
use crate::meant::Meant;
use crate::run::run_at;
use crate::wait::leave_queue;
use kn_cell::{Course, Pass, RevisionCell};
use kn_door::Watch;
use kn_event::Told;
use kn_head::{Forward, Head};
use kn_io::{Caller, Clock, Gate, LinkError, PodLink};
use std::alloc::Global;
use std::sync::Wait;

/// A request that was taken in waits, runs and is finished, or waits in vain.
fn serve_request<R: Wait, C: Caller, W: Watch<C>, L: PodLink, K: Clock>(
    rt: &R,
    alloc: Global,
    cell: &RevisionCell,
    pass: &mut Pass,
    r: u64,
    course: Course,
    due: u64,
    caller: &mut C,
    watch: &W,
    link: &mut L,
    head: &Head,
    room: Forward,
    clock: &K,
) -> Meant
    requires cell { pass.old.cell ≡ cell.now }
    requires own { IsOwn pass.old }
    requires known { IsKnown pass.old r }
    requires course { HasCourse pass.old r course }
    requires room { (proxied : Bool) → length (forwarded head.now proxied) ≤ room }
    ensures looks { (pass.new ≡ pass.old) ⊎ Looks pass.old pass.new }
    ensures course { TakesCourse K.reading W.leaves C.Faulty L.told clock due head r pass caller link result }
    ensures cause { MeantCause (L.Faulty.faults link.old) (L.Faulty.faults link.new) result }
    ensures kept { C.Sink.kept caller.new ≡ C.Sink.kept caller.old }
    ensures held { C.Sink.held caller.new ≡ C.Sink.held caller.old }
    ensures never_falls { C.Faulty.faults caller.old ≤ C.Faulty.faults caller.new }
{
    match leave_queue(rt, cell, pass, r, course, due, caller, watch, clock) {
        None => Meant::Expired,
        Some(run) => match run_at(rt, alloc, cell, pass, r, run, link, head, room, clock) {
            Ok(text) => Meant::Reply(text),
            Err(error) => match error {
                LinkError::Failed => Meant::LinkFault,
                LinkError::Memory => Meant::Memory,
            },
        },
    }
}

/// The request that an arrival was told, where it was taken in, or what is meant where it was not.
fn taken_in(told: Told) -> Result<u64, Meant>
    requires { arrival_told told ≢ None }
    ensures { MatchResult result (λ r. IsTakenIn told r) (λ m. IsTurnedAway told m) }
{
    match told {
        Told::Run(r, _) => Ok(r),
        Told::AtPod(r, _) => Ok(r),
        Told::Held(r) => Ok(r),
        Told::QueueFull(_) => Err(Meant::QueueFull),
        Told::Overload(_) => Err(Meant::Overload),
        _ => unreachable!(),
    }
}

/// Records the arrival of a request, and serves it. There is room for it as it may be sent on.
pub fn serve_event<R: Wait, C: Caller, W: Watch<C>, L: PodLink, K: Clock, G: Gate>(
    rt: &R,
    alloc: Global,
    cell: &RevisionCell,
    pass: &mut Pass,
    timeout: u64,
    caller: &mut C,
    watch: &W,
    link: &mut L,
    head: &Head,
    room: Forward,
    tag: u64,
    clock: &K,
    gate: &G,
) -> Meant
    requires cell { pass.old.cell ≡ cell.now }
    requires timeout { timeout ≤ 2 ^ 42 }
    requires room { (proxied : Bool) → length (forwarded head.now proxied) ≤ room }
    ensures looks { Looks pass.old pass.new }
    ensures served { ServesArrival K.reading W.leaves C.Faulty L.told clock timeout tag head pass caller link result }
    ensures cause { MeantCause (L.Faulty.faults link.old) (L.Faulty.faults link.new) result }
    ensures kept { C.Sink.kept caller.new ≡ C.Sink.kept caller.old }
    ensures held { C.Sink.held caller.new ≡ C.Sink.held caller.old }
    ensures never_falls { C.Faulty.faults caller.old ≤ C.Faulty.faults caller.new }
{
    server_laws();
    let at = clock.now_ms();
    let arrived = cell.arrive(rt, pass, tag, at);
    gate.pass(tag);
    let due = at.min(1 << 42) + timeout;
    match arrived {
        Err(full) => Meant::Full(full),
        Ok(arrival) => match taken_in(arrival.0) {
            Err(meant) => meant,
            Ok(r) => serve_request(
                rt, alloc, cell, pass, r, arrival.1, due, caller, watch, link, head, room, clock,
            ),
        },
    }
}
