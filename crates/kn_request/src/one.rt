//! One request: a connection is met, its head is read, and it is answered.
ghost use Rattle.std.specs.Prelude.{◌≡◌, ◌≢◌, ◌≤◌, ◌⊎◌, ◌^◌, [], None, MatchBool};
ghost use Rattle.kn_cell.specs.Shown.{Looks};
ghost use Rattle.kn_head.specs.Answers.{answer_for};
ghost use Rattle.kn_request.specs.Answers.{IsFor};
ghost use Rattle.kn_request.specs.One.{served_by, Writes, Refuses, IsUnread, CallerCause};
ghost use Rattle.kn_request.specs.Calls.{AnswersMeant, AttendsTo, FailsByCause, ServesHead, ServesSlot, ServesUnwatched, said_by};

use crate::meant::Meant;
use crate::serve::serve_event;
use crate::slot::{Served, Slot};
use kn_cell::{Pass, RevisionCell};
use kn_door::{NoWatch, Watch};
use kn_event::Spec;
use kn_head::{Answer, Forward, Head, HeadError, read_head};
use kn_io::{Caller, Clock, Gate, PodLink, caller_laws, put_all};
use std::alloc::Global;
use std::sync::Wait;

/// Writes the bytes, and answers so; or answers that the caller failed.
fn put<C: Caller>(caller: &mut C, bytes: &[u8], served: Served) -> Served
    ensures writes { Writes (said_by C.Sink.own caller.old) (said_by C.Sink.own caller.new) result served bytes.now }
    ensures cause { CallerCause (C.Faulty.faults caller.old) (C.Faulty.faults caller.new) served result }
{
    match put_all(caller, bytes) {
        Ok(()) => served,
        Err(_) => Served::CallerFault,
    }
}

/// Refuses a request.
pub fn refuse<C: Caller>(caller: &mut C, answer: Answer) -> Served
    ensures refuses { Refuses (said_by C.Sink.own caller.old) (said_by C.Sink.own caller.new) answer result }
    ensures cause { CallerCause (C.Faulty.faults caller.old) (C.Faulty.faults caller.new) (Served.Refused answer) result }
{
    put(caller, answer.bytes(), Served::Refused(answer))
}

/// Answers what is meant.
fn answer<C: Caller>(caller: &mut C, meant: Meant) -> Served
    ensures writes { AnswersMeant C.Sink.own caller.old caller.new meant result }
    ensures cause { CallerCause (C.Faulty.faults caller.old) (C.Faulty.faults caller.new) (served_by meant) result }
{
    match meant {
        Meant::Reply(text) => put(caller, text.bytes(), Served::Replied),
        Meant::QueueFull => refuse(caller, Answer::QueueFull),
        Meant::Overload => refuse(caller, Answer::Overload),
        Meant::Expired => refuse(caller, Answer::Expired),
        Meant::LinkFault => put(caller, Answer::LinkFailed.bytes(), Served::LinkFault),
        Meant::Full(full) => put(caller, Answer::HistoryFull.bytes(), Served::Full(full)),
        Meant::Memory => Served::Memory,
    }
}

/// Whether the request is one to the revision.
fn is_for(spec: &Spec, head: &Head) -> bool
    ensures { MatchBool result (IsFor spec.now head.now) (IsFor spec.now head.now → ⊥) }
{
    head.namespace.bytes() == spec.namespace.bytes() && head.revision.bytes() == spec.name.bytes()
}

/// How long a request may wait.
fn timeout(spec: &Spec) -> u64
    ensures value { result ≡ spec.now.timeout_ms }
    ensures short { result ≤ 2 ^ 42 }
{
    spec.timeout_ms
}

/// Serves a request whose head was read. While it waits its client is watched.
pub fn serve_read<R: Wait, C: Caller, W: Watch<C>, L: PodLink, K: Clock, G: Gate>(
    rt: &R,
    alloc: Global,
    cell: &RevisionCell,
    pass: &mut Pass,
    spec: &Spec,
    caller: &mut C,
    watch: &W,
    link: &mut L,
    head: &Head,
    tag: u64,
    clock: &K,
    gate: &G,
) -> Served
    requires cell { pass.old.cell ≡ cell.now }
    ensures looks { (pass.new ≡ pass.old) ⊎ Looks pass.old pass.new }
    ensures serves { ServesHead K.reading W.leaves C.Sink.own C.Faulty L.told clock spec tag head pass caller link result }
    ensures causes { FailsByCause C.Faulty L.Faulty caller.old caller.new link.old link.new result }
{
    let Ok(room) = Forward::reserve(alloc, head) else {
        return Served::Memory;
    };
    let meant = serve_event(
        rt,
        alloc,
        cell,
        pass,
        timeout(spec),
        caller,
        watch,
        link,
        head,
        room,
        tag,
        clock,
        gate,
    );
    answer(caller, meant)
}

/// How a head is answered that was not read, and of which nothing is written.
pub fn fault_of(error: HeadError) -> Served
    requires { answer_for error ≡ None }
    ensures unread { IsUnread error None result [] }
    ensures fault { result ≡ Served.CallerFault → error ≡ HeadError.ReadFault }
    ensures link { result ≢ Served.LinkFault }
{
    match error {
        HeadError::ReadFault => Served::CallerFault,
        _ => Served::Memory,
    }
}

/// Reads a request of the connection that was met, and serves it.
fn serve_met<R: Wait, C: Caller, W: Watch<C>, L: PodLink, K: Clock, G: Gate>(
    rt: &R,
    alloc: Global,
    cell: &RevisionCell,
    pass: &mut Pass,
    spec: &Spec,
    caller: &mut C,
    watch: &W,
    link: &mut L,
    tag: u64,
    clock: &K,
    gate: &G,
) -> Served
    requires cell { pass.old.cell ≡ cell.now }
    ensures looks { (pass.new ≡ pass.old) ⊎ Looks pass.old pass.new }
    ensures serves { AttendsTo K.reading W.leaves C.left C.Sink.own C.Faulty L.told clock spec tag pass caller link result }
    ensures causes { FailsByCause C.Faulty L.Faulty caller.old caller.new link.old link.new result }
{
    match read_head(alloc, caller) {
        Ok(head) => match is_for(spec, &head) {
            true => serve_read(
                rt, alloc, cell, pass, spec, caller, watch, link, &head, tag, clock, gate,
            ),
            false => refuse(caller, Answer::NoSuchRevision),
        },
        Err(error) => match error.answer() {
            Some(answer) => refuse(caller, answer),
            None => fault_of(error),
        },
    }
}

/// Meets a caller and serves its request. While that waits its client is watched: where it was said to have left, the request is
/// cancelled at once and no pod is called. What is answered goes nowhere.
pub fn serve_guest<R: Wait, C: Caller, L: PodLink, K: Clock, G: Gate, W: Watch<C>>(
    rt: &R,
    alloc: Global,
    cell: &RevisionCell,
    pass: &mut Pass,
    spec: &Spec,
    slot: &mut Slot<C, L>,
    tag: u64,
    clock: &K,
    gate: &G,
    watch: &W,
) -> Served
    requires cell { pass.old.cell ≡ cell.now }
    ensures looks { (pass.new ≡ pass.old) ⊎ Looks pass.old pass.new }
    ensures serves { ServesSlot K.reading W.leaves C.Sink.own C.Faulty L.told clock spec tag pass slot result }
    ensures causes { FailsByCause C.Faulty L.Faulty slot.old.caller slot.new.caller slot.old.link slot.new.link result }
    ensures work { slot.new.work ≡ slot.old.work }
{
    caller_laws();
    match slot.caller.meet() {
        Err(_) => Served::CallerFault,
        Ok(()) => serve_met(
            rt,
            alloc,
            cell,
            pass,
            spec,
            &mut slot.caller,
            watch,
            &mut slot.link,
            tag,
            clock,
            gate,
        ),
    }
}

/// Meets a caller and serves its request. Nobody watches its client.
pub fn serve_one<R: Wait, C: Caller, L: PodLink, K: Clock, G: Gate>(
    rt: &R,
    alloc: Global,
    cell: &RevisionCell,
    pass: &mut Pass,
    spec: &Spec,
    slot: &mut Slot<C, L>,
    tag: u64,
    clock: &K,
    gate: &G,
) -> Served
    requires cell { pass.old.cell ≡ cell.now }
    ensures looks { (pass.new ≡ pass.old) ⊎ Looks pass.old pass.new }
    ensures serves { ServesUnwatched K.reading C.Sink.own L.told clock spec tag pass slot result }
    ensures causes { FailsByCause C.Faulty L.Faulty slot.old.caller slot.new.caller slot.old.link slot.new.link result }
    ensures work { slot.new.work ≡ slot.old.work }
{
    serve_guest(
        rt, alloc, cell, pass, spec, slot, tag, clock, gate, &NoWatch,
    )
}
