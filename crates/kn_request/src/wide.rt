//! One request to one of several revisions, each with a cell of its own.
ghost use Rattle.std.specs.Prelude.{◌≡◌, Some, IfSome, IfNone, length};
ghost use Rattle.kn_cell.specs.Shown.{PassView};
ghost use Rattle.kn_request.specs.Wide.{EachPass, IsForNone, IsNamed, faults_in, memories_in, passes_in};
ghost use Rattle.kn_request.specs.Calls.{FailsByCause, FailsByCauseAt, FailsByCauseIn, KeepsLengths, ServesByWork, ServesNamed, ServesWideSlot};

use crate::one::{fault_of, refuse, serve_read};
use crate::slot::{Ended, Served, WideSlot, Work};
use kn_cell::RevisionCell;
use kn_directory::Revisions;
use kn_door::NoWatch;
use kn_event::Spec;
use kn_head::{Answer, Head, read_head};
use kn_io::{Caller, Clock, Gate, PodLink, caller_laws};
use std::alloc::Global;
use std::sync::Wait;

/// The first revision that the head names. No memory is taken.
fn named(specs: &Revisions, head: &Head) -> Option<usize>
    ensures some { IfSome result (λ v. IsNamed specs.now v head.now) }
    ensures none { IfNone result (IsForNone specs.now head.now) }
{
    specs.named(head.namespace.bytes(), head.revision.bytes())
}

/// Serves a request whose head was read, with the pass that lies in the work.
fn serve_with<R: Wait, C: Caller, L: PodLink, K: Clock, G: Gate>(
    rt: &R,
    alloc: Global,
    cell: &RevisionCell,
    work: &mut Work,
    spec: &Spec,
    caller: &mut C,
    link: &mut L,
    head: &Head,
    tag: u64,
    clock: &K,
    gate: &G,
) -> Served
    requires pass { (p : PassView) × (work.old.pass ≡ Some p) × (p.cell ≡ cell.now) }
    ensures pass { ServesByWork K.reading C.Sink.own L.told clock spec tag head work caller link result }
    ensures causes { FailsByCause C.Faulty L.Faulty caller.old caller.new link.old link.new result }
    ensures flags { (work.new.fault ≡ work.old.fault) × (work.new.memory ≡ work.old.memory) }
{
    let pass = work.pass.take();
    match pass {
        None => unreachable!(),
        Some(pass) => {
            let mut pass = pass;
            let served = serve_read(
                rt, alloc, cell, &mut pass, spec, caller, &NoWatch, link, head, tag, clock, gate,
            );
            work.pass = Some(pass);
            served
        }
    }
}

/// Reads a request of the connection that was met, and serves it by the revision that it names.
fn serve_named<R: Wait, C: Caller, L: PodLink, K: Clock, G: Gate>(
    rt: &R,
    alloc: Global,
    cells: &[RevisionCell],
    works: &mut [Work],
    specs: &Revisions,
    caller: &mut C,
    links: &mut [L],
    tag: u64,
    clock: &K,
    gate: &G,
) -> Ended
    requires cells { length cells.now ≡ length specs.now }
    requires slot { (length links.old ≡ length specs.now) × (length works.old ≡ length specs.now) }
    requires passes { EachPass cells.now (passes_in works.old) }
    ensures serves { ServesNamed K.reading C.left C.Sink.own L.told clock specs tag works caller links result }
    ensures causes { FailsByCauseAt C.Faulty L.Faulty caller.old caller.new links.old links.new result }
    ensures count { (length links.new ≡ length links.old) × (length works.new ≡ length works.old) }
    ensures fault { faults_in works.new ≡ faults_in works.old }
    ensures memory { memories_in works.new ≡ memories_in works.old }
    ensures passes { EachPass cells.now (passes_in works.new) }
{
    match read_head(alloc, caller) {
        Ok(head) => match named(specs, &head) {
            Some(v) => {
                let spec = &specs.as_slice()[v];
                let served = serve_with(
                    rt,
                    alloc,
                    &cells[v],
                    &mut works[v],
                    spec,
                    caller,
                    &mut links[v],
                    &head,
                    tag,
                    clock,
                    gate,
                );
                Ended {
                    revision: Some(v),
                    served,
                }
            }
            None => Ended {
                revision: None,
                served: refuse(caller, Answer::NoSuchRevision),
            },
        },
        Err(error) => match error.answer() {
            Some(answer) => Ended {
                revision: None,
                served: refuse(caller, answer),
            },
            None => Ended {
                revision: None,
                served: fault_of(error),
            },
        },
    }
}

/// Meets a caller and serves its request by the first revision that its head names, with that revision's cell, its link, and the
/// pass that lies in its work. A head that names none is answered 404 without an event. Cells, links and works are one for each
/// specification, in one order. Faults and want of memory are answered as `serve_one` does; the works' flags stay.
pub fn serve_wide<R: Wait, C: Caller, L: PodLink, K: Clock, G: Gate>(
    rt: &R,
    alloc: Global,
    cells: &[RevisionCell],
    specs: &Revisions,
    slot: &mut WideSlot<C, L>,
    tag: u64,
    clock: &K,
    gate: &G,
) -> Ended
    requires cells { length cells.now ≡ length specs.now }
    requires slot { (length slot.old.links.items ≡ length specs.now) × (length slot.old.works.items ≡ length specs.now) }
    requires passes { EachPass cells.now (passes_in slot.old.works.items) }
    ensures serves { ServesWideSlot K.reading C.Sink.own L.told clock specs tag slot result }
    ensures causes { FailsByCauseIn C.Faulty L.Faulty slot.old slot.new result }
    ensures count { KeepsLengths slot.old slot.new }
    ensures fault { faults_in slot.new.works.items ≡ faults_in slot.old.works.items }
    ensures memory { memories_in slot.new.works.items ≡ memories_in slot.old.works.items }
    ensures passes { EachPass cells.now (passes_in slot.new.works.items) }
{
    caller_laws();
    match slot.caller.meet() {
        Err(_) => Ended {
            revision: None,
            served: Served::CallerFault,
        },
        Ok(()) => serve_named(
            rt,
            alloc,
            cells,
            &mut slot.works,
            specs,
            &mut slot.caller,
            &mut slot.links,
            tag,
            clock,
            gate,
        ),
    }
}
