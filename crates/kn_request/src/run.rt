//! A request runs: its pod is called, and it is finished.
ghost use Rattle.std.specs.Prelude.{◌≡◌, ◌≤◌, Bool, length, Err, is_ok};
ghost use Rattle.kn_cell.specs.Shown.{Looks};
ghost use Rattle.kn_io.specs.Causes.{Rose};
ghost use Rattle.kn_head.specs.Forwarding.{forwarded};
ghost use Rattle.kn_request.specs.Sight.{IsOwn, RunsAt};
ghost use Rattle.kn_request.specs.Requests.{CallsPod, Finishes, FinishesRunning};

use crate::laws::server_laws;
use kn_cell::{Pass, RevisionCell, Run};
use kn_event::{Act, Text};
use kn_head::{Forward, Head};
use kn_io::{Clock, LinkError, PodLink};
use std::alloc::Global;
use std::sync::Wait;

/// Finishes the request. Where nobody else ended it, this is recorded, and is how it ended.
fn finish<R: Wait, K: Clock>(
    rt: &R,
    cell: &RevisionCell,
    pass: &mut Pass,
    r: u64,
    ok: bool,
    clock: &K,
)
    requires cell { pass.old.cell ≡ cell.now }
    requires own { IsOwn pass.old }
    ensures looks { Looks pass.old pass.new }
    ensures finish { FinishesRunning (K.reading clock.now) r ok pass.old pass.new }
{
    server_laws();
    let now = clock.now_ms();
    match cell.on(rt, pass, Act::Finish(r, ok), now) {
        Ok(_) => {}
        Err(_) => {}
    }
}

/// Calls the pod where the request runs, with the form of its way there, and finishes the request by what came.
pub fn run_at<R: Wait, L: PodLink, K: Clock>(
    rt: &R,
    alloc: Global,
    cell: &RevisionCell,
    pass: &mut Pass,
    r: u64,
    run: Run,
    link: &mut L,
    head: &Head,
    room: Forward,
    clock: &K,
) -> Result<Text, LinkError>
    requires cell { pass.old.cell ≡ cell.now }
    requires own { IsOwn pass.old }
    requires runs { RunsAt pass.old r run }
    requires room { (proxied : Bool) → length (forwarded head.now proxied) ≤ room }
    ensures looks { Looks pass.old pass.new }
    ensures call { CallsPod head.now (L.told link.old) (L.told link.new) pass.new r result }
    ensures never_falls { L.Faulty.faults link.old ≤ L.Faulty.faults link.new }
    ensures cause { result ≡ Err LinkError.Failed → Rose (L.Faulty.faults link.old) (L.Faulty.faults link.new) }
    ensures finish { Finishes (K.reading clock.now) r (is_ok result) pass.old pass.new }
{
    server_laws();
    let text = room.fill(head, run.proxied);
    let reply = link.call(alloc, run.address, text.bytes());
    let ok = reply.is_ok();
    finish(rt, cell, pass, r, ok, clock);
    reply
}
