//! A single request, by `serve_guest`, while a door is asked whether its client has left, or by `serve_one`.
ghost use Rattle.std.specs.Prelude.{◌≡◌, ◌+◌};
ghost use Rattle.kn_tests_cell.specs.Numbers.{IsStill};

use crate::ends::show_rows;
use crate::hands::Hands;
use crate::plan::{Plan, open, spec_of};
use crate::said::{show_answers, show_calls};
use crate::slots::{MemSlot, slot_of};
use crate::words::number_of;
use kn_cell::{Pass, RevisionCell};
use kn_door::{Door, MemDoor};
use kn_event::{Act, Memory, Spec};
use kn_request::{Served, serve_guest, serve_one};
use std::alloc::{AllocError, Global};
use std::io;
use std::sync::Wait;

/// The tag of the one request.
const TAG: u64 = 7;

/// A request: the slot that serves it, its revision, its clock, and the door through which its client comes.
#[derive(Drop)]
struct Trial {
    slot: MemSlot,
    spec: Spec,
    hands: Hands,
    door: MemDoor,
}

/// One that was not tried.
fn trial_of(alloc: Global, line: &str) -> Result<Trial, Memory> {
    let Ok(hands) = Hands::of(alloc, line) else {
        return Err(Memory);
    };
    let spec = spec_of(alloc, &Plan::of(line))?;
    match slot_of(alloc, line) {
        Ok(slot) => Ok(Trial {
            slot,
            spec,
            hands,
            door: MemDoor::of_leavers(1, number_of(line, "leaves=", 0)),
        }),
        Err(Memory) => Err(Memory),
    }
}

/// Makes the pod Ready, if it is to be.
fn prepare<R: Wait>(rt: &R, cell: &RevisionCell, pass: &mut Pass, ready: bool)
    requires { pass.old.cell ≡ cell.now }
    ensures { IsStill pass.old pass.new }
{
    if ready {
        let _ = cell.on(rt, pass, Act::Ready(0), 0);
    }
}

/// Serves it, while somebody watches its client, or alone.
fn serve<R: Wait>(
    rt: &R,
    alloc: Global,
    cell: &RevisionCell,
    pass: &mut Pass,
    trial: &mut Trial,
    alone: bool,
) -> Served
    requires { pass.old.cell ≡ cell.now }
    ensures { IsStill pass.old pass.new }
{
    let Trial {
        slot,
        spec,
        hands,
        door,
    } = trial;
    let hands: &Hands = hands;
    if alone {
        return serve_one(rt, alloc, cell, pass, spec, slot, TAG, hands, hands);
    }
    let _ = door.next(rt, &mut slot.caller);
    serve_guest(rt, alloc, cell, pass, spec, slot, TAG, hands, hands, door)
}

fn word_of(served: &Served) -> &'static str {
    match *served {
        Served::Replied => "replied",
        Served::Refused(_) => "refused",
        Served::LinkFault => "link fault",
        Served::CallerFault => "caller fault",
        Served::Full(_) => "full",
        Served::Memory => "out of memory",
    }
}

fn show_served(rt: &HostRuntime, served: &Served, trial: &Trial) -> io::Result<()> {
    let (asked, left) = (trial.door.asked(), trial.slot.caller.departures);
    println!(rt; "  {}, asked {asked}, left {left}", word_of(served))?;
    show_answers(rt, &trial.slot.caller)?;
    show_calls(rt, &trial.slot.link)
}

/// Serves it over this cell, and prints what comes of it.
fn show_in<R: Wait>(
    rt: &HostRuntime,
    waits: &R,
    cell: RevisionCell,
    mut pass: Pass,
    trial: &mut Trial,
    line: &str,
) -> io::Result<()>
    requires cell { pass.cell ≡ cell }
    requires all { 1 + pass.free + pass.back ≡ pass.passes }
{
    prepare(waits, &cell, &mut pass, line.contains("ready"));
    let alone = line.contains("alone");
    let served = serve(waits, rt.alloc(), &cell, &mut pass, trial, alone);
    let (revision, history) = cell.close(pass);
    drop(revision);
    let shown = show_rows(rt, history.items());
    drop(history);
    shown?;
    show_served(rt, &served, trial)
}

/// Shows a line: the request, and words on its clock, its door, and its revision.
pub fn show<R: Wait>(rt: &HostRuntime, waits: &R, line: &str) -> io::Result<()> {
    let Ok(mut trial) = trial_of(rt.alloc(), line) else {
        return Err(io::Error::from(AllocError));
    };
    match open(rt.alloc(), &Plan::of(line)) {
        Ok((cell, pass)) => show_in(rt, waits, cell, pass, &mut trial, line),
        Err(Memory) => Err(io::Error::from(AllocError)),
    }
}
