//! Turns of the ticker, one after another, and the ticker.
ghost use Rattle.std.specs.Prelude.{◌≡◌, ◌+◌};
ghost use Rattle.kn_tests_cell.specs.Numbers.{IsStill};

use crate::ends::show_rows;
use crate::hands::Hands;
use crate::plan::{Plan, open};
use crate::slots::link_of;
use kn_cell::{Pass, RevisionCell};
use kn_event::Memory;
use kn_io::MemLink;
use kn_request::{Turn, tick_turn, ticker};
use std::alloc::AllocError;
use std::io;
use std::sync::Wait;
use std::sync::atomic::Ordering;

/// A turn at a time behind the last tick's, as `turn 3999 2000`, or the ticker from a start on, as `ticker 2000`.
fn act<R: Wait>(
    rt: &R,
    cell: &RevisionCell,
    pass: &mut Pass,
    keeper: &mut MemLink,
    hands: &Hands,
    words: &str,
) -> Turn
    requires { pass.old.cell ≡ cell.now }
    ensures { IsStill pass.old pass.new }
{
    let (what, rest) = words.split_once(' ').unwrap_or((words, ""));
    let (now, last) = rest.split_once(' ').unwrap_or((rest, ""));
    let now = now.parse().unwrap_or(0);
    let last = last.parse().unwrap_or(0);
    if what == "turn" {
        return tick_turn(rt, cell, pass, keeper, now, last);
    }
    ticker(rt, cell, pass, keeper, hands, &hands.left, now);
    Turn { last, full: false }
}

fn act_all<R: Wait>(
    rt: &HostRuntime,
    waits: &R,
    cell: &RevisionCell,
    pass: &mut Pass,
    keeper: &mut MemLink,
    hands: &Hands,
    acts: &str,
) -> io::Result<()>
    requires { pass.old.cell ≡ cell.now }
    ensures { IsStill pass.old pass.new }
{
    for words in acts.split(", ") {
        let turn = act(waits, cell, pass, keeper, hands, words);
        let naps = hands.naps.load(Ordering::SeqCst);
        println!(rt;
            "  {words}: last {}, full {}, naps {naps}",
            turn.last, turn.full
        )?;
    }
    Ok(())
}

fn show_probes(rt: &HostRuntime, keeper: &MemLink) -> io::Result<()> {
    for probe in keeper.probes().unwrap_or(&[]) {
        println!(rt; "  probed {}: {:?}", probe.pod, probe.answer)?;
    }
    Ok(())
}

fn show_in<R: Wait>(
    rt: &HostRuntime,
    waits: &R,
    cell: RevisionCell,
    mut pass: Pass,
    keeper: &mut MemLink,
    hands: &Hands,
    acts: &str,
) -> io::Result<()>
    requires cell { pass.cell ≡ cell }
    requires all { 1 + pass.free + pass.back ≡ pass.passes }
{
    let acted = act_all(rt, waits, &cell, &mut pass, keeper, hands, acts);
    let (revision, history) = cell.close(pass);
    drop(revision);
    let shown = show_rows(rt, history.items());
    drop(history);
    acted?;
    shown
}

/// Shows a line: words on the cell, its clock and its keeper, and what is done one after another.
pub fn show<R: Wait>(rt: &HostRuntime, waits: &R, line: &str) -> io::Result<()> {
    let (words, acts) = line.split_once('|').unwrap_or((line, ""));
    let hands = Hands::of(rt.alloc(), words)?;
    let Ok(mut keeper) = link_of(rt.alloc(), words) else {
        return Err(io::Error::from(AllocError));
    };
    match open(rt.alloc(), &Plan::of(words)) {
        Ok((cell, pass)) => {
            show_in(rt, waits, cell, pass, &mut keeper, &hands, acts)?;
            show_probes(rt, &keeper)
        }
        Err(Memory) => Err(io::Error::from(AllocError)),
    }
}
