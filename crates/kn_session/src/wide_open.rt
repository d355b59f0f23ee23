//! The cells of several revisions, and what is held beside them.
ghost use Rattle.std.specs.Prelude.{◌≡◌, ◌≤◌, [], length, vec_capacity, IfOk};
ghost use Rattle.kn_event.specs.Lists.{EachIs};
ghost use Rattle.kn_session.specs.Session.{MayBegin};
ghost use Rattle.kn_session.specs.WidePasses.{AreOpen, IsOpen, IsReserved};

use kn_cell::{History, Pass, RevisionCell};
use kn_core::Revision;
use kn_event::Memory;
use std::alloc::Global;

/// One revision's cell, the first pass of it, and the ticker's.
#[derive(Drop)]
pub struct Opened {
    pub cell: RevisionCell,
    pub first: Pass,
    pub ticks: Pass,
}

/// Of each revision its cell, the first pass of it and the ticker's, and the time of its last tick; and room for the histories.
#[derive(Drop)]
pub struct OpenedAll {
    pub cells: Vec<RevisionCell>,
    pub firsts: Vec<Pass>,
    pub ticks: Vec<Pass>,
    pub lasts: Vec<u64>,
    pub histories: Vec<History>,
}

fn open_cell(alloc: Global, revision: Revision, room: u64, passes: u64) -> Result<Opened, Memory>
    requires revision { MayBegin revision }
    requires room { room ≤ 1000000 }
    requires passes { (2 ≤ passes) × (passes ≤ 1000) }
    ensures { IfOk result (λ o. IsOpen revision room passes o.cell o.first o.ticks) }
{
    let (cell, first) = RevisionCell::new(alloc, revision, room, passes)?;
    let mut first = first;
    let ticks = cell.split(&mut first);
    Ok(Opened { cell, first, ticks })
}

/// Memory for what is held of so many revisions.
fn reserve(alloc: Global, count: usize) -> Result<OpenedAll, Memory>
    ensures { IfOk result (IsReserved count) }
{
    let Ok(cells) = Vec::with_capacity(alloc, count) else {
        return Err(Memory);
    };
    let Ok(firsts) = Vec::with_capacity(alloc, count) else {
        return Err(Memory);
    };
    let Ok(ticks) = Vec::with_capacity(alloc, count) else {
        return Err(Memory);
    };
    let Ok(lasts) = Vec::from_elem(alloc, 0, count) else {
        return Err(Memory);
    };
    let Ok(histories) = Vec::with_capacity(alloc, count) else {
        return Err(Memory);
    };
    Ok(OpenedAll {
        cells,
        firsts,
        ticks,
        lasts,
        histories,
    })
}

/// Opens a cell over each of the revisions, with this room each.
pub fn open_cells(
    alloc: Global,
    revisions: Vec<Revision>,
    room: u64,
    passes: u64,
) -> Result<OpenedAll, Memory>
    requires revisions { EachIs MayBegin revisions.items }
    requires room { room ≤ 1000000 }
    requires passes { (2 ≤ passes) × (passes ≤ 1000) }
    ensures opened { IfOk result (λ o. AreOpen revisions.items room passes o.cells.items o.firsts.items o.ticks.items) }
    ensures lasts { IfOk result (λ o. length o.lasts.items ≡ length revisions.items) }
    ensures histories { IfOk result (λ o. (o.histories.items ≡ []) × (length revisions.items ≤ vec_capacity o.histories)) }
{
    let mut opened = reserve(alloc, revisions.len())?;
    let mut revisions = revisions;
    revisions.reverse();
    while let Some(revision) = revisions.pop() {
        let Opened { cell, first, ticks } = open_cell(alloc, revision, room, passes)?;
        opened.cells.push_reserved(cell);
        opened.firsts.push_reserved(first);
        opened.ticks.push_reserved(ticks);
    }
    Ok(opened)
}
