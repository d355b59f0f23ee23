//! How the cells of several revisions are closed.
ghost use Rattle.std.specs.Prelude.{◌≡◌, ◌≤◌, [], length, vec_capacity};
ghost use Rattle.kn_cell.specs.Shown.{joined_shown};
ghost use Rattle.kn_session.specs.WidePasses.{AreShut, IsShut, MayCloseAll, MayCloseBy};

use kn_cell::{History, Pass, RevisionCell};

/// Takes the ticker's pass in, and closes the cell.
fn close_cell(cell: RevisionCell, first: Pass, ticks: Pass) -> History
    requires may { MayCloseBy cell first ticks }
    requires of { first.cell ≡ cell }
    ensures { IsShut (joined_shown first ticks) result }
{
    let mut pass = first;
    cell.join(&mut pass, ticks);
    let (_, history) = cell.close(pass);
    history
}

/// Takes the ticker's passes in, and closes the cells. The histories come in the cells' order.
pub fn close_cells(
    cells: Vec<RevisionCell>,
    firsts: Vec<Pass>,
    ticks: Vec<Pass>,
    histories: Vec<History>,
) -> Vec<History>
    requires may { MayCloseAll cells.items firsts.items ticks.items }
    requires empty { histories.items ≡ [] }
    requires room { length cells.items ≤ vec_capacity histories }
    ensures count { length result.items ≡ length cells.items }
    ensures closed { AreShut (length cells.items) firsts.items ticks.items result.items }
{
    let mut cells = cells;
    let mut firsts = firsts;
    let mut ticks = ticks;
    let mut histories = histories;
    while let Some(cell) = cells.pop() {
        histories.push_reserved(close_cell(cell, firsts.take_last(), ticks.take_last()));
    }
    histories.reverse();
    histories
}
