//! The passes of a cell: they are all cut off the first, and taken in again by one of them, which closes the cell.
ghost use Rattle.std.specs.Prelude.{◌≡◌, ◌≤◌, [], All, vec_len, vec_capacity};
ghost use Rattle.kn_tests_cell.specs.Numbers.{IsFirst, IsFor};
ghost use Rattle.kn_tests_cell.specs.Workers.{AreLeaves};

use crate::plan::Plan;
use crate::worker::Worker;
use kn_cell::{History, Pass, RevisionCell};
use kn_core::Revision;

/// All passes of the cell, in the order of their numbers, but the first at the end.
pub fn cut(cell: &RevisionCell, first: Pass, plan: &Plan, workers: &mut Vec<Worker>)
    requires first { IsFirst cell.now plan.now.passes first }
    requires is_for { IsFor plan.now.lasts plan.now.room first }
    requires empty { workers.old.items ≡ [] }
    requires room { plan.now.passes ≤ vec_capacity workers.old }
    ensures { AreLeaves cell.now plan.now.passes workers.new.items }
{
    let mut first = first;
    let others = plan.passes as usize - 1;
    while workers.len() < others {
        workers.push_reserved(Worker {
            pass: cell.split(&mut first),
            takes: false,
            room: plan.room,
        });
    }
    workers.push_reserved(Worker {
        pass: first,
        takes: plan.lasts,
        room: plan.room,
    });
}

/// Closes the cell.
pub fn close(cell: RevisionCell, workers: &mut Vec<Worker>) -> (Revision, History)
    requires each { AreLeaves cell (vec_len workers.old) workers.old.items }
    requires some { 1 ≤ vec_len workers.old }
{
    let Some(last) = workers.pop() else {
        unreachable!()
    };
    let Worker {
        mut pass,
        takes: _,
        room: _,
    } = last;
    while let Some(worker) = workers.pop() {
        let Worker {
            pass: other,
            takes: _,
            room: _,
        } = worker;
        cell.join(&mut pass, other);
    }
    cell.close(pass)
}
