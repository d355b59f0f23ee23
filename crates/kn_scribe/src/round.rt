//! What is there is taken out and printed.
ghost use Rattle.std.specs.Prelude.{◌≡◌, ◌≤◌, [], true, vec_capacity};
ghost use Rattle.kn_scribe.specs.Printing.{Prints};

use kn_cell::{Pass, Past, RevisionCell};
use kn_io::{Failed, Sink};
use kn_print::print_rows;
use std::sync::Wait;

/// Takes all rows out that are there, and prints a line for each, in their order.
pub fn print_taken<R: Wait, O: Sink>(
    rt: &R,
    cell: &RevisionCell,
    pass: &mut Pass,
    rows: &mut Vec<Past>,
    out: &mut O,
) -> Result<(), Failed>
    requires cell { pass.old.cell ≡ cell.now }
    requires scribe { pass.old.scribe ≡ true }
    requires empty { rows.old.items ≡ [] }
    requires room { pass.old.room ≤ vec_capacity rows.old }
    ensures prints { Prints pass.old pass.new (O.held out.old) (O.held out.new) (O.Faulty.faults out.old) (O.Faulty.faults out.new) result }
    ensures empty { rows.new.items ≡ [] }
    ensures room { pass.old.room ≤ vec_capacity rows.new }
{
    cell.take(rt, pass, rows);
    let done = print_rows(rows, out);
    rows.clear();
    done
}
