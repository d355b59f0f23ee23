//! Rows behind the number of their activator.
ghost use Rattle.std.specs.Prelude.{◌≡◌, ◌++◌, ◌∷◌, [], OnErr, OnOk};
ghost use Rattle.std.specs.Fmt.{decimal};
ghost use Rattle.kn_io.specs.Causes.{HasCause};
ghost use Rattle.kn_io.specs.Prefix.{AppendsPrefix};
ghost use Rattle.kn_report.specs.Waiting.{Adds, own_row, own_rows};

use crate::waiting::Waiting;
use kn_event::{Entry, EntryLog, Line, entry_line};
use kn_io::{Failed, Sink};

/// Sets the line to the number of an activator and a space.
#[tactic(auto, using(std::proofs::Common::append_assoc))]
fn set_number(line: &mut Line, i: u64)
    ensures { line.new ≡ decimal i ++ 32 ∷ [] }
{
    line.clear();
    line.put_integer(i);
    line.put(b" ");
}

/// Adds the row of an entry behind what waits, behind its activator's number, by way of a line.
#[inline(never)]
fn add_by_line<O: Sink>(
    e: &Entry,
    i: u64,
    line: &mut Line,
    waiting: &mut Waiting,
    out: &mut O,
) -> Result<(), Failed>
    ensures ok { OnOk result (Adds (O.held out.old) (O.held out.new) waiting.old waiting.new (own_row i e.now)) }
    ensures err { OnErr result (AppendsPrefix (O.held out.old) (O.held out.new) (waiting.old ++ own_row i e.now)) }
    ensures cause { HasCause (O.Faulty.faults out.old) (O.Faulty.faults out.new) result }
{
    set_number(line, i);
    match waiting.add(line.bytes(), out) {
        Ok(()) => {}
        Err(Failed) => return Err(Failed),
    }
    entry_line(e, line);
    waiting.add(line.bytes(), out)
}

/// Adds the row of an entry behind what waits, behind its activator's number.
#[inline(always)]
fn add_row<O: Sink>(
    e: &Entry,
    i: u64,
    line: &mut Line,
    waiting: &mut Waiting,
    out: &mut O,
) -> Result<(), Failed>
    ensures ok { OnOk result (Adds (O.held out.old) (O.held out.new) waiting.old waiting.new (own_row i e.now)) }
    ensures err { OnErr result (AppendsPrefix (O.held out.old) (O.held out.new) (waiting.old ++ own_row i e.now)) }
    ensures cause { HasCause (O.Faulty.faults out.old) (O.Faulty.faults out.new) result }
{
    if waiting.add_own_in_place(i, e) {
        return Ok(());
    }
    add_by_line(e, i, line, waiting, out)
}

/// Adds a row for each entry behind what waits, each behind the number of their activator and a space.
#[inline(always)]
pub fn add_own_rows<O: Sink>(
    log: &EntryLog,
    i: u64,
    line: &mut Line,
    waiting: &mut Waiting,
    out: &mut O,
) -> Result<(), Failed>
    ensures ok { OnOk result (Adds (O.held out.old) (O.held out.new) waiting.old waiting.new (own_rows i log.now)) }
    ensures err { OnErr result (AppendsPrefix (O.held out.old) (O.held out.new) (waiting.old ++ own_rows i log.now)) }
    ensures cause { HasCause (O.Faulty.faults out.old) (O.Faulty.faults out.new) result }
{
    for e in log.entries() {
        match add_row(e, i, line, waiting, out) {
            Ok(()) => {}
            Err(Failed) => return Err(Failed),
        }
    }
    Ok(())
}
