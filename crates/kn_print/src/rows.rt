//! The lines of a printed journal that its rows make.
ghost use Rattle.std.specs.Prelude.{All, OnErr, OnOk};
ghost use Rattle.std.specs.Io.KnownBytes.{Appends};
ghost use Rattle.kn_io.specs.Causes.{HasCause};
ghost use Rattle.kn_io.specs.Prefix.{AppendsPrefix};
ghost use Rattle.kn_report.specs.Waiting.{Adds};
ghost use Rattle.kn_print.specs.Printed.{AddsPrefix, HasSmall, lines_to_end, lines_of};

use kn_cell::Past;
use kn_event::{Act, Line, event_line};
use kn_io::{Failed, Sink};
use kn_report::Waiting;
use kn_report::laws::adding_laws;

/// Knows that an act's numbers fit a line, since each is one of 64 bits.
fn fits(act: Act)
    ensures { HasSmall act }
{
    match act {
        Act::Arrive(_tag) => {}
        Act::Finish(_request, _ok) => {}
        Act::Cancel(_request) => {}
        Act::Ready(_pod) => {}
        Act::Limit(_pod, _limit) => {}
        Act::Lost(_pod) => {}
        Act::Pass | Act::Tick => {}
    }
}

/// Adds a line for the event of each row behind the text that waits, or on `Failed` some first bytes of both were written.
fn add_rows<O: Sink>(
    rows: &[Past],
    line: &mut Line,
    text: &mut Waiting,
    out: &mut O,
) -> Result<(), Failed>
    ensures ok { OnOk result (Adds (O.held out.old) (O.held out.new) text.old text.new (lines_of rows.now)) }
    ensures err { OnErr result (AddsPrefix (O.held out.old) (O.held out.new) text.old (lines_of rows.now)) }
    ensures small { OnOk result (All (λ p. HasSmall p.event.act) rows.now) }
    ensures cause { HasCause (O.Faulty.faults out.old) (O.Faulty.faults out.new) result }
{
    adding_laws();
    for row in rows {
        fits(row.event.act);
        event_line(&row.event, line);
        match text.add(line.bytes(), out) {
            Ok(()) => {}
            Err(Failed) => return Err(Failed),
        }
    }
    Ok(())
}

/// Adds a line for the event of each row, and then `end`, or on `Failed` some first bytes were written.
pub fn add_rest<O: Sink>(
    rows: &[Past],
    line: &mut Line,
    text: &mut Waiting,
    out: &mut O,
) -> Result<(), Failed>
    ensures ok { OnOk result (Adds (O.held out.old) (O.held out.new) text.old text.new (lines_to_end rows.now)) }
    ensures err { OnErr result (AddsPrefix (O.held out.old) (O.held out.new) text.old (lines_to_end rows.now)) }
    ensures small { OnOk result (All (λ p. HasSmall p.event.act) rows.now) }
    ensures cause { HasCause (O.Faulty.faults out.old) (O.Faulty.faults out.new) result }
{
    adding_laws();
    match add_rows(rows, line, text, out) {
        Ok(()) => {}
        Err(Failed) => return Err(Failed),
    }
    text.add(b"end\n", out)
}

/// Writes a line for the event of each row, many a write; or on `Failed` some first bytes of these lines.
pub fn print_rows<O: Sink>(rows: &[Past], out: &mut O) -> Result<(), Failed>
    ensures ok { OnOk result (Appends (O.held out.old) (O.held out.new) (lines_of rows.now)) }
    ensures err { OnErr result (AppendsPrefix (O.held out.old) (O.held out.new) (lines_of rows.now)) }
    ensures small { OnOk result (All (λ p. HasSmall p.event.act) rows.now) }
    ensures cause { HasCause (O.Faulty.faults out.old) (O.Faulty.faults out.new) result }
{
    adding_laws();
    let mut text = Waiting::new();
    match add_rows(rows, &mut Line::new(), &mut text, out) {
        Ok(()) => {}
        Err(Failed) => return Err(Failed),
    }
    text.flush(out)
}

/// Writes a line for the event of each row, many a write, and then `end`; or on `Failed` some first bytes of that.
pub fn print_rest<O: Sink>(rows: &[Past], out: &mut O) -> Result<(), Failed>
    ensures ok { OnOk result (Appends (O.held out.old) (O.held out.new) (lines_to_end rows.now)) }
    ensures err { OnErr result (AppendsPrefix (O.held out.old) (O.held out.new) (lines_to_end rows.now)) }
    ensures small { OnOk result (All (λ p. HasSmall p.event.act) rows.now) }
    ensures cause { HasCause (O.Faulty.faults out.old) (O.Faulty.faults out.new) result }
{
    adding_laws();
    let mut text = Waiting::new();
    match add_rest(rows, &mut Line::new(), &mut text, out) {
        Ok(()) => {}
        Err(Failed) => return Err(Failed),
    }
    text.flush(out)
}
