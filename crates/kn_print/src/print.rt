//! The printed journal of a session: gathered line by line, written in pieces of up to 16 KiB, and taking no memory.
ghost use Rattle.std.specs.Prelude.{All, OnOk, OnErr};
ghost use Rattle.std.specs.Io.KnownBytes.{Appends};
ghost use Rattle.kn_io.specs.Causes.{HasCause};
ghost use Rattle.kn_io.specs.Prefix.{AppendsPrefix};
ghost use Rattle.kn_journal.specs.Journal.{journal_text};
ghost use Rattle.kn_report.specs.Waiting.{Adds};
ghost use Rattle.kn_print.specs.Printed.{AddsPrefix, HasSmall, PrintedLaws, printed_journal, printed};

use crate::opening::add_opening;
use crate::rows::add_rest;
use kn_cell::Past;
use kn_event::Line;
use kn_io::{Failed, Sink};
use kn_journal::Setup;
use kn_report::Waiting;
use kn_report::laws::adding_laws;

/// What the parts of a printed journal make.
pub fn printed_laws()
    ensures { PrintedLaws }
{}

/// Adds the journal of a history, or on `Failed` some first bytes were written.
pub fn add_journal<O: Sink>(
    setup: &Setup,
    start: u64,
    rows: &[Past],
    line: &mut Line,
    text: &mut Waiting,
    out: &mut O,
) -> Result<(), Failed>
    ensures ok { OnOk result (Adds (O.held out.old) (O.held out.new) text.old text.new (printed setup.now start rows.now)) }
    ensures err { OnErr result (AddsPrefix (O.held out.old) (O.held out.new) text.old (printed setup.now start rows.now)) }
    ensures small { OnOk result (All (λ p. HasSmall p.event.act) rows.now) }
    ensures cause { HasCause (O.Faulty.faults out.old) (O.Faulty.faults out.new) result }
{
    adding_laws();
    printed_laws();
    match add_opening(setup, start, line, text, out) {
        Ok(()) => {}
        Err(Failed) => return Err(Failed),
    }
    add_rest(rows, line, text, out)
}

/// Writes the journal of a history, or on `Failed` some first bytes of it: line 1 of a journal 1, the setup's text, the
/// start, a line for the event of each row, and `end`.
pub fn print_journal<O: Sink>(
    setup: &Setup,
    start: u64,
    rows: &[Past],
    out: &mut O,
) -> Result<(), Failed>
    ensures ok { OnOk result (Appends (O.held out.old) (O.held out.new) (journal_text (printed_journal setup.now start rows.now))) }
    ensures err { OnErr result (AppendsPrefix (O.held out.old) (O.held out.new) (journal_text (printed_journal setup.now start rows.now))) }
    ensures small { OnOk result (All (λ p. HasSmall p.event.act) rows.now) }
    ensures cause { HasCause (O.Faulty.faults out.old) (O.Faulty.faults out.new) result }
{
    adding_laws();
    let mut line = Line::new();
    let mut text = Waiting::new();
    match add_journal(setup, start, rows, &mut line, &mut text, out) {
        Ok(()) => {}
        Err(Failed) => return Err(Failed),
    }
    text.flush(out)
}
