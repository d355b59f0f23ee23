//! The printed journals of a session over several revisions, one after the other.
ghost use Rattle.std.specs.Prelude.{◌≡◌, All, length, OnErr, OnOk};
ghost use Rattle.std.specs.Io.KnownBytes.{Appends};
ghost use Rattle.kn_io.specs.Causes.{HasCause};
ghost use Rattle.kn_io.specs.Prefix.{AppendsPrefix};
ghost use Rattle.kn_print.specs.Printed.{HasSmall, journals_text, printed_journals};

use crate::print::add_journal;
use kn_cell::History;
use kn_event::Line;
use kn_io::{Failed, Sink};
use kn_journal::Setup;
use kn_report::Waiting;
use kn_report::laws::adding_laws;

/// Writes the journal of each history, in order, or on `Failed` some first bytes of these journals.
pub fn print_journals<O: Sink>(
    setups: &[Setup],
    start: u64,
    histories: &[History],
    out: &mut O,
) -> Result<(), Failed>
    requires { length histories.now ≡ length setups.now }
    ensures ok { OnOk result (Appends (O.held out.old) (O.held out.new) (journals_text (printed_journals setups.now start histories.now))) }
    ensures err { OnErr result (AppendsPrefix (O.held out.old) (O.held out.new) (journals_text (printed_journals setups.now start histories.now))) }
    ensures small { OnOk result (All (All (λ p. HasSmall p.event.act)) histories.now) }
    ensures cause { HasCause (O.Faulty.faults out.old) (O.Faulty.faults out.new) result }
{
    adding_laws();
    let mut line = Line::new();
    let mut text = Waiting::new();
    for i in 0..setups.len() {
        let rows = histories[i].items();
        match add_journal(&setups[i], start, rows, &mut line, &mut text, out) {
            Ok(()) => {}
            Err(Failed) => return Err(Failed),
        }
    }
    text.flush(out)
}
