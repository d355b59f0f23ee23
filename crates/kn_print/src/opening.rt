//! What stands in a printed journal before its events.
ghost use Rattle.std.specs.Prelude.{◌≡◌, ◌≤◌, ◌++◌, ◌∷◌, [], length, OnErr, OnOk};
ghost use Rattle.std.specs.Fmt.{decimal};
ghost use Rattle.std.specs.Io.KnownBytes.{Appends};
ghost use Rattle.kn_io.specs.Causes.{HasCause};
ghost use Rattle.kn_io.specs.Prefix.{AppendsPrefix};
ghost use Rattle.kn_report.specs.Waiting.{Adds};
ghost use Rattle.kn_print.specs.Printed.{AddsPrefix, preface};

use kn_event::Line;
use kn_io::{Failed, Sink};
use kn_journal::Setup;
use kn_report::Waiting;
use kn_report::laws::adding_laws;

/// Sets the line to a word and a number, with its LF.
#[tactic(auto, using(std::proofs::Common::append_assoc))]
fn set_line(line: &mut Line, word: &[u8], n: u64)
    requires { length word.now ≤ 40 }
    ensures { line.new ≡ (word.now ++ decimal n) ++ 10 ∷ [] }
{
    line.clear();
    line.put(word);
    line.put_integer(n);
    line.put(b"\n");
}

/// Adds line 1, the setup's text and the start behind the text that waits, or on `Failed` some first bytes were written.
pub fn add_opening<O: Sink>(
    setup: &Setup,
    start: u64,
    line: &mut Line,
    text: &mut Waiting,
    out: &mut O,
) -> Result<(), Failed>
    ensures ok { OnOk result (Adds (O.held out.old) (O.held out.new) text.old text.new (preface setup.now start)) }
    ensures err { OnErr result (AddsPrefix (O.held out.old) (O.held out.new) text.old (preface setup.now start)) }
    ensures cause { HasCause (O.Faulty.faults out.old) (O.Faulty.faults out.new) result }
{
    adding_laws();
    set_line(line, b"kact journal ", 1);
    match text.add(line.bytes(), out) {
        Ok(()) => {}
        Err(Failed) => return Err(Failed),
    }
    match text.add(setup.text.bytes(), out) {
        Ok(()) => {}
        Err(Failed) => return Err(Failed),
    }
    set_line(line, b"start ", start);
    text.add(line.bytes(), out)
}

/// Writes what a journal 1 of the setup and the start begins with, in few writes: line 1, the setup's text and the start;
/// or on `Failed` some first bytes of that.
pub fn print_opening<O: Sink>(setup: &Setup, start: u64, out: &mut O) -> Result<(), Failed>
    ensures ok { OnOk result (Appends (O.held out.old) (O.held out.new) (preface setup.now start)) }
    ensures err { OnErr result (AppendsPrefix (O.held out.old) (O.held out.new) (preface setup.now start)) }
    ensures cause { HasCause (O.Faulty.faults out.old) (O.Faulty.faults out.new) result }
{
    adding_laws();
    let mut text = Waiting::new();
    match add_opening(setup, start, &mut Line::new(), &mut text, out) {
        Ok(()) => {}
        Err(Failed) => return Err(Failed),
    }
    text.flush(out)
}
