//! A journal's text, written to a sink.
ghost use Rattle.std.specs.Prelude.{◌≡◌, ◌≤◌, ◌++◌, ◌∷◌, [], codes, length, OnOk, OnErr};
ghost use Rattle.std.specs.Fmt.{decimal};
ghost use Rattle.std.specs.Io.KnownBytes.{Appends};
ghost use Rattle.kn_io.specs.Causes.{HasCause};
ghost use Rattle.kn_io.specs.Prefix.{AppendsPrefix};
ghost use Rattle.kn_preamble.specs.First.{first_line};
ghost use Rattle.kn_journal.specs.Journal.{IsJournal, events_text, journal_text};

use crate::journal::Journal;
use kn_event::{Event, Line, event_line};
use kn_io::{Failed, Sink, put_all};

/// Sets the line to a word and a number, with its LF.
#[tactic(auto, using(std::proofs::Common::append_assoc))]
fn set_line(line: &mut Line, word: &[u8], n: u64)
    requires { length word.now ≤ 40 }
    ensures { line.new ≡ (word.now ++ decimal n) ++ 10 ∷ [] }
{
    line.clear();
    line.put(word);
    line.put_integer(n);
    line.put(b"\n");
}

/// Writes a line for each event, or on `Failed` some first bytes of these lines.
fn write_events<O: Sink>(events: &[Event], line: &mut Line, out: &mut O) -> Result<(), Failed>
    ensures ok { OnOk result (Appends (O.held out.old) (O.held out.new) (events_text events.now)) }
    ensures err { OnErr result (AppendsPrefix (O.held out.old) (O.held out.new) (events_text events.now)) }
    ensures kept_stays { O.kept out.new ≡ O.kept out.old }
    ensures cause { HasCause (O.Faulty.faults out.old) (O.Faulty.faults out.new) result }
{
    for e in events {
        event_line(e, line);
        match put_all(out, line.bytes()) {
            Ok(()) => {}
            Err(Failed) => return Err(Failed),
        }
    }
    Ok(())
}

/// Writes line 1 and the setup's text, or on `Failed` some first bytes of them.
fn write_opening<O: Sink>(j: &Journal, line: &mut Line, out: &mut O) -> Result<(), Failed>
    ensures ok { OnOk result (Appends (O.held out.old) (O.held out.new) ((first_line j.now.version ++ 10 ∷ []) ++ j.now.setup.text)) }
    ensures err { OnErr result (AppendsPrefix (O.held out.old) (O.held out.new) ((first_line j.now.version ++ 10 ∷ []) ++ j.now.setup.text)) }
    ensures kept_stays { O.kept out.new ≡ O.kept out.old }
    ensures cause { HasCause (O.Faulty.faults out.old) (O.Faulty.faults out.new) result }
{
    set_line(line, b"kact journal ", j.version);
    match put_all(out, line.bytes()) {
        Ok(()) => {}
        Err(Failed) => return Err(Failed),
    }
    put_all(out, j.setup.text.bytes())
}

/// Writes the start and the events, or on `Failed` some first bytes of them.
fn write_course<O: Sink>(j: &Journal, line: &mut Line, out: &mut O) -> Result<(), Failed>
    ensures ok { OnOk result (Appends (O.held out.old) (O.held out.new) (((codes "start " ++ decimal j.now.start) ++ 10 ∷ []) ++ events_text j.now.events)) }
    ensures err { OnErr result (AppendsPrefix (O.held out.old) (O.held out.new) (((codes "start " ++ decimal j.now.start) ++ 10 ∷ []) ++ events_text j.now.events)) }
    ensures kept_stays { O.kept out.new ≡ O.kept out.old }
    ensures cause { HasCause (O.Faulty.faults out.old) (O.Faulty.faults out.new) result }
{
    set_line(line, b"start ", j.start);
    match put_all(out, line.bytes()) {
        Ok(()) => {}
        Err(Failed) => return Err(Failed),
    }
    write_events(j.events.items(), line, out)
}

/// Writes a journal in range: line 1, the setup's text, the start, the events and `end`; or on `Failed` some first bytes
/// of that.
pub fn write_journal<O: Sink>(j: &Journal, out: &mut O) -> Result<(), Failed>
    requires { IsJournal j.now }
    ensures ok { OnOk result (Appends (O.held out.old) (O.held out.new) (journal_text j.now)) }
    ensures err { OnErr result (AppendsPrefix (O.held out.old) (O.held out.new) (journal_text j.now)) }
    ensures kept_stays { O.kept out.new ≡ O.kept out.old }
    ensures cause { HasCause (O.Faulty.faults out.old) (O.Faulty.faults out.new) result }
{
    let mut line = Line::new();
    match write_opening(j, &mut line, out) {
        Ok(()) => {}
        Err(Failed) => return Err(Failed),
    }
    match write_course(j, &mut line, out) {
        Ok(()) => {}
        Err(Failed) => return Err(Failed),
    }
    put_all(out, b"end\n")
}
