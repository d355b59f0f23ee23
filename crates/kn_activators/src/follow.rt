//! An input of several activators, from its bytes to those of its report.
ghost use Rattle.std.specs.Prelude.{◌≡◌, ◌⊎◌, ◌+◌, ◌-◌, ◌≤◌, ◌++◌, [], Err, IfErr, IfOk, OnErr, OnOk};
ghost use Rattle.std.specs.Io.KnownBytes.{Appends};
ghost use Rattle.kn_io.specs.Causes.{HasCause, Rose};
ghost use Rattle.kn_io.specs.Prefix.{AppendsPrefix};
ghost use Rattle.kn_journal.specs.Drawing.{error_in};
ghost use Rattle.kn_journal.specs.Journal.{time_most};
ghost use Rattle.kn_journal.specs.LineCalls.{DrawsLines, TakesLines};
ghost use Rattle.kn_journal.specs.Reading.{most_taken};
ghost use Rattle.kn_activators.specs.Calls.{FollowsLines, OpensLines, ReadsEvent};
ghost use Rattle.kn_activators.specs.Replaying.{ReplaysSlices, Stops, WritesNothing, read_error};
ghost use Rattle.kn_activators.specs.Safety.{AfterEachLine, IsLawfulSharing, IsSafeSharing, OnInputOf};
ghost use Rattle.kn_activators.specs.Sharing.{end_line};
ghost use Rattle.kn_activators.specs.Standing.{AreBefore, IsBelow, IsGroupSetup};
ghost use Rattle.kn_report.specs.Waiting.{Adds};

use crate::error::GroupError;
use crate::event::GroupEvent;
use crate::laws::sharing_laws;
use crate::read::{next_ahead, read_next, read_setup};
use crate::replay::Replay;
use crate::setup::GroupSetup;
use kn_event::Memory;
use kn_io::{Failed, Sink, Source};
use kn_journal::{JournalError, Lines, text_laws};
use kn_report::laws::adding_laws;
use std::alloc::Global;

/// Writes what waits, and answers the error, or that this failed.
fn stop<O: Sink>(replay: &mut Replay, e: JournalError, out: &mut O) -> GroupError
    ensures stops { Stops e replay.old.waiting (O.held out.old) (O.held out.new) result }
    ensures fault { result ≡ GroupError.Output → Rose (O.Faulty.faults out.old) (O.Faulty.faults out.new) }
    ensures never_falls { O.Faulty.faults out.old ≤ O.Faulty.faults out.new }
{
    adding_laws();
    match replay.flush(out) {
        Ok(()) => GroupError::Input(e),
        Err(Failed) => GroupError::Output,
    }
}

/// Writes what waits and the last line, over so many events.
fn finish<O: Sink>(replay: &mut Replay, events: u64, out: &mut O) -> Result<(), GroupError>
    ensures ok { OnOk result (Appends (O.held out.old) (O.held out.new) (replay.old.waiting ++ end_line events)) }
    ensures err { IfErr result (λ e. e ≡ GroupError.Output) }
    ensures some { OnErr result (AppendsPrefix (O.held out.old) (O.held out.new) (replay.old.waiting ++ end_line events)) }
    ensures fault { OnErr result (Rose (O.Faulty.faults out.old) (O.Faulty.faults out.new)) }
    ensures never_falls { O.Faulty.faults out.old ≤ O.Faulty.faults out.new }
{
    adding_laws();
    match replay.end(events, out) {
        Ok(()) => {}
        Err(Failed) => return Err(GroupError::Output),
    }
    match replay.flush(out) {
        Ok(()) => Ok(()),
        Err(Failed) => Err(GroupError::Output),
    }
}

/// Writes what waits, unless more is to come at once.
fn write_unless<O: Sink>(replay: &mut Replay, more: bool, out: &mut O) -> Result<(), Failed>
    ensures ok { OnOk result (Adds (O.held out.old) (O.held out.new) replay.old.waiting replay.new.waiting []) }
    ensures err { OnErr result (AppendsPrefix (O.held out.old) (O.held out.new) replay.old.waiting) }
    ensures group { replay.new.group ≡ replay.old.group }
    ensures setup { replay.new.setup ≡ replay.old.setup }
    ensures cause { HasCause (O.Faulty.faults out.old) (O.Faulty.faults out.new) result }
{
    if more {
        return Ok(());
    }
    replay.flush(out)
}

/// Reads the next event. What waits is written before the source may be read. A source that said its end isn't read again.
fn next<S: Source, O: Sink>(
    replay: &mut Replay,
    lines: &mut Lines,
    source: &mut S,
    setup: &GroupSetup,
    last: u64,
    out: &mut O,
) -> Result<Result<Option<GroupEvent>, JournalError>, Failed>
    requires few { lines.old.input.taken ≤ most_taken }
    ensures adds { OnOk result (Adds (O.held out.old) (O.held out.new) replay.old.waiting replay.new.waiting []) }
    ensures failed { OnErr result (AppendsPrefix (O.held out.old) (O.held out.new) replay.old.waiting) }
    ensures group { replay.new.group ≡ replay.old.group }
    ensures setup { replay.new.setup ≡ replay.old.setup }
    ensures read { IfOk result (ReadsEvent setup.now last lines.old lines.new S.Source.own S.Faulty source.old source.new) }
    ensures still { OnErr result ((lines.new ≡ lines.old) × (source.new ≡ source.old)) }
    ensures cause { HasCause (O.Faulty.faults out.old) (O.Faulty.faults out.new) result }
{
    text_laws();
    match next_ahead(lines, setup, last) {
        Some(e) => return Ok(Ok(Some(e))),
        None => {}
    }
    match write_unless(replay, lines.holds_line(), out) {
        Ok(()) => {}
        Err(Failed) => return Err(Failed),
    }
    if lines.is_cut() {
        return Ok(Err(JournalError::NoEnd));
    }
    Ok(read_next(lines, source, setup, last))
}

/// Takes the events behind a start, and writes the last line where all lines are good. What waits is written before the source is
/// read again, and before the answer.
fn follow<S: Source, O: Sink>(
    replay: &mut Replay,
    lines: &mut Lines,
    source: &mut S,
    setup: &GroupSetup,
    start: u64,
    out: &mut O,
) -> Result<(), GroupError>
    requires setup { replay.old.setup ≡ setup.now }
    requires order { AreBefore start replay.old.group }
    requires times { start ≤ time_most }
    requires few { IsBelow 1 replay.old.group }
    requires taken { lines.old.input.taken ≤ most_taken }
    ensures follows { FollowsLines setup.now start replay.old lines.old lines.new (S.left source.old) (S.left source.new) (O.held out.old) (O.held out.new) result }
    ensures memory { WritesNothing result → ⊥ }
    ensures source { DrawsLines (read_error result) lines.old lines.new S.Source.own S.Faulty source.old source.new }
    ensures write_fault { result ≡ Err GroupError.Output → Rose (O.Faulty.faults out.old) (O.Faulty.faults out.new) }
    ensures never_falls { O.Faulty.faults out.old ≤ O.Faulty.faults out.new }
{
    adding_laws();
    text_laws();
    let mut last = start;
    // Each event takes six bytes at least, so after so many 2^56 bytes were taken.
    for count in 0..(1u64 << 54) - 2 {
        let read = match next(replay, lines, source, setup, last, out) {
            Ok(read) => read,
            Err(Failed) => return Err(GroupError::Output),
        };
        let found = match read {
            Ok(found) => found,
            Err(e) => return Err(stop(replay, e, out)),
        };
        let e = match found {
            Some(e) => e,
            None => return finish(replay, count, out),
        };
        last = e.time();
        match replay.take(&e, out) {
            Ok(()) => {}
            Err(Failed) => return Err(GroupError::Output),
        }
    }
    Err(stop(replay, JournalError::ReadFault, out))
}

/// Reads what stands before the events: the setup, and the start.
fn open<S: Source>(lines: &mut Lines, source: &mut S) -> Result<(GroupSetup, u64), JournalError>
    requires number { lines.old.number ≡ 0 }
    ensures opens { OpensLines lines.old lines.new (S.left source.old) (S.left source.new) result }
    ensures text { OnOk result (TakesLines lines.old lines.new S.Source.own source.old source.new) }
    ensures good { IfOk result (λ parts. IsGroupSetup parts.0) }
    ensures most { IfOk result (λ parts. parts.1 ≤ time_most) }
    ensures few { OnOk result (lines.new.input.taken ≤ most_taken) }
    ensures source { DrawsLines (error_in result) lines.old lines.new S.Source.own S.Faulty source.old source.new }
{
    text_laws();
    let setup = read_setup(lines, source)?;
    match lines.start(source) {
        Ok(start) => Ok((setup, start)),
        Err(e) => Err(e),
    }
}

/// Replays an input of several activators, and writes their rows.
pub fn replay_slices<S: Source, O: Sink>(
    alloc: Global,
    source: &mut S,
    out: &mut O,
) -> Result<(), GroupError>
    ensures report { ReplaysSlices (S.left source.old) (S.left source.new) (S.given source.new - S.given source.old) (O.held out.old) (O.held out.new) result }
    ensures memory { WritesNothing result → out.new ≡ out.old }
    ensures read_fault { result ≡ Err (GroupError.Input JournalError.ReadFault) → Rose (S.Faulty.faults source.old) (S.Faulty.faults source.new) ⊎ (S.given source.old + most_taken ≤ S.given source.new) }
    ensures write_fault { result ≡ Err GroupError.Output → Rose (O.Faulty.faults out.old) (O.Faulty.faults out.new) }
    ensures never_falls { S.Faulty.faults source.old ≤ S.Faulty.faults source.new }
    // After the opening and each line: of each pod no more run, over all activators, than the limit in force.
    ensures safe { OnInputOf (S.left source.old) (λ t. AfterEachLine IsSafeSharing t.setup t.start t.read.events) }
    ensures lawful { OnInputOf (S.left source.old) (λ t. AfterEachLine IsLawfulSharing t.setup t.start t.read.events) }
{
    adding_laws();
    sharing_laws();
    text_laws();
    let mut lines = match Lines::new(alloc) {
        Ok(lines) => lines,
        Err(Memory) => return Err(GroupError::Input(JournalError::Memory)),
    };
    let (setup, start) = match open(&mut lines, source) {
        Ok(parts) => parts,
        Err(e) => return Err(GroupError::Input(e)),
    };
    let mut replay = match Replay::new(alloc, setup, start) {
        Ok(replay) => replay,
        Err(Memory) => return Err(GroupError::Input(JournalError::Memory)),
    };
    match replay.open(out) {
        Ok(()) => {}
        Err(Failed) => return Err(GroupError::Output),
    }
    follow(&mut replay, &mut lines, source, &setup, start, out)
}
