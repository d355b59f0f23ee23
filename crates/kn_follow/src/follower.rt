//! A journal's events that are followed, one after the other.
ghost use Rattle.std.specs.Prelude.{◌≡◌, ◌≢◌, ◌⊎◌, ◌+◌, ◌<◌, ◌≤◌, ◌^◌, [], length, IfOk, OnOk, OnErr, false};
ghost use Rattle.kn_io.specs.Causes.{HasCause};
ghost use Rattle.kn_io.specs.Prefix.{AppendsPrefix};
ghost use Rattle.kn_event.specs.EventLine.{IsInJournalRange};
ghost use Rattle.kn_core.specs.State.{StandsFor};
ghost use Rattle.kn_report.specs.Waiting.{Adds};
ghost use Rattle.kn_teller.specs.Run.{IsOpened, Takes, begun, trace};
ghost use Rattle.kn_follow.specs.Calls.{AddsEvent, AddsStart, BreaksInput, ClosesRun, CutsEvent, CutsStart, DrawsInput, FindsNext, FollowsEvents, FollowsEventsCut, IsCaused, IsReady, IsSound, KnowsEvent, KnowsStart, ReadsToEnd, RestOfEvents, run_from};
ghost use Rattle.kn_follow.specs.Endings.{IsFollowed, Stops};

use crate::ending::status_of;
use kn_core::Revision;
use kn_event::{EntryLog, Event, Line, Memory, Spec};
use kn_io::{Failed, Sink, Source};
use kn_journal::{JournalError, JournalReader, Status, text_laws};
use kn_laws::laws::trace_laws;
use kn_report::Waiting;
use kn_report::laws::adding_laws;
use kn_teller::Teller;
use std::alloc::Global;
use std::marker::Model;

/// A revision that takes a journal's events, with the entries of the last one, and the text that waits.
pub struct Follower {
    revision: Revision,
    log: EntryLog,
    line: Line,
    waiting: Waiting,
}

impl Drop for Follower {
    fn drop(self) {
        let Follower {
            revision: _,
            log: _,
            line: _,
            waiting: _,
        } = self;
    }
}

impl Model for Follower {
    ghost use Rattle.kn_follow.specs.Following.{Running};

    ghost Value = { Running };

    ghost view = { λ f. record { revision = f.revision; log = f.log; waiting = f.waiting } };
}

impl Follower {
    /// Opens the revision, with all the memory that it will ever have.
    pub fn new(alloc: Global, spec: Spec, start: u64) -> Result<Follower, Memory>
        requires times { start ≤ 2 ^ 42 }
        ensures opened { IfOk result (λ f. IsOpened (begun spec start) f.revision f.log) }
        ensures events { IfOk result (λ f. f.revision.events ≡ 0) }
        ensures waiting { IfOk result (λ f. f.waiting ≡ []) }
    {
        trace_laws();
        let mut log = EntryLog::new(alloc)?;
        let revision = Revision::new(alloc, spec, start, &mut log)?;
        Ok(Follower {
            revision,
            log,
            line: Line::new(),
            waiting: Waiting::new(),
        })
    }

    /// Adds what the teller tells of the start, behind what waits.
    pub fn tell_start<T: Teller, O: Sink>(
        &mut self,
        teller: &mut T,
        out: &mut O,
    ) -> Result<(), Failed>
        requires few { T.load teller.old ≤ 0 }
        ensures ok { AddsStart T.Teller O.Sink.own teller.old self.old self.new out.old out.new result }
        ensures err { CutsStart T.Teller O.Sink.own teller.old self.old out.old out.new result }
        ensures knows { KnowsStart T.Teller teller.old teller.new self.old result }
        ensures manner { T.manner teller.new ≡ T.manner teller.old }
        ensures few { OnOk result (T.load teller.new < 2 ^ 64) }
        ensures revision { self.new.revision ≡ self.old.revision }
        ensures cause { HasCause (O.Faulty.faults out.old) (O.Faulty.faults out.new) result }
    {
        teller.open(
            &self.revision,
            &self.log,
            &mut self.line,
            &mut self.waiting,
            out,
        )
    }

    /// Has the teller have the revision take one event, and adds what it tells of it, behind what waits.
    #[inline(always)]
    pub fn take<T: Teller, O: Sink>(
        &mut self,
        teller: &mut T,
        e: &Event,
        out: &mut O,
    ) -> Result<(), Failed>
        requires order { self.old.revision.clock ≤ e.now.time }
        requires times { e.now.time ≤ 2 ^ 42 }
        requires events { self.old.revision.events < 2 ^ 54 }
        requires range { IsInJournalRange e.now.act }
        requires few { T.load teller.old ≤ 2 ^ 126 }
        ensures ok { AddsEvent T.Teller O.Sink.own teller.old e.now self.old self.new out.old out.new result }
        ensures err { CutsEvent T.Teller O.Sink.own teller.old e.now self.old out.old out.new result }
        ensures knows { KnowsEvent T.Teller teller.old teller.new e.now self.old result }
        ensures takes { Takes self.old.revision e.now self.new.revision }
        ensures manner { T.manner teller.new ≡ T.manner teller.old }
        ensures few { OnOk result (T.load teller.new < T.load teller.old + 2 ^ 64) }
        ensures cause { HasCause (O.Faulty.faults out.old) (O.Faulty.faults out.new) result }
    {
        teller.take(
            e,
            &mut self.revision,
            &mut self.log,
            &mut self.line,
            &mut self.waiting,
            out,
        )
    }

    /// Writes what waits, unless more is to come at once.
    pub fn write_unless<O: Sink>(&mut self, more: bool, out: &mut O) -> Result<(), Failed>
        ensures ok { OnOk result (Adds (O.held out.old) (O.held out.new) self.old.waiting self.new.waiting []) }
        ensures err { OnErr result (AppendsPrefix (O.held out.old) (O.held out.new) self.old.waiting) }
        ensures written { more ≡ false → OnOk result (self.new.waiting ≡ []) }
        ensures few { length self.old.waiting ≤ 65536 }
        ensures fits { length self.new.waiting ≤ 65536 }
        ensures revision { self.new.revision ≡ self.old.revision }
        ensures cause { HasCause (O.Faulty.faults out.old) (O.Faulty.faults out.new) result }
    {
        let _few = self.waiting.len();
        if more {
            return Ok(());
        }
        self.waiting.flush(out)
    }

    /// Reads the next event, where none is ahead. What waits is written before the source may be read; `Failed` says that this
    /// failed. A source that said its end isn't read again.
    // (its code stands apart from the loop, in which an event that is ahead is taken without it)
    #[inline(never)]
    fn next<S: Source, O: Sink>(
        &mut self,
        reader: &mut JournalReader,
        source: &mut S,
        out: &mut O,
    ) -> Result<Result<Option<Event>, JournalError>, Failed>
        requires sound { IsSound reader.old }
        ensures adds { OnOk result (Adds (O.held out.old) (O.held out.new) self.old.waiting self.new.waiting []) }
        ensures failed { OnErr result (AppendsPrefix (O.held out.old) (O.held out.new) self.old.waiting) }
        ensures still { OnErr result ((reader.new ≡ reader.old) × (source.new ≡ source.old)) }
        ensures room { length self.old.waiting ≤ 65536 }
        ensures fits { length self.new.waiting ≤ 65536 }
        ensures revision { self.new.revision ≡ self.old.revision }
        ensures next { IfOk result (FindsNext reader.old reader.new S.Source.own S.Faulty source.old source.new) }
        ensures version { reader.new.version ≡ reader.old.version }
        ensures draws { DrawsInput reader.old reader.new S.Source.own S.Faulty source.old source.new }
        ensures cause { HasCause (O.Faulty.faults out.old) (O.Faulty.faults out.new) result }
    {
        adding_laws();
        text_laws();
        let _few = self.waiting.len();
        match self.write_unless(reader.holds_line(), out) {
            Ok(()) => {}
            Err(Failed) => return Err(Failed),
        }
        if reader.is_cut() {
            return Ok(Err(JournalError::NoEnd));
        }
        Ok(reader.next(source))
    }

    /// Writes what waits, and answers the status, or that this failed.
    pub fn stop<O: Sink>(&mut self, status: Status, out: &mut O) -> Status
        ensures stops { Stops self.old.waiting (O.held out.old) (O.held out.new) status result }
        ensures cause { status ≢ Status.WriteFault → IsCaused (O.Faulty.faults out.old) (O.Faulty.faults out.new) result }
    {
        match self.waiting.flush(out) {
            Ok(()) => status,
            Err(Failed) => Status::WriteFault,
        }
    }

    /// Adds what the teller tells at the end, and writes all that waits.
    pub fn end<T: Teller, O: Sink>(
        &mut self,
        teller: &mut T,
        version: u64,
        events: u64,
        out: &mut O,
    ) -> Status
        requires few { T.load teller.old ≤ 2 ^ 126 }
        ensures stops { ClosesRun T.Teller O.Sink.own teller.old version events self.old out.old out.new result }
        ensures cause { IsCaused (O.Faulty.faults out.old) (O.Faulty.faults out.new) result }
        ensures only { (result ≡ Status.Ok) ⊎ (result ≡ Status.WriteFault) }
    {
        match teller.end(version, events, &mut self.line, &mut self.waiting, out) {
            Ok(()) => {}
            Err(Failed) => return Status::WriteFault,
        }
        adding_laws();
        self.stop(Status::Ok, out)
    }

    /// Takes the events of a journal behind its start, and has the teller tell of each, and of the end where all lines are
    /// good. What waits is written before the source is read again, and before the answer.
    pub fn follow<T: Teller, S: Source, O: Sink>(
        &mut self,
        teller: &mut T,
        reader: &mut JournalReader,
        source: &mut S,
        out: &mut O,
    ) -> Status
        requires ready { IsReady self.old.revision reader.old }
        requires stands { StandsFor self.old.revision (trace (run_from self.old.revision)) }
        requires knows { T.knows teller.old (run_from self.old.revision) }
        requires load { T.load teller.old < 2 ^ 64 }
        ensures follows { FollowsEvents (T.manner teller.old) self.old reader.old reader.new S.Source.own O.Sink.own
            source.old source.new out.old out.new result }
        ensures rest { RestOfEvents reader.old reader.new S.Source.own source.old source.new result }
        ensures cut { FollowsEventsCut (T.manner teller.old) self.old reader.old reader.new S.Source.own O.Sink.own
            source.old source.new out.old out.new result }
        ensures followed { IsFollowed result }
        ensures ended { result ≡ Status.Ok → ReadsToEnd reader.old reader.new S.Source.own source.old source.new }
        ensures broken { result ≡ Status.ReadFault → BreaksInput reader.new S.Faulty source.old source.new }
        ensures draws { DrawsInput reader.old reader.new S.Source.own S.Faulty source.old source.new }
        ensures cause { IsCaused (O.Faulty.faults out.old) (O.Faulty.faults out.new) result }
    {
        adding_laws();
        text_laws();
        // Each event takes six bytes at least, so after so many 2^56 bytes were taken.
        for count in 0..1u64 << 54 {
            let _few = self.waiting.len();
            let e = match reader.next_ahead() {
                Some(e) => e,
                None => match self.next(reader, source, out) {
                    Ok(Ok(Some(e))) => e,
                    Ok(Ok(None)) => return self.end(teller, reader.version(), count, out),
                    Ok(Err(error)) => return self.stop(status_of(error), out),
                    Err(Failed) => return Status::WriteFault,
                },
            };
            match self.take(teller, &e, out) {
                Ok(()) => {}
                Err(Failed) => return Status::WriteFault,
            }
        }
        self.stop(Status::ReadFault, out)
    }
}
