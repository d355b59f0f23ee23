//! A journal that is read call by call.
ghost use Rattle.std.specs.Prelude.{◌≡◌, ◌≢◌, ◌+◌, ◌≤◌, ◌↔◌, ℕ, List, [], Option, Err, None, Contains, IfOk, IfSome, IsTrue, false, length, OnOk, true};
ghost use Rattle.kn_journal.specs.LineCalls.{Anywhere, IsFromAhead, IsNextEvent, SparesSource};
ghost use Rattle.kn_journal.specs.Bundle.{AreSetups};
ghost use Rattle.kn_journal.specs.Calls.{AmidEvent, AmidOpening, BeginsJournal, DrawsOn, FailsForGood, KeepsJournal, OpensJournal, ReadsAhead, ReadsFirst, ReadsNext, ReadsOpening, ReadsPart, ReadsTo, TellsSetups};
ghost use Rattle.kn_journal.specs.Journal.{IsSetup, start_part, time_most};
ghost use Rattle.kn_journal.specs.Series.{nothing_part};
ghost use Rattle.kn_journal.specs.Reading.{TakesPart, most_taken};
ghost use Rattle.kn_journal.specs.Telling.{OnEvent};

use crate::bundle::{read_first_of, read_opening_by};
use crate::error::JournalError;
use crate::journal::{Setup, Setups};
use crate::listed::read_setups;
use crate::parts::Lines;
use kn_event::{Event, Memory};
use kn_io::Source;
use std::alloc::Global;
use std::marker::Model;

/// A journal that is read part by part: the setup, then the start, then event after event; or a setup alone; or a list of
/// setups; or a bundle of journals, with a `part` before each. The input of a call is what earlier calls took of their sources and didn't use, and then what the source of this call has left. After an
/// error each call answers that error again.
///
/// Contracts see the input, the number of the line read last, whether the input said its end then, the version, the last time, the
/// error that was answered, whether a journal ends at its `end`, and whether its first line was taken before its setup.
pub struct JournalReader {
    lines: Lines,
    version: u64,
    last: u64,
    failed: Option<JournalError>,
    bundle: bool,
    begun: bool,
}

impl Drop for JournalReader {
    fn drop(self) {
        let JournalReader {
            lines: _,
            version: _,
            last: _,
            failed: _,
            bundle: _,
            begun: _,
        } = self;
    }
}

impl Model for JournalReader {
    ghost use Rattle.std.specs.Prelude.{◌≤◌};
    ghost use Rattle.kn_journal.specs.Telling.{ReaderState};

    ghost Value = { ReaderState };

    ghost view = { λ r. record { input = r.lines.input; number = r.lines.number; cut = r.lines.cut; version = r.version; last = r.last; failed = r.failed; bundle = r.bundle; begun = r.begun } };

    ghost invariant = { λ r. record { least : 1 ≤ r.version; most : r.version ≤ 2 } };
}

impl JournalReader {
    /// A reader that has read nothing.
    pub fn new(alloc: Global) -> Result<JournalReader, Memory>
        ensures ahead { IfOk result (λ r. r.input.ahead ≡ []) }
        ensures taken { IfOk result (λ r. r.input.taken ≡ 0) }
        ensures number { IfOk result (λ r. r.number ≡ 0) }
        ensures cut { IfOk result (λ r. r.cut ≡ false) }
        ensures failed { IfOk result (λ r. r.failed ≡ None) }
        ensures bundle { IfOk result (λ r. r.bundle ≡ false) }
        ensures begun { IfOk result (λ r. r.begun ≡ false) }
    {
        match Lines::new(alloc) {
            Ok(lines) => Ok(JournalReader {
                lines,
                version: 1,
                last: 0,
                failed: None,
                bundle: false,
                begun: false,
            }),
            Err(Memory) => Err(Memory),
        }
    }

    /// The version of the journal, once its setup was read.
    pub fn version(&self) -> u64
        ensures { result ≡ self.now.version }
    {
        self.version
    }

    /// Whether the input said its end when it was read last. A line that was read then is the last one, and has no LF.
    pub fn is_cut(&self) -> bool
        ensures { result ≡ self.now.cut }
    {
        self.lines.is_cut()
    }

    /// Whether a whole line is ahead, with its LF. While one is, no call but `setup` and `setups` reads from the source before it
    /// took that line.
    pub fn holds_line(&self) -> bool
        ensures { IsTrue result ↔ Contains self.now.input.ahead 10 }
    {
        self.lines.holds_line()
    }

    /// How many bytes were read from sources ahead of what was taken, at most 65,536.
    pub fn ahead_len(&self) -> usize
        ensures value { result ≡ length self.now.input.ahead }
        ensures most { length self.now.input.ahead ≤ 65536 }
    {
        self.lines.ahead_len()
    }

    /// Takes the first line of a bundle's next journal, or says that the input ends there. From then on a journal ends at its
    /// `end`, and the next `setup` begins behind that first line. Where the input said its end, no source is read again.
    pub fn part<S: Source>(&mut self, source: &mut S) -> Result<bool, JournalError>
        ensures reads { ReadsFirst self.old self.new S.Source.own source.old source.new result }
        ensures begins { BeginsJournal self.old self.new result }
        ensures source { DrawsOn TakesPart self.old self.new S.Source.own S.Faulty source.old source.new result }
        ensures ready { Contains self.old.input.ahead 10 → source.new ≡ source.old }
        ensures over { self.old.cut ≡ true → source.new ≡ source.old }
        ensures memory { self.old.failed ≡ None → result ≢ Err JournalError.Memory }
        ensures few { self.old.failed ≡ None → self.old.input.taken ≤ most_taken → self.new.input.taken ≤ most_taken }
        ensures fails { FailsForGood self.old self.new source.old source.new result }
    {
        if let Some(e) = self.failed {
            return Err(e);
        }
        self.bundle = true;
        if self.lines.is_cut() {
            return Ok(false);
        }
        match read_first_of(&mut self.lines, source) {
            Ok(Some(version)) => {
                self.version = version;
                self.begun = true;
                Ok(true)
            }
            Ok(None) => Ok(false),
            Err(e) => {
                self.failed = Some(e);
                Err(e)
            }
        }
    }

    /// Reads the version and the setup; behind a `part` the setup alone. The setup's text reads as that setup, also of a source that doesn't tell its bytes.
    pub fn setup<S: Source>(&mut self, alloc: Global, source: &mut S) -> Result<Setup, JournalError>
        ensures reads { ReadsOpening self.old self.new S.Source.own source.old source.new result }
        ensures kept { IfOk result IsSetup }
        ensures opens { OpensJournal self.old self.new result }
        ensures source { DrawsOn (AmidOpening self.old) self.old self.new S.Source.own S.Faulty source.old source.new result }
        ensures fails { FailsForGood self.old self.new source.old source.new result }
    {
        if let Some(e) = self.failed {
            return Err(e);
        }
        match read_opening_by(alloc, &mut self.lines, source, self.begun, self.version) {
            Ok(opening) => {
                self.version = opening.version;
                self.begun = false;
                Ok(opening.setup)
            }
            Err(e) => {
                self.failed = Some(e);
                Err(e)
            }
        }
    }

    /// Reads the start, in milliseconds, after the setup.
    pub fn start<S: Source>(&mut self, source: &mut S) -> Result<u64, JournalError>
        ensures reads { ReadsPart start_part self.old self.new S.Source.own source.old source.new result }
        ensures text { OnOk result (ReadsTo self.old self.new S.Source.own source.old source.new) }
        ensures start { IfOk result (λ start. self.new.last ≡ start) }
        ensures most { IfOk result (λ start. start ≤ time_most) }
        ensures journal { KeepsJournal self.old self.new }
        ensures source { DrawsOn TakesPart self.old self.new S.Source.own S.Faulty source.old source.new result }
        ensures ready { Contains self.old.input.ahead 10 → source.new ≡ source.old }
        ensures memory { self.old.failed ≡ None → result ≢ Err JournalError.Memory }
        ensures few { self.old.failed ≡ None → self.new.input.taken ≤ most_taken }
        ensures fails { FailsForGood self.old self.new source.old source.new result }
    {
        if let Some(e) = self.failed {
            return Err(e);
        }
        match self.lines.start(source) {
            Ok(start) => {
                self.last = start;
                Ok(start)
            }
            Err(e) => {
                self.failed = Some(e);
                Err(e)
            }
        }
    }

    /// Takes the next event, at the last time or later, where its line is a usual one and ahead with its LF. None says nothing,
    /// and takes nothing.
    #[inline(always)]
    pub fn next_ahead(&mut self) -> Option<Event>
        ensures reads { IfSome result (λ e. (left : Option (List ℕ)) → ReadsAhead self.old self.new left e) }
        ensures event { IfSome result (IsNextEvent self.old.version self.old.last) }
        ensures last { IfSome result (λ e. self.new.last ≡ e.time) }
        ensures bytes { IfSome result (λ e. self.old.input.taken + 6 ≤ self.new.input.taken) }
        ensures journal { KeepsJournal self.old self.new }
        ensures few { IfSome result (λ e. self.new.input.taken ≤ most_taken) }
        ensures good { IfSome result (λ e. self.old.failed ≡ None) }
        ensures failed { self.new.failed ≡ self.old.failed }
        ensures balance { IsFromAhead self.old.input self.new.input }
        ensures same { result ≡ None → self.new ≡ self.old }
    {
        if self.failed.is_some() {
            return None;
        }
        let e = self.lines.next_ahead(self.version, self.last)?;
        self.last = e.time;
        Some(e)
    }

    /// Reads the next event, at the last time or later; `None` where `end` comes, and then the end of the input unless the
    /// journal is a bundle's.
    pub fn next<S: Source>(&mut self, source: &mut S) -> Result<Option<Event>, JournalError>
        ensures reads { ReadsNext self.old self.new S.Source.own source.old source.new result }
        ensures event { OnEvent result (IsNextEvent self.old.version self.old.last) }
        ensures last { OnEvent result (λ e. self.new.last ≡ e.time) }
        ensures bytes { OnEvent result (λ e. self.old.input.taken + 6 ≤ self.new.input.taken) }
        ensures journal { KeepsJournal self.old self.new }
        ensures source { DrawsOn (AmidEvent self.old) self.old self.new S.Source.own S.Faulty source.old source.new result }
        ensures spares { SparesSource self.old.input source.old source.new result }
        ensures memory { self.old.failed ≡ None → result ≢ Err JournalError.Memory }
        ensures few { self.old.failed ≡ None → self.new.input.taken ≤ most_taken }
        ensures fails { FailsForGood self.old self.new source.old source.new result }
    {
        if let Some(e) = self.failed {
            return Err(e);
        }
        match self
            .lines
            .next(source, self.bundle, self.version, self.last)
        {
            Ok(Some(e)) => {
                self.last = e.time;
                Ok(Some(e))
            }
            Ok(None) => Ok(None),
            Err(e) => {
                self.failed = Some(e);
                Err(e)
            }
        }
    }

    /// Reads the end of the input, in place of the start: after a setup that stands alone no line may follow.
    pub fn finish_setup<S: Source>(&mut self, source: &mut S) -> Result<(), JournalError>
        ensures reads { ReadsPart nothing_part self.old self.new S.Source.own source.old source.new result }
        ensures journal { KeepsJournal self.old self.new }
        ensures source { DrawsOn TakesPart self.old self.new S.Source.own S.Faulty source.old source.new result }
        ensures memory { self.old.failed ≡ None → result ≢ Err JournalError.Memory }
        ensures fails { FailsForGood self.old self.new source.old source.new result }
    {
        if let Some(e) = self.failed {
            return Err(e);
        }
        match self.lines.end(source) {
            Ok(()) => Ok(()),
            Err(e) => {
                self.failed = Some(e);
                Err(e)
            }
        }
    }

    /// Reads `kact setups 1`, then so many setups of different revisions, and then the end of the input. Each setup's text reads as it.
    pub fn setups<S: Source>(
        &mut self,
        alloc: Global,
        source: &mut S,
        n: u64,
    ) -> Result<Setups, JournalError>
        ensures tells { self.old.failed ≡ None → TellsSetups n self.old self.new S.Source.own source.old source.new result }
        ensures kept { IfOk result AreSetups }
        ensures count { IfOk result (λ setups. length setups ≡ n) }
        ensures journal { KeepsJournal self.old self.new }
        ensures source { DrawsOn Anywhere self.old self.new S.Source.own S.Faulty source.old source.new result }
        ensures fails { FailsForGood self.old self.new source.old source.new result }
    {
        if let Some(e) = self.failed {
            return Err(e);
        }
        match read_setups(alloc, &mut self.lines, source, n) {
            Ok(setups) => Ok(setups),
            Err(e) => {
                self.failed = Some(e);
                Err(e)
            }
        }
    }
}
