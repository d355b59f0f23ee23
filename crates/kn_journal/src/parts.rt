//! The parts of a journal, each read from the lines that come next.
ghost use Rattle.std.specs.Prelude.{◌≡◌, ◌≢◌, ◌+◌, ◌≤◌, ◌<◌, ◌↔◌, ℕ, [], true, Err, Ok, None, Option, Some, Contains, IfOk, IfErr, IfSome, IsTrue, OnOk, drop, false, length, slice_range, take};
ghost use Rattle.std.specs.List.{list_all};
ghost use Rattle.kn_event.specs.EventLine.{event_of, event_text, is_printable, Spells};
ghost use Rattle.kn_preamble.specs.First.{version_most};
ghost use Rattle.kn_journal.specs.LineCalls.{DrawsBy, FindsNothing, HasLfAt, HasFirstLine, HasLfFrom, IsFromAhead, IsNextEvent, RestOfFirst, RestOf, SparesSource, TakesAhead, TakesLines, TakesNext, TellsEvent, TellsPart, TextAhead};
ghost use Rattle.kn_journal.specs.Lines.{line_most};
ghost use Rattle.kn_journal.specs.Reading.{TakesPart, most_taken, unread};
ghost use Rattle.kn_journal.specs.Telling.{AmidNext, IsCauseOf, IsEventFault, IsLineFault, Judges, Lacks, OnEvent};
ghost use Rattle.kn_journal.specs.Bundle.{next_by};
ghost use Rattle.kn_journal.specs.Journal.{first_part, in_time, start_line_in, start_of, start_part, time_most};
ghost use Rattle.kn_journal.specs.Series.{nothing_part};

use crate::error::JournalError;
use crate::first::judge_first;
use crate::input::Input;
use crate::lines::{NoLine, read_line};
use kn_event::{
    Event, LastTime, LineError, Memory, first_end, last_number, read_event, spellings_are_read,
};
use kn_io::Source;
use kn_preamble::FirstLine;
use memchr::memchr;
use std::alloc::Global;
use std::marker::Model;

/// The greatest time, in milliseconds.
pub const TIME_MOST: u64 = 1 << 42;

/// The time of `start T`, or its first fault.
#[tactic(auto, unfolding(crate::specs::Journal::start_of))]
fn read_start(line: &[u8]) -> Result<u64, LineError>
    ensures { result ≡ start_of line.now }
{
    let end = first_end(line);
    if &line[..end] == b"start".as_slice() {
        last_number(line, end)
    } else {
        Err(LineError::BadWord)
    }
}

fn judge_start(line: &[u8], number: u64) -> Result<u64, JournalError>
    ensures judges { Judges start_line_in number line.now result }
    ensures most { IfOk result (λ t. t ≤ time_most) }
{
    match read_start(line) {
        Ok(time) => if time <= TIME_MOST {
            Ok(time)
        } else {
            Err(JournalError::TimeTooLarge(number))
        },
        Err(why) => Err(JournalError::BadLine(number, why)),
    }
}

#[inline(always)]
fn judge_event(line: &[u8], number: u64, version: u64, last: u64) -> Result<Event, JournalError>
    requires least { 1 ≤ version }
    requires most { version ≤ 2 }
    ensures ok { IfOk result (λ e. in_time number last (event_of version line.now) ≡ Ok e) }
    ensures err { IfErr result (λ e. IsCauseOf e (in_time number last (event_of version line.now))) }
    ensures event { IfOk result (IsNextEvent version last) }
    ensures bytes { IfOk result (λ e. 6 ≤ length line.now) }
{
    spellings_are_read();
    match read_event(line, version) {
        Ok(e) => if e.time > TIME_MOST {
            Err(JournalError::TimeTooLarge(number))
        } else if e.time < last {
            Err(JournalError::TimeBack(number, last, e.time))
        } else {
            Ok(e)
        },
        Err(why) => Err(JournalError::BadLine(number, why)),
    }
}

/// The lines of an input, one after the other. Contracts see the input, the line read last, its number, and whether the input
/// said its end then.
#[derive(Drop)]
pub struct Lines {
    input: Input,
    line: Vec<u8>,
    number: u64,
    cut: bool,
    time: LastTime,
}

impl Model for Lines {
    ghost use Rattle.std.specs.Prelude.{◌≤◌, vec_capacity};
    ghost use Rattle.kn_journal.specs.Lines.{line_most};
    ghost use Rattle.kn_journal.specs.Reading.{most_taken};
    ghost use Rattle.kn_journal.specs.Telling.{LinesState};

    ghost Value = { LinesState };

    ghost view = { λ r. record { input = r.input; line = r.line.items; number = r.number; cut = r.cut } };

    ghost invariant = { λ r. record { room : line_most ≤ vec_capacity r.line; few : r.number ≤ r.input.taken; most : r.number ≤ most_taken } };
}

impl Lines {
    /// No line was read.
    pub fn new(alloc: Global) -> Result<Lines, Memory>
        ensures ahead { IfOk result (λ r. r.input.ahead ≡ []) }
        ensures taken { IfOk result (λ r. r.input.taken ≡ 0) }
        ensures number { IfOk result (λ r. r.number ≡ 0) }
        ensures cut { IfOk result (λ r. r.cut ≡ false) }
    {
        let input = Input::new(alloc)?;
        match Vec::with_capacity(alloc, 65536) {
            Ok(line) => Ok(Lines {
                input,
                line,
                number: 0,
                cut: false,
                time: LastTime::new(),
            }),
            Err(_) => Err(Memory),
        }
    }

    /// The line read last, lent.
    pub fn line(&self) -> &[u8]
        ensures { result.now ≡ self.now.line }
    {
        &self.line
    }

    /// The number of the line read last, counted from 1; 0 before the first.
    pub fn number(&self) -> u64
        ensures { result ≡ self.now.number }
    {
        self.number
    }

    /// Whether the input said its end when it was read last. A line that was read then is the last one, and has no LF.
    pub fn is_cut(&self) -> bool
        ensures { result ≡ self.now.cut }
    {
        self.cut
    }

    /// Whether a whole line is ahead, with its LF.
    pub fn holds_line(&self) -> bool
        ensures { IsTrue result ↔ Contains self.now.input.ahead 10 }
    {
        memchr(b'\n', self.input.ahead()).is_some()
    }

    /// How many bytes were read ahead.
    pub fn ahead_len(&self) -> usize
        ensures value { result ≡ length self.now.input.ahead }
        ensures most { length self.now.input.ahead ≤ 65536 }
    {
        self.input.ahead_len()
    }

    /// Reads the next line. The source is read only where no whole line is ahead.
    pub fn next_line<S: Source>(&mut self, source: &mut S) -> Result<(), JournalError>
        ensures taken { OnOk result (TakesNext self.old self.new S.Source.own source.old source.new) }
        ensures none { IfErr result (λ e. Lacks self.old.number e (unread self.old.input (S.left source.old))) }
        ensures memory { result ≢ Err JournalError.Memory }
        ensures over { result ≡ Err JournalError.NoEnd → FindsNothing self.old self.new S.Source.own source.old source.new }
        ensures short { IfErr result (λ e. ¬ IsLineFault e) }
        ensures source { DrawsBy TakesPart self.old self.new S.Source.own S.Faulty source.old source.new result }
        ensures ready { Contains self.old.input.ahead 10 → source.new ≡ source.old }
        ensures few { self.new.input.taken ≤ most_taken }
    {
        match read_line(&mut self.input, source, &mut self.line, &mut self.cut) {
            Ok(true) => {
                self.number += 1;
                Ok(())
            }
            Ok(false) => Err(JournalError::NoEnd),
            Err(NoLine::TooLong) => Err(JournalError::LineTooLong(self.number + 1)),
            Err(NoLine::Fault) => Err(JournalError::ReadFault),
        }
    }

    /// Reads a first line, and answers the version that it names.
    pub fn first<S: Source>(
        &mut self,
        source: &mut S,
        first: FirstLine,
    ) -> Result<u64, JournalError>
        ensures tells { TellsPart (first_part first) self.old self.new S.Source.own source.old source.new result }
        ensures rest { RestOfFirst (first_part first) self.old self.new S.Source.own source.old source.new result }
        ensures text { OnOk result (TakesLines self.old self.new S.Source.own source.old source.new) }
        ensures least { IfOk result (λ version. 1 ≤ version) }
        ensures most { IfOk result (λ version. version ≤ version_most first) }
        ensures source { DrawsBy TakesPart self.old self.new S.Source.own S.Faulty source.old source.new result }
        ensures few { self.new.input.taken ≤ most_taken }
    {
        match self.next_line(source) {
            Ok(()) => judge_first(&self.line, self.number, first),
            Err(e) => Err(e),
        }
    }

    /// Reads the start, in milliseconds.
    pub fn start<S: Source>(&mut self, source: &mut S) -> Result<u64, JournalError>
        ensures tells { TellsPart start_part self.old self.new S.Source.own source.old source.new result }
        ensures rest { RestOf start_part self.old self.new S.Source.own source.old source.new result }
        ensures text { OnOk result (TakesLines self.old self.new S.Source.own source.old source.new) }
        ensures most { IfOk result (λ start. start ≤ time_most) }
        ensures memory { result ≢ Err JournalError.Memory }
        ensures source { DrawsBy TakesPart self.old self.new S.Source.own S.Faulty source.old source.new result }
        ensures ready { Contains self.old.input.ahead 10 → source.new ≡ source.old }
        ensures few { self.new.input.taken ≤ most_taken }
    {
        match self.next_line(source) {
            Ok(()) => judge_start(&self.line, self.number),
            Err(e) => Err(e),
        }
    }

    /// Reads the end of the input, where no further line may stand.
    pub fn end<S: Source>(&mut self, source: &mut S) -> Result<(), JournalError>
        ensures tells { TellsPart nothing_part self.old self.new S.Source.own source.old source.new result }
        ensures rest { RestOf nothing_part self.old self.new S.Source.own source.old source.new result }
        ensures behind { IfErr result (λ e. ¬ IsEventFault e) }
        ensures memory { result ≢ Err JournalError.Memory }
        ensures source { DrawsBy TakesPart self.old self.new S.Source.own S.Faulty source.old source.new result }
        ensures few { self.new.input.taken ≤ most_taken }
    {
        match read_line(&mut self.input, source, &mut self.line, &mut self.cut) {
            Ok(false) => {}
            Ok(true) => return Err(JournalError::AfterEnd(self.number + 1)),
            Err(NoLine::TooLong) => return Err(JournalError::LineTooLong(self.number + 1)),
            Err(NoLine::Fault) => return Err(JournalError::ReadFault),
        }
        Ok(())
    }

    /// The next event, at this time or later, and the place of its line's LF, where the line is a usual one and ahead
    /// with its LF. None says nothing.
    #[inline(always)]
    fn event_ahead(&mut self, version: u64, last: u64) -> Option<(Event, usize)>
        ensures line { IfSome result (λ p. HasFirstLine self.old.input.ahead (event_text p.0) p.1) }
        ensures lf { IfSome result (λ p. HasLfAt self.old.input.ahead p.1) }
        ensures event { IfSome result (λ p.
            in_time (self.old.number + 1) last (event_of version (event_text p.0)) ≡ Ok p.0) }
        ensures inside { IfSome result (λ p. p.1 < length self.old.input.ahead) }
        ensures fits { IfSome result (λ p. length (event_text p.0) ≤ line_most) }
        ensures few { IfSome result (λ p. self.old.input.taken + p.1 < most_taken) }
        ensures bytes { IfSome result (λ p. 6 ≤ length (event_text p.0)) }
        ensures long { IfSome result (λ p. 6 ≤ p.1) }
        ensures next { IfSome result (λ p. IsNextEvent version last p.0) }
        ensures same { self.new ≡ self.old }
    {
        spellings_are_read();
        let (e, len) = self.time.event_ahead(self.input.ahead())?;
        if e.time < last || !self.input.may_take_all() || e.time > TIME_MOST {
            return None;
        }
        Some((e, len))
    }

    /// What was read ahead, lent.
    #[inline(always)]
    pub fn ahead(&self) -> &[u8]
        ensures { result.now ≡ self.now.input.ahead }
    {
        self.input.ahead()
    }

    /// The event that stands from this place on of what is ahead, up to an LF, and the place of that LF. None says nothing.
    #[inline(always)]
    pub fn event_from(&mut self, from: usize) -> Option<(Event, usize)>
        requires within { from ≤ length self.old.input.ahead }
        ensures inside { IfSome result (λ p. p.1 < length self.old.input.ahead) }
        ensures least { IfSome result (λ p. from + 6 ≤ p.1) }
        ensures most { IfSome result (λ p. p.1 ≤ from + 100) }
        ensures lf { IfSome result (λ p. HasLfFrom self.old.input.ahead from p.1) }
        ensures spells { IfSome result (λ p. (version : ℕ) → Spells version (slice_range self.old.input.ahead from p.1) p.0) }
        ensures few { IfSome result (λ p. self.old.input.taken + p.1 < most_taken) }
        ensures same { self.new ≡ self.old }
    {
        spellings_are_read();
        let (e, len) = self.time.event_ahead(&self.input.ahead()[from..])?;
        if self.input.may_take() <= (from + len) as u64 {
            return None;
        }
        // A line that ends with a CR is left to `next_line`.
        if len == 0 || self.input.ahead()[from + len - 1] == b'\r' {
            return None;
        }
        Some((e, from + len))
    }

    /// Takes the line ahead whose LF stands at this place.
    #[inline(always)]
    pub fn take_line(&mut self, len: usize)
        requires inside { len < length self.old.input.ahead }
        requires few { self.old.input.taken + len < most_taken }
        requires lf { HasLfAt self.old.input.ahead len }
        requires printable { list_all is_printable (take len self.old.input.ahead) ≡ true }
        ensures lines { TakesAhead self.old.input self.new.input (take len self.old.input.ahead) }
        ensures ahead { self.new.input.ahead ≡ drop (len + 1) self.old.input.ahead }
        ensures taken { self.new.input.taken ≡ self.old.input.taken + len + 1 }
        ensures number { self.new.number ≡ self.old.number + 1 }
        ensures line { self.new.line ≡ self.old.line }
        ensures cut { self.new.cut ≡ false }
    {
        self.input.skip(len + 1);
        self.number += 1;
        self.cut = false;
    }

    /// Takes the next event, at this time or later, where its line is a usual one and ahead with its LF. None says nothing, and
    /// takes nothing.
    #[inline(always)]
    pub fn next_ahead(&mut self, version: u64, last: u64) -> Option<Event>
        ensures tells { IfSome result (TellsEvent version last self.old self.new) }
        ensures text { IfSome result (λ e. TextAhead self.new.cut self.old.input self.new.input) }
        ensures event { IfSome result (IsNextEvent version last) }
        ensures bytes { IfSome result (λ e. self.old.input.taken + 6 ≤ self.new.input.taken) }
        ensures few { IfSome result (λ e. self.new.input.taken ≤ most_taken) }
        ensures balance { IsFromAhead self.old.input self.new.input }
        ensures same { result ≡ None → self.new ≡ self.old }
    {
        let (e, len) = self.event_ahead(version, last)?;
        self.input.skip(len + 1);
        self.number += 1;
        self.cut = false;
        Some(e)
    }

    /// Reads the next event, at this time or later, or `end`, and the end of the input where this is no bundle's.
    pub fn next<S: Source>(
        &mut self,
        source: &mut S,
        bundle: bool,
        version: u64,
        last: u64,
    ) -> Result<Option<Event>, JournalError>
        requires least { 1 ≤ version }
        requires most { version ≤ 2 }
        ensures tells { TellsPart (next_by bundle version last) self.old self.new S.Source.own source.old source.new result }
        ensures rest { RestOf (next_by bundle version last) self.old self.new S.Source.own source.old source.new result }
        ensures text { OnEvent result (λ e. TakesLines self.old self.new S.Source.own source.old source.new) }
        ensures event { OnEvent result (IsNextEvent version last) }
        ensures bytes { OnEvent result (λ e. self.old.input.taken + 6 ≤ self.new.input.taken) }
        ensures memory { result ≢ Err JournalError.Memory }
        ensures closes { bundle ≡ true → OnOk result (TakesLines self.old self.new S.Source.own source.old source.new) }
        ensures source { DrawsBy (AmidNext bundle) self.old self.new S.Source.own S.Faulty source.old source.new result }
        ensures spares { SparesSource self.old.input source.old source.new result }
        ensures few { self.new.input.taken ≤ most_taken }
    {
        match self.next_ahead(version, last) {
            Some(e) => return Ok(Some(e)),
            None => {}
        }
        match self.next_line(source) {
            Ok(()) => {}
            Err(e) => return Err(e),
        }
        if self.line.as_slice() == b"end".as_slice() {
            if bundle {
                return Ok(None);
            }
            // There the input said its end.
            if self.cut {
                return Ok(None);
            }
            return match self.end(source) {
                Ok(()) => Ok(None),
                Err(e) => Err(e),
            };
        }
        match judge_event(&self.line, self.number, version, last) {
            Ok(e) => Ok(Some(e)),
            Err(e) => Err(e),
        }
    }
}
