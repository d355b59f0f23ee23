//! Text that waits to be written.
ghost use Rattle.std.specs.Prelude.{◌≡◌, ◌+◌, ◌<◌, ◌≤◌, ◌^◌, ◌++◌, [], false, length, true, OnOk, OnErr};
ghost use Rattle.kn_event.specs.EntryLine.{entry_text};
ghost use Rattle.kn_io.specs.Causes.{HasCause};
ghost use Rattle.kn_io.specs.Prefix.{AppendsPrefix};
ghost use Rattle.kn_trace.specs.Report.{rows_text, totals};
ghost use Rattle.kn_trace.specs.Trace.{Trace, entry};
ghost use Rattle.kn_report.specs.Tally.{CountsRow};
ghost use Rattle.kn_report.specs.Waiting.{Adds, own_row};

use crate::decision::put_decision;
use crate::digits::{put_number, put_word};
use crate::rows::{
    ROW_ROOM, put_admit, put_assign, put_direct, put_entry, put_finish, put_not_running,
    put_overload, put_queue_full, put_run,
};
use crate::stamp::Stamp;
use crate::tally::Tally;
use kn_event::{Entry, EntryLog, Line, Row, entry_line};
use kn_io::{Failed, Sink, put_all};
use std::marker::Model;

/// How much may wait.
const ROOM: usize = 16384;

/// How much room the row of a decision asks for.
const DECISION_ROOM: usize = 512;

/// How much room a row behind its activator's number asks for.
const OWN_ROOM: usize = 160;

/// Text that waits to be written, at most 16,384 bytes, and the text of a time. Contracts see the bytes that wait.
#[derive(Drop)]
pub struct Waiting {
    buffer: [u8; 16384],
    len: usize,
    stamp: Stamp,
}

impl Model for Waiting {
    ghost use Rattle.std.specs.Prelude.{ℕ, ◌≤◌, List, take};

    ghost Value = { List ℕ };

    ghost view = { λ w. take w.len w.buffer };

    ghost invariant = { λ w. w.len ≤ 16384 };
}

impl Waiting {
    /// Nothing waits.
    pub fn new() -> Waiting
        ensures { result ≡ [] }
    {
        Waiting {
            buffer: [0; 16384],
            len: 0,
            stamp: Stamp::new(),
        }
    }

    fn bytes(&self) -> &[u8]
        ensures value { result.now ≡ self.now }
        ensures most { length self.now ≤ 16384 }
    {
        &self.buffer[..self.len]
    }

    /// How many bytes wait.
    #[inline(always)]
    pub fn len(&self) -> usize
        ensures value { result ≡ length self.now }
        ensures most { length self.now ≤ 65536 }
    {
        self.bytes().len()
    }

    fn put(&mut self, bytes: &[u8])
        requires { length self.old + length bytes.now ≤ 16384 }
        ensures { self.new ≡ self.old ++ bytes.now }
    {
        let end = self.len + bytes.len();
        self.buffer[self.len..end].copy_from_slice(bytes);
        self.len = end;
    }

    /// Adds the row of an entry behind what waits, and counts it, where it is a frequent one and has room. False says that
    /// nothing was added.
    #[inline(always)]
    fn add_in_place(&mut self, e: &Entry, tally: &mut Tally) -> bool
        requires few { tally.old.rows < 2 ^ 127 }
        ensures added { result ≡ true → self.new ≡ self.old ++ entry_text e.now }
        ensures counted { result ≡ true → CountsRow e.now.row tally.old tally.new }
        ensures same { result ≡ false → self.new ≡ self.old }
        ensures uncounted { result ≡ false → tally.new ≡ tally.old }
    {
        if self.len > ROOM - ROW_ROOM {
            return false;
        }
        match put_entry(&mut self.buffer, self.len, e, &mut self.stamp, tally) {
            Some(end) => {
                self.len = end;
                true
            }
            None => false,
        }
    }

    /// Adds the row of an entry behind what waits, where it is a decision and has room. False says that nothing was added.
    fn add_decision(&mut self, e: &Entry) -> bool
        ensures added { result ≡ true → self.new ≡ self.old ++ entry_text e.now }
        ensures same { result ≡ false → self.new ≡ self.old }
    {
        let Row::Decided(decision) = &e.row else {
            return false;
        };
        if self.len > ROOM - DECISION_ROOM {
            return false;
        }
        let at = self.stamp.put(&mut self.buffer, self.len, e.time);
        let at = put_decision(&mut self.buffer, at, decision);
        self.len = put_word(&mut self.buffer, at, b"\n");
        true
    }

    /// Adds the row of an entry behind what waits, behind its activator's number, where it is a frequent one and has room. False
    /// says that nothing was added.
    #[inline(always)]
    pub(crate) fn add_own_in_place(&mut self, i: u64, e: &Entry) -> bool
        ensures added { result ≡ true → self.new ≡ self.old ++ own_row i e.now }
        ensures same { result ≡ false → self.new ≡ self.old }
    {
        if self.len > ROOM - OWN_ROOM {
            return false;
        }
        let mut uncounted = Tally::new();
        let at = put_number(&mut self.buffer, self.len, i);
        let at = put_word(&mut self.buffer, at, b" ");
        match put_entry(&mut self.buffer, at, e, &mut self.stamp, &mut uncounted) {
            Some(end) => {
                self.len = end;
                true
            }
            None => false,
        }
    }

    /// Whether the rows that an event begins with have room behind what waits: two, of at most 128 bytes each.
    #[inline(always)]
    pub fn has_room(&self) -> bool
        ensures room { result ≡ true → length self.now + 256 ≤ 16384 }
        ensures full { result ≡ false → 16384 < length self.now + 256 }
    {
        self.len() <= ROOM - 2 * ROW_ROOM
    }

    /// Adds an `admit` row behind what waits.
    #[inline(always)]
    pub(crate) fn put_admit(&mut self, time: u64, request: u64, tag: u64)
        requires { length self.old + 128 ≤ 16384 }
        ensures text { self.new ≡ self.old ++ entry_text (entry time (Row.Admit request tag)) }
        ensures short { length self.new ≤ length self.old + 128 }
    {
        let at = self.stamp.put(&mut self.buffer, self.len, time);
        self.len = put_admit(&mut self.buffer, at, request, tag);
    }

    /// Adds a `direct` row behind what waits.
    #[inline(always)]
    pub(crate) fn put_direct(&mut self, time: u64, request: u64, pod: u64)
        requires { length self.old + 128 ≤ 16384 }
        ensures text { self.new ≡ self.old ++ entry_text (entry time (Row.Direct request pod)) }
        ensures short { length self.new ≤ length self.old + 128 }
    {
        let at = self.stamp.put(&mut self.buffer, self.len, time);
        self.len = put_direct(&mut self.buffer, at, request, pod);
    }

    /// Adds an `assign` row behind what waits.
    #[inline(always)]
    pub(crate) fn put_assign(&mut self, time: u64, request: u64, pod: u64)
        requires { length self.old + 128 ≤ 16384 }
        ensures text { self.new ≡ self.old ++ entry_text (entry time (Row.Assign request pod)) }
        ensures short { length self.new ≤ length self.old + 128 }
    {
        let at = self.stamp.put(&mut self.buffer, self.len, time);
        self.len = put_assign(&mut self.buffer, at, request, pod);
    }

    /// Adds a `run` row behind what waits.
    #[inline(always)]
    pub(crate) fn put_run(&mut self, time: u64, request: u64)
        requires { length self.old + 128 ≤ 16384 }
        ensures text { self.new ≡ self.old ++ entry_text (entry time (Row.Run request)) }
        ensures short { length self.new ≤ length self.old + 128 }
    {
        let at = self.stamp.put(&mut self.buffer, self.len, time);
        self.len = put_run(&mut self.buffer, at, request);
    }

    /// Adds a `finish` row behind what waits.
    #[inline(always)]
    pub(crate) fn put_finish(&mut self, time: u64, request: u64, ok: bool)
        requires { length self.old + 128 ≤ 16384 }
        ensures text { self.new ≡ self.old ++ entry_text (entry time (Row.Finish request ok)) }
        ensures short { length self.new ≤ length self.old + 128 }
    {
        let at = self.stamp.put(&mut self.buffer, self.len, time);
        self.len = put_finish(&mut self.buffer, at, request, ok);
    }

    /// Adds a `queue-full` row behind what waits.
    #[inline(always)]
    pub(crate) fn put_queue_full(&mut self, time: u64, request: u64, pod: Option<u64>)
        requires { length self.old + 128 ≤ 16384 }
        ensures text { self.new ≡ self.old ++ entry_text (entry time (Row.QueueFull request pod)) }
        ensures short { length self.new ≤ length self.old + 128 }
    {
        let at = self.stamp.put(&mut self.buffer, self.len, time);
        self.len = put_queue_full(&mut self.buffer, at, request, pod);
    }

    /// Adds an `overload` row behind what waits.
    #[inline(always)]
    pub(crate) fn put_overload(&mut self, time: u64, request: u64)
        requires { length self.old + 128 ≤ 16384 }
        ensures text { self.new ≡ self.old ++ entry_text (entry time (Row.Overload request)) }
        ensures short { length self.new ≤ length self.old + 128 }
    {
        let at = self.stamp.put(&mut self.buffer, self.len, time);
        self.len = put_overload(&mut self.buffer, at, request);
    }

    /// Adds a `not-running` row behind what waits.
    #[inline(always)]
    pub(crate) fn put_not_running(&mut self, time: u64, request: u64)
        requires { length self.old + 128 ≤ 16384 }
        ensures text { self.new ≡ self.old ++ entry_text (entry time (Row.NotRunning request)) }
        ensures short { length self.new ≤ length self.old + 128 }
    {
        let at = self.stamp.put(&mut self.buffer, self.len, time);
        self.len = put_not_running(&mut self.buffer, at, request);
    }

    /// Writes what waits, or on `Failed` some first of it. Nothing waits then.
    pub fn flush<O: Sink>(&mut self, out: &mut O) -> Result<(), Failed>
        ensures ok { OnOk result (Adds (O.held out.old) (O.held out.new) self.old self.new []) }
        ensures err { OnErr result (AppendsPrefix (O.held out.old) (O.held out.new) self.old) }
        ensures empty { self.new ≡ [] }
        ensures kept_stays { O.kept out.new ≡ O.kept out.old }
        ensures cause { HasCause (O.Faulty.faults out.old) (O.Faulty.faults out.new) result }
    {
        let done = put_all(out, self.bytes());
        self.len = 0;
        done
    }

    /// Adds text behind what waits. Where it has no room, what waits is written, and then the text.
    pub fn add<O: Sink>(&mut self, text: &[u8], out: &mut O) -> Result<(), Failed>
        ensures ok { OnOk result (Adds (O.held out.old) (O.held out.new) self.old self.new text.now) }
        ensures err { OnErr result (AppendsPrefix (O.held out.old) (O.held out.new) (self.old ++ text.now)) }
        ensures kept_stays { O.kept out.new ≡ O.kept out.old }
        ensures cause { HasCause (O.Faulty.faults out.old) (O.Faulty.faults out.new) result }
    {
        if text.len() <= ROOM - self.bytes().len() {
            self.put(text);
            return Ok(());
        }
        match self.flush(out) {
            Ok(()) => {}
            Err(Failed) => return Err(Failed),
        }
        put_all(out, text)
    }
}

/// Adds the row of an entry behind what waits, and counts it.
#[inline(always)]
pub(crate) fn add_row<O: Sink>(
    e: &Entry,
    tally: &mut Tally,
    line: &mut Line,
    waiting: &mut Waiting,
    out: &mut O,
) -> Result<(), Failed>
    requires few { tally.old.rows < 2 ^ 127 }
    ensures ok { OnOk result (Adds (O.held out.old) (O.held out.new) waiting.old waiting.new (entry_text e.now)) }
    ensures err { OnErr result (AppendsPrefix (O.held out.old) (O.held out.new) (waiting.old ++ entry_text e.now)) }
    ensures cause { HasCause (O.Faulty.faults out.old) (O.Faulty.faults out.new) result }
    ensures counted { CountsRow e.now.row tally.old tally.new }
{
    if waiting.add_in_place(e, tally) {
        return Ok(());
    }
    add_by_line(e, tally, line, waiting, out)
}

/// Adds the row of an entry behind what waits by way of a line, and counts it.
#[inline(never)]
pub(crate) fn add_by_line<O: Sink>(
    e: &Entry,
    tally: &mut Tally,
    line: &mut Line,
    waiting: &mut Waiting,
    out: &mut O,
) -> Result<(), Failed>
    requires few { tally.old.rows < 2 ^ 127 }
    ensures ok { OnOk result (Adds (O.held out.old) (O.held out.new) waiting.old waiting.new (entry_text e.now)) }
    ensures err { OnErr result (AppendsPrefix (O.held out.old) (O.held out.new) (waiting.old ++ entry_text e.now)) }
    ensures cause { HasCause (O.Faulty.faults out.old) (O.Faulty.faults out.new) result }
    ensures counted { CountsRow e.now.row tally.old tally.new }
{
    tally.add(&e.row);
    if waiting.add_decision(e) {
        return Ok(());
    }
    entry_line(e, line);
    waiting.add(line.bytes(), out)
}

/// Adds a row for each entry behind what waits, and counts them.
#[inline(always)]
pub fn add_rows<O: Sink>(
    log: &EntryLog,
    tally: &mut Tally,
    line: &mut Line,
    waiting: &mut Waiting,
    out: &mut O,
) -> Result<(), Failed>
    requires few { tally.old.rows ≤ 2 ^ 126 + 2 }
    ensures ok { OnOk result (Adds (O.held out.old) (O.held out.new) waiting.old waiting.new (rows_text log.now)) }
    ensures err { OnErr result (AppendsPrefix (O.held out.old) (O.held out.new) (waiting.old ++ rows_text log.now)) }
    ensures cause { HasCause (O.Faulty.faults out.old) (O.Faulty.faults out.new) result }
    ensures count { OnOk result (tally.new.rows ≡ tally.old.rows + length log.now) }
    ensures rows { OnOk result (tally.new.rows < tally.old.rows + 2 ^ 64) }
    ensures totals { (c : Trace) → tally.old.totals ≡ totals c → OnOk result (tally.new.totals ≡ totals (c ++ log.now)) }
{
    for e in log.entries() {
        match add_row(e, tally, line, waiting, out) {
            Ok(()) => {}
            Err(Failed) => return Err(Failed),
        }
    }
    Ok(())
}
