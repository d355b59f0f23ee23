//! The counts of a report, and its last line.
ghost use Rattle.std.specs.Prelude.{◌≡◌, ℕ, ◌+◌, ◌<◌, ◌≤◌, ◌^◌, ◌++◌, [], length};
ghost use Rattle.kn_trace.specs.Trace.{Trace};
ghost use Rattle.kn_trace.specs.Report.{totals, named, taken_text, ended_text, refused_text, lost_text, last_line};
ghost use Rattle.kn_report.specs.Tally.{CountsRow};

use kn_event::{EntryLog, Line, Row};
use std::marker::Model;

/// How many entries of each kind there were, and of all other kinds.
#[derive(Drop)]
pub struct Tally {
    admitted: u128,
    direct: u128,
    assigned: u128,
    finished: u128,
    failed: u128,
    expired: u128,
    cancelled: u128,
    queue_full: u128,
    overload: u128,
    decisions: u128,
    lost: u128,
    others: u128,
}

impl Model for Tally {
    ghost use Rattle.std.specs.Prelude.{◌+◌};
    ghost use Rattle.kn_report.specs.Tally.{Counted};

    ghost Value = { Counted };

    ghost view = { λ t. record { rows = t.admitted + t.direct + t.assigned + t.finished + t.failed + t.expired + t.cancelled + t.queue_full + t.overload + t.decisions + t.lost + t.others; totals = record { admitted = t.admitted; direct = t.direct; assigned = t.assigned; finished = t.finished; failed = t.failed; expired = t.expired; cancelled = t.cancelled; queue_full = t.queue_full; overload = t.overload; decisions = t.decisions; lost = t.lost } } };
}

impl Tally {
    /// No entry yet.
    #[tactic(auto, unfolding(kn_trace::specs::Report::totals))]
    pub fn new() -> Tally
        ensures rows { result.rows ≡ 0 }
        ensures totals { result.totals ≡ totals [] }
    {
        Tally {
            admitted: 0,
            direct: 0,
            assigned: 0,
            finished: 0,
            failed: 0,
            expired: 0,
            cancelled: 0,
            queue_full: 0,
            overload: 0,
            decisions: 0,
            lost: 0,
            others: 0,
        }
    }

    /// Counts one entry more.
    #[inline(always)]
    pub fn add(&mut self, row: &Row)
        requires { self.old.rows < 2 ^ 127 }
        ensures counted { CountsRow row.now self.old self.new }
    {
        match *row {
            Row::Admit(_, _) => self.admitted += 1,
            Row::Direct(_, _) => self.direct += 1,
            Row::Assign(_, _) => self.assigned += 1,
            Row::Finish(_, true) => self.finished += 1,
            Row::Finish(_, false) => self.failed += 1,
            Row::Expire(_) => self.expired += 1,
            Row::Cancel(_) => self.cancelled += 1,
            Row::QueueFull(_, _) => self.queue_full += 1,
            Row::Overload(_) => self.overload += 1,
            Row::LostRequest(_) => self.lost += 1,
            Row::Decided(_) => self.decisions += 1,
            _ => self.others += 1,
        }
    }

    /// Counts one `admit` row more.
    #[inline(always)]
    pub(crate) fn count_admit(&mut self)
        requires { self.old.rows < 2 ^ 127 }
        ensures counted { (request tag : ℕ) → CountsRow (Row.Admit request tag) self.old self.new }
    {
        self.admitted += 1;
    }

    /// Counts one `direct` row more.
    #[inline(always)]
    pub(crate) fn count_direct(&mut self)
        requires { self.old.rows < 2 ^ 127 }
        ensures counted { (request pod : ℕ) → CountsRow (Row.Direct request pod) self.old self.new }
    {
        self.direct += 1;
    }

    /// Counts one `assign` row more.
    #[inline(always)]
    pub(crate) fn count_assign(&mut self)
        requires { self.old.rows < 2 ^ 127 }
        ensures counted { (request pod : ℕ) → CountsRow (Row.Assign request pod) self.old self.new }
    {
        self.assigned += 1;
    }

    /// Counts one `run` row more.
    #[inline(always)]
    pub(crate) fn count_run(&mut self)
        requires { self.old.rows < 2 ^ 127 }
        ensures counted { (request : ℕ) → CountsRow (Row.Run request) self.old self.new }
    {
        self.others += 1;
    }

    /// Counts one `finish` row more.
    #[inline]
    pub(crate) fn count_finish(&mut self, ok: bool)
        requires { self.old.rows < 2 ^ 127 }
        ensures counted { (request : ℕ) → CountsRow (Row.Finish request ok) self.old self.new }
    {
        if ok {
            self.finished += 1;
        } else {
            self.failed += 1;
        }
    }

    /// Counts the log's entries.
    pub fn add_all(&mut self, log: &EntryLog)
        requires { self.old.rows ≤ 2 ^ 126 }
        ensures rows { self.new.rows ≡ self.old.rows + length log.now }
        ensures few { length log.now < 2 ^ 64 }
        ensures totals { (c : Trace) → self.old.totals ≡ totals c → self.new.totals ≡ totals (c ++ log.now) }
    {
        for e in log.entries() {
            self.add(&e.row);
        }
    }

    /// Sets the line to the last line of a report over so many events, with its LF. A journal of version 2 counts the lost
    /// requests too.
    #[tactic(auto, using(std::proofs::Common::append_assoc), unfolding(kn_trace::specs::Report::last_line))]
    pub fn last_line(&self, version: u64, events: u64, line: &mut Line)
        ensures { line.new ≡ last_line version events self.now.totals }
    {
        line.clear();
        self.put_taken(events, line);
        self.put_ended(line);
        self.put_refused(line);
        self.put_lost(version, line);
        line.put(b"\n");
    }

    #[tactic(auto, using(crate::proofs::Pieces::four_pieces), unfolding(kn_trace::specs::Report::taken_text))]
    fn put_taken(&self, events: u64, line: &mut Line)
        requires { length line.old ≤ 0 }
        ensures value { line.new ≡ line.old ++ taken_text events self.now.totals }
        ensures short { length line.new ≤ 260 }
    {
        put_named(line, b"end events=", u128::from(events));
        put_named(line, b" admitted=", self.admitted);
        put_named(line, b" direct=", self.direct);
        put_named(line, b" assigned=", self.assigned);
    }

    #[tactic(auto, using(crate::proofs::Pieces::four_pieces), unfolding(kn_trace::specs::Report::ended_text))]
    fn put_ended(&self, line: &mut Line)
        requires { length line.old ≤ 260 }
        ensures value { line.new ≡ line.old ++ ended_text self.now.totals }
        ensures short { length line.new ≤ 500 }
    {
        put_named(line, b" finished=", self.finished);
        put_named(line, b" failed=", self.failed);
        put_named(line, b" expired=", self.expired);
        put_named(line, b" cancelled=", self.cancelled);
    }

    #[tactic(auto, using(crate::proofs::Pieces::three_pieces), unfolding(kn_trace::specs::Report::refused_text))]
    fn put_refused(&self, line: &mut Line)
        requires { length line.old ≤ 500 }
        ensures value { line.new ≡ line.old ++ refused_text self.now.totals }
        ensures short { length line.new ≤ 700 }
    {
        put_named(line, b" queue-full=", self.queue_full);
        put_named(line, b" overload=", self.overload);
        put_named(line, b" decisions=", self.decisions);
    }

    fn put_lost(&self, version: u64, line: &mut Line)
        requires { length line.old ≤ 700 }
        ensures value { line.new ≡ line.old ++ lost_text version self.now.totals }
        ensures short { length line.new ≤ 800 }
    {
        if version == 2 {
            put_named(line, b" lost=", self.lost);
        }
    }
}

/// A word and the number that it names.
#[tactic(auto, using(std::proofs::Common::append_assoc))]
fn put_named(line: &mut Line, word: &[u8], n: u128)
    requires { length line.old + length word.now ≤ 980 }
    ensures value { line.new ≡ line.old ++ named word.now n }
    ensures short { length line.new ≤ length line.old + length word.now + 40 }
{
    line.put(word);
    line.put_integer(n);
}
