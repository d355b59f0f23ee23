//! The events of a revision, and what comes of them.
ghost use Rattle.std.specs.Prelude.{◌≡◌, ◌≤◌, ◌<◌, ◌^◌, true};
ghost use Rattle.kn_core.specs.Steps.{IsWithinRange};

use crate::journals::Reading;
use crate::words::{add, add_entry, add_numbers, number, word};
use kn_core::{FirstRows, Revision};
use kn_event::{Act, Entry, EntryLog, Event, Row, Told};
use kn_throttle::Dispatch;
use std::alloc::Global;
use std::fmt::Write;

/// The word for what an event is told, without what was decided, and the numbers behind it.
fn told_words(told: Told) -> (&'static str, [Option<u64>; 2]) {
    match told {
        Told::Run(request, pod) => ("run", [Some(request), Some(pod)]),
        Told::AtPod(request, pod) => ("at-pod", [Some(request), Some(pod)]),
        Told::Held(request) => ("held", [Some(request), None]),
        Told::QueueFull(request) => ("queue-full", [Some(request), None]),
        Told::Overload(request) => ("overload", [Some(request), None]),
        Told::Done(request) => ("done", [Some(request), None]),
        Told::NotRunning(request) => ("not-running", [Some(request), None]),
        Told::NotWaiting(request) => ("not-waiting", [Some(request), None]),
        Told::NotStarting(pod) => ("not-starting", [Some(pod), None]),
        Told::NoPod(pod) => ("no-pod", [Some(pod), None]),
        Told::Passed => ("passed", [None, None]),
        Told::Decided(_) => ("decided", [None, None]),
        Told::NoData => ("no-data", [None, None]),
    }
}

fn row_of(dispatch: Dispatch) -> Row {
    match dispatch {
        Dispatch::Run(request) => Row::Run(request),
        Dispatch::Assign(request, pod) => Row::Assign(request, pod),
    }
}

/// The act of a word with a number; none of another word.
fn act_of(word: &str, number: u64) -> Option<Act> {
    match word {
        "arrive" => Some(Act::Arrive(number)),
        "finish" => Some(Act::Finish(number, true)),
        "cancel" => Some(Act::Cancel(number)),
        "ready" => Some(Act::Ready(number)),
        "pass" => Some(Act::Pass),
        _ => None,
    }
}

fn is_within_range(act: &Act) -> bool
    ensures { result ≡ true → IsWithinRange act.now }
{
    match *act {
        Act::Limit(_, limit) => limit <= 1000,
        _ => true,
    }
}

/// Whether an event may come: in the order of time, at most at 2^42 milliseconds, with a limit of at most 1,000.
fn may_come(revision: &Revision, event: &Event) -> bool
    ensures order { result ≡ true → revision.now.clock ≤ event.now.time }
    ensures times { result ≡ true → event.now.time ≤ 2 ^ 42 }
    ensures count { result ≡ true → revision.now.events < 2 ^ 54 }
    ensures limit { result ≡ true → IsWithinRange event.now.act }
{
    revision.now() <= event.time
        && event.time <= 1 << 42
        && revision.events() < 1 << 54
        && is_within_range(&event.act)
}

fn fold(digest: u64, text: &str) -> u64 {
    let mut digest = digest;
    for byte in text.as_bytes() {
        digest = (digest ^ *byte as u64).wrapping_mul(1_099_511_628_211);
    }
    digest
}

/// The rows of events, and what they are told; or the rows as an event begins with them, and nothing of what it is
/// told.
pub struct Tale {
    rows: String,
    told: String,
    first: bool,
}

impl Drop for Tale {
    fn drop(self) {
        let Tale {
            rows: _,
            told: _,
            first: _,
        } = self;
    }
}

impl Tale {
    pub fn new(alloc: Global, first: bool) -> Tale {
        Tale {
            rows: String::new(alloc),
            told: String::new(alloc),
            first,
        }
    }

    fn add_row(&mut self, time: u64, row: Row) {
        add_entry(&mut self.rows, &Entry { time, row });
        add(&mut self.rows, "\n");
    }

    pub fn add_rows(&mut self, entries: &[Entry]) {
        for entry in entries {
            self.add_row(entry.time, entry.row);
        }
    }

    fn add_first(&mut self, time: u64, first: FirstRows) {
        match first {
            FirstRows::Nothing => {}
            FirstRows::Own(own) => self.add_row(time, own.row()),
            FirstRows::Both(own, dispatch) => {
                self.add_row(time, own.row());
                self.add_row(time, row_of(dispatch));
            }
        }
    }

    fn add_told(&mut self, told: Told) {
        let (word, numbers) = told_words(told);
        add(&mut self.told, word);
        add_numbers(&mut self.told, &numbers);
        add(&mut self.told, "\n");
    }

    fn take(&mut self, revision: &mut Revision, log: &mut EntryLog, event: &Event) {
        if !may_come(revision, event) {
            return add(&mut self.told, "it may not come\n");
        }
        log.clear();
        if self.first {
            let first = revision.take_first(event, log);
            self.add_first(event.time, first);
        } else {
            let told = revision.step(event, log);
            self.add_told(told);
        }
        self.add_rows(log.entries());
    }

    /// Takes the events of a journal.
    pub fn take_all(&mut self, reading: &mut Reading, revision: &mut Revision, log: &mut EntryLog) {
        for _ in 0..u64::MAX {
            match reading.reader.next(&mut reading.source) {
                Ok(Some(event)) => self.take(revision, log, &event),
                Ok(None) => return,
                Err(_) => return add(&mut self.told, "refused\n"),
            }
        }
    }

    /// Adds the rows, and what the events were told.
    pub fn add_to(&self, out: &mut String) {
        add(out, self.rows.as_str());
        add(out, "told\n");
        add(out, self.told.as_str());
    }

    /// Takes the event that a line's words from a place on name, if any, for the time of this number. Answers the
    /// digest of all.
    fn take_one(
        &mut self,
        revision: &mut Revision,
        log: &mut EntryLog,
        line: &str,
        place: usize,
        turn: u64,
        digest: u64,
    ) -> u64
        requires { place ≤ 100 }
    {
        let risen = turn.wrapping_mul(number(line, place + 2));
        let named = number(line, place + 1).wrapping_add(risen);
        match act_of(word(line, place), named) {
            Some(act) => {
                self.rows.clear();
                self.told.clear();
                let time = number(line, 1);
                self.take(revision, log, &Event { time, act });
                fold(fold(digest, self.rows.as_str()), self.told.as_str())
            }
            None => digest,
        }
    }

    /// Takes the events of a line, one after the other.
    pub fn repeat(
        &mut self,
        revision: &mut Revision,
        log: &mut EntryLog,
        line: &str,
        out: &mut String,
    ) {
        let mut digest = 0xcbf2_9ce4_8422_2325;
        for turn in 0..number(line, 0) {
            for place in &[2, 5, 8, 11] {
                digest = self.take_one(revision, log, line, *place, turn, digest);
            }
        }
        add(out, self.told.as_str().trim_end());
        let _ = write!(out, ", {digest:016x}");
    }
}
