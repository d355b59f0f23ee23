//! Rows by kind, and decisions by what was wanted before them.
ghost use Rattle.std.specs.Prelude.{◌≡◌, ◌+◌, ◌<◌, ◌≤◌, ◌^◌, [], true, false};
ghost use Rattle.kn_show_summary.specs.Counted.{CountsRow, counted, more_where, with_decision};

mod text;

use kn_event::{Decision, Row, Spec};
use std::marker::Model;

/// How many rows of each kind there were, and how many pods are wanted.
#[derive(Drop)]
pub struct Counts {
    admitted: u128,
    direct: u128,
    queue_full: u128,
    overload: u128,
    ok: u128,
    failed: u128,
    expired: u128,
    cancelled: u128,
    lost: u128,
    no_data: u128,
    pods: u128,
    decisions: u128,
    others: u128,
    panicking: u128,
    wakes: u128,
    changes: u128,
    wanted: u64,
}

impl Model for Counts {
    ghost use Rattle.std.specs.Prelude.{◌+◌, ◌≤◌};
    ghost use Rattle.kn_show_summary.specs.Counted.{CountsState};

    ghost Value = { CountsState };

    ghost view = { λ t. record { rows = t.admitted + t.direct + t.queue_full + t.overload + t.ok + t.failed + t.expired + t.cancelled + t.lost + t.no_data + t.pods + t.decisions + t.others; counted = record { admitted = t.admitted; direct = t.direct; queue_full = t.queue_full; overload = t.overload; ok = t.ok; failed = t.failed; expired = t.expired; cancelled = t.cancelled; lost = t.lost; no_data = t.no_data; pods = t.pods; decisions = t.decisions; panicking = t.panicking; wakes = t.wakes; changes = t.changes; wanted = t.wanted } } };

    ghost invariant = { λ t. record { panicking : t.panicking ≤ t.decisions; wakes : t.wakes ≤ t.decisions; changes : t.changes ≤ t.decisions } };
}

/// One more where the test holds.
#[inline(always)]
fn more_where(test: bool, n: u128) -> u128
    requires { n < 2 ^ 127 }
    ensures value { result ≡ more_where test n }
    ensures most { result ≤ n + 1 }
{
    if test { n + 1 } else { n }
}

impl Counts {
    /// No row yet, of a revision of this specification.
    #[tactic(auto, unfolding(crate::specs::Counted::counted, crate::specs::Counted::wakes, crate::specs::Counted::wanted_changes, kn_lives::specs::Lives::by_row, kn_trace::specs::Scale::wanted))]
    pub fn new(spec: &Spec) -> Counts
        ensures rows { result.rows ≡ 0 }
        ensures counted { result.counted ≡ counted spec.now [] }
    {
        Counts {
            admitted: 0,
            direct: 0,
            queue_full: 0,
            overload: 0,
            ok: 0,
            failed: 0,
            expired: 0,
            cancelled: 0,
            lost: 0,
            no_data: 0,
            pods: 0,
            decisions: 0,
            others: 0,
            panicking: 0,
            wakes: 0,
            changes: 0,
            wanted: spec.initial.max(spec.min),
        }
    }

    /// Counts one row more.
    pub fn add(&mut self, row: &Row)
        requires { self.old.rows < 2 ^ 127 }
        ensures counted { CountsRow row.now self.old self.new }
    {
        match *row {
            Row::Admit(_, _) => self.admitted += 1,
            Row::Direct(_, _) => self.direct += 1,
            Row::QueueFull(_, _) => self.queue_full += 1,
            Row::Overload(_) => self.overload += 1,
            Row::Finish(_, true) => self.ok += 1,
            Row::Finish(_, false) => self.failed += 1,
            Row::Expire(_) => self.expired += 1,
            Row::Cancel(_) => self.cancelled += 1,
            Row::LostRequest(_) => self.lost += 1,
            Row::NoData => self.no_data += 1,
            Row::Create(_, _) => self.pods += 1,
            Row::Decided(decision) => self.decide(decision),
            _ => self.others += 1,
        }
    }

    /// Counts one decision more.
    fn decide(&mut self, d: Decision)
        requires { self.old.rows < 2 ^ 127 }
        ensures rows { self.new.rows ≡ self.old.rows + 1 }
        ensures counted { self.new.counted ≡ with_decision d self.old.counted }
    {
        self.panicking = more_where(d.panicking, self.panicking);
        self.wakes = more_where(d.want > 0 && self.wanted == 0, self.wakes);
        self.changes = more_where(d.want != self.wanted, self.changes);
        self.decisions += 1;
        self.wanted = d.want;
    }

    /// How many requests were admitted.
    pub fn admitted(&self) -> u128
        ensures { result ≡ self.now.counted.admitted }
    {
        self.admitted
    }
}
