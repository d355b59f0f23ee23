ghost use Rattle.std.specs.Prelude.{◌≡◌, ◌≤◌, ◌<◌, ◌+◌, min, ℕ, List, [], ◌∷◌, ◌++◌, IfSome};
ghost use Rattle.kn_scaling.specs.Average.{second_of};
ghost use Rattle.kn_stats.specs.Changes.{TimedChange, arrived_by, load_by, timed};
ghost use Rattle.kn_stats.specs.Closing.{closed_by, end_of_first};
ghost use Rattle.kn_stats.specs.Totals.{CanCount, IsBounded, IsTotalsOf, closed_at, counted, left_of, opened_totals, passed};

use crate::clock::Clock;
use crate::closed::run_of;
use crate::tally::Tally;
use crate::{Change, Closed};
use kn_event::Metric;
use std::marker::Model;

/// What all live requests come to, up to now, as far as later seconds need it. Contracts say for which list of changes it
/// stands.
#[derive(Drop)]
pub struct Totals {
    metric: Metric,
    clock: Clock,
    waiting: u64,
    activator: Tally,
    direct: Tally,
    arrived: u64,
}

impl Model for Totals {
    ghost use Rattle.kn_stats.specs.Totals.{IsBounded, TotalsState};

    ghost Value = { TotalsState };

    ghost view = { λ t. record { metric = t.metric; time = t.clock; waiting = t.waiting; activator = t.activator; direct = t.direct; arrived = t.arrived } };

    ghost invariant = { λ t. IsBounded (record { metric = t.metric; time = t.clock; waiting = t.waiting; activator = t.activator; direct = t.direct; arrived = t.arrived }) };
}

/// One more came in the open second.
#[inline(always)]
fn one_more(arrived: u64) -> u64
    requires { arrived ≤ 1000000 }
    ensures { result ≡ min 1000000 (arrived + 1) }
{
    1_000_000.min(arrived + 1)
}

/// Where the open second ends, if it closed.
fn end_of_first(from: u64, to: u64) -> u64
    ensures { result ≡ end_of_first from to }
{
    if from < to { from + 1 } else { from }
}

impl Totals {
    /// No change yet, at this time.
    pub fn new(start: u64, metric: Metric) -> Totals
        ensures stands { IsTotalsOf result [] }
        ensures state { result ≡ opened_totals metric start }
    {
        Totals {
            metric,
            clock: Clock::at(start),
            waiting: 0,
            activator: Tally::none(),
            direct: Tally::none(),
            arrived: 0,
        }
    }

    /// One change, at the time of the last advance, or at the start before there is one.
    #[inline]
    pub fn change(&mut self, c: Change)
        requires { CanCount self.old c }
        ensures stands { (cs : List TimedChange) → IsTotalsOf self.old cs → IsTotalsOf self.new (cs ++ timed self.old.time c ∷ []) }
        ensures state { self.new ≡ counted c self.old }
    {
        self.count(c);
    }

    /// What it changes of the counts.
    #[inline]
    fn count(&mut self, c: Change)
        requires { CanCount self.old c }
        ensures bounded { IsBounded self.old }
        ensures state { self.new ≡ counted c self.old }
    {
        let left = self.clock.left();
        match c {
            Change::Admitted => {
                self.waiting += 1;
                self.activator.begin(left);
                self.arrived = one_more(self.arrived);
            }
            Change::Assigned(_) => self.waiting -= 1,
            Change::Directed(_) => {
                self.direct.begin(left);
                self.arrived = one_more(self.arrived);
            }
            Change::EndedHeld => {
                self.waiting -= 1;
                self.activator.end(left);
            }
            Change::EndedAt(_, true) => self.activator.end(left),
            Change::EndedAt(_, false) => self.direct.end(left),
        }
    }

    /// Time passes. Answers the seconds that are over: each whole second after the open one has the same load.
    #[inline(always)]
    pub fn advance(&mut self, to: u64, ready: bool) -> Closed
        requires { self.old.time ≤ to }
        ensures closed { (cs : List TimedChange) → IsTotalsOf self.old cs → result ≡ closed_by self.old.metric cs (second_of self.old.time) (second_of to) ready }
        ensures alike { (cs : List TimedChange) (s : ℕ) → IsTotalsOf self.old cs → second_of self.old.time < s → load_by cs s ≡ load_by cs (second_of self.old.time + 1) }
        ensures quiet { (cs : List TimedChange) (s : ℕ) → IsTotalsOf self.old cs → second_of self.old.time < s → arrived_by cs s ≡ 0 }
        ensures first_fits { IfSome result.first (λ run. (run.load ≤ 1000000000) × (run.arrived ≤ 1000000)) }
        ensures rest_fits { IfSome result.rest (λ run. (run.load ≤ 1000000000) × (run.arrived ≤ 1000000)) }
        ensures stands { (cs : List TimedChange) → IsTotalsOf self.old cs → IsTotalsOf self.new cs }
        ensures state { self.new ≡ passed to self.old }
    {
        // (so it mostly is)
        if self.clock.has_second_of(to) {
            self.clock.go_on(to);
            return Closed {
                first: None,
                rest: None,
            };
        }
        self.begin_second(to, ready)
    }

    /// Time passes into a later second.
    #[inline(never)]
    fn begin_second(&mut self, to: u64, ready: bool) -> Closed
        requires { second_of self.old.time < second_of to }
        ensures bounded { IsBounded self.old }
        ensures closed { result ≡ closed_at self.old to ready }
        ensures state { self.new ≡ passed to self.old }
    {
        let closed = self.closed(to, ready);
        self.activator.renew();
        self.direct.renew();
        self.arrived = 0;
        self.clock = Clock::at(to);
        closed
    }

    /// The seconds that are over at this time.
    fn closed(&self, to: u64, ready: bool) -> Closed
        requires { self.now.time ≤ to }
        ensures { result ≡ closed_at self.now to ready }
    {
        let (from, until) = (self.clock.second(), to / 1000);
        let load = self.activator.area + self.direct.area;
        let whole = 1000 * (self.activator.count + self.direct.count);
        let first_end = end_of_first(from, until);
        Closed {
            first: run_of(self.metric, ready, from, first_end, load, self.arrived),
            rest: run_of(self.metric, ready, from + 1, until, whole, 0),
        }
    }

    /// The open second.
    #[inline(always)]
    pub(crate) fn second(&self) -> u64
        ensures { result ≡ second_of self.now.time }
    {
        self.clock.second()
    }

    /// Milliseconds of it that lie after the last advance.
    #[inline(always)]
    pub(crate) fn left(&self) -> u64
        ensures left { result ≡ left_of self.now.time }
        ensures most { result ≤ 1000 }
    {
        self.clock.left()
    }
}
