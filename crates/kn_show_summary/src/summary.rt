//! The teller of a summary.
ghost use Rattle.std.specs.Prelude.{◌≡◌, ◌==◌, if◌then◌else◌, ◌+◌, ◌-◌, ◌<◌, ◌≤◌, ◌++◌, length, List, ℕ};
ghost use Rattle.kn_waits.specs.Waits.{AreWaits};
ghost use Rattle.kn_show_summary.specs.Summary.{AwaitsRun, KnowsRun, summarises, summary};
ghost use Rattle.kn_show_summary.specs.Text.{costs_text, longest, peaks_text, percentiles_text, pods_text, requests_text, run_text, waits_text};

use crate::lines::{put_figure, put_known};
use crate::rows::Rows;
use kn_begun::begin_laws;
use kn_core::Revision;
use kn_costs::{Costs, Gauges, Now, run_laws};
use kn_event::{EntryLog, Event, Line, Memory, Spec};
use kn_io::{Failed, Sink};
use kn_lives::arrival_tag;
use kn_lives::laws::lives_laws;
use kn_report::Waiting;
use kn_report::laws::adding_laws;
use kn_teller::{Form, Teller};
use kn_waits::Waits;
use std::alloc::Global;
use std::marker::Model;

/// Keeps what the summary of a run says, and writes it at the end.
pub struct Summary {
    start: u64,
    gauges: Gauges,
    rows: Rows,
    cold: u128,
}

impl Drop for Summary {
    fn drop(self) {
        let Summary {
            start: _,
            gauges: _,
            rows: _,
            cold: _,
        } = self;
    }
}

impl Model for Summary {
    ghost use Rattle.std.specs.Prelude.{◌≤◌};
    ghost use Rattle.kn_show_summary.specs.Summary.{SummaryState};

    ghost Value = { SummaryState };

    ghost view = { λ x. record { start = x.start; gauges = x.gauges; rows = x.rows; cold = x.cold } };

    ghost invariant = { λ x. x.cold ≤ x.rows.counts.counted.admitted };
}

impl Teller for Summary {
    ghost manner = { λ x. summarises };

    ghost awaits = { AwaitsRun };

    ghost knows = { KnowsRun };

    ghost load = { λ x. x.rows.counts.rows };

    fn open<O: Sink>(
        &mut self,
        revision: &Revision,
        log: &EntryLog,
        _line: &mut Line,
        _waiting: &mut Waiting,
        _out: &mut O,
    ) -> Result<(), Failed> {
        begin_laws();
        lives_laws();
        run_laws();
        self.rows.add_opening(log);
        self.gauges.see(Now::of(revision));
        Ok(())
    }

    fn tell<O: Sink>(
        &mut self,
        e: &Event,
        revision: &Revision,
        log: &EntryLog,
        _line: &mut Line,
        _waiting: &mut Waiting,
        _out: &mut O,
    ) -> Result<(), Failed> {
        lives_laws();
        run_laws();
        let was_ready = self.gauges.present().ready;
        let admitted = self.rows.admitted();
        self.gauges.pass(e.time);
        self.rows.add_all(arrival_tag(&e.act), log);
        self.cold += admitted_cold(was_ready, admitted, self.rows.admitted());
        self.gauges.see(Now::of(revision));
        Ok(())
    }

    fn end<O: Sink>(
        &mut self,
        _version: u64,
        events: u64,
        line: &mut Line,
        waiting: &mut Waiting,
        out: &mut O,
    ) -> Result<(), Failed> {
        adding_laws();
        self.put_requests(events, line);
        match waiting.add(line.bytes(), out) {
            Ok(()) => {}
            Err(Failed) => return Err(Failed),
        }
        self.put_waits(line);
        match waiting.add(line.bytes(), out) {
            Ok(()) => {}
            Err(Failed) => return Err(Failed),
        }
        self.put_pods(line);
        waiting.add(line.bytes(), out)
    }
}

impl Summary {
    /// Sets the line to the run's times, and to what became of the requests.
    #[tactic(auto, using(crate::proofs::Pieces::five_pieces), unfolding(crate::specs::Text::requests_text))]
    fn put_requests(&self, events: u64, line: &mut Line)
        ensures { line.new ≡ requests_text self.now.start self.now.gauges.clock events self.now.gauges.present self.now.rows.counts.counted }
    {
        let now = self.gauges.present();
        line.clear();
        put_run(self.start, self.gauges.clock(), events, line);
        self.rows.counts.put_taken(now.arrivals, line);
        self.rows.counts.put_refused(line);
        self.rows.counts.put_ended(line);
        self.rows.counts.put_left(now.live, line);
    }

    /// Sets the line to how long those had waited that ran.
    fn put_waits(&self, line: &mut Line)
        ensures { (ws : List ℕ) → AreWaits self.now.rows.waits ws → line.new ≡ waits_text ws }
    {
        put_waits(&self.rows.waits, line);
    }

    /// Sets the line to the pods, and to what they cost.
    #[tactic(auto, using(crate::proofs::Pieces::five_pieces), unfolding(crate::specs::Text::pods_text))]
    fn put_pods(&self, line: &mut Line)
        ensures { line.new ≡ pods_text self.now.cold self.now.rows.counts.counted self.now.gauges.peaks self.now.gauges.costs }
    {
        line.clear();
        self.rows.counts.put_starts(self.cold, line);
        self.rows.counts.put_decisions(line);
        self.put_peaks(line);
        put_costs(self.gauges.costs(), line);
        put_figure(line, b"wanted-changes ", self.rows.counts.changes());
    }

    /// How many pods were created, and the most of pods and requests.
    #[tactic(auto, using(crate::proofs::Pieces::five_from), unfolding(crate::specs::Text::peaks_text))]
    fn put_peaks(&self, line: &mut Line)
        requires { length line.old ≤ 260 }
        ensures value { line.new ≡ line.old ++ peaks_text self.now.rows.counts.counted self.now.gauges.peaks }
        ensures short { length line.new ≤ length line.old + 270 }
    {
        let peaks = self.gauges.peaks();
        put_figure(line, b"pods ", self.rows.counts.pods());
        put_figure(line, b"pods-peak ", u128::from(peaks.pods));
        put_figure(line, b"ready-peak ", u128::from(peaks.ready));
        put_figure(line, b"held-peak ", u128::from(peaks.held));
        put_figure(line, b"live-peak ", u128::from(peaks.live));
    }
}

/// How many requests were admitted in between, where no pod was Ready.
fn admitted_cold(ready: u64, before: u128, after: u128) -> u128
    ensures { result ≡ (if ready == 0 then after - before else 0) }
{
    if ready == 0 {
        after.saturating_sub(before)
    } else {
        0
    }
}

/// The times of the run, and its events.
#[tactic(auto, using(crate::proofs::Pieces::three_pieces), unfolding(crate::specs::Text::run_text))]
fn put_run(from: u64, to: u64, events: u64, line: &mut Line)
    requires { length line.old ≤ 0 }
    ensures value { line.new ≡ line.old ++ run_text from to events }
    ensures short { length line.new ≤ 150 }
{
    put_figure(line, b"from ", u128::from(from));
    put_figure(line, b"to ", u128::from(to));
    put_figure(line, b"events ", u128::from(events));
}

/// What pods and requests cost.
#[tactic(auto, using(crate::proofs::Pieces::four_pieces), unfolding(crate::specs::Text::costs_text))]
fn put_costs(costs: Costs, line: &mut Line)
    requires { length line.old ≤ 600 }
    ensures value { line.new ≡ line.old ++ costs_text costs }
    ensures short { length line.new ≤ length line.old + 210 }
{
    put_figure(line, b"at-zero-ms ", costs.at_zero);
    put_figure(line, b"pod-ms ", costs.pods);
    put_figure(line, b"ready-ms ", costs.ready);
    put_figure(line, b"running-ms ", costs.running);
}

/// The percentiles.
#[tactic(auto, using(crate::proofs::Pieces::four_pieces), unfolding(crate::specs::Text::percentiles_text))]
fn put_percentiles(counted: &Waits, line: &mut Line)
    requires { length line.old ≤ 60 }
    ensures value { (ws : List ℕ) → AreWaits counted.now ws → line.new ≡ line.old ++ percentiles_text ws }
    ensures short { length line.new ≤ length line.old + 220 }
{
    put_known(line, b"waited-p50 ", counted.percentile(50, 100));
    put_known(line, b"waited-p90 ", counted.percentile(90, 100));
    put_known(line, b"waited-p99 ", counted.percentile(99, 100));
    put_known(line, b"waited-p999 ", counted.percentile(999, 1000));
}

/// How long the longest waited, where anybody did.
fn longest(counted: &Waits) -> Option<u64>
    ensures { (ws : List ℕ) → AreWaits counted.now ws → result ≡ longest ws }
{
    if counted.ran() == 0 {
        None
    } else {
        Some(counted.longest())
    }
}

/// Sets the line to how long those had waited that ran.
fn put_waits(counted: &Waits, line: &mut Line)
    ensures { (ws : List ℕ) → AreWaits counted.now ws → line.new ≡ waits_text ws }
{
    line.clear();
    put_figure(line, b"ran ", u128::from(counted.ran()));
    put_percentiles(counted, line);
    put_known(line, b"waited-max ", longest(counted));
    put_figure(line, b"waited-sum ", counted.sum());
}

/// The form that sums a run up.
#[derive(Clone, Copy)]
pub struct SummaryForm;

impl Form<Summary> for SummaryForm {
    ghost writes = { λ form. summarises };

    fn make(&self, alloc: Global, spec: &Spec, start: u64) -> Result<Summary, Memory> {
        let rows = Rows::new(alloc, spec)?;
        Ok(Summary {
            start,
            gauges: Gauges::new(start),
            rows,
            cold: 0,
        })
    }
}
