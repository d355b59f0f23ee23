ghost use Rattle.std.specs.Prelude.{◌≡◌, ℕ, ◌^◌, ◌<◌, ◌≤◌, Option, None, Some, option_map, IfNone, IfOk, IfSome};
ghost use Rattle.kn_event.specs.declared.revision.Kind.TheVariants as kind;
ghost use Rattle.kn_scaling.specs.Average.{IsAverage, Samples, second_of};
ghost use Rattle.kn_scaling.specs.Burst.{is_activating};
ghost use Rattle.kn_scaling.specs.Decide.{Past, decision_at, ruling, wake_decision_at};
ghost use Rattle.kn_window.specs.Stands.{IsWindowOf};
ghost use Rattle.kn_decider.specs.Closing.{CanClose, CanFollow, IsOverAt, below, end_after, with_closed, with_closed_run};
ghost use Rattle.kn_decider.specs.Decider.{IsDeciderOf, opening_past, with_ready, with_ruling, with_tick};

use crate::parts::{
    average_or_none, excess_burst, is_reached, one_request, stable_window_ms, value_of,
};
use kn_burst::mode;
use kn_delay::Delay;
use kn_event::{Decision, Frac, Memory, Mode, Phase, Spec};
use kn_formula::counts;
use kn_panic::Panic;
use kn_stats::{Closed, Run};
use kn_window::{Window, sample_laws};
use kn_zero::{Zero, bounds};
use std::alloc::Global;
use std::marker::Model;

/// What the decisions of a scaled revision look back on, in memory that is taken once.
///
/// Contracts say for which past it stands, up to a second: it has the samples of the seconds below that one. Seconds and
/// times that are handed to it never fall; times are in milliseconds, and at most 500 pods are Ready.
pub struct Decider {
    spec: Spec,
    stable: Window,
    panic_window: Window,
    panic: Panic,
    delay: Delay,
    zero: Zero,
    reached: bool,
}

impl Drop for Decider {
    fn drop(self) {
        let Decider {
            spec: _,
            stable: _,
            panic_window: _,
            panic: _,
            delay: _,
            zero: _,
            reached: _,
        } = self;
    }
}

impl Model for Decider {
    ghost use Rattle.kn_decider.specs.Decider.{DeciderState};
    ghost use Rattle.kn_decider.specs.Kept.{IsKept};

    ghost Value = { DeciderState };

    ghost view = { λ d. record { spec = d.spec; stable = d.stable; panic_window = d.panic_window; panic = d.panic; delay = d.delay; zero = d.zero; reached = d.reached } };

    ghost invariant = { λ d. IsKept (record { spec = d.spec; stable = d.stable; panic_window = d.panic_window; panic = d.panic; delay = d.delay; zero = d.zero; reached = d.reached }) };
}

impl Decider {
    /// No second has closed, and no decision was made. The spec is that of a scaled revision, which opens at this time.
    pub fn new(alloc: Global, spec: &Spec, start: u64) -> Result<Decider, Memory>
        requires { spec.now.kind ≡ kind.Kpa }
        ensures stands { (until : ℕ) → IfOk result (λ d. IsDeciderOf d (opening_past spec.now start) until) }
        ensures spec { IfOk result (λ d. d.spec ≡ spec.now) }
        ensures end { IfOk result (λ d. d.stable.end ≡ 0) }
        ensures last { IfOk result (λ d. d.delay.last ≡ 0) }
    {
        sample_laws();
        let stable = Window::new(alloc, spec.stable_s)?;
        let panic_window = Window::new(alloc, spec.panic_s)?;
        let delay = Delay::new(alloc, spec.delay_s)?;
        let kept = spec.copy(alloc)?;
        Ok(Decider {
            reached: is_reached(&kept, 0),
            zero: Zero::new(&kept, start),
            spec: kept,
            stable,
            panic_window,
            panic: Panic::new(),
            delay,
        })
    }

    /// Seconds that closed, if any: samples, where they are.
    #[inline(always)]
    fn record(&mut self, run: Option<Run>)
        requires { IfSome run (CanFollow self.old.stable.end) }
        ensures stable { (samples : Samples) → IsWindowOf self.old.stable samples → IsWindowOf self.new.stable (with_closed_run self.old.spec.metric run samples) }
        ensures panic_window { (samples : Samples) → IsWindowOf self.old.panic_window samples → IsWindowOf self.new.panic_window (with_closed_run self.old.spec.metric run samples) }
        ensures end { self.new.stable.end ≡ end_after run self.old.stable.end }
        ensures kept { self.new ≡ record self.old { stable = self.new.stable; panic_window = self.new.panic_window } }
    {
        if let Some(run) = run {
            if run.sampled {
                let value = value_of(&self.spec, run.load, run.arrived);
                self.stable.record_run(run.second, run.count, value);
                self.panic_window.record_run(run.second, run.count, value);
            }
        }
    }

    /// Seconds that closed, as measured: those that are samples count, by the metric. They come after all that closed before,
    /// below 2^42; their load is at most 20,000,000, and at most 1,000,000 requests came in one.
    #[inline(always)]
    pub fn closed(&mut self, c: &Closed)
        requires { CanClose self.old.stable.end c.now }
        ensures stands { (past : Past) (until next : ℕ) → until ≤ next → IsOverAt next c.now.first → IsOverAt next c.now.rest → IsDeciderOf self.old past until
            → IsDeciderOf self.new (record past { samples = with_closed self.old.spec.metric c.now (below until past.samples) }) next }
        ensures end { self.new.stable.end ≡ end_after c.now.rest (end_after c.now.first self.old.stable.end) }
        ensures kept { self.new ≡ record self.old { stable = self.new.stable; panic_window = self.new.panic_window } }
    {
        sample_laws();
        self.record(c.first);
        self.record(c.rest);
    }

    /// The decision by these averages, with so many Ready pods.
    fn decide(&mut self, time: u64, ready: u64, stable: Frac, panic: Frac) -> Decision
        requires ready { ready ≤ 500 }
        requires stable { IsAverage stable }
        requires panic { IsAverage panic }
        requires last { self.old.delay.last ≤ second_of time }
        ensures decision { (past : Past) (until : ℕ) → IsDeciderOf self.old past until → result ≡ (ruling self.old.spec past time ready stable panic).decision }
        ensures stands { (past : Past) (until : ℕ) → IsDeciderOf self.old past until → IsDeciderOf self.new (with_ruling time (ruling self.old.spec past time ready stable panic) past) until }
        ensures last { self.new.delay.last ≡ second_of time }
        ensures kept { self.new ≡ record self.old { panic = self.new.panic; delay = self.new.delay; zero = self.new.zero } }
    {
        let counts = counts(&self.spec, ready, stable, panic);
        let window_ms = stable_window_ms(&self.spec);
        let panicked = self.panic.take(time, &counts, window_ms);
        let delayed = self.delay.take(time / 1000, panicked.count);
        let excess = excess_burst(&self.spec, ready, panic);
        let bounded = bounds(&self.spec, self.reached, delayed);
        let answer = self.zero.take(time, ready, bounded);
        let mode = mode(answer.want, excess, answer.phase);
        self.zero.mode_is(time, mode);
        Decision {
            stable,
            panic,
            ready,
            dspc: counts.dspc,
            dppc: counts.dppc,
            over: counts.over,
            panicking: panicked.panicking,
            undelayed: panicked.count,
            delayed,
            excess,
            bounded,
            want: answer.want,
            applied: answer.applied,
            mode,
        }
    }

    /// The decision of a tick; none exactly where no sample lies in the stable window, and then nothing changes. All seconds
    /// below that of the tick have closed.
    pub fn tick(&mut self, time: u64, ready: u64) -> Option<Decision>
        requires ready { ready ≤ 500 }
        requires closed { self.old.stable.end ≤ second_of time }
        requires last { self.old.delay.last ≤ second_of time }
        ensures decision { (past : Past) (until : ℕ) → second_of time ≤ until → IsDeciderOf self.old past until
            → result ≡ option_map (λ r. r.decision) (decision_at self.old.spec past time ready) }
        ensures stands { (past : Past) (until : ℕ) → second_of time ≤ until → IsDeciderOf self.old past until
            → IsDeciderOf self.new (with_tick time (decision_at self.old.spec past time ready) past) until }
        ensures none { IfNone result (self.new ≡ self.old) }
        ensures last { self.new.delay.last ≤ second_of time }
        ensures kept { self.new ≡ record self.old { panic = self.new.panic; delay = self.new.delay; zero = self.new.zero } }
    {
        sample_laws();
        let second = time / 1000;
        match self.stable.average(second) {
            None => None,
            Some(stable) => {
                let panic = average_or_none(self.panic_window.average(second));
                Some(self.decide(time, ready, stable, panic))
            }
        }
    }

    /// The decision where a request was admitted while no pod was wanted: it takes one request for both averages.
    pub fn poke(&mut self, time: u64, ready: u64) -> Decision
        requires ready { ready ≤ 500 }
        requires last { self.old.delay.last ≤ second_of time }
        ensures decision { (past : Past) (until : ℕ) → IsDeciderOf self.old past until → result ≡ (wake_decision_at self.old.spec past time ready).decision }
        ensures stands { (past : Past) (until : ℕ) → IsDeciderOf self.old past until → IsDeciderOf self.new (with_ruling time (wake_decision_at self.old.spec past time ready) past) until }
        ensures last { self.new.delay.last ≡ second_of time }
        ensures kept { self.new ≡ record self.old { panic = self.new.panic; delay = self.new.delay; zero = self.new.zero } }
    {
        self.decide(time, ready, one_request(), one_request())
    }

    /// A pod became Ready, and so many are now. Activating becomes active, which is the answer; and the initial scale is
    /// reached from the first time on that so many pods were Ready.
    pub fn pod_ready(&mut self, time: u64, ready: u64) -> bool
        ensures answer { (past : Past) (until : ℕ) → IsDeciderOf self.old past until → result ≡ is_activating past.standing.phase }
        ensures stands { (past : Past) (until : ℕ) → IsDeciderOf self.old past until → IsDeciderOf self.new (with_ready self.old.spec time ready past) until }
        ensures kept { self.new ≡ record self.old { zero = self.new.zero; reached = self.new.reached } }
    {
        self.reached |= is_reached(&self.spec, ready);
        self.zero.pod_is_ready(time)
    }

    /// The phase now.
    pub fn phase(&self) -> Phase
        ensures value { result ≡ self.now.zero.standing.phase }
        ensures past { (past : Past) (until : ℕ) → IsDeciderOf self.now past until → result ≡ past.standing.phase }
    {
        self.zero.standing().phase
    }

    /// How requests reach the pods now.
    pub fn mode(&self) -> Mode
        ensures value { result ≡ self.now.zero.standing.mode }
        ensures past { (past : Past) (until : ℕ) → IsDeciderOf self.now past until → result ≡ past.standing.mode }
    {
        self.zero.standing().mode
    }

    /// The pods wanted now.
    pub fn want(&self) -> u64
        ensures value { result ≡ self.now.zero.standing.want }
        ensures past { (past : Past) (until : ℕ) → IsDeciderOf self.now past until → result ≡ past.standing.want }
    {
        self.zero.standing().want
    }
}
