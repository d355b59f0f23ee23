//! How many there are of each after an event, the most of them, and what they come to over time.
ghost use Rattle.std.specs.Prelude.{◌≡◌, ◌-◌, ◌<◌, ◌^◌, max};
ghost use Rattle.kn_event.specs.Revision.{AreInRange};
ghost use Rattle.kn_core.specs.State.{StandsFor};
ghost use Rattle.kn_teller.specs.Run.{Run, trace};
ghost use Rattle.kn_costs.specs.Gauges.{count_pods, gauges, nothing_at, with_now, with_time};

use kn_core::Revision;
use kn_record::append::append_laws;
use kn_sizes::sizes::size_laws;
use std::marker::Model;

/// How many there are.
#[derive(Clone, Copy)]
pub struct Now {
    /// Requests that have arrived.
    pub arrivals: u64,
    /// Requests that live.
    pub live: u64,
    /// Requests that are held.
    pub held: u64,
    /// Pods that live.
    pub pods: u64,
    /// Pods that are Ready.
    pub ready: u64,
    /// Requests that run.
    pub running: u64,
}

/// The most that there were.
#[derive(Clone, Copy)]
pub struct Peaks {
    pub pods: u64,
    pub ready: u64,
    pub held: u64,
    pub live: u64,
}

/// Milliseconds: without a pod, of all pods' lives, of those Ready, and of all requests' running.
#[derive(Clone, Copy)]
pub struct Costs {
    pub at_zero: u128,
    pub pods: u128,
    pub ready: u128,
    pub running: u128,
}

/// How many pods a revision has.
fn count_pods(revision: &Revision) -> u64
    ensures { (r : Run) → AreInRange r.spec → StandsFor revision.now (trace r) → result ≡ count_pods (trace r) }
{
    append_laws();
    size_laws();
    revision
        .count_starting()
        .saturating_add(revision.count_ready())
        .saturating_add(revision.count_draining())
}

impl Now {
    /// Of a revision.
    #[tactic(auto, unfolding(crate::specs::Gauges::gauges))]
    pub fn of(revision: &Revision) -> Now
        ensures value { (r : Run) → AreInRange r.spec → StandsFor revision.now (trace r) → result ≡ gauges (trace r) }
        ensures few { result.arrivals < 2 ^ 64 }
    {
        Now {
            arrivals: revision.arrivals(),
            live: revision.live(),
            held: revision.count_held(),
            pods: count_pods(revision),
            ready: revision.count_ready(),
            running: revision.count_running(),
        }
    }
}

/// How many there are, the most of each so far, and what they came to up to the clock.
#[derive(Drop)]
pub struct Gauges {
    clock: u64,
    present: Now,
    peaks: Peaks,
    costs: Costs,
}

impl Model for Gauges {
    ghost use Rattle.kn_costs.specs.Gauges.{AreFew, GaugesState};

    ghost Value = { GaugesState };

    ghost view = { λ g. record { clock = g.clock; present = g.present; peaks = g.peaks; costs = g.costs } };

    ghost invariant = { λ g. AreFew g.clock g.costs };
}

impl Gauges {
    /// Nothing yet, at this time.
    pub fn new(start: u64) -> Gauges
        ensures { result ≡ nothing_at start }
    {
        Gauges {
            clock: start,
            present: Now {
                arrivals: 0,
                live: 0,
                held: 0,
                pods: 0,
                ready: 0,
                running: 0,
            },
            peaks: Peaks {
                pods: 0,
                ready: 0,
                held: 0,
                live: 0,
            },
            costs: Costs {
                at_zero: 0,
                pods: 0,
                ready: 0,
                running: 0,
            },
        }
    }

    /// Time passes up to here.
    pub fn pass(&mut self, time: u64)
        ensures clock { self.new.clock ≡ max self.old.clock time }
        ensures present { self.new.present ≡ self.old.present }
        ensures peaks { self.new.peaks ≡ self.old.peaks }
        ensures costs { self.new.costs ≡ with_time (time - self.old.clock) self.old.present self.old.costs }
    {
        let ms = u128::from(time.saturating_sub(self.clock));
        let now = self.present;
        let costs = self.costs;
        self.costs = Costs {
            at_zero: costs.at_zero + if now.pods == 0 { ms } else { 0 },
            pods: costs.pods + u128::from(now.pods) * ms,
            ready: costs.ready + u128::from(now.ready) * ms,
            running: costs.running + u128::from(now.running) * ms,
        };
        self.clock = self.clock.max(time);
    }

    /// So many there are now.
    pub fn see(&mut self, now: Now)
        ensures clock { self.new.clock ≡ self.old.clock }
        ensures present { self.new.present ≡ now }
        ensures peaks { self.new.peaks ≡ with_now now self.old.peaks }
        ensures costs { self.new.costs ≡ self.old.costs }
    {
        self.present = now;
        self.peaks = Peaks {
            pods: self.peaks.pods.max(now.pods),
            ready: self.peaks.ready.max(now.ready),
            held: self.peaks.held.max(now.held),
            live: self.peaks.live.max(now.live),
        };
    }

    /// How many there are.
    pub fn present(&self) -> Now
        ensures { result ≡ self.now.present }
    {
        self.present
    }

    /// Up to when the costs are counted.
    pub fn clock(&self) -> u64
        ensures { result ≡ self.now.clock }
    {
        self.clock
    }

    /// The most of each.
    pub fn peaks(&self) -> Peaks
        ensures { result ≡ self.now.peaks }
    {
        self.peaks
    }

    /// What they cost.
    pub fn costs(&self) -> Costs
        ensures { result ≡ self.now.costs }
    {
        self.costs
    }
}
