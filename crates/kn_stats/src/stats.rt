ghost use Rattle.std.specs.Prelude.{◌≡◌, ◌≤◌, ◌<◌, ◌+◌, ◌*◌, false, ℕ, List, [], ◌∷◌, ◌++◌, IfOk, IfSome};
ghost use Rattle.kn_event.specs.Lists.{contains};
ghost use Rattle.kn_scaling.specs.Average.{second_of};
ghost use Rattle.kn_stats.specs.Changes.{TimedChange, arrived_by, at, ends_assigned, is_arrival_at, is_assigned, is_end_at, load_by, pod_of, time_taken, timed};
ghost use Rattle.kn_stats.specs.Closing.{closed_by};
ghost use Rattle.kn_stats.specs.Stands.{CanChange, IsIdle, IsWithin, IsStatsOf, advanced, changed, opened, without};

use crate::tally::PodTally;
use crate::{Change, Closed, Totals, pods};
use kn_event::{Memory, Metric, PlaceHints};
use std::alloc::Global;
use std::marker::Model;

/// What requests at one pod took of the open second, up to the last advance, in milliseconds.
#[derive(Clone, Copy)]
pub struct PodArea {
    pub area: u64,
    /// The part of those that came through the activator.
    pub proxied: u64,
}

/// The changes up to now, as far as later seconds need them: the totals, and the areas of each pod. Contracts say for which
/// list of changes it stands.
pub struct Stats {
    totals: Totals,
    pods: Vec<PodTally>,
    hints: PlaceHints,
}

impl Drop for Stats {
    fn drop(self) {
        let Stats {
            totals: _,
            pods: _,
            hints: _,
        } = self;
    }
}

impl Model for Stats {
    ghost use Rattle.std.specs.Prelude.{◌≤◌, vec_capacity};
    ghost use Rattle.kn_stats.specs.Stands.{IsWithin, StatsState, with_pods};

    ghost Value = { StatsState };

    ghost view = { λ s. with_pods s.pods.items s.totals };

    ghost invariant = { λ s. record {
      within : IsWithin (with_pods s.pods.items s.totals);
      room : 20500 ≤ vec_capacity s.pods;
    } };
}

/// The pod that a change names.
#[inline(always)]
fn pod_of(c: Change) -> Option<u64>
    ensures { result ≡ pod_of c }
{
    match c {
        Change::Assigned(p) | Change::Directed(p) | Change::EndedAt(p, _) => Some(p),
        Change::Admitted | Change::EndedHeld => None,
    }
}

impl Stats {
    /// No change yet, at this time. It takes all the memory that it will ever have.
    pub fn new(alloc: Global, start: u64, metric: Metric) -> Result<Stats, Memory>
        ensures stands { IfOk result (λ s. IsStatsOf s [] []) }
        ensures state { IfOk result (λ s. s ≡ opened metric start) }
    {
        let Ok(pods) = Vec::with_capacity(alloc, 20_500) else {
            return Err(Memory);
        };
        let hints = PlaceHints::new(alloc)?;
        Ok(Stats {
            totals: Totals::new(start, metric),
            pods,
            hints,
        })
    }

    /// One change, at the time of the last advance, or at the start before there is one.
    #[inline(always)]
    pub fn change(&mut self, c: Change)
        requires { CanChange self.old c }
        ensures stands { (cs : List TimedChange) (gone : List ℕ) → IsStatsOf self.old cs gone → IsStatsOf self.new (cs ++ timed self.old.time c ∷ []) gone }
        ensures state { self.new ≡ changed c self.old }
    {
        self.count(c);
    }

    /// What it changes of the counts.
    #[inline(always)]
    fn count(&mut self, c: Change)
        requires { CanChange self.old c }
        ensures within { IsWithin self.old }
        ensures state { self.new ≡ changed c self.old }
    {
        let second = self.totals.second();
        let left = self.totals.left();
        self.totals.change(c);
        if let Some(p) = pod_of(c) {
            pods::update(&mut self.pods, &mut self.hints, p, c, second, left);
        }
    }

    /// A pod at which nothing is leaves. What it took of the open second still counts.
    pub fn pod_leaves(&mut self, p: u64)
        requires { IsIdle p self.old }
        ensures stands { (cs : List TimedChange) (gone : List ℕ) → IsStatsOf self.old cs gone → IsStatsOf self.new cs (p ∷ gone) }
        ensures state { self.new ≡ without p self.old }
    {
        pods::remove(&mut self.pods, &mut self.hints, p);
    }

    /// Time passes. Answers the seconds that are over: each whole second after the open one has the same load.
    #[inline(always)]
    pub fn advance(&mut self, to: u64, ready: bool) -> Closed
        requires { self.old.time ≤ to }
        ensures closed { (cs : List TimedChange) (gone : List ℕ) → IsStatsOf self.old cs gone → result ≡ closed_by self.old.metric cs (second_of self.old.time) (second_of to) ready }
        ensures alike { (cs : List TimedChange) (gone : List ℕ) (s : ℕ) → IsStatsOf self.old cs gone → second_of self.old.time < s → load_by cs s ≡ load_by cs (second_of self.old.time + 1) }
        ensures quiet { (cs : List TimedChange) (gone : List ℕ) (s : ℕ) → IsStatsOf self.old cs gone → second_of self.old.time < s → arrived_by cs s ≡ 0 }
        ensures first_fits { IfSome result.first (λ run. (run.load ≤ 1000000000) × (run.arrived ≤ 1000000)) }
        ensures rest_fits { IfSome result.rest (λ run. (run.load ≤ 1000000000) × (run.arrived ≤ 1000000)) }
        ensures stands { (cs : List TimedChange) (gone : List ℕ) → IsStatsOf self.old cs gone → IsStatsOf self.new cs gone }
        ensures state { self.new ≡ advanced to self.old }
    {
        self.totals.advance(to, ready)
    }

    /// What requests at the pod took of the open second, up to the last advance. A pod that left has no area.
    pub fn pod_area(&self, p: u64) -> PodArea
        ensures area { (cs : List TimedChange) (gone : List ℕ) → IsStatsOf self.now cs gone → contains p gone ≡ false
            → result.area ≡ time_taken (is_arrival_at p) (is_end_at p) (1000 * second_of self.now.time) self.now.time cs }
        ensures proxied { (cs : List TimedChange) (gone : List ℕ) → IsStatsOf self.now cs gone → contains p gone ≡ false
            → result.proxied ≡ time_taken (at is_assigned p) (at ends_assigned p) (1000 * second_of self.now.time) self.now.time cs }
    {
        let left = self.totals.left();
        let mut pod = pods::found(&self.pods, &self.hints, p);
        pod.refresh(self.totals.second(), left);
        let proxied = pod.proxied.so_far(left);
        PodArea {
            area: pod.direct.so_far(left) + proxied,
            proxied,
        }
    }
}
