ghost use Rattle.std.specs.Prelude.{◌≡◌, ◌≤◌, ◌<◌, true, false};

use crate::Change;

/// Requests that are live now, and what they and earlier ones come to in the open second where nothing more changes in it.
#[derive(Clone, Copy)]
pub(crate) struct Tally {
    pub(crate) count: u64,
    /// Milliseconds.
    pub(crate) area: u64,
}

impl Tally {
    ghost use Rattle.kn_stats.specs.Pods.{IsSmall, anew, no_tally, so_far, tally_after};

    pub(crate) fn none() -> Tally
        ensures { result ≡ no_tally }
    {
        Tally { count: 0, area: 0 }
    }

    /// One begins with so much of the second left.
    #[inline(always)]
    pub(crate) fn begin(&mut self, left: u64)
        requires small { IsSmall left self.old }
        requires left { left ≤ 1000 }
        ensures { self.new ≡ tally_after true false left self.old }
    {
        self.count += 1;
        self.area += left;
    }

    /// One ends with so much of the second left.
    #[inline(always)]
    #[tactic(auto, using(crate::proofs::Bounds::left_inside))]
    pub(crate) fn end(&mut self, left: u64)
        requires some { 0 < self.old.count }
        requires small { IsSmall left self.old }
        ensures { self.new ≡ tally_after false true left self.old }
    {
        self.count -= 1;
        self.area -= left;
    }

    /// In a new second all are there from its begin.
    pub(crate) fn renew(&mut self)
        requires { self.old.count ≤ 20000 }
        ensures { self.new ≡ anew self.old }
    {
        self.area = 1000 * self.count;
    }

    /// What was taken with so much of the second left.
    #[tactic(auto, using(crate::proofs::Bounds::product_small))]
    pub(crate) fn so_far(self, left: u64) -> u64
        requires small { IsSmall left self }
        requires left { left ≤ 1000 }
        ensures { result ≡ so_far left self }
    {
        self.area.saturating_sub(self.count * left)
    }
}

/// What is kept of one pod.
#[derive(Clone, Copy)]
pub(crate) struct PodTally {
    pub(crate) number: u64,
    /// The second that the areas are of; in a later one they begin anew.
    pub(crate) second: u64,
    /// Requests that went straight to it.
    pub(crate) direct: Tally,
    /// Those that came through the activator.
    pub(crate) proxied: Tally,
}

impl PodTally {
    ghost use Rattle.kn_stats.specs.Pods.{CanEnd, IsSmallPod, fresh, idle, pod_after};

    pub(crate) fn idle(p: u64) -> PodTally
        ensures { result ≡ idle p }
    {
        PodTally {
            number: p,
            second: 0,
            direct: Tally::none(),
            proxied: Tally::none(),
        }
    }

    /// What is kept, as it is in this second.
    #[inline(always)]
    #[tactic(auto, using(crate::proofs::Bounds::fresh_counts))]
    pub(crate) fn refresh(&mut self, second: u64, left: u64)
        requires { IsSmallPod second left self.old }
        ensures { self.new ≡ fresh second self.old }
    {
        if self.second < second {
            self.second = second;
            self.direct.renew();
            self.proxied.renew();
        }
    }

    /// A change that names it, with so much of the second left.
    #[inline(always)]
    pub(crate) fn change(&mut self, c: Change, second: u64, left: u64)
        requires small { IsSmallPod second left self.old }
        requires left { left ≤ 1000 }
        requires ends { CanEnd c self.old }
        ensures { self.new ≡ pod_after second left c self.old }
    {
        self.refresh(second, left);
        match c {
            Change::Assigned(_) => self.proxied.begin(left),
            Change::Directed(_) => self.direct.begin(left),
            Change::EndedAt(_, true) => self.proxied.end(left),
            Change::EndedAt(_, false) => self.direct.end(left),
            Change::Admitted | Change::EndedHeld => {}
        }
    }
}
