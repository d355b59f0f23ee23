//! What the zero rule reads of a specification, and the rule by these alone.
ghost use Rattle.std.specs.Prelude.{◌≡◌, ◌&&◌, ◌||◌};
ghost use Rattle.kn_event.specs.declared.revision.Spec.{Spec as Parts};
ghost use Rattle.kn_scaling.specs.Zero.{has_lasted, is_proxy, may_go, no_pods, some_pods, zero_rule, zero_rule_in};
ghost use Rattle.kn_zero.specs.Zero.{settings_of};

use kn_event::{Mode, Phase, Spec};
use kn_scaling::{Standing, ZeroAnswer};

/// What the zero rule reads of a specification. Times are in milliseconds.
#[derive(Clone, Copy)]
pub struct Settings {
    pub to_zero: bool,
    pub stable_ms: u64,
    pub grace_ms: u64,
    pub retention_ms: u64,
}

/// Whether so many milliseconds went by.
fn has_lasted(since: u64, ms: u64, time: u64) -> bool
    ensures { result ≡ has_lasted since ms time }
{
    ms <= time && since <= time - ms
}

fn is_proxy(mode: Mode) -> bool
    ensures { result ≡ is_proxy mode }
{
    match mode {
        Mode::Proxy => true,
        Mode::Serve => false,
    }
}

/// Applied, and then active where a pod is Ready, else activating.
fn some_pods(ready: u64, want: u64) -> ZeroAnswer
    ensures { result ≡ some_pods ready want }
{
    ZeroAnswer {
        want,
        applied: true,
        phase: if 0 < ready {
            Phase::Active
        } else {
            Phase::Activating
        },
    }
}

fn no_pods(applied: bool) -> ZeroAnswer
    ensures { result ≡ no_pods applied }
{
    ZeroAnswer {
        want: 0,
        applied,
        phase: Phase::Inactive,
    }
}

impl Settings {
    pub(crate) fn of(spec: &Spec) -> Settings
        ensures { result ≡ settings_of spec.now }
    {
        Settings {
            to_zero: spec.to_zero,
            stable_ms: 1000 * spec.stable_s,
            grace_ms: spec.grace_ms,
            retention_ms: spec.retention_ms,
        }
    }

    /// Inactive for the larger of grace and retention, or for retention and through the activator for grace.
    #[tactic(auto, unfolding(kn_scaling::specs::Zero::may_go))]
    fn may_go(&self, time: u64, standing: &Standing) -> bool
        ensures { (spec : Parts) → settings_of spec ≡ self.now → result ≡ may_go spec time standing.now }
    {
        let inactive = standing.phase_since;
        has_lasted(inactive, self.grace_ms.max(self.retention_ms), time)
            || (has_lasted(inactive, self.retention_ms, time)
                && is_proxy(standing.mode)
                && has_lasted(standing.mode_since, self.grace_ms, time))
    }

    /// By the phase, where nothing is wanted any more.
    fn zero_rule_in(&self, time: u64, ready: u64, standing: &Standing) -> ZeroAnswer
        ensures { (spec : Parts) → settings_of spec ≡ self.now → result ≡ zero_rule_in standing.now.phase spec time ready standing.now }
    {
        let is_over = has_lasted(standing.phase_since, self.stable_ms, time);
        match standing.phase {
            Phase::Activating => ZeroAnswer {
                want: standing.want,
                applied: false,
                phase: Phase::Activating,
            },
            Phase::Active if is_over => no_pods(false),
            Phase::Active => some_pods(ready, 1),
            Phase::Inactive => no_pods(self.may_go(time, standing)),
        }
    }

    /// A bounded count above 0 is wanted; one pod is, where scale to zero is disabled; else it goes by the phase.
    #[tactic(auto, unfolding(kn_scaling::specs::Zero::zero_rule))]
    pub(crate) fn zero_rule(
        &self,
        time: u64,
        ready: u64,
        bounded: u64,
        standing: &Standing,
    ) -> ZeroAnswer
        ensures { (spec : Parts) → settings_of spec ≡ self.now → result ≡ zero_rule spec time ready bounded standing.now }
    {
        if 0 < bounded {
            some_pods(ready, bounded)
        } else if self.to_zero {
            self.zero_rule_in(time, ready, standing)
        } else {
            some_pods(ready, 1)
        }
    }
}
