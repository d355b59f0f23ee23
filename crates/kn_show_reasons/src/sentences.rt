//! Which lines a decision has.
ghost use Rattle.std.specs.Prelude.{◌≡◌, ◌-◌};
ghost use Rattle.kn_show_reasons.specs.Sentences.{activation, asked_lever, asked_more, at_zero, bound, bound_lever, burst_by, by_phase, capped_by, delay, demand_lever, down_rate, in_active, in_inactive, lever_of, most, panic_reason, panics, phase_lever, raised_by, sentences_of, stable_reason, up_rate, wait_lever, zero_lever};

use kn_event::{Burst, Decision, Phase, Spec};
use kn_levers::{count_for, is_cut, is_kept, is_raised, max_scale_down, max_scale_up, one_or_more};
use kn_reason::{Lever, Reason, Seats};

/// How many sentences a decision may have.
pub(crate) const SENTENCES: usize = 16;

// ---- what an average asks for

fn up_rate(spec: &Spec, ready: u64, pods: u64) -> Option<Reason>
    ensures { result ≡ up_rate spec.now ready pods }
{
    is_cut(spec, ready, pods).then_some(Reason::UpRate(spec.up, max_scale_up(spec, ready)))
}

fn down_rate(spec: &Spec, ready: u64, pods: u64) -> Option<Reason>
    ensures { result ≡ down_rate spec.now ready pods }
{
    is_kept(spec, ready, pods).then_some(Reason::DownRate(spec.down, max_scale_down(spec, ready)))
}

fn activation(spec: &Spec, ready: u64, pods: u64) -> Option<Reason>
    ensures { result ≡ activation spec.now ready pods }
{
    is_raised(spec, ready, pods).then_some(Reason::Activation(spec.activation))
}

// ---- the averages and the panic

fn stable_reason(spec: &Spec, d: &Decision) -> Reason
    ensures { result ≡ stable_reason spec.now d.now }
{
    let target = spec.target.num * 1000 / spec.target.den;
    Reason::Stable(spec.stable_s, d.stable, target, d.dspc)
}

fn panic_reason(spec: &Spec, d: &Decision) -> Reason
    ensures { result ≡ panic_reason spec.now d.now }
{
    Reason::Panic(spec.panic_s, d.panic, d.dppc)
}

fn panics(spec: &Spec, d: &Decision) -> Option<Reason>
    ensures { result ≡ panics spec.now d.now }
{
    if d.over {
        Some(Reason::Over(d.dppc, one_or_more(d.ready), spec.panic_threshold))
    } else {
        d.panicking.then_some(Reason::GoesOn(d.undelayed))
    }
}

/// More pods were asked for since the panic began.
fn asked_more(spec: &Spec, d: &Decision) -> bool
    ensures { result ≡ asked_more spec.now d.now }
{
    let stable = count_for(spec, d.ready, d.dspc);
    let panic = count_for(spec, d.ready, d.dppc);
    d.panicking && stable.max(panic) < d.undelayed as u128
}

fn most(spec: &Spec, d: &Decision) -> Option<Reason>
    ensures { result ≡ most spec.now d.now }
{
    let more = asked_more(spec, d);
    (d.over && more).then_some(Reason::Most(d.undelayed))
}

// ---- the delay and the bounds

fn delay(spec: &Spec, d: &Decision) -> Option<Reason>
    ensures { result ≡ delay spec.now d.now }
{
    (d.undelayed < d.delayed).then_some(Reason::Delay(spec.delay_s, d.delayed))
}

fn raised_by(spec: &Spec, d: &Decision) -> Reason
    ensures { result ≡ raised_by spec.now d.now }
{
    if d.bounded == spec.min {
        Reason::Min(spec.min, d.bounded)
    } else {
        Reason::Initial(spec.initial, d.bounded)
    }
}

fn capped_by(spec: &Spec, d: &Decision) -> Reason
    ensures { result ≡ capped_by spec.now d.now }
{
    if d.bounded == spec.max {
        Reason::Max(spec.max, d.bounded)
    } else {
        Reason::Ceiling(d.bounded)
    }
}

fn bound(spec: &Spec, d: &Decision) -> Option<Reason>
    ensures { result ≡ bound spec.now d.now }
{
    if d.delayed < d.bounded {
        Some(raised_by(spec, d))
    } else {
        (d.bounded < d.delayed).then_some(capped_by(spec, d))
    }
}

// ---- scale to zero, in a phase of which so much has passed

fn in_active(spec: &Spec, d: &Decision, passed: u64) -> Reason
    ensures { result ≡ in_active spec.now d.now passed }
{
    if d.want == 0 {
        Reason::GoesInactive(passed, 1000 * spec.stable_s)
    } else {
        Reason::Active(passed, 1000 * spec.stable_s, d.want)
    }
}

fn in_inactive(spec: &Spec, d: &Decision, passed: u64) -> Reason
    ensures { result ≡ in_inactive spec.now d.now passed }
{
    if d.applied {
        Reason::Inactive(passed, d.want)
    } else {
        Reason::NotYet(passed, spec.grace_ms, spec.retention_ms)
    }
}

fn by_phase(spec: &Spec, d: &Decision, passed: u64, phase: Option<Phase>) -> Option<Reason>
    ensures { result ≡ by_phase spec.now d.now passed phase }
{
    match phase {
        None => None,
        Some(Phase::Activating) => Some(Reason::Waits(d.want)),
        Some(Phase::Active) => Some(in_active(spec, d, passed)),
        Some(Phase::Inactive) => Some(in_inactive(spec, d, passed)),
    }
}

fn at_zero(spec: &Spec, d: &Decision, passed: u64, phase: Option<Phase>) -> Option<Reason>
    ensures { result ≡ at_zero spec.now d.now passed phase }
{
    if d.bounded == 0 {
        if spec.to_zero {
            by_phase(spec, d, passed, phase)
        } else {
            Some(Reason::NoZero(d.want))
        }
    } else {
        None
    }
}

// ---- the burst capacity, and what would change the count

fn burst_by(spec: &Spec, d: &Decision) -> Reason
    ensures { result ≡ burst_by spec.now d.now spec.now.burst }
{
    match spec.burst {
        Burst::Unlimited => Reason::BurstUnlimited(d.mode),
        Burst::Capacity(capacity) => {
            if capacity.0 == 0 {
                Reason::BurstOff(d.mode)
            } else {
                Reason::Burst(Seats {
                    ready: d.ready,
                    total: spec.total,
                    capacity,
                    average: d.panic,
                    excess: d.excess,
                    mode: d.mode,
                })
            }
        }
    }
}

fn demand_lever(spec: &Spec, d: &Decision) -> Lever
    ensures { result ≡ demand_lever spec.now d.now }
{
    if is_raised(spec, d.ready, d.dspc) {
        Lever::Activation
    } else if is_kept(spec, d.ready, d.dspc) {
        Lever::DownRate
    } else if is_cut(spec, d.ready, d.dspc) {
        Lever::UpRate
    } else {
        Lever::Load
    }
}

fn asked_lever(spec: &Spec, d: &Decision) -> Lever
    ensures { result ≡ asked_lever spec.now d.now }
{
    if d.undelayed < d.delayed {
        Lever::Delay
    } else if d.undelayed as u128 == count_for(spec, d.ready, d.dspc) {
        demand_lever(spec, d)
    } else {
        Lever::Panic
    }
}

fn bound_lever(spec: &Spec, d: &Decision) -> Lever
    ensures { result ≡ bound_lever spec.now d.now }
{
    if d.delayed < d.bounded {
        if d.bounded == spec.min {
            Lever::Min
        } else {
            Lever::Initial
        }
    } else if d.bounded == spec.max {
        Lever::Max
    } else {
        Lever::Nothing
    }
}

fn wait_lever(spec: &Spec) -> Lever
    ensures { result ≡ wait_lever spec.now }
{
    if spec.grace_ms < spec.retention_ms {
        Lever::Retention
    } else {
        Lever::Grace
    }
}

fn phase_lever(spec: &Spec, phase: Option<Phase>) -> Lever
    ensures { result ≡ phase_lever spec.now phase }
{
    match phase {
        None => Lever::Load,
        Some(Phase::Activating) => Lever::Ready,
        Some(Phase::Active) => Lever::StableWindow,
        Some(Phase::Inactive) => wait_lever(spec),
    }
}

fn zero_lever(spec: &Spec, phase: Option<Phase>) -> Lever
    ensures { result ≡ zero_lever spec.now phase }
{
    if spec.to_zero {
        phase_lever(spec, phase)
    } else {
        Lever::ToZero
    }
}

#[tactic(auto, unfolding(crate::specs::Sentences::lever_of))]
fn lever_of(spec: &Spec, phase: Option<Phase>, d: &Decision) -> Lever
    ensures { result ≡ lever_of spec.now phase d.now }
{
    if d.bounded == 0 {
        zero_lever(spec, phase)
    } else if d.bounded == d.delayed {
        asked_lever(spec, d)
    } else {
        bound_lever(spec, d)
    }
}

/// Each sentence of a decision at this time, where it stands, in the phase before it and since when that is.
#[tactic(auto, unfolding(crate::specs::Sentences::sentences_of))]
pub(crate) fn sentences_of(
    spec: &Spec,
    time: u64,
    phase: Option<Phase>,
    since: u64,
    d: &Decision,
) -> [Option<Reason>; SENTENCES]
    ensures { result ≡ sentences_of spec.now time phase since d.now }
{
    [
        Some(Reason::Wants(d.want, d.ready)),
        Some(stable_reason(spec, d)),
        up_rate(spec, d.ready, d.dspc),
        down_rate(spec, d.ready, d.dspc),
        activation(spec, d.ready, d.dspc),
        Some(panic_reason(spec, d)),
        up_rate(spec, d.ready, d.dppc),
        down_rate(spec, d.ready, d.dppc),
        activation(spec, d.ready, d.dppc),
        panics(spec, d),
        most(spec, d),
        delay(spec, d),
        bound(spec, d),
        at_zero(spec, d, time.saturating_sub(since), phase),
        Some(burst_by(spec, d)),
        Some(Reason::Change(lever_of(spec, phase, d))),
    ]
}
