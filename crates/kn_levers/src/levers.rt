//! From a decision and what it found to the settings that it hangs on.
ghost use Rattle.std.specs.Prelude.{◌≡◌, ◌<◌};
ghost use Rattle.kn_scaling.specs.Zero.{is_proxy, lower_bound};
ghost use Rattle.kn_levers.specs.Levers.{asked, asks_more, at_zero, borne, both_bounds, by_bound, bound_setting, by_average, by_counts, by_earlier, by_rule, capped, change_of, hangs_on_down, hangs_on_panic, has_above, has_below, in_active, in_phase, is_grace_over, is_young, keeps_one, kept, least, least_why, lets_fewer, longer, most_why, one_more, one_pod, raised, stable_count, stay, undelayed};

use crate::counts::{
    bears_less, count_for, is_kept, is_raised, max_scale_down, max_scale_up, most_down,
    one_or_more, with_activation,
};
use crate::lever::{Before, Change, Setting, Why};
use kn_event::{Decision, Frac, Milli, Mode, Phase, Spec};

/// The most pods of a revision.
const PODS_MOST: u64 = 500;

/// An hour: the longest window, grace period and retention period.
const HOUR_S: u64 = 3600;

const HOUR_MS: u64 = 3_600_000;

fn by_rule(setting: Setting) -> Change
    ensures { result ≡ by_rule setting }
{
    Change {
        setting,
        why: Why::Rule,
    }
}

// ---- a bound

fn has_above(spec: &Spec, d: &Decision) -> bool
    ensures { result ≡ has_above spec.now d.now }
{
    d.bounded < PODS_MOST && (spec.max == 0 || d.bounded < spec.max)
}

fn has_below(spec: &Spec, d: &Decision) -> bool
    ensures { result ≡ has_below spec.now d.now }
{
    2 <= d.bounded && spec.min < d.bounded
}

fn both_bounds(spec: &Spec, x: &Before, d: &Decision) -> Setting
    ensures { result ≡ both_bounds spec.now x.now d.now }
{
    if d.bounded < PODS_MOST {
        Setting::MinAndMax(d.bounded + 1, 0)
    } else if x.reached || spec.initial < PODS_MOST {
        Setting::MinAndMax(PODS_MOST - 1, PODS_MOST - 1)
    } else {
        Setting::Bounds(PODS_MOST - 1)
    }
}

fn bound_setting(spec: &Spec, x: &Before, d: &Decision) -> Setting
    ensures { result ≡ bound_setting spec.now x.now d.now }
{
    if has_above(spec, d) {
        Setting::Min(d.bounded + 1)
    } else if has_below(spec, d) {
        Setting::Max(d.bounded - 1)
    } else if !x.reached && d.bounded < PODS_MOST {
        Setting::Initial(d.bounded + 1)
    } else {
        both_bounds(spec, x, d)
    }
}

fn by_bound(spec: &Spec, x: &Before, d: &Decision, why: Why) -> Change
    ensures { result ≡ by_bound spec.now x.now d.now why }
{
    Change {
        setting: bound_setting(spec, x, d),
        why,
    }
}

// ---- no pod is asked for

fn is_young(spec: &Spec, phase: Phase, passed: u64) -> bool
    ensures { result ≡ is_young spec.now phase passed }
{
    match phase {
        Phase::Active => passed < 1000 * spec.stable_s,
        Phase::Activating => false,
        Phase::Inactive => false,
    }
}

fn keeps_one(spec: &Spec, x: &Before) -> bool
    ensures { result ≡ keeps_one spec.now x.now }
{
    !spec.to_zero || is_young(spec, x.phase, x.passed)
}

fn one_pod(spec: &Spec) -> Change
    ensures { result ≡ one_pod spec.now }
{
    Change {
        setting: if spec.max == 1 {
            Setting::MinAndMax(2, 2)
        } else {
            Setting::Min(2)
        },
        why: Why::OnePod,
    }
}

fn is_proxy(mode: Mode) -> bool
    ensures { result ≡ is_proxy mode }
{
    match mode {
        Mode::Proxy => true,
        Mode::Serve => false,
    }
}

fn is_grace_over(spec: &Spec, x: &Before) -> bool
    ensures { result ≡ is_grace_over spec.now x.now }
{
    spec.grace_ms <= x.passed || (is_proxy(x.mode) && spec.grace_ms <= x.mode_passed)
}

fn stay(spec: &Spec, x: &Before) -> Setting
    ensures { result ≡ stay spec.now x.now }
{
    if spec.retention_ms <= x.passed {
        Setting::Grace
    } else if is_grace_over(spec, x) {
        Setting::Retention(0)
    } else {
        Setting::GraceAndRetention
    }
}

fn longer(x: &Before, period: Setting) -> Change
    ensures { result ≡ longer x.now period }
{
    if x.passed < HOUR_MS {
        by_rule(period)
    } else {
        by_rule(Setting::ToZero(false))
    }
}

fn in_active(spec: &Spec, x: &Before) -> Change
    ensures { result ≡ in_active spec.now x.now }
{
    if x.passed < 1000 * spec.stable_s {
        if 6000 <= x.passed {
            by_rule(Setting::StableWindow(x.passed / 1000))
        } else {
            one_pod(spec)
        }
    } else {
        longer(x, Setting::StableWindow(HOUR_S))
    }
}

fn in_phase(phase: Phase, spec: &Spec, x: &Before, d: &Decision) -> Change
    ensures { result ≡ in_phase phase spec.now x.now d.now }
{
    match phase {
        Phase::Activating => Change {
            setting: Setting::Min(1),
            why: Why::OrReady,
        },
        Phase::Active => in_active(spec, x),
        Phase::Inactive => {
            if d.applied {
                longer(x, Setting::Retention(HOUR_MS))
            } else {
                by_rule(stay(spec, x))
            }
        }
    }
}

fn at_zero(spec: &Spec, x: &Before, d: &Decision) -> Change
    ensures { result ≡ at_zero spec.now x.now d.now }
{
    if spec.to_zero {
        in_phase(x.phase, spec, x, d)
    } else if is_young(spec, x.phase, x.passed) {
        one_pod(spec)
    } else {
        by_rule(Setting::ToZero(true))
    }
}

// ---- a bound holds

fn least(spec: &Spec, x: &Before, d: &Decision) -> Setting
    requires { 0 < d.now.bounded }
    ensures { result ≡ least spec.now x.now d.now }
{
    if has_above(spec, d) {
        Setting::Min(d.bounded + 1)
    } else if !x.reached && d.bounded < PODS_MOST {
        Setting::Initial(d.bounded + 1)
    } else if !x.reached && spec.initial == d.bounded {
        Setting::MinAndInitial(d.bounded - 1)
    } else if d.bounded == 1 && keeps_one(spec, x) {
        Setting::MinAndMax(2, 2)
    } else {
        Setting::Min(d.bounded - 1)
    }
}

fn raised(spec: &Spec, x: &Before, d: &Decision) -> Change
    requires { 0 < d.now.bounded }
    ensures { result ≡ raised spec.now x.now d.now }
{
    if d.bounded == spec.min {
        by_rule(least(spec, x, d))
    } else if d.bounded < PODS_MOST {
        by_rule(Setting::Initial(d.bounded + 1))
    } else {
        by_rule(Setting::Initial(PODS_MOST - 1))
    }
}

fn capped(spec: &Spec, x: &Before, d: &Decision) -> Change
    ensures { result ≡ capped spec.now x.now d.now }
{
    if d.bounded < PODS_MOST {
        by_rule(Setting::Max(0))
    } else if spec.min < PODS_MOST {
        Change {
            setting: Setting::Max(PODS_MOST - 1),
            why: Why::Ceiling,
        }
    } else {
        Change {
            setting: both_bounds(spec, x, d),
            why: Why::Ceiling,
        }
    }
}

// ---- what is asked for is wanted

#[tactic(auto, unfolding(kn_scaling::specs::Zero::lower_bound))]
fn lower_bound(spec: &Spec, reached: bool) -> u64
    ensures { result ≡ lower_bound spec.now reached }
{
    if reached {
        spec.min
    } else {
        spec.min.max(spec.initial)
    }
}

fn lets_fewer(spec: &Spec, x: &Before, d: &Decision, pods: u128) -> bool
    ensures { result ≡ lets_fewer spec.now x.now d.now pods }
{
    let most = (lower_bound(spec, x.reached) as u128).max(pods);
    most < d.bounded as u128 && (0 < most || !(d.bounded == 1 && keeps_one(spec, x)))
}

fn least_why(spec: &Spec, x: &Before, d: &Decision) -> Why
    ensures { result ≡ least_why spec.now x.now d.now }
{
    if d.bounded == spec.min {
        Why::MinAsks
    } else if d.bounded == lower_bound(spec, x.reached) {
        Why::InitialAsks
    } else {
        Why::OnePod
    }
}

fn stable_count(spec: &Spec, d: &Decision) -> u128
    ensures { result ≡ stable_count spec.now d.now }
{
    count_for(spec, d.ready, d.dspc)
}

fn hangs_on_panic(spec: &Spec, x: &Before, d: &Decision) -> bool
    ensures { result ≡ hangs_on_panic spec.now x.now d.now }
{
    let stable = stable_count(spec, d);
    (d.dppc as u128) < 100 * one_or_more(d.ready) as u128
        && (stable < d.undelayed as u128 && lets_fewer(spec, x, d, stable.max(x.recent as u128)))
}

fn hangs_on_down(spec: &Spec, x: &Before, d: &Decision, pods: u64) -> bool
    ensures { result ≡ hangs_on_down spec.now x.now d.now pods }
{
    is_kept(spec, d.ready, pods)
        && (!d.panicking
            && lets_fewer(
                spec,
                x,
                d,
                with_activation(spec, pods).max(x.recent) as u128,
            ))
}

fn one_more(d: &Decision, why: Why) -> Change
    requires { d.now.bounded < 500 }
    ensures setting { result.setting ≡ one_more d.now }
    ensures why { result.why ≡ why }
{
    Change {
        setting: Setting::Min(d.bounded + 1),
        why,
    }
}

fn kept(spec: &Spec, d: &Decision) -> Change
    requires { d.now.bounded < 500 }
    ensures { result ≡ kept spec.now d.now }
{
    if max_scale_down(spec, d.ready) < most_down(d.ready) {
        by_rule(Setting::DownRate(Milli(1001)))
    } else {
        one_more(d, Why::DownRateHolds)
    }
}

fn borne(d: &Decision, pods: u64, average: Frac) -> Change
    requires { d.now.bounded < 500 }
    ensures { result ≡ borne d.now pods average }
{
    if bears_less(pods, average) {
        Change {
            setting: Setting::Target,
            why: Why::OrLoad,
        }
    } else {
        one_more(d, Why::NoTarget)
    }
}

fn asks_more(spec: &Spec, d: &Decision, pods: u64, average: Frac) -> Change
    requires { d.now.bounded < 500 }
    ensures { result ≡ asks_more spec.now d.now pods average }
{
    let up = max_scale_up(spec, d.ready);
    if up < pods as u128 {
        by_rule(Setting::UpRate)
    } else if is_kept(spec, d.ready, pods) {
        kept(spec, d)
    } else if (pods as u128) < up {
        borne(d, pods, average)
    } else {
        one_more(d, Why::UpRateHolds)
    }
}

fn most_why(d: &Decision) -> Why
    ensures { result ≡ most_why d.now }
{
    if d.bounded < PODS_MOST {
        Why::NoMore
    } else {
        Why::Ceiling
    }
}

fn by_average(spec: &Spec, x: &Before, d: &Decision, pods: u64, average: Frac) -> Change
    ensures { result ≡ by_average spec.now x.now d.now pods average }
{
    let above = has_above(spec, d);
    if above && is_raised(spec, d.ready, pods) {
        by_rule(Setting::Activation(d.bounded + 1))
    } else if hangs_on_down(spec, x, d, pods) {
        by_rule(Setting::DownRate(Milli(1_000_000_000)))
    } else if above {
        asks_more(spec, d, pods, average)
    } else {
        by_bound(spec, x, d, most_why(d))
    }
}

fn by_earlier(spec: &Spec, x: &Before, d: &Decision) -> Change
    ensures { result ≡ by_earlier spec.now x.now d.now }
{
    if has_below(spec, d) {
        Change {
            setting: Setting::Max(d.bounded - 1),
            why: Why::PanicKeeps,
        }
    } else {
        by_bound(spec, x, d, Why::PanicKeeps)
    }
}

fn by_counts(spec: &Spec, x: &Before, d: &Decision) -> Change
    ensures { result ≡ by_counts spec.now x.now d.now }
{
    if d.undelayed as u128 == stable_count(spec, d) {
        by_average(spec, x, d, d.dspc, d.stable)
    } else if d.panicking && d.undelayed as u128 == count_for(spec, d.ready, d.dppc) {
        by_average(spec, x, d, d.dppc, d.panic)
    } else {
        by_earlier(spec, x, d)
    }
}

fn undelayed(spec: &Spec, x: &Before, d: &Decision) -> Change
    ensures { result ≡ undelayed spec.now x.now d.now }
{
    if d.over && !x.over && hangs_on_panic(spec, x, d) {
        by_rule(Setting::Panic)
    } else {
        by_counts(spec, x, d)
    }
}

fn asked(spec: &Spec, x: &Before, d: &Decision) -> Change
    ensures { result ≡ asked spec.now x.now d.now }
{
    if d.undelayed < d.delayed {
        if lets_fewer(spec, x, d, d.undelayed as u128) {
            by_rule(Setting::Delay)
        } else {
            by_bound(spec, x, d, least_why(spec, x, d))
        }
    } else {
        undelayed(spec, x, d)
    }
}

/// What changes a decision by this specification, with what it found: the setting that is to be turned first, and the value
/// at which the decision comes out otherwise (`lever_laws`).
#[tactic(auto, unfolding(crate::specs::Levers::change_of))]
pub fn change_of(spec: &Spec, x: &Before, d: &Decision) -> Change
    ensures { result ≡ change_of spec.now x.now d.now }
{
    if d.bounded == 0 {
        at_zero(spec, x, d)
    } else if d.delayed < d.bounded {
        raised(spec, x, d)
    } else if d.bounded < d.delayed {
        capped(spec, x, d)
    } else {
        asked(spec, x, d)
    }
}
