//! From a Revision to its specification.
ghost use Rattle.std.specs.Prelude.{◌≡◌, ◌≤◌, ◌<◌, ◌*◌, IfOk, IfSome, IfNone, IsTrue, MatchResult};
ghost use Rattle.serde_json.specs.View.{view};
ghost use Rattle.kn_event.specs.Ranges.{is_name, AreSlots, IsTotal};
ghost use Rattle.kn_event.specs.Defaults.{scaling_target};
ghost use Rattle.kn_config.specs.Config.{IsConfig};
ghost use Rattle.kn_revision.specs.Laws.{DefaultsAreFixed, OthersAreIgnored};
ghost use Rattle.kn_revision.specs.Amounts.{AreAmounts};
ghost use Rattle.kn_revision.specs.Revision.{GivesSpec, spec_of, spec_in, fault_of, parts_of, total_of, concurrency_total, panic_seconds};

use crate::amounts::Amounts;
use crate::error::{Field, SpecError};
use crate::member::name;
use kn_config::{Config, JsonError, Key, read_json};
use kn_event::{Frac, Kind, Metric, Milli, Slots, Spec, Text};
use serde_json::Value;
use std::alloc::Global;

/// The specification of a Revision in JSON over this configuration, or its first fault: the text as JSON; the
/// namespace, then the name; containerConcurrency and timeoutSeconds; the annotations in the table's order; a
/// max-scale below the min-scale; an initial scale of 0 that isn't allowed.
#[tactic(auto, unfolding(crate::specs::Revision::spec_of))]
pub fn resolve(alloc: Global, config: &Config, text: &[u8], slots: Slots) -> Result<Spec, SpecError>
    requires config { IsConfig config.now }
    requires slots { AreSlots slots }
    ensures gives { GivesSpec result (spec_of config.now text.now slots) }
    ensures scaled { IfOk result (λ spec. spec.kind ≡ Kind.Kpa) }
    ensures slots { IfOk result (λ spec. spec.slots ≡ slots) }
{
    match read_json(alloc, text) {
        Ok(revision) => spec_in(alloc, config, &revision, slots),
        Err(JsonError::NotJson) => Err(SpecError::NotJson),
        Err(JsonError::Memory) => Err(SpecError::Memory),
    }
}

/// A Revision without annotations has, over the default configuration, what a setup of fixed pods has in the fields that
/// it doesn't give.
pub fn defaults_are_those_of_fixed_pods()
    ensures { DefaultsAreFixed }
{}

/// A specification depends on the named members alone: namespace, name, containerConcurrency, timeoutSeconds and the
/// annotations of the table. Any other member is ignored, at the top, in the metadata, among the annotations and in `spec`.
pub fn other_members_are_ignored()
    ensures { OthersAreIgnored }
{}

/// The specification of a Revision's value.
#[tactic(auto, unfolding(crate::specs::Revision::spec_in))]
fn spec_in(
    alloc: Global,
    config: &Config,
    revision: &Value,
    slots: Slots,
) -> Result<Spec, SpecError>
    requires config { IsConfig config.now }
    requires slots { AreSlots slots }
    ensures gives { GivesSpec result (spec_in config.now slots (view revision.now)) }
    ensures scaled { IfOk result (λ spec. spec.kind ≡ Kind.Kpa) }
    ensures slots { IfOk result (λ spec. spec.slots ≡ slots) }
{
    let namespace = name(revision, Field::Namespace)?;
    let name = name(revision, Field::Name)?;
    let amounts = match Amounts::read(config, revision) {
        Ok(amounts) => amounts,
        Err(fault) => return Err(SpecError::of_key(fault)),
    };
    match fault_of(config, amounts) {
        Some(fault) => Err(fault),
        None => spec(alloc, config, slots, namespace, name, amounts),
    }
}

/// What is wrong with these amounts together.
fn fault_of(config: &Config, amounts: Amounts) -> Option<SpecError>
    ensures value { result ≡ fault_of config.now amounts }
    ensures order { IfNone result (0 < amounts.scale.max → amounts.scale.min ≤ amounts.scale.max) }
{
    let scale = amounts.scale;
    if scale.max > 0 && scale.max < scale.min {
        return Some(SpecError::OutOfRange(Key::MaxScale));
    }
    if scale.initial == 0 && !config.allow_zero_initial {
        return Some(SpecError::ZeroInitial);
    }
    None
}

/// The specification of these names and amounts.
#[tactic(auto, unfolding(crate::specs::Revision::parts_of))]
fn spec(
    alloc: Global,
    config: &Config,
    slots: Slots,
    namespace: &str,
    name: &str,
    amounts: Amounts,
) -> Result<Spec, SpecError>
    requires config { IsConfig config.now }
    requires slots { AreSlots slots }
    requires namespace { IsTrue (is_name namespace.now) }
    requires name { IsTrue (is_name name.now) }
    requires amounts { AreAmounts amounts }
    requires order { 0 < amounts.scale.max → amounts.scale.min ≤ amounts.scale.max }
    ensures value { MatchResult result
        (λ spec. spec ≡ parts_of config.now slots namespace.now name.now amounts)
        (λ fault. fault ≡ SpecError.Memory) }
    ensures scaled { IfOk result (λ spec. spec.kind ≡ Kind.Kpa) }
    ensures slots { IfOk result (λ spec. spec.slots ≡ slots) }
{
    let Ok(namespace) = Vec::from_slice(alloc, namespace.as_bytes()) else {
        return Err(SpecError::Memory);
    };
    let Ok(name) = Vec::from_slice(alloc, name.as_bytes()) else {
        return Err(SpecError::Memory);
    };
    let Amounts {
        limits,
        scale,
        load,
        pace,
    } = amounts;
    let total = total_of(config, scale.metric, limits.cc, load.target);
    Ok(Spec {
        kind: Kind::Kpa,
        namespace: Text::new(namespace),
        name: Text::new(name),
        cc: limits.cc,
        metric: scale.metric,
        total,
        target: target(total, load.utilisation),
        stable_s: load.stable_s,
        panic_s: panic_seconds(load.stable_s, load.panic_percent),
        panic_threshold: load.panic_threshold,
        up: config.up,
        down: config.down,
        activation: pace.activation,
        delay_s: pace.delay_s,
        burst: pace.burst,
        min: scale.min,
        max: scale.max,
        initial: scale.initial,
        to_zero: config.to_zero,
        grace_ms: config.grace_ms,
        retention_ms: pace.retention_ms,
        timeout_ms: 1000 * limits.timeout_s,
        slots,
    })
}

/// What a pod bears in all: requests, or requests per second.
fn total_of(config: &Config, metric: Metric, cc: u64, target: Option<Milli>) -> Milli
    requires config { IsConfig config.now }
    requires cc { cc ≤ 1000 }
    requires target { IfSome target IsTotal }
    ensures value { result ≡ total_of config.now metric cc target }
    ensures range { IsTotal result }
{
    match metric {
        Metric::Concurrency => concurrency_total(cc, config.concurrency_default, target),
        Metric::Rps => target.unwrap_or(config.rps_default),
    }
}

/// Requests that a pod bears: its containerConcurrency, or the default where that is 0. A target is taken in place of
/// the default, and where it is below a containerConcurrency above 0.
fn concurrency_total(cc: u64, default: Milli, target: Option<Milli>) -> Milli
    requires cc { cc ≤ 1000 }
    requires default { IsTotal default }
    requires target { IfSome target IsTotal }
    ensures value { result ≡ concurrency_total cc default target }
    ensures range { IsTotal result }
{
    if cc == 0 {
        return target.unwrap_or(default);
    }
    let own = Milli(1000 * cc);
    match target {
        None => own,
        Some(target) => Milli(target.0.min(own.0)),
    }
}

/// What a pod is to bear: the total at this utilisation, and at least 0.01.
#[tactic(auto, using(kn_event::specs::Fractions::frac_by_parts))]
fn target(total: Milli, utilisation: Milli) -> Frac
    requires total { total.0 ≤ 1000000000 }
    requires utilisation { utilisation.0 ≤ 100000 }
    ensures value { result ≡ scaling_target total.0 utilisation.0 }
    ensures den { result.den ≡ 100000000 }
    ensures least { 1000000 ≤ result.num }
    ensures most { result.num ≤ 100000000000000 }
{
    Frac {
        num: (u128::from(total.0) * u128::from(utilisation.0)).max(1_000_000),
        den: 100_000_000,
    }
}

/// The panic window: this part of the stable one in whole seconds, and at least 1.
fn panic_seconds(stable_s: u64, percent: Milli) -> u64
    requires stable { stable_s ≤ 3600 }
    requires percent { percent.0 ≤ 100000 }
    ensures value { result ≡ panic_seconds stable_s percent }
    ensures least { 1 ≤ result }
    ensures most { result ≤ 3600 }
{
    (stable_s * percent.0 / 100_000).max(1)
}
