//! Amounts of a scaled revision that its specification has in other parts, and what gives each of them. The ConfigMap and the
//! Revision are given by the values of their texts.
ghost use Rattle.std.specs.Prelude.{◌≡◌, ◌≤◌, ◌<◌, IfOk, Option, option_map};
ghost use Rattle.serde_json.specs.View.{view};
ghost use Rattle.kn_origins.specs.Amounts.{metric_text, number_in, panic_origin, percentage_in, target_milli, target_origin, total_origin, total_otherwise, utilisation, utilisation_origin, utilisation_otherwise, utilisation_without, window_origin};

use crate::origin::{Origin, annotated, annotation, configured, inner};
use kn_config::{Key, value};
use kn_event::{Frac, Memory, Metric, Spec};
use serde_json::Value;
use std::alloc::Global;

/// What is averaged, in a word: `concurrency` or `rps`.
pub fn metric_text(metric: Metric) -> &'static [u8]
    ensures { result.now ≡ metric_text metric }
{
    match metric {
        Metric::Concurrency => b"concurrency",
        Metric::Rps => b"rps",
    }
}

/// What gives the total without its annotation.
fn total_otherwise(metric: Metric, cc: u64, config: &Value) -> Origin
    ensures { result ≡ total_otherwise metric cc (view config.now) }
{
    match metric {
        Metric::Concurrency => if cc == 0 {
            configured(Key::ContainerConcurrencyTargetDefault, config)
        } else {
            Origin::Revision
        },
        Metric::Rps => configured(Key::RequestsPerSecondTargetDefault, config),
    }
}

/// What gives the total that a pod could bear: the annotation of the target; else the Revision, where its
/// containerConcurrency is above 0 and bounds the metric; else the ConfigMap's key for the metric, or the default. The only
/// error is want of memory.
#[tactic(auto, unfolding(crate::specs::Amounts::total_origin))]
pub fn total_origin(
    alloc: Global,
    spec: &Spec,
    config: &Value,
    revision: &Value,
) -> Result<Origin, Memory>
    ensures { IfOk result (λ from. from ≡ total_origin spec.now (view config.now) (view revision.now)) }
{
    let otherwise = total_otherwise(spec.metric, spec.cc, config);
    annotated(alloc, Key::Target, revision, otherwise)
}

/// The number that the annotation says, in thousandths.
fn number_in(said: Option<&str>) -> u64
    ensures { result ≡ number_in (option_map (λ s. s.now) said.entry) }
{
    let Some(text) = said else {
        return 0;
    };
    match value::number(Key::TargetUtilizationPercentage, text) {
        Ok(read) => read.0,
        Err(_) => 0,
    }
}

/// The percentage that the key says, in thousandths of a per cent.
fn percentage_in(said: Option<&str>) -> u64
    ensures { result ≡ percentage_in (option_map (λ s. s.now) said.entry) }
{
    let Some(text) = said else {
        return 0;
    };
    match value::percentage(Key::ContainerConcurrencyTargetPercentage, text) {
        Ok(read) => read.0,
        Err(_) => 0,
    }
}

/// The utilisation without its annotation, in thousandths of a per cent.
fn utilisation_without(metric: Metric, config: &Value) -> u64
    ensures { result ≡ utilisation_without metric (view config.now) }
{
    match metric {
        Metric::Concurrency => configured_utilisation(config),
        Metric::Rps => 70_000,
    }
}

/// The utilisation of the configuration.
fn configured_utilisation(config: &Value) -> u64
    ensures { result ≡ utilisation_without Metric.Concurrency (view config.now) }
{
    let key = Key::ContainerConcurrencyTargetPercentage;
    match inner(config, "data", key.text()) {
        Some(member) => percentage_in(member.as_str()),
        None => key.rule().default,
    }
}

/// The utilisation, in thousandths of a per cent: by its annotation, else by the ConfigMap's key or its default; of requests
/// per second without the annotation always 70 per cent. A text that says no such amount counts as 0, but no setup that was
/// read has one. The only error is want of memory.
#[tactic(auto, unfolding(crate::specs::Amounts::utilisation))]
pub fn utilisation(
    alloc: Global,
    metric: Metric,
    config: &Value,
    revision: &Value,
) -> Result<u64, Memory>
    ensures { IfOk result (λ n. n ≡ utilisation metric (view config.now) (view revision.now)) }
{
    match annotation(alloc, Key::TargetUtilizationPercentage, revision) {
        Ok(Some(member)) => Ok(number_in(member.as_str())),
        Ok(None) => Ok(utilisation_without(metric, config)),
        Err(Memory) => Err(Memory),
    }
}

/// What gives the utilisation without its annotation.
fn utilisation_otherwise(metric: Metric, config: &Value) -> Origin
    ensures { result ≡ utilisation_otherwise metric (view config.now) }
{
    match metric {
        Metric::Concurrency => configured(Key::ContainerConcurrencyTargetPercentage, config),
        Metric::Rps => Origin::Default,
    }
}

/// What gives the utilisation: its annotation, else the ConfigMap's key, or the default. The only error is want of memory.
#[tactic(auto, unfolding(crate::specs::Amounts::utilisation_origin))]
pub fn utilisation_origin(
    alloc: Global,
    metric: Metric,
    config: &Value,
    revision: &Value,
) -> Result<Origin, Memory>
    ensures { IfOk result (λ from. from ≡ utilisation_origin metric (view config.now) (view revision.now)) }
{
    let otherwise = utilisation_otherwise(metric, config);
    annotated(alloc, Key::TargetUtilizationPercentage, revision, otherwise)
}

/// The target in thousandths, rounded down. Its numerator is at most 10^14, as that of each specification is.
pub fn target_milli(target: Frac) -> u128
    requires { target.num ≤ 100000000000000 }
    ensures { result ≡ target_milli target }
{
    1000 * target.num / target.den
}

/// What gives the target, which is the utilisation's part of the total: of what gives these two the one that overrides the
/// other. The only error is want of memory.
#[tactic(auto, unfolding(crate::specs::Amounts::target_origin))]
pub fn target_origin(
    alloc: Global,
    spec: &Spec,
    config: &Value,
    revision: &Value,
) -> Result<Origin, Memory>
    ensures { IfOk result (λ from. from ≡ target_origin spec.now (view config.now) (view revision.now)) }
{
    let Ok(part) = utilisation_origin(alloc, spec.metric, config, revision) else {
        return Err(Memory);
    };
    match total_origin(alloc, spec, config, revision) {
        Ok(total) => Ok(part.above(total)),
        Err(Memory) => Err(Memory),
    }
}

/// What gives the stable window: its annotation, else the ConfigMap's key, or the default. The only error is want of memory.
#[tactic(auto, unfolding(crate::specs::Amounts::window_origin))]
pub fn window_origin(alloc: Global, config: &Value, revision: &Value) -> Result<Origin, Memory>
    ensures { IfOk result (λ from. from ≡ window_origin (view config.now) (view revision.now)) }
{
    annotated(
        alloc,
        Key::Window,
        revision,
        configured(Key::StableWindow, config),
    )
}

/// What gives the panic window, which is a part of the stable one: of what gives that part and the stable window the one that
/// overrides the other. The only error is want of memory.
#[tactic(auto, unfolding(crate::specs::Amounts::panic_origin))]
pub fn panic_origin(alloc: Global, config: &Value, revision: &Value) -> Result<Origin, Memory>
    ensures { IfOk result (λ from. from ≡ panic_origin (view config.now) (view revision.now)) }
{
    let key = Key::PanicWindowPercentage;
    let Ok(part) = annotated(alloc, key, revision, configured(key, config)) else {
        return Err(Memory);
    };
    match window_origin(alloc, config, revision) {
        Ok(window) => Ok(part.above(window)),
        Err(Memory) => Err(Memory),
    }
}
