//! The settings of a revision that scales.
ghost use Rattle.std.specs.Prelude.{◌≡◌, ◌++◌, OnOk};
ghost use Rattle.serde_json.specs.View.{view};
ghost use Rattle.kn_origins.specs.Amounts.{burst_text};
ghost use Rattle.kn_origins.specs.Lines.{setting, setting_line};
ghost use Rattle.kn_show_settings.specs.Settings.{AddsSettings, bound_text, load_settings, measure_text, own_settings, rate_settings, scale_settings, scaled_text, slot_settings, window_settings, zero_settings};

use kn_config::Key;
use kn_event::{Burst, Memory, Slots, Spec};
use kn_origins::{
    Origin, add_flag, add_ignored_text, add_number, add_thousandths, add_word, annotated,
    configured, metric_text, overridden, panic_origin, renamed, specified, target_milli,
    target_origin, total_origin, utilisation, utilisation_origin, window_origin,
};
use serde_json::Value;
use std::alloc::Global;

/// Adds a setting whose value is a number of requests, or `unlimited`.
fn add_burst(text: &mut Vec<u8>, name: &[u8], burst: Burst, from: Origin) -> Result<(), Memory>
    ensures { OnOk result (text.new.items ≡ text.old.items ++ setting_line (setting name.now (burst_text burst) from)) }
{
    match burst {
        Burst::Unlimited => add_word(text, name, b"unlimited", from),
        Burst::Capacity(capacity) => add_thousandths(text, name, u128::from(capacity.0), from),
    }
}

#[tactic(auto, using(crate::proofs::Pieces::four_lines), unfolding(crate::specs::Settings::own_settings))]
fn add_own(text: &mut Vec<u8>, spec: &Spec, revision: &Value) -> Result<(), Memory>
    ensures { AddsSettings text.old text.new (own_settings spec.now (view revision.now)) result }
{
    add_word(text, b"namespace", spec.namespace.bytes(), Origin::Revision)?;
    add_word(text, b"name", spec.name.bytes(), Origin::Revision)?;
    let from = specified(Key::ContainerConcurrency, revision);
    add_number(text, b"containerConcurrency", spec.cc, from)?;
    let from = specified(Key::TimeoutSeconds, revision);
    add_number(text, b"timeoutSeconds", spec.timeout_ms / 1000, from)
}

#[tactic(auto, using(crate::proofs::Pieces::four_lines), unfolding(crate::specs::Settings::load_settings))]
fn add_load(
    alloc: Global,
    text: &mut Vec<u8>,
    spec: &Spec,
    config: &Value,
    revision: &Value,
) -> Result<(), Memory>
    ensures { AddsSettings text.old text.new (load_settings spec.now (view config.now) (view revision.now)) result }
{
    let metric = annotated(alloc, Key::Metric, revision, Origin::Default)?;
    let total = total_origin(alloc, spec, config, revision)?;
    let part = utilisation(alloc, spec.metric, config, revision)?;
    let part_from = utilisation_origin(alloc, spec.metric, config, revision)?;
    let target = target_origin(alloc, spec, config, revision)?;
    add_word(text, b"metric", metric_text(spec.metric), metric)?;
    add_thousandths(text, b"target-total", u128::from(spec.total.0), total)?;
    add_thousandths(
        text,
        b"target-utilization-percentage",
        u128::from(part),
        part_from,
    )?;
    add_thousandths(text, b"target", target_milli(spec.target), target)
}

#[tactic(auto, using(crate::proofs::Pieces::four_lines), unfolding(crate::specs::Settings::window_settings))]
fn add_windows(
    alloc: Global,
    text: &mut Vec<u8>,
    spec: &Spec,
    config: &Value,
    revision: &Value,
) -> Result<(), Memory>
    ensures { AddsSettings text.old text.new (window_settings spec.now (view config.now) (view revision.now)) result }
{
    let stable = window_origin(alloc, config, revision)?;
    let panic = panic_origin(alloc, config, revision)?;
    let threshold = overridden(alloc, Key::PanicThresholdPercentage, config, revision)?;
    let burst = overridden(alloc, Key::TargetBurstCapacity, config, revision)?;
    add_number(text, b"stable-window-s", spec.stable_s, stable)?;
    add_number(text, b"panic-window-s", spec.panic_s, panic)?;
    let percent = u128::from(spec.panic_threshold.0);
    add_thousandths(text, b"panic-threshold-percentage", percent, threshold)?;
    add_burst(text, b"target-burst-capacity", spec.burst, burst)
}

#[tactic(auto, using(crate::proofs::Pieces::two_lines))]
fn add_rates(text: &mut Vec<u8>, spec: &Spec, config: &Value) -> Result<(), Memory>
    ensures { AddsSettings text.old text.new (rate_settings spec.now (view config.now)) result }
{
    let from = configured(Key::MaxScaleUpRate, config);
    add_thousandths(text, b"max-scale-up-rate", u128::from(spec.up.0), from)?;
    let from = configured(Key::MaxScaleDownRate, config);
    add_thousandths(text, b"max-scale-down-rate", u128::from(spec.down.0), from)
}

#[tactic(auto, using(crate::proofs::Pieces::three_lines), unfolding(crate::specs::Settings::zero_settings))]
fn add_zero(
    alloc: Global,
    text: &mut Vec<u8>,
    spec: &Spec,
    config: &Value,
    revision: &Value,
) -> Result<(), Memory>
    ensures { AddsSettings text.old text.new (zero_settings spec.now (view config.now) (view revision.now)) result }
{
    let on = configured(Key::EnableScaleToZero, config);
    let grace = configured(Key::ScaleToZeroGracePeriod, config);
    let retention = overridden(alloc, Key::ScaleToZeroPodRetentionPeriod, config, revision)?;
    add_flag(text, b"enable-scale-to-zero", spec.to_zero, on)?;
    add_number(text, b"scale-to-zero-grace-period-ms", spec.grace_ms, grace)?;
    add_number(
        text,
        b"scale-to-zero-pod-retention-period-ms",
        spec.retention_ms,
        retention,
    )
}

#[tactic(auto, using(crate::proofs::Pieces::five_lines), unfolding(crate::specs::Settings::scale_settings))]
fn add_scales(
    alloc: Global,
    text: &mut Vec<u8>,
    spec: &Spec,
    config: &Value,
    revision: &Value,
) -> Result<(), Memory>
    ensures { AddsSettings text.old text.new (scale_settings spec.now (view config.now) (view revision.now)) result }
{
    let min = renamed(alloc, Key::MinScale, Key::OldMinScale, config, revision)?;
    let max = renamed(alloc, Key::MaxScale, Key::OldMaxScale, config, revision)?;
    let initial = overridden(alloc, Key::InitialScale, config, revision)?;
    let activation = annotated(alloc, Key::ActivationScale, revision, Origin::Default)?;
    let delay = overridden(alloc, Key::ScaleDownDelay, config, revision)?;
    add_number(text, b"min-scale", spec.min, min)?;
    add_number(text, b"max-scale", spec.max, max)?;
    add_number(text, b"initial-scale", spec.initial, initial)?;
    add_number(text, b"activation-scale", spec.activation, activation)?;
    add_number(text, b"scale-down-delay-s", spec.delay_s, delay)
}

#[tactic(auto, using(crate::proofs::Pieces::three_lines))]
fn add_slots(text: &mut Vec<u8>, slots: Slots) -> Result<(), Memory>
    ensures { AddsSettings text.old text.new (slot_settings slots) result }
{
    add_number(text, b"depth", slots.depth, Origin::Setup)?;
    add_number(text, b"max", slots.max, Origin::Setup)?;
    add_number(text, b"seed", slots.seed, Origin::Setup)
}

/// Adds what a pod bears and what is averaged.
#[tactic(auto, using(std::proofs::Common::append_assoc), unfolding(crate::specs::Settings::measure_text))]
fn add_measures(
    alloc: Global,
    text: &mut Vec<u8>,
    spec: &Spec,
    config: &Value,
    revision: &Value,
) -> Result<(), Memory>
    ensures { OnOk result (text.new.items ≡ text.old.items
        ++ measure_text spec.now (view config.now) (view revision.now)) }
{
    add_own(text, spec, revision)?;
    add_load(alloc, text, spec, config, revision)?;
    add_windows(alloc, text, spec, config, revision)
}

/// Adds how soon counts change, and their bounds.
#[tactic(auto, using(std::proofs::Common::append_assoc), unfolding(crate::specs::Settings::bound_text))]
fn add_bounds(
    alloc: Global,
    text: &mut Vec<u8>,
    spec: &Spec,
    config: &Value,
    revision: &Value,
) -> Result<(), Memory>
    ensures { OnOk result (text.new.items ≡ text.old.items
        ++ bound_text spec.now (view config.now) (view revision.now)) }
{
    add_rates(text, spec, config)?;
    add_zero(alloc, text, spec, config, revision)?;
    add_scales(alloc, text, spec, config, revision)
}

/// Adds the settings in force over a ConfigMap and a Revision, and what is ignored of these.
#[tactic(auto, using(crate::proofs::Pieces::four_pieces), unfolding(crate::specs::Settings::scaled_text))]
pub fn add_scaled(
    alloc: Global,
    text: &mut Vec<u8>,
    spec: &Spec,
    config: &Value,
    revision: &Value,
) -> Result<(), Memory>
    ensures { OnOk result (text.new.items ≡ text.old.items
        ++ scaled_text spec.now (view config.now) (view revision.now)) }
{
    add_measures(alloc, text, spec, config, revision)?;
    add_bounds(alloc, text, spec, config, revision)?;
    add_slots(text, spec.slots)?;
    add_ignored_text(alloc, text, config, revision)
}
