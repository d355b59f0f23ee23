//! What a Revision's limits and annotations come to over the configuration, each fault the first one.
ghost use Rattle.std.specs.Prelude.{◌≡◌, ◌≤◌, IfOk};
ghost use Rattle.serde_json.specs.View.{view};
ghost use Rattle.kn_config.specs.Config.{IsConfig};
ghost use Rattle.kn_revision.specs.Members.{AreLimits};
ghost use Rattle.kn_revision.specs.Amounts.{scale_of, load_of, pace_of, amounts_of, overridden, utilisation_without, AreScales, IsLoad, IsPace, AreAmounts};

use crate::annotation::{Annotation, check_class, metric_in, target};
use crate::member::{Limits, inner};
use kn_config::{Config, Key, KeyError};
use kn_event::{Burst, Metric, Milli};
use serde_json::Value;

/// What is counted, and the bounds on counts.
#[derive(Clone, Copy)]
pub struct Scale {
    pub metric: Metric,
    pub min: u64,
    pub max: u64,
    pub initial: u64,
}

/// What a pod is to bear, and what is averaged.
#[derive(Clone, Copy)]
pub struct Load {
    pub target: Option<Milli>,
    pub utilisation: Milli,
    pub stable_s: u64,
    pub panic_percent: Milli,
    pub panic_threshold: Milli,
}

/// How soon counts change.
#[derive(Clone, Copy)]
pub struct Pace {
    pub burst: Burst,
    pub delay_s: u64,
    pub retention_ms: u64,
    pub activation: u64,
}

/// All that a Revision gives but its names.
#[derive(Clone, Copy)]
pub struct Amounts {
    pub limits: Limits,
    pub scale: Scale,
    pub load: Load,
    pub pace: Pace,
}

impl Scale {
    #[tactic(auto, unfolding(crate::specs::Amounts::scale_of))]
    fn read(config: &Config, annotations: &Value) -> Result<Scale, KeyError>
        requires { IsConfig config.now }
        ensures value { result ≡ scale_of config.now (view annotations.now) }
        ensures ranges { IfOk result (λ scale. AreScales scale) }
    {
        check_class(annotations)?;
        let metric = metric_in(annotations)?;
        let min = Annotation::MinScale.renamed_count(
            Annotation::OldMinScale,
            annotations,
            config.min,
        )?;
        let max = Annotation::MaxScale.renamed_count(
            Annotation::OldMaxScale,
            annotations,
            config.max,
        )?;
        let initial = Annotation::InitialScale.count(annotations, config.initial)?;
        Ok(Scale {
            metric,
            min,
            max,
            initial,
        })
    }
}

impl Load {
    /// The utilisation is given where it has no annotation.
    #[tactic(auto, unfolding(crate::specs::Amounts::load_of))]
    fn read(config: &Config, otherwise: Milli, annotations: &Value) -> Result<Load, KeyError>
        requires config { IsConfig config.now }
        requires otherwise { otherwise.0 ≤ 100000 }
        ensures value { result ≡ load_of config.now otherwise (view annotations.now) }
        ensures ranges { IfOk result (λ load. IsLoad load) }
    {
        let target = target(annotations)?;
        let utilisation = Annotation::TargetUtilizationPercentage.number(annotations, otherwise)?;
        let stable_s = Annotation::Window.seconds(annotations, config.stable_s)?;
        let panic_percent = Annotation::PanicWindowPercentage.number(
            annotations,
            config.panic_percent,
        )?;
        let panic_threshold = Annotation::PanicThresholdPercentage.number(
            annotations,
            config.panic_threshold,
        )?;
        Ok(Load {
            target,
            utilisation,
            stable_s,
            panic_percent,
            panic_threshold,
        })
    }
}

impl Pace {
    #[tactic(auto, unfolding(crate::specs::Amounts::pace_of))]
    fn read(config: &Config, annotations: &Value) -> Result<Pace, KeyError>
        requires { IsConfig config.now }
        ensures value { result ≡ pace_of config.now (view annotations.now) }
        ensures ranges { IfOk result (λ pace. IsPace pace) }
    {
        let burst = Annotation::TargetBurstCapacity.burst(annotations, config.burst)?;
        let delay_s = Annotation::ScaleDownDelay.seconds(annotations, config.delay_s)?;
        let retention_ms = Annotation::ScaleToZeroPodRetentionPeriod.duration_ms(
            annotations,
            config.retention_ms,
        )?;
        let activation = Annotation::ActivationScale.count(annotations, 1)?;
        Ok(Pace {
            burst,
            delay_s,
            retention_ms,
            activation,
        })
    }
}

impl Amounts {
    /// `spec` first, then that the annotations are an object, then each of them in the table's order.
    #[tactic(auto, unfolding(crate::specs::Amounts::amounts_of))]
    pub fn read(config: &Config, revision: &Value) -> Result<Amounts, KeyError>
        requires { IsConfig config.now }
        ensures value { result ≡ amounts_of config.now (view revision.now) }
        ensures ranges { IfOk result (λ amounts. AreAmounts amounts) }
    {
        let limits = Limits::read(revision)?;
        match inner(revision, "metadata", "annotations") {
            None => overridden(config, limits, &Value::Null),
            Some(annotations) => if annotations.is_object() {
                overridden(config, limits, annotations)
            } else {
                Err(KeyError::NotText(Key::Annotations))
            },
        }
    }
}

/// The utilisation where no annotation gives it. For requests per second it is always 70 per cent.
#[tactic(auto, unfolding(crate::specs::Amounts::utilisation_without))]
fn utilisation_without(config: &Config, metric: Metric) -> Milli
    requires { IsConfig config.now }
    ensures value { result ≡ utilisation_without config.now metric }
    ensures most { result.0 ≤ 100000 }
{
    match metric {
        Metric::Concurrency => config.utilisation,
        Metric::Rps => Milli(70_000),
    }
}

/// The amounts of these limits and annotations.
#[tactic(auto, unfolding(crate::specs::Amounts::overridden))]
fn overridden(config: &Config, limits: Limits, annotations: &Value) -> Result<Amounts, KeyError>
    requires config { IsConfig config.now }
    requires limits { AreLimits limits }
    ensures value { result ≡ overridden config.now limits (view annotations.now) }
    ensures ranges { IfOk result (λ amounts. AreAmounts amounts) }
{
    let scale = Scale::read(config, annotations)?;
    let otherwise = utilisation_without(config, scale.metric);
    let load = Load::read(config, otherwise, annotations)?;
    let pace = Pace::read(config, annotations)?;
    Ok(Amounts {
        limits,
        scale,
        load,
        pace,
    })
}
