//! The annotations of a Revision, and reading one of each kind over the configuration.
ghost use Rattle.std.specs.Prelude.{◌≡◌, ◌≤◌, min, max, IfOk, IfSome, MatchResult, option_map, Ok, Err};
ghost use Rattle.serde_json.specs.View.{view};
ghost use Rattle.kn_config.specs.Keys.{rule_of, IsInRange};
ghost use Rattle.kn_config.specs.Values.{IsBurstOf};
ghost use Rattle.kn_revision.specs.Annotations.{key_of, annotation_name, text_at, number_at, burst_at, duration_at, seconds_at, count_at, renamed_count_at, target_at, class_at, metric_at};

use kn_config::{Key, KeyError, value};
use kn_event::{Burst, Metric, Milli};
use serde_json::Value;

/// An annotation that a Revision may have.
#[derive(Clone, Copy)]
pub enum Annotation {
    Class,
    Metric,
    MinScale,
    OldMinScale,
    MaxScale,
    OldMaxScale,
    InitialScale,
    Target,
    TargetUtilizationPercentage,
    Window,
    PanicWindowPercentage,
    PanicThresholdPercentage,
    TargetBurstCapacity,
    ScaleDownDelay,
    ScaleToZeroPodRetentionPeriod,
    ActivationScale,
}

impl Annotation {
    pub fn key(self) -> Key
        ensures { result ≡ key_of self }
    {
        match self {
            Annotation::Class => Key::Class,
            Annotation::Metric => Key::Metric,
            Annotation::MinScale => Key::MinScale,
            Annotation::OldMinScale => Key::OldMinScale,
            Annotation::MaxScale => Key::MaxScale,
            Annotation::OldMaxScale => Key::OldMaxScale,
            Annotation::InitialScale => Key::InitialScale,
            Annotation::Target => Key::Target,
            Annotation::TargetUtilizationPercentage => Key::TargetUtilizationPercentage,
            Annotation::Window => Key::Window,
            Annotation::PanicWindowPercentage => Key::PanicWindowPercentage,
            Annotation::PanicThresholdPercentage => Key::PanicThresholdPercentage,
            Annotation::TargetBurstCapacity => Key::TargetBurstCapacity,
            Annotation::ScaleDownDelay => Key::ScaleDownDelay,
            Annotation::ScaleToZeroPodRetentionPeriod => Key::ScaleToZeroPodRetentionPeriod,
            Annotation::ActivationScale => Key::ActivationScale,
        }
    }

    /// The annotation as it is written.
    pub fn name(self) -> &'static str
        ensures { result.now ≡ annotation_name self }
    {
        match self {
            Annotation::Class => "autoscaling.knative.dev/class",
            Annotation::Metric => "autoscaling.knative.dev/metric",
            Annotation::MinScale => "autoscaling.knative.dev/min-scale",
            Annotation::OldMinScale => "autoscaling.knative.dev/minScale",
            Annotation::MaxScale => "autoscaling.knative.dev/max-scale",
            Annotation::OldMaxScale => "autoscaling.knative.dev/maxScale",
            Annotation::InitialScale => "autoscaling.knative.dev/initial-scale",
            Annotation::Target => "autoscaling.knative.dev/target",
            Annotation::TargetUtilizationPercentage =>
                "autoscaling.knative.dev/target-utilization-percentage",
            Annotation::Window => "autoscaling.knative.dev/window",
            Annotation::PanicWindowPercentage => "autoscaling.knative.dev/panic-window-percentage",
            Annotation::PanicThresholdPercentage =>
                "autoscaling.knative.dev/panic-threshold-percentage",
            Annotation::TargetBurstCapacity => "autoscaling.knative.dev/target-burst-capacity",
            Annotation::ScaleDownDelay => "autoscaling.knative.dev/scale-down-delay",
            Annotation::ScaleToZeroPodRetentionPeriod =>
                "autoscaling.knative.dev/scale-to-zero-pod-retention-period",
            Annotation::ActivationScale => "autoscaling.knative.dev/activation-scale",
        }
    }

    /// The annotation's text, if it is there.
    fn text(self, annotations: &Value) -> Result<Option<&str>, KeyError>
        ensures { MatchResult result
            (λ text. text_at self (view annotations.now) ≡ Ok (option_map (λ s. s.now) text))
            (λ fault. text_at self (view annotations.now) ≡ Err fault) }
    {
        value::text(annotations, self.name(), self.key())
    }

    /// A number, or what holds without it.
    pub fn number(self, annotations: &Value, otherwise: Milli) -> Result<Milli, KeyError>
        ensures value { result ≡ number_at self otherwise (view annotations.now) }
        ensures least { IfOk result (λ number. min (rule_of (key_of self)).least otherwise.0 ≤ number.0) }
        ensures most { IfOk result (λ number. number.0 ≤ max (rule_of (key_of self)).most otherwise.0) }
    {
        match self.text(annotations) {
            Ok(Some(text)) => value::number(self.key(), text),
            Ok(None) => Ok(otherwise),
            Err(fault) => Err(fault),
        }
    }

    /// A number of requests or no bound on them, or what holds without it.
    pub fn burst(self, annotations: &Value, otherwise: Burst) -> Result<Burst, KeyError>
        requires { IsBurstOf (key_of self) otherwise }
        ensures value { result ≡ burst_at self otherwise (view annotations.now) }
        ensures range { IfOk result (λ burst. IsBurstOf (key_of self) burst) }
    {
        match self.text(annotations) {
            Ok(Some(text)) => value::burst(self.key(), text),
            Ok(None) => Ok(otherwise),
            Err(fault) => Err(fault),
        }
    }

    /// A duration in milliseconds, or what holds without it.
    pub fn duration_ms(self, annotations: &Value, otherwise: u64) -> Result<u64, KeyError>
        ensures value { result ≡ duration_at self otherwise (view annotations.now) }
        ensures most { IfOk result (λ ms. ms ≤ max (rule_of (key_of self)).most otherwise) }
    {
        match self.text(annotations) {
            Ok(Some(text)) => value::duration_ms(self.key(), text),
            Ok(None) => Ok(otherwise),
            Err(fault) => Err(fault),
        }
    }

    /// A duration of whole seconds, or what holds without it.
    pub fn seconds(self, annotations: &Value, otherwise: u64) -> Result<u64, KeyError>
        ensures value { result ≡ seconds_at self otherwise (view annotations.now) }
        ensures least { IfOk result (λ seconds. min (rule_of (key_of self)).least otherwise ≤ seconds) }
        ensures most { IfOk result (λ seconds. seconds ≤ max (rule_of (key_of self)).most otherwise) }
    {
        match self.text(annotations) {
            Ok(Some(text)) => value::seconds(self.key(), text),
            Ok(None) => Ok(otherwise),
            Err(fault) => Err(fault),
        }
    }

    /// A whole number, or what holds without it.
    pub fn count(self, annotations: &Value, otherwise: u64) -> Result<u64, KeyError>
        ensures value { result ≡ count_at self otherwise (view annotations.now) }
        ensures least { IfOk result (λ count. min (rule_of (key_of self)).least otherwise ≤ count) }
        ensures most { IfOk result (λ count. count ≤ max (rule_of (key_of self)).most otherwise) }
    {
        match self.text(annotations) {
            Ok(Some(text)) => value::count(self.key(), text),
            Ok(None) => Ok(otherwise),
            Err(fault) => Err(fault),
        }
    }

    /// A whole number, by its old spelling where this one isn't there, or what holds without both.
    pub fn renamed_count(
        self,
        old: Annotation,
        annotations: &Value,
        otherwise: u64,
    ) -> Result<u64, KeyError>
        ensures value { result ≡ renamed_count_at self old otherwise (view annotations.now) }
        ensures most { IfOk result (λ count. count
            ≤ max (rule_of (key_of self)).most (max (rule_of (key_of old)).most otherwise)) }
    {
        match self.text(annotations) {
            Ok(Some(text)) => value::count(self.key(), text),
            Ok(None) => old.count(annotations, otherwise),
            Err(fault) => Err(fault),
        }
    }
}

/// The target, if it is there.
pub fn target(annotations: &Value) -> Result<Option<Milli>, KeyError>
    ensures value { result ≡ target_at (view annotations.now) }
    ensures range { IfOk result (λ target. IfSome target (λ number. IsInRange Key.Target number.0)) }
{
    match Annotation::Target.text(annotations) {
        Ok(Some(text)) => match value::number(Key::Target, text) {
            Ok(target) => Ok(Some(target)),
            Err(fault) => Err(fault),
        },
        Ok(None) => Ok(None),
        Err(fault) => Err(fault),
    }
}

/// Refuses the class of another autoscaler.
pub fn check_class(annotations: &Value) -> Result<(), KeyError>
    ensures { result ≡ class_at (view annotations.now) }
{
    match Annotation::Class.text(annotations) {
        Ok(Some(text)) => if text == "kpa.autoscaling.knative.dev" {
            Ok(())
        } else {
            Err(KeyError::OutOfRange(Key::Class))
        },
        Ok(None) => Ok(()),
        Err(fault) => Err(fault),
    }
}

/// The metric, which is the concurrency where it isn't there.
pub fn metric_in(annotations: &Value) -> Result<Metric, KeyError>
    ensures { result ≡ metric_at (view annotations.now) }
{
    match Annotation::Metric.text(annotations) {
        Ok(Some(text)) => if text == "concurrency" {
            Ok(Metric::Concurrency)
        } else if text == "rps" {
            Ok(Metric::Rps)
        } else {
            Err(KeyError::OutOfRange(Key::Metric))
        },
        Ok(None) => Ok(Metric::Concurrency),
        Err(fault) => Err(fault),
    }
}
