//! The keys of the ConfigMap and of a Revision, and what the value of each may be.
ghost use Rattle.std.specs.Prelude.{◌≡◌, ◌≤◌};
ghost use Rattle.kn_config.specs.Keys.{key_text, rule_of};

/// A key of the ConfigMap, an annotation, or another member that a fault names.
#[derive(Clone, Copy)]
pub enum Key {
    ContainerConcurrencyTargetPercentage,
    ContainerConcurrencyTargetDefault,
    RequestsPerSecondTargetDefault,
    TargetBurstCapacity,
    StableWindow,
    PanicWindowPercentage,
    PanicThresholdPercentage,
    MaxScaleUpRate,
    MaxScaleDownRate,
    EnableScaleToZero,
    ScaleToZeroGracePeriod,
    ScaleToZeroPodRetentionPeriod,
    MinScale,
    MaxScale,
    AllowZeroInitialScale,
    InitialScale,
    ScaleDownDelay,
    OldMinScale,
    OldMaxScale,
    Target,
    TargetUtilizationPercentage,
    Window,
    ActivationScale,
    ContainerConcurrency,
    TimeoutSeconds,
    Class,
    Metric,
    Annotations,
    Namespace,
    Name,
}

/// What a key's amount is where the key is missing, and its least and greatest. Numbers and percentages are in
/// thousandths, windows and the scale-down delay in seconds, other durations in milliseconds; a boolean is 1 or 0.
#[derive(Clone, Copy)]
pub struct Rule {
    pub default: u64,
    pub least: u64,
    pub most: u64,
}

impl Rule {
    const fn new(default: u64, least: u64, most: u64) -> Rule
        ensures { result ≡ record { default = default; least = least; most = most } }
    {
        Rule {
            default,
            least,
            most,
        }
    }
}

impl Key {
    /// The key as it is written, without the prefix of the annotations. An old spelling is a key of its own.
    pub fn text(self) -> &'static str
        ensures { result.now ≡ key_text self }
    {
        match self {
            Key::ContainerConcurrencyTargetPercentage => "container-concurrency-target-percentage",
            Key::ContainerConcurrencyTargetDefault => "container-concurrency-target-default",
            Key::RequestsPerSecondTargetDefault => "requests-per-second-target-default",
            Key::TargetBurstCapacity => "target-burst-capacity",
            Key::StableWindow => "stable-window",
            Key::PanicWindowPercentage => "panic-window-percentage",
            Key::PanicThresholdPercentage => "panic-threshold-percentage",
            Key::MaxScaleUpRate => "max-scale-up-rate",
            Key::MaxScaleDownRate => "max-scale-down-rate",
            Key::EnableScaleToZero => "enable-scale-to-zero",
            Key::ScaleToZeroGracePeriod => "scale-to-zero-grace-period",
            Key::ScaleToZeroPodRetentionPeriod => "scale-to-zero-pod-retention-period",
            Key::MinScale => "min-scale",
            Key::MaxScale => "max-scale",
            Key::AllowZeroInitialScale => "allow-zero-initial-scale",
            Key::InitialScale => "initial-scale",
            Key::ScaleDownDelay => "scale-down-delay",
            Key::OldMinScale => "minScale",
            Key::OldMaxScale => "maxScale",
            Key::Target => "target",
            Key::TargetUtilizationPercentage => "target-utilization-percentage",
            Key::Window => "window",
            Key::ActivationScale => "activation-scale",
            Key::ContainerConcurrency => "containerConcurrency",
            Key::TimeoutSeconds => "timeoutSeconds",
            Key::Class => "class",
            Key::Metric => "metric",
            Key::Annotations => "annotations",
            Key::Namespace => "namespace",
            Key::Name => "name",
        }
    }

    /// The key's row in the table of defaults and ranges. A key whose value is no amount has a row of zeros.
    pub fn rule(self) -> Rule
        ensures value { result ≡ rule_of self }
        ensures least { result.least ≤ result.default }
        ensures most { result.default ≤ result.most }
    {
        match self {
            Key::ContainerConcurrencyTargetPercentage => Rule::new(70_000, 1, 100_000),
            Key::ContainerConcurrencyTargetDefault => Rule::new(100_000, 10, 1_000_000_000),
            Key::RequestsPerSecondTargetDefault => Rule::new(200_000, 10, 1_000_000_000),
            Key::TargetBurstCapacity => Rule::new(211_000, 0, 1_000_000_000),
            Key::StableWindow => Rule::new(60, 6, 3600),
            Key::PanicWindowPercentage => Rule::new(10_000, 1000, 100_000),
            Key::PanicThresholdPercentage => Rule::new(200_000, 1000, 10_000_000),
            Key::MaxScaleUpRate => Rule::new(1_000_000, 1001, 1_000_000_000),
            Key::MaxScaleDownRate => Rule::new(2000, 1001, 1_000_000_000),
            Key::EnableScaleToZero => Rule::new(1, 0, 1),
            Key::ScaleToZeroGracePeriod => Rule::new(30_000, 0, 3_600_000),
            Key::ScaleToZeroPodRetentionPeriod => Rule::new(0, 0, 3_600_000),
            Key::MinScale => Rule::new(0, 0, 500),
            Key::MaxScale => Rule::new(0, 0, 1_000_000_000),
            Key::AllowZeroInitialScale => Rule::new(0, 0, 1),
            Key::InitialScale => Rule::new(1, 0, 500),
            Key::ScaleDownDelay => Rule::new(0, 0, 3600),
            Key::OldMinScale => Rule::new(0, 0, 500),
            Key::OldMaxScale => Rule::new(0, 0, 1_000_000_000),
            Key::Target => Rule::new(100_000, 10, 1_000_000_000),
            Key::TargetUtilizationPercentage => Rule::new(70_000, 1000, 100_000),
            Key::Window => Rule::new(60, 6, 3600),
            Key::ActivationScale => Rule::new(1, 1, 500),
            Key::ContainerConcurrency => Rule::new(0, 0, 1000),
            Key::TimeoutSeconds => Rule::new(300, 1, 3600),
            Key::Class => Rule::new(0, 0, 0),
            Key::Metric => Rule::new(0, 0, 0),
            Key::Annotations => Rule::new(0, 0, 0),
            Key::Namespace => Rule::new(0, 0, 0),
            Key::Name => Rule::new(0, 0, 0),
        }
    }
}
