//! The settings, the values that change a decision, and what is read of the past for it.
ghost use Rattle.std.specs.Prelude.{◌≡◌, [], ◌∷◌, Some, None};
ghost use Rattle.std.specs.List.{filter_map};
ghost use Rattle.kn_levers.specs.Settings.{levers};

use kn_event::{Milli, Mode, Phase};

/// A setting that a decision may hang on.
#[derive(Clone, Copy)]
pub enum Lever {
    Target,
    UpRate,
    DownRate,
    Activation,
    Panic,
    Delay,
    StableWindow,
    Grace,
    Retention,
    ToZero,
    Min,
    Max,
    Initial,
}

/// One setting at another value, or two or three of them.
#[derive(Clone, Copy)]
pub enum Setting {
    /// The least target, 0.01.
    Target,
    /// The greatest max-scale-up-rate, 1,000,000.
    UpRate,
    DownRate(Milli),
    Activation(u64),
    /// The greatest panic-threshold-percentage, 10,000.
    Panic,
    /// No scale-down-delay.
    Delay,
    /// So many seconds.
    StableWindow(u64),
    /// No grace period.
    Grace,
    /// So many milliseconds.
    Retention(u64),
    /// Neither of the two.
    GraceAndRetention,
    /// On or off.
    ToZero(bool),
    Min(u64),
    Max(u64),
    Initial(u64),
    /// So many each.
    MinAndInitial(u64),
    /// Min-scale and max-scale.
    MinAndMax(u64, u64),
    /// So many each: min-scale, max-scale and initial-scale.
    Bounds(u64),
}

/// Why it is this setting.
#[derive(Clone, Copy)]
pub enum Why {
    /// Its own rule gave the count.
    Rule,
    /// One pod stays as long as a revision is active.
    OnePod,
    /// A pod that becomes ready changes it too.
    OrReady,
    /// No revision has more than 500 pods.
    Ceiling,
    /// Min-scale asks for as many as the delay.
    MinAsks,
    /// The initial scale does.
    InitialAsks,
    /// Panic keeps what it asked for.
    PanicKeeps,
    /// Max-scale lets no more.
    NoMore,
    /// The load changes it too.
    OrLoad,
    /// No target asks for more.
    NoTarget,
    /// Max-scale-up-rate lets no more.
    UpRateHolds,
    /// Max-scale-down-rate keeps as many.
    DownRateHolds,
}

/// What changes a decision.
#[derive(Clone, Copy)]
pub struct Change {
    pub setting: Setting,
    pub why: Why,
}

/// What a decision finds, beside its own numbers.
#[derive(Clone, Copy)]
pub struct Before {
    pub phase: Phase,
    /// Milliseconds in that phase.
    pub passed: u64,
    pub mode: Mode,
    /// Milliseconds in that mode.
    pub mode_passed: u64,
    /// As many pods as the initial scale were once Ready.
    pub reached: bool,
    /// The last earlier decision that was over the panic threshold lies at most a stable window before.
    pub over: bool,
    /// The most pods that earlier decisions within the scale-down delay asked for, before it, or more than they did: then the
    /// delay's room is taken as full, and neither the panic threshold nor the down rate is named. 0 where there is none.
    pub recent: u64,
}

/// One lever.
fn one(lever: Lever) -> [Option<Lever>; 3]
    ensures { result ≡ Some lever ∷ None ∷ None ∷ [] }
{
    [Some(lever), None, None]
}

/// Two.
fn two(first: Lever, second: Lever) -> [Option<Lever>; 3]
    ensures { result ≡ Some first ∷ Some second ∷ None ∷ [] }
{
    [Some(first), Some(second), None]
}

impl Setting {
    /// The settings that it sets, in the order in which a line names them.
    pub fn levers(&self) -> [Option<Lever>; 3]
        ensures { filter_map (λ x. x) result ≡ levers self.now }
    {
        match *self {
            Setting::Target => one(Lever::Target),
            Setting::UpRate => one(Lever::UpRate),
            Setting::DownRate(_) => one(Lever::DownRate),
            Setting::Activation(_) => one(Lever::Activation),
            Setting::Panic => one(Lever::Panic),
            Setting::Delay => one(Lever::Delay),
            Setting::StableWindow(_) => one(Lever::StableWindow),
            Setting::Grace => one(Lever::Grace),
            Setting::Retention(_) => one(Lever::Retention),
            Setting::GraceAndRetention => two(Lever::Grace, Lever::Retention),
            Setting::ToZero(_) => one(Lever::ToZero),
            Setting::Min(_) => one(Lever::Min),
            Setting::Max(_) => one(Lever::Max),
            Setting::Initial(_) => one(Lever::Initial),
            Setting::MinAndInitial(_) => two(Lever::Min, Lever::Initial),
            Setting::MinAndMax(_, _) => two(Lever::Min, Lever::Max),
            Setting::Bounds(_) => [Some(Lever::Min), Some(Lever::Max), Some(Lever::Initial)],
        }
    }
}
