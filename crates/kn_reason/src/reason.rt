//! What is told of a decision, a line each.
use kn_event::{Frac, Milli, Mode};

/// What would change the count of a decision: the setting of the rule that held it, or what the rules go by.
#[derive(Clone, Copy)]
pub enum Lever {
    Load,
    UpRate,
    DownRate,
    Activation,
    Panic,
    Delay,
    Initial,
    Min,
    Max,
    /// No revision has more pods.
    Nothing,
    ToZero,
    /// A pod becomes ready.
    Ready,
    StableWindow,
    Grace,
    Retention,
}

/// What the burst capacity is made of.
#[derive(Clone, Copy)]
pub struct Seats {
    /// Ready pods.
    pub ready: u64,
    /// What a pod bears.
    pub total: Milli,
    /// The target burst capacity.
    pub capacity: Milli,
    /// The average of the panic window.
    pub average: Frac,
    /// What is left, in requests.
    pub excess: i64,
    pub mode: Mode,
}

/// A line of a decision, with the numbers that it names. Windows and delays are in seconds, what has passed is in
/// milliseconds.
#[derive(Clone, Copy)]
pub enum Reason {
    /// Pods wanted, and pods ready.
    Wants(u64, u64),
    /// The stable window, its average, the target in thousandths, and the pods that bear the average.
    Stable(u64, Frac, u128, u64),
    /// The rate, and the most pods that it lets be asked for.
    UpRate(Milli, u128),
    /// The rate, and the fewest.
    DownRate(Milli, u128),
    /// The activation scale.
    Activation(u64),
    /// The panic window, its average, and the pods that bear it.
    Panic(u64, Frac, u64),
    /// Pods asked for, by how many ready ones they are measured, and the threshold that they reach.
    Over(u64, u64, Milli),
    /// The pods that a panic which goes on keeps at least.
    GoesOn(u64),
    /// The most pods asked for since the panic began.
    Most(u64),
    /// The delay, and the pods of before.
    Delay(u64, u64),
    /// The initial scale, and pods.
    Initial(u64, u64),
    /// Min-scale, and pods.
    Min(u64, u64),
    /// Max-scale, and pods.
    Max(u64, u64),
    /// The most pods that any revision has.
    Ceiling(u64),
    /// Pods that stay without scale to zero.
    NoZero(u64),
    /// Pods of a revision that waits for its first ready one.
    Waits(u64),
    /// How long it was active, how long it has to be, and pods.
    Active(u64, u64, u64),
    /// How long it was active, which is as long as it has to be.
    GoesInactive(u64, u64),
    /// How long it was inactive, and pods.
    Inactive(u64, u64),
    /// How long it was inactive, the grace period and the retention period.
    NotYet(u64, u64, u64),
    /// The burst capacity.
    Burst(Seats),
    /// It is unlimited.
    BurstUnlimited(Mode),
    /// None is asked for.
    BurstOff(Mode),
    /// What would change the count.
    Change(Lever),
}
