ghost use Rattle.std.specs.Prelude.{◌≡◌};
ghost use Rattle.kn_stats.specs.Closing.{is_sampled, run_of};

use kn_event::Metric;

/// Seconds in a row with the same load.
#[derive(Clone, Copy)]
pub struct Run {
    /// The first of them.
    pub second: u64,
    pub count: u64,
    /// The load of each, in milliseconds.
    pub load: u64,
    /// Whether they are samples.
    pub sampled: bool,
    /// How many requests came in the first of them, a million at most; none come in the others.
    pub arrived: u64,
}

/// What is over after an advance.
#[derive(Clone, Copy)]
pub struct Closed {
    /// The second that was open, if it closed.
    pub first: Option<Run>,
    /// The whole seconds after it, if any.
    pub rest: Option<Run>,
}

/// Whether a second is a sample.
fn is_sampled(metric: Metric, ready: bool, load: u64, arrived: u64) -> bool
    ensures { result ≡ is_sampled metric ready load arrived }
{
    load > 0 || ready || metric == Metric::Rps && arrived > 0
}

/// The seconds from one up to another, if any.
pub(crate) fn run_of(
    metric: Metric,
    ready: bool,
    from: u64,
    until: u64,
    load: u64,
    arrived: u64,
) -> Option<Run>
    ensures { result ≡ run_of metric ready from until load arrived }
{
    if from < until {
        Some(Run {
            second: from,
            count: until - from,
            load,
            sampled: is_sampled(metric, ready, load, arrived),
            arrived,
        })
    } else {
        None
    }
}
