//! The families of metrics.
ghost use Rattle.std.specs.Prelude.{◌≡◌, ◌≤◌, length};
ghost use Rattle.kn_page.specs.Metric.{metric_help, metric_name, metric_type};

/// A family of metrics: its name, what it says, and whether it is a counter or a gauge.
#[derive(Clone, Copy)]
pub enum Metric {
    Rows,
    Recorded,
    Unprinted,
    Pods,
    Wanted,
    Requests,
    Waiting,
    AtWork,
    Stable,
    Panic,
    Want,
}

impl Metric {
    /// Its name, of at most 32 bytes.
    pub fn name(self) -> &'static [u8]
        ensures value { result.now ≡ metric_name self }
        ensures short { length result.now ≤ 32 }
    {
        match self {
            Metric::Rows => b"kactd_rows_total",
            Metric::Recorded => b"kactd_rows_recorded_total",
            Metric::Unprinted => b"kactd_rows_unprinted",
            Metric::Pods => b"kactd_pods",
            Metric::Wanted => b"kactd_pods_wanted",
            Metric::Requests => b"kactd_requests",
            Metric::Waiting => b"kactd_connections_waiting",
            Metric::AtWork => b"kactd_slots_at_work",
            Metric::Stable => b"kactd_decision_stable",
            Metric::Panic => b"kactd_decision_panic",
            Metric::Want => b"kactd_decision_want",
        }
    }

    /// What it says, in at most 100 bytes.
    pub fn help(self) -> &'static [u8]
        ensures value { result.now ≡ metric_help self }
        ensures short { length result.now ≤ 100 }
    {
        match self {
            Metric::Rows => b"Rows of the report since the server began, by kind.",
            Metric::Recorded => b"Rows of the journal recorded since the server began.",
            Metric::Unprinted =>
                b"Recorded rows of the journal that are not handed to the printer yet.",
            Metric::Pods => b"Live pods, by state.",
            Metric::Wanted =>
                b"Pods wanted by the last decision, or by the setup before the first.",
            Metric::Requests => b"Live requests, by state.",
            Metric::Waiting => b"Connections that wait for a slot.",
            Metric::AtWork => b"Slots at work.",
            Metric::Stable =>
                b"Requests over the stable window at the last decision, on average, rounded down.",
            Metric::Panic =>
                b"Requests over the panic window at the last decision, on average, rounded down.",
            Metric::Want => b"Pods wanted by the last decision.",
        }
    }

    /// Its type, in at most 7 bytes.
    pub fn kind(self) -> &'static [u8]
        ensures value { result.now ≡ metric_type self }
        ensures short { length result.now ≤ 7 }
    {
        match self {
            Metric::Rows => b"counter",
            Metric::Recorded => b"counter",
            _ => b"gauge",
        }
    }
}
