use kn_event::Counts;

/// What panic mode reads of a decision.
#[derive(Clone, Copy)]
pub struct Judged {
    /// Its time in milliseconds.
    pub time: u64,
    pub counts: Counts,
    /// How many milliseconds it looks back for a decision that was over.
    pub window_ms: u64,
}
