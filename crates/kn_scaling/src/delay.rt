/// What a decision asked for before the delay.
#[derive(Clone, Copy)]
pub struct Asked {
    /// The second of the decision.
    pub second: u64,
    /// Pods.
    pub count: u64,
}
