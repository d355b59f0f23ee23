/// A Ready pod as a load-balancing policy sees it.
#[derive(Clone, Copy)]
pub struct Cand {
    pub pod: u64,
    /// Requests that may run there; 0 is no limit.
    pub limit: u64,
    /// Requests that run there.
    pub running: u64,
}
