//! What tells a server to stop.

/// Says when a server is to stop. It promises nothing.
pub trait Stop {
    /// Whether it is to stop by now. It doesn't wait.
    fn is_over(&mut self) -> bool;
}

/// Says so at each call but the first so many.
#[derive(Clone, Copy, Drop)]
pub struct StopAfter {
    left: u64,
}

impl StopAfter {
    /// So many calls are answered with no.
    pub fn new(calls: u64) -> StopAfter {
        StopAfter { left: calls }
    }
}

impl Stop for StopAfter {
    fn is_over(&mut self) -> bool {
        let over = self.left == 0;
        self.left = self.left.saturating_sub(1);
        over
    }
}
