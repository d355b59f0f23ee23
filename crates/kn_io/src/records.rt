//! What a link records of its calls and its probes, and a caller in memory of its connections.
use kn_event::Text;

/// A call of a pod, with its reply, or none where it failed.
#[derive(Drop)]
pub struct Call {
    pub pod: u64,
    pub request: Text,
    pub reply: Option<Text>,
}

/// A probe of a pod, with its answer, or none where it failed.
#[derive(Clone, Copy, Drop)]
pub struct Probe {
    pub pod: u64,
    pub answer: Option<bool>,
}

/// A connection that was taken: what had been written since the one before, and its whole input.
#[derive(Drop)]
pub struct Taken {
    pub text: Text,
    pub stream: Text,
}
