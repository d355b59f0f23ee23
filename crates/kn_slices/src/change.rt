//! A due change.

/// The limit of a pod at an activator is to become this.
#[derive(Clone, Copy, Drop)]
pub struct Change {
    pub activator: u64,
    pub pod: u64,
    pub limit: u64,
}
