//! What a session is served with.
use kn_event::Spec;
use std::alloc::Global;

/// What the slots and the ticker of a session over one revision share, and how much is asked of them.
#[derive(Drop)]
pub struct Setting<'a, K, G> {
    pub alloc: Global,
    pub spec: &'a Spec,
    pub clock: &'a K,
    pub gate: &'a G,
    /// How many rows the history has room for, at most 1,000,000.
    pub room: u64,
    /// How many requests each slot serves, at most 10,000.
    pub rounds: u64,
    /// The time in milliseconds at which the ticker's first tick is 2,000 ms off.
    pub start: u64,
}
