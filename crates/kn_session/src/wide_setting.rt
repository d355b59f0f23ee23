//! What a session over several revisions is served with.
use kn_directory::Revisions;
use std::alloc::Global;

/// What the slots and the ticker of a session over 1 to 16 revisions share, and how much is asked of them.
#[derive(Drop)]
pub struct WideSetting<'a, K, G> {
    pub alloc: Global,
    /// The specification of each revision, in their order, each to be found by its name.
    pub specs: &'a Revisions,
    pub clock: &'a K,
    pub gate: &'a G,
    /// How many rows the history of each revision has room for, at most 1,000,000.
    pub room: u64,
    /// How many requests each slot serves, at most 10,000.
    pub rounds: u64,
    /// The time in milliseconds at which each revision's first tick is 2,000 ms off.
    pub start: u64,
}
