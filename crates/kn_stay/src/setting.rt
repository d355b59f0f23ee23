//! What a server that goes on is run with.
use kn_scribe::Doors;
use std::alloc::Global;

/// What all its threads share, and how much there is of memory and addresses.
#[derive(Drop)]
pub struct StaySetting<'a, K, G, P, D, E> {
    pub alloc: Global,
    pub clock: &'a K,
    pub gate: &'a G,
    /// How long each slot goes on.
    pub pace: &'a P,
    pub doors: &'a Doors<'a, D, E>,
    /// How many rows that aren't printed yet and live requests there may be together: at most 1,000,000.
    pub room: u64,
    /// How many addresses there are for pods. With 0, pod p is at address p.
    pub addresses: u64,
}
