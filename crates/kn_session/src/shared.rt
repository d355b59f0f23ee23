//! What the slots and the ticker of a session share.
use kn_cell::RevisionCell;
use kn_event::Spec;
use kn_request::Left;
use std::alloc::Global;

/// By what the slots and the ticker go, however long the session goes on.
#[derive(Drop)]
pub struct Common<'a, K, G, P> {
    pub alloc: Global,
    pub spec: &'a Spec,
    pub clock: &'a K,
    pub gate: &'a G,
    /// The time in milliseconds at which the ticker's first tick is 2,000 ms off.
    pub start: u64,
    pub pace: &'a P,
    /// How far the first tags of two slots that follow one another are apart, at most 10^12.
    pub apart: u64,
}

/// The common, the cell, and how many slots are at work.
#[derive(Drop)]
pub struct Shared<'a, K, G, P> {
    pub cell: &'a RevisionCell,
    pub common: &'a Common<'a, K, G, P>,
    pub left: &'a Left,
}
