//! What a seat at the cell's table knows. No value of `View` or `Joined` is made.
use crate::past::Past;
use kn_core::Revision;
use std::collections::LinkedList;
use std::snapshot::Snapshot;

/// What does not change while the cell lasts.
#[derive(Drop)]
pub struct Key {
    pub opening: Snapshot<Revision>,
    /// Rows may be taken out of the history.
    pub lasting: bool,
    pub room: u64,
    pub passes: u64,
    /// How many addresses the pods have; with 0 a pod's number is its address.
    pub addresses: u64,
}

/// A pass that was joined, as it was then.
pub struct Joined {
    pub number: u64,
    pub seen: LinkedList<Past>,
    pub mine: LinkedList<Past>,
}

pub struct View {
    /// It was joined, so nobody has it.
    pub spent: bool,
    pub turn: bool,
    /// It may take rows out.
    pub scribe: bool,
    pub key: Key,
    pub number: u64,
    /// How many numbers it may still give away.
    pub free: u64,
    /// How many numbers came back to it.
    pub back: u64,
    pub missed: u64,
    /// How many rows had been taken out when it last had the turn.
    pub gone: u64,
    pub seen: LinkedList<Past>,
    pub mine: LinkedList<Past>,
    pub others: LinkedList<Joined>,
}
