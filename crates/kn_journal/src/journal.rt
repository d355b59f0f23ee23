use kn_event::{Event, Items, Spec, Text};

/// What a revision starts from: its specification, and the setup's lines as they were read, each without the CRs at its
/// end and followed by LF.
#[derive(Drop)]
pub struct Setup {
    pub spec: Spec,
    pub text: Text,
}

/// Setups, in order. Contracts see the list of them.
pub type Setups = Items<Setup>;

/// A version and a setup.
#[derive(Drop)]
pub struct Opening {
    pub version: u64,
    pub setup: Setup,
}

/// The events of a journal, in order. Contracts see the list of them.
pub type Events = Items<Event>;

/// A journal of version 1 or 2. Times are in milliseconds.
#[derive(Drop)]
pub struct Journal {
    pub version: u64,
    pub setup: Setup,
    pub start: u64,
    pub events: Events,
}
