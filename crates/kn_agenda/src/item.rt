/// The kinds of what is due, in the order in which they come at one time.
#[derive(Clone, Copy)]
pub enum Kind {
    /// A running request finishes.
    Finishes,
    /// A starting pod becomes ready.
    Readies,
    /// A waiting request's timeout is over.
    Passes,
    /// The next job arrives.
    Arrives,
    /// A tick.
    Ticks,
}

/// What is due: when, in milliseconds, and the number of its request, pod or tick.
#[derive(Clone, Copy)]
pub struct Item {
    pub time: u64,
    pub kind: Kind,
    pub number: u64,
}
