//! What can be shut.

/// What can be shut, so that nobody comes in any more.
pub trait Close {
    /// No further connection is let in. Those that are in are handed out all the same.
    fn close(&self);
}
