//! Why nothing was opened.
use thiserror::Error;

/// Why an opener made nothing.
#[derive(Clone, Copy, Debug, Drop, Error)]
pub enum OpenError {
    /// Answered only where the count of faults rose in the call.
    #[error("listen failed")]
    Failed,
    #[error("out of memory")]
    Memory,
}
