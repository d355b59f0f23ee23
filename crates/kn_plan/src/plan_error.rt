//! Why words are no plan.
use thiserror::Error;

/// Why the words give no plan.
#[derive(Clone, Copy, Debug, Drop, Error)]
pub enum PlanError {
    /// They are refused, or a value is spelled otherwise or out of range.
    #[error("the words are no command")]
    Usage,
    #[error("out of memory")]
    Memory,
}
