//! Worked rows: each contract is computed by the checker, from the definitions alone.

pub mod decisions;
pub mod parts;
