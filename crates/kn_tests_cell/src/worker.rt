//! A pass for a thread.
ghost use Rattle.kn_tests_cell.specs.Numbers.{IsFor};

use kn_cell::Pass;

#[derive(Drop)]
pub struct Worker {
    pub pass: Pass,
    /// It takes rows out.
    pub takes: bool,
    /// How many rows there is room for.
    pub room: u64,
    ghost is_for: { IsFor takes room pass },
}
