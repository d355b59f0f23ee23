//! What a thread does beside the slots.
ghost use Rattle.std.specs.Prelude.{◌≡◌, ◌⊎◌, ℕ, ⊤};
ghost use Rattle.kn_cell.specs.Shown.{LooksBy, PassView};

use kn_cell::{Pass, RevisionCell};
use kn_request::Left;
use std::sync::Wait;

/// What a thread does beside the slots, with a pass of its own, by which it records nothing.
pub trait Attendant {
    /// What it asks of the pass.
    ghost may: { Self → PassView → Type 0 };

    /// What it did, and how far its pass then was.
    ghost attends: { Self → Self → PassView → PassView → Type 0 };

    /// Goes on beside the slots, of which `left` tells how many are still at work.
    fn attend<R: Wait>(&mut self, rt: &R, cell: &RevisionCell, pass: &mut Pass, left: &Left)
        requires cell { pass.old.cell ≡ cell.now }
        requires may { may self.old pass.old }
        ensures later { (given : ℕ) × ((pass.new ≡ pass.old) ⊎ LooksBy given pass.old pass.new) }
        ensures mine { pass.new.mine ≡ pass.old.mine }
        ensures attends { attends self.old self.new pass.old pass.new };
}

/// Nobody, who is done at once.
#[derive(Clone, Copy, Drop)]
pub struct NoAttendant;

impl Attendant for NoAttendant {
    ghost may = { λ _ _. ⊤ };

    ghost attends = { λ _ _ p q. q ≡ p };

    fn attend<R: Wait>(&mut self, _rt: &R, _cell: &RevisionCell, _pass: &mut Pass, _left: &Left) {}
}
