//! Where pods may stand, by their numbers.

use crate::log::Memory;
use std::alloc::Global;
use std::marker::Model;

/// A place for each number by its low 15 bits, so that a pod is mostly found with no search, whatever gaps the numbers
/// have.
///
/// Contracts see nothing of it, and no call says what it answers: at that place there may be another pod, or none.
/// Whoever asks compares the number there before it trusts the place, and else searches.
#[derive(Drop)]
pub struct PlaceHints {
    places: Vec<u16>,
}

impl Model for PlaceHints {
    ghost use Rattle.std.specs.Prelude.{⊤, ◌≡◌, length};

    ghost Value = { ⊤ };

    ghost view = { λ h. tt };

    ghost invariant = { λ h. length h.places.items ≡ 32768 };
}

impl PlaceHints {
    /// The first place for each.
    pub fn new(alloc: Global) -> Result<PlaceHints, Memory> {
        match vec![in alloc; 0u16; 32_768] {
            Ok(places) => Ok(PlaceHints { places }),
            Err(_) => Err(Memory),
        }
    }

    /// Where the pod of this number may stand.
    #[inline(always)]
    pub fn get(&self, p: u64) -> usize {
        self.places[(p % 32_768) as usize] as usize
    }

    /// The pod of this number stands here. A place of more than 16 bits is not kept whole.
    #[inline(always)]
    pub fn set(&mut self, p: u64, place: usize) {
        self.places[(p % 32_768) as usize] = (place % 65_536) as u16;
    }
}
