//! Where the slots of the latest numbers stand.
ghost use Rattle.std.specs.Prelude.{◌≡◌, ◌≤◌, ◌<◌, ◌^◌, ◌%◌, length, slice_index, slice_set, vec_len};

use crate::slot::Slot;
use kn_event::Memory;
use std::alloc::Global;

/// A place for each number by its low 16 bits. The slot there may have another number, so whoever reads it looks.
#[derive(Drop)]
pub struct Hints {
    places: Vec<u16>,
    ghost full: { vec_len places ≡ 65536 },
}

impl Hints {
    /// The first place for each.
    pub fn new(alloc: Global) -> Result<Hints, Memory> {
        match vec![in alloc; 0u16; 65_536] {
            Ok(places) => Ok(Hints { places }),
            Err(_) => Err(Memory),
        }
    }

    /// Where the slot of this number may stand.
    #[inline]
    pub fn get(&self, r: u64) -> usize
        ensures { result ≡ slice_index self.now.places.items (r % 65536) }
    {
        self.places[(r % 65_536) as usize] as usize
    }

    /// Its slot stands here.
    #[inline]
    pub fn set(&mut self, r: u64, place: usize)
        requires { place < 2 ^ 16 }
        ensures { self.new.places.items ≡ slice_set self.old.places.items (r % 65536) place }
    {
        self.places[(r % 65_536) as usize] = place as u16;
    }

    /// All slots stand where they stand now.
    pub fn set_all(&mut self, slots: &[Slot])
        requires { length slots.now ≤ 40000 }
    {
        for (place, slot) in slots.iter().enumerate() {
            self.set(slot.request.number, place);
        }
    }
}
