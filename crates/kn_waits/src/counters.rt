//! Counters that cost no time until they are used.
ghost use Rattle.std.specs.Prelude.{◌≡◌, ℕ, ◌+◌, ◌-◌, ◌<◌, ◌≤◌, ◌^◌, ◌++◌, min, length, replicate, slice_index, slice_set, vec_capacity, vec_len, IfOk};

use kn_event::Memory;
use std::alloc::Global;
use std::marker::Model;

/// So many counters, each 0 at first. Room for all is taken once, and they are made up to the last one that was raised: the rest
/// of the room is never touched. Contracts see the list of all.
#[derive(Drop)]
pub(crate) struct Counters {
    count: usize,
    made: Vec<u64>,
}

impl Model for Counters {
    ghost use Rattle.std.specs.Prelude.{◌≤◌, ℕ, List, length, vec_capacity};
    ghost use Rattle.kn_waits.specs.Counters.{with_zeros};

    ghost Value = { List ℕ };

    ghost view = { λ c. with_zeros c.count c.made.items };

    ghost invariant = { λ c. record {
      short : length c.made.items ≤ c.count;
      room : c.count ≤ vec_capacity c.made;
    } };
}

/// Adds zeros until there are so many.
fn make_up_to(made: &mut Vec<u64>, count: usize)
    requires { count ≤ vec_capacity made.old }
    ensures items { made.new.items ≡ made.old.items ++ replicate (count - vec_len made.old) 0 }
    ensures room { vec_capacity made.new ≡ vec_capacity made.old }
{
    let more = count.saturating_sub(made.len());
    for _ in 0..more {
        made.push_reserved(0);
    }
}

impl Counters {
    /// So many, each 0.
    pub(crate) fn new(alloc: Global, count: usize) -> Result<Counters, Memory>
        ensures { IfOk result (λ counters. counters ≡ replicate count 0) }
    {
        match Vec::with_capacity(alloc, count) {
            Ok(made) => Ok(Counters { count, made }),
            Err(_) => Err(Memory),
        }
    }

    /// How many there are.
    pub(crate) fn len(&self) -> usize
        ensures { result ≡ length self.now }
    {
        self.count
    }

    /// The first ones; each further one is 0.
    pub(crate) fn made(&self) -> &[u64]
        ensures short { length result.now ≤ length self.now }
        ensures same { (w : ℕ) → w < length result.now → slice_index self.now w ≡ slice_index result.now w }
        ensures zeros { (w : ℕ) → length result.now ≤ w → slice_index self.now w ≡ 0 }
    {
        &self.made
    }

    /// One more at this counter, unless it has the greatest number.
    pub(crate) fn raise(&mut self, w: usize)
        requires { w < length self.old }
        ensures { self.new ≡ slice_set self.old w (min (slice_index self.old w + 1) (2 ^ 64 - 1)) }
    {
        make_up_to(&mut self.made, w + 1);
        self.made[w] = self.made[w].saturating_add(1);
    }
}
