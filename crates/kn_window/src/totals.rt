ghost use Rattle.std.specs.Prelude.{◌≡◌, ◌≤◌, ◌<◌, ◌+◌, ◌-◌, ◌*◌, ◌^◌, ◌∷◌, ◌++◌, [], ℕ, length, min, slice_get, unwrap_or, IfOk, if◌then◌else◌};
ghost use Rattle.circular_buffer.specs.Buffer.{keep_last};
ghost use Rattle.kn_window.specs.Stands.{Holds};

use circular_buffer::HeapCircularBuffer;
use kn_event::Memory;
use std::alloc::Global;

/// The running total of loads before each of the last seconds, the earliest first, and now. So the load of all seconds from
/// one of them on is one difference.
#[derive(Drop)]
pub(crate) struct Totals {
    ring: HeapCircularBuffer<u128>,
    total: u128,
    end: u64,
    ghost some: { 0 < ring.capacity },
    ghost size: { ring.capacity ≤ 3600 },
    ghost within: { length ring.items ≤ ring.capacity },
    ghost counted: { length ring.items ≤ end },
    ghost time: { end ≤ 2 ^ 42 },
    ghost small: { total ≤ 1000000000 * end },
}

impl Totals {
    /// No second yet.
    pub(crate) fn new(alloc: Global, seconds: u64) -> Result<Totals, Memory>
        requires some { 0 < seconds }
        requires size { seconds ≤ 3600 }
        ensures { IfOk result (λ t. (t.ring.items ≡ []) × (t.ring.capacity ≡ seconds) × (t.total ≡ 0) × (t.end ≡ 0)) }
    {
        match HeapCircularBuffer::with_capacity(alloc, seconds as usize) {
            Ok(ring) => Ok(Totals {
                ring,
                total: 0,
                end: 0,
            }),
            Err(_) => Err(Memory),
        }
    }

    /// How many seconds there may be.
    pub(crate) fn seconds(&self) -> u64
        ensures seconds { result ≡ self.now.ring.capacity }
        ensures size { result ≤ 3600 }
    {
        self.ring.capacity() as u64
    }

    /// The second after the last one.
    pub(crate) fn end(&self) -> u64
        ensures end { result ≡ self.now.end }
        ensures time { result ≤ 2 ^ 42 }
    {
        self.end
    }

    /// The first second that is kept.
    pub(crate) fn first(&self) -> u64
        ensures { result ≡ self.now.end - length self.now.ring.items }
    {
        self.end - self.ring.len() as u64
    }

    /// Forgets all seconds, and goes on at a later one with this much more.
    pub(crate) fn skip_if(&mut self, is_cut: bool, end: u64, seconds: u64, load: u64)
        requires later { self.old.end + seconds ≤ end }
        requires time { end ≤ 2 ^ 42 }
        requires load { load ≤ 1000000000 }
        ensures items { self.new.ring.items ≡ (if is_cut then [] else self.old.ring.items) }
        ensures total { self.new.total ≡ (if is_cut then self.old.total + load * seconds else self.old.total) }
        ensures end { self.new.end ≡ (if is_cut then end else self.old.end) }
        ensures capacity { self.new.ring.capacity ≡ self.old.ring.capacity }
    {
        if is_cut {
            self.ring.clear();
            self.total += u128::from(load) * u128::from(seconds);
            self.end = end;
        }
    }

    /// One more second. Where there are as many as there may be, the earliest goes.
    #[inline(always)]
    pub(crate) fn push(&mut self, load: u64)
        requires time { self.old.end < 2 ^ 42 }
        requires load { load ≤ 1000000000 }
        ensures items { self.new.ring.items ≡ keep_last self.old.ring.capacity (self.old.ring.items ++ self.old.total ∷ []) }
        ensures total { self.new.total ≡ self.old.total + load }
        ensures end { self.new.end ≡ self.old.end + 1 }
        ensures capacity { self.new.ring.capacity ≡ self.old.ring.capacity }
    {
        self.ring.push_back(self.total);
        self.total += u128::from(load);
        self.end += 1;
    }

    /// So many more seconds, each with this load.
    pub(crate) fn push_all(&mut self, count: u64, load: u64)
        requires few { count ≤ self.old.ring.capacity }
        requires time { self.old.end + count ≤ 2 ^ 42 }
        requires load { load ≤ 1000000000 }
        ensures holds { (before : ℕ → ℕ) → Holds self.old.ring.items self.old.total before self.old.end
            → ((s : ℕ) → self.old.end ≤ s → s < self.old.end + count → before (s + 1) ≡ before s + load)
            → Holds self.new.ring.items self.new.total before (self.old.end + count) }
        ensures length { length self.new.ring.items ≡ min self.old.ring.capacity (length self.old.ring.items + count) }
        ensures end { self.new.end ≡ self.old.end + count }
        ensures capacity { self.new.ring.capacity ≡ self.old.ring.capacity }
    {
        for _ in 0..count {
            self.push(load);
        }
    }

    /// The load of all seconds from the one at this place on.
    pub(crate) fn sum_from(&self, place: u64) -> u128
        ensures { result ≡ self.now.total - unwrap_or (slice_get self.now.ring.items place) 0 }
    {
        let before = self.ring.get(place as usize).copied().unwrap_or(0);
        self.total.saturating_sub(before)
    }
}
