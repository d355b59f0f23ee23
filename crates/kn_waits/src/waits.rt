ghost use Rattle.std.specs.Prelude.{◌≡◌, ℕ, ◌<◌, ◌≤◌, [], List, length, IfOk};
ghost use Rattle.kn_waits.specs.Waits.{AddsWait, AreWaits, percentile};

use crate::counters::Counters;
use kn_event::Memory;
use std::alloc::Global;
use std::marker::Model;

/// How many requests waited just so many milliseconds, for each number below a limit. Only `new` takes memory; what it costs in
/// time and in memory that is touched goes by the longest wait, and not by the limit.
pub struct Waits {
    counters: Counters,
    ran: u64,
    sum: u128,
    longest: u64,
}

impl Drop for Waits {
    fn drop(self) {
        let Waits {
            counters: _,
            ran: _,
            sum: _,
            longest: _,
        } = self;
    }
}

impl Model for Waits {
    ghost use Rattle.std.specs.Prelude.{◌<◌, length};
    ghost use Rattle.kn_waits.specs.Waits.{WaitsState};

    ghost Value = { WaitsState };

    ghost view = { λ x. record { counters = x.counters; ran = x.ran; sum = x.sum; longest = x.longest } };

    ghost invariant = { λ x. 0 < length x.counters };
}

impl Waits {
    /// Nobody waited yet; each wait will be below the limit, in milliseconds.
    pub fn new(alloc: Global, limit: u64) -> Result<Waits, Memory>
        requires { 0 < limit }
        ensures limit { IfOk result (λ x. length x.counters ≡ limit) }
        ensures waits { IfOk result (λ x. AreWaits x []) }
    {
        let counters = Counters::new(alloc, limit as usize)?;
        Ok(Waits {
            counters,
            ran: 0,
            sum: 0,
            longest: 0,
        })
    }

    /// Each wait is below it, in milliseconds.
    pub fn limit(&self) -> u64
        ensures value { result ≡ length self.now.counters }
        ensures some { 0 < length self.now.counters }
    {
        self.counters.len() as u64
    }

    /// One more waited so long.
    pub fn add(&mut self, wait: u64)
        requires { wait < length self.old.counters }
        ensures limit { length self.new.counters ≡ length self.old.counters }
        ensures waits { AddsWait wait self.old self.new }
    {
        self.counters.raise(wait as usize);
        self.ran = self.ran.saturating_add(1);
        self.sum = self.sum.saturating_add(u128::from(wait));
        self.longest = self.longest.max(wait);
    }

    /// How many waited.
    pub fn ran(&self) -> u64
        ensures { result ≡ self.now.ran }
    {
        self.ran
    }

    /// How long they waited together, in milliseconds.
    pub fn sum(&self) -> u128
        ensures { result ≡ self.now.sum }
    {
        self.sum
    }

    /// How long the one waited that waited longest.
    pub fn longest(&self) -> u64
        ensures { result ≡ self.now.longest }
    {
        self.longest
    }

    /// The least wait such that at least q of n waited no longer. None where nobody waited.
    pub fn percentile(&self, q: u64, n: u64) -> Option<u64>
        requires { q ≤ n }
        ensures { (ws : List ℕ) → AreWaits self.now ws → result ≡ percentile q n ws }
    {
        if self.ran == 0 {
            return None;
        }
        let wanted = u128::from(q) * u128::from(self.ran);
        let made = self.counters.made();
        let mut waited: u64 = 0;
        for w in 0..made.len() {
            waited = waited.saturating_add(made[w]);
            if wanted <= u128::from(n) * u128::from(waited) {
                return Some(w as u64);
            }
        }
        None
    }
}
