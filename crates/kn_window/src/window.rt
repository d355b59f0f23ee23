ghost use Rattle.std.specs.Prelude.{◌≡◌, ◌≤◌, ◌<◌, ◌+◌, ◌-◌, ◌^◌, ◌==◌, ◌||◌, nat_le, nat_lt, IfOk, IfSome, max, if◌then◌else◌};
ghost use Rattle.kn_scaling.specs.Average.{IsAverage, Samples, no_samples, window_average, with_run};
ghost use Rattle.kn_scaling.specs.Worked.{run_of};
ghost use Rattle.kn_window.specs.Stands.{IsWindowOf};

use crate::totals::Totals;
use kn_event::{Frac, Memory};
use kn_scaling::load_over;
use std::alloc::Global;
use std::marker::Model;

/// The loads of the last seconds. Contracts say for which samples it stands.
#[derive(Drop)]
pub struct Window {
    totals: Totals,
}

impl Model for Window {
    ghost use Rattle.kn_window.specs.Stands.{WindowState};

    ghost Value = { WindowState };

    ghost view = { λ w. record { seconds = w.totals.ring.capacity; totals = w.totals.ring.items; total = w.totals.total; end = w.totals.end } };
}

/// Whether a sample at this second has none in the `seconds` - 1 seconds before it, where `end` comes after the last.
fn is_apart(end: u64, second: u64, seconds: u64) -> bool
    requires seconds { seconds ≤ 3600 }
    requires second { second ≤ 2 ^ 42 }
    requires end { end ≤ second }
    ensures { result ≡ ((end == 0) || nat_le (end + seconds) (second + 1)) }
{
    end == 0 || end + seconds <= second + 1
}

/// The first second that is written: no more than the window has, and a new spell has no gap before it.
fn first_written(is_new: bool, second: u64, end: u64, low: u64) -> u64
    ensures { result ≡ max (if is_new then second else end) low }
{
    if is_new {
        second.max(low)
    } else {
        end.max(low)
    }
}

/// Whether what was written before is of no use.
fn is_cut(is_new: bool, end: u64, from: u64) -> bool
    ensures { result ≡ (is_new || nat_lt end from) }
{
    is_new || end < from
}

impl Window {
    /// No sample yet, in a window of so many seconds, 3,600 at most. It takes all the memory that it will ever have.
    pub fn new(alloc: Global, seconds: u64) -> Result<Window, Memory>
        requires low { 1 ≤ seconds }
        requires high { seconds ≤ 3600 }
        ensures stands { IfOk result (λ w. IsWindowOf w no_samples) }
        ensures seconds { IfOk result (λ w. w.seconds ≡ seconds) }
        ensures end { IfOk result (λ w. w.end ≡ 0) }
    {
        match Totals::new(alloc, seconds) {
            Ok(totals) => Ok(Window { totals }),
            Err(_) => Err(Memory),
        }
    }

    /// So many seconds from this one on are samples, each with this load in milliseconds; none of them comes before the
    /// `end`, the second after the last sample. It writes no more seconds than the window has, whatever the count.
    pub fn record_run(&mut self, second: u64, count: u64, load: u64)
        requires second { self.old.end ≤ second }
        requires some { 0 < count }
        requires end { second + count ≤ 2 ^ 42 }
        requires load { load ≤ 1000000000 }
        ensures stands { (samples : Samples) → IsWindowOf self.old samples → IsWindowOf self.new (with_run samples (run_of second count load)) }
        ensures seconds { self.new.seconds ≡ self.old.seconds }
        ensures end { self.new.end ≡ second + count }
    {
        // (one second right behind the last one is what mostly comes)
        if count == 1 && second > 0 && second == self.totals.end() {
            self.totals.push(load);
            return;
        }
        self.record_any(second, count, load);
    }

    /// The same, whatever lies between.
    #[inline(never)]
    fn record_any(&mut self, second: u64, count: u64, load: u64)
        requires second { self.old.end ≤ second }
        requires some { 0 < count }
        requires end { second + count ≤ 2 ^ 42 }
        requires load { load ≤ 1000000000 }
        ensures stands { (samples : Samples) → IsWindowOf self.old samples → IsWindowOf self.new (with_run samples (run_of second count load)) }
        ensures seconds { self.new.seconds ≡ self.old.seconds }
        ensures end { self.new.end ≡ second + count }
    {
        let (stop, end, seconds) = (second + count, self.totals.end(), self.totals.seconds());
        let is_new = is_apart(end, second, seconds);
        let from = first_written(is_new, second, end, stop.saturating_sub(seconds));
        self.totals.skip_if(
            is_cut(is_new, end, from),
            from,
            from.saturating_sub(second),
            load,
        );
        self.totals.push_all(second.saturating_sub(from), 0);
        self.totals.push_all(stop - from.max(second), load);
    }

    /// The average load of the window's seconds before this one, never reduced; none exactly where no sample lies in them.
    /// No sample may lie at this second or later. It takes the same time for each window.
    pub fn average(&self, now: u64) -> Option<Frac>
        requires { self.now.end ≤ now }
        ensures value { (samples : Samples) → IsWindowOf self.now samples → result ≡ window_average samples self.now.seconds now }
        ensures small { (samples : Samples) → IsWindowOf self.now samples → IfSome result IsAverage }
    {
        let (first, end) = (self.totals.first(), self.totals.end());
        let low = now.saturating_sub(self.totals.seconds());
        if end <= low {
            return None;
        }
        let start = first.max(low);
        let sum = self.totals.sum_from(start - first);
        Some(load_over(sum, (end - start).saturating_sub(1)))
    }
}
