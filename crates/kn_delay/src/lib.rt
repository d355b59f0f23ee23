//! The delay before fewer pods are asked for, over the decisions that may still ask for the most.
#![tactic(auto)]

mod peaks;

ghost use Rattle.std.specs.Prelude.{◌≡◌, ◌≤◌, List, [], ◌∷◌, IfOk};
ghost use Rattle.kn_scaling.specs.declared.delay.Asked.{Asked as AskedValue};
ghost use Rattle.kn_scaling.specs.Delay.{asked_at, delayed_count};
ghost use Rattle.kn_delay.specs.Stands.{IsFalling, IsDelayOf, falling_prop};

use crate::peaks::greatest_with;
use circular_buffer::HeapCircularBuffer;
use kn_event::Memory;
use kn_scaling::Asked;
use std::alloc::Global;
use std::marker::Model;

/// What earlier decisions asked for, and for how many seconds it is asked for still. Contracts say for which list of
/// decisions it stands.
#[derive(Drop)]
pub struct Delay {
    seconds: u64,
    last: u64,
    peaks: HeapCircularBuffer<Asked>,
    ghost room: { peaks.capacity ≡ seconds },
    ghost falls: { IsFalling last peaks.items } by { falling_prop last peaks.items },
}

impl Model for Delay {
    ghost use Rattle.kn_delay.specs.Stands.{DelayState};

    ghost Value = { DelayState };

    ghost view = { λ d. record { seconds = d.seconds; last = d.last; peaks = d.peaks.items } };
}

impl Delay {
    /// No decision yet. A delay is 3,600 seconds at most. It takes all the memory that it will ever have.
    pub fn new(alloc: Global, seconds: u64) -> Result<Delay, Memory>
        requires { seconds ≤ 3600 }
        ensures stands { IfOk result (λ delay. IsDelayOf delay []) }
        ensures seconds { IfOk result (λ delay. delay.seconds ≡ seconds) }
        ensures last { IfOk result (λ delay. delay.last ≡ 0) }
    {
        match HeapCircularBuffer::with_capacity(alloc, seconds as usize) {
            Ok(peaks) => Ok(Delay {
                seconds,
                last: 0,
                peaks,
            }),
            Err(_) => Err(Memory),
        }
    }

    /// One more decision, in this second, which none before it lies after: the greatest count of those that lie less
    /// than the delay before it, its own included.
    pub fn take(&mut self, second: u64, count: u64) -> u64
        requires { self.old.last ≤ second }
        ensures count { (earlier : List AskedValue) → IsDelayOf self.old earlier → result ≡ delayed_count self.old.seconds (asked_at second count ∷ earlier) }
        ensures stands { (earlier : List AskedValue) → IsDelayOf self.old earlier → IsDelayOf self.new (asked_at second count ∷ earlier) }
        ensures seconds { self.new.seconds ≡ self.old.seconds }
        ensures last { self.new.last ≡ second }
    {
        self.last = second;
        greatest_with(&mut self.peaks, self.seconds, second, count)
    }
}
