//! Panic mode: one moment and one greatest count in place of all decisions.
#![tactic(auto)]

ghost use Rattle.std.specs.Prelude.{◌≡◌, List, [], ◌∷◌, if◌then◌else◌};
ghost use Rattle.kn_scaling.specs.declared.panic.Judged.{Judged};
ghost use Rattle.kn_scaling.specs.Panic.{greatest_after, is_panicking, undelayed_count};
ghost use Rattle.kn_panic.specs.Stands.{IsPanicOf, is_moment_within, judged_by, moment_after};

use kn_event::Counts;
use std::marker::Model;

/// What a decision asks for before the scale-down delay.
#[derive(Clone, Copy)]
pub struct Panicked {
    pub panicking: bool,
    /// Pods: in panic the greatest count of the run of panicking decisions, else the decision's stable count.
    pub count: u64,
}

/// The decisions up to now, as far as later ones need them. Contracts say for which list of decisions it stands.
#[derive(Drop)]
pub struct Panic {
    moment: Option<u64>,
    greatest: u64,
}

impl Model for Panic {
    ghost use Rattle.kn_panic.specs.Stands.{PanicState};

    ghost Value = { PanicState };

    ghost view = { λ p. record { moment = p.moment; greatest = p.greatest } };
}

impl Panic {
    /// No decision yet.
    #[tactic(auto, using(crate::proofs::Takes::stands_for_none))]
    pub fn new() -> Panic
        ensures { IsPanicOf result [] }
    {
        Panic {
            moment: None,
            greatest: 0,
        }
    }

    /// One more decision, at a time in milliseconds. It panics where some decision up to it was over, and the last such
    /// one lies at most its window before it. Only a decision that doesn't panic breaks a run, and a pause doesn't.
    pub fn take(&mut self, time: u64, c: &Counts, window_ms: u64) -> Panicked
        ensures panicking { (earlier : List Judged) → IsPanicOf self.old earlier → result.panicking ≡ is_panicking (judged_by time c.now window_ms ∷ earlier) }
        ensures count { (earlier : List Judged) → IsPanicOf self.old earlier → result.count ≡ undelayed_count (judged_by time c.now window_ms ∷ earlier) }
        ensures stands { (earlier : List Judged) → IsPanicOf self.old earlier → IsPanicOf self.new (judged_by time c.now window_ms ∷ earlier) }
    {
        self.moment = moment_after(c.over, time, self.moment);
        let panicking = is_within(time, window_ms, self.moment);
        self.greatest = greatest_after(panicking, c.stable_count.max(c.panic_count), self.greatest);
        Panicked {
            panicking,
            count: count_of(panicking, self.greatest, c.stable_count),
        }
    }
}

/// The moment of the last decision that was over.
fn moment_after(over: bool, time: u64, before: Option<u64>) -> Option<u64>
    ensures { result ≡ moment_after over time before }
{
    if over { Some(time) } else { before }
}

/// Whether a time lies at most a window after the moment.
fn is_within(time: u64, window_ms: u64, moment: Option<u64>) -> bool
    ensures { result ≡ is_moment_within time window_ms moment }
{
    match moment {
        None => false,
        Some(moment) => time.saturating_sub(moment) <= window_ms,
    }
}

/// The greatest count of the run that ends here.
fn greatest_after(panicking: bool, count: u64, before: u64) -> u64
    ensures { result ≡ greatest_after panicking count before }
{
    if panicking { count.max(before) } else { 0 }
}

fn count_of(panicking: bool, greatest: u64, stable_count: u64) -> u64
    ensures { result ≡ (if panicking then greatest else stable_count) }
{
    if panicking { greatest } else { stable_count }
}
