//! The excess burst capacity, exactly, and how requests reach the pods.
#![tactic(auto)]

ghost use Rattle.std.specs.Prelude.{◌≡◌, ◌≤◌, ◌<◌, ◌*◌, pos, ◌-ℤ◌};
ghost use Rattle.std.specs.Int.{int_div_euclid};
ghost use Rattle.kn_event.specs.Ranges.{IsBurst};
ghost use Rattle.kn_scaling.specs.Average.{IsAverage};
ghost use Rattle.kn_scaling.specs.Burst.{excess_burst, is_activating, serving_mode, spare_seats};

use kn_event::{Burst, Frac, Milli, Mode, Phase};

/// The excess burst capacity in requests, rounded down: what so many Ready pods of this total bear, 500 pods at most,
/// less the target burst capacity and the panic average. It is 0 where the target burst capacity is 0, and -1 where it
/// is unlimited. An average has a denominator of 3,600,000 at most and stands for 1,000,000 requests at most.
#[tactic(auto, unfolding(kn_scaling::specs::Burst::excess_burst))]
pub fn excess(ready: u64, total: Milli, burst: Burst, panic: Frac) -> i64
    requires ready { ready ≤ 500 }
    requires total { total.0 ≤ 1000000000 }
    requires burst { IsBurst burst }
    requires panic { IsAverage panic }
    ensures { result ≡ excess_burst ready total burst panic }
{
    match burst {
        Burst::Unlimited => -1,
        Burst::Capacity(capacity) => {
            if capacity.0 == 0 {
                0
            } else {
                spare_seats(ready, total.0, capacity.0, panic)
            }
        }
    }
}

/// Through the activator where no pod is wanted, the excess is below 0, or the phase after the decision is activating.
#[tactic(auto, unfolding(kn_scaling::specs::Burst::serving_mode))]
pub fn mode(want: u64, excess: i64, phase: Phase) -> Mode
    ensures { result ≡ serving_mode want excess phase }
{
    if want == 0 || excess < 0 || is_activating(phase) {
        Mode::Proxy
    } else {
        Mode::Serve
    }
}

fn is_activating(phase: Phase) -> bool
    ensures { result ≡ is_activating phase }
{
    match phase {
        Phase::Activating => true,
        Phase::Active => false,
        Phase::Inactive => false,
    }
}

/// The seats that so many pods have beyond a capacity and the panic average; total and capacity are thousandths.
#[tactic(auto, using(crate::proofs::Floors::seats_most, crate::proofs::Floors::taken_most), unfolding(kn_scaling::specs::Burst::spare_seats))]
fn spare_seats(ready: u64, total: u64, capacity: u64, panic: Frac) -> i64
    requires ready { ready ≤ 500 }
    requires total { total ≤ 1000000000 }
    requires capacity { capacity ≤ 1000000000 }
    requires panic { IsAverage panic }
    ensures { result ≡ spare_seats ready total capacity panic }
{
    let seats = ready as u128 * total as u128 * panic.den;
    let taken = capacity as u128 * panic.den + 1000 * panic.num;
    floor_of(seats, taken, 1000 * panic.den)
}

/// The difference of two numbers over a third, rounded down.
fn floor_of(seats: u128, taken: u128, den: u128) -> i64
    requires den { den ≤ 3600000000 }
    requires seats { seats ≤ 2000000000 * den }
    requires taken { taken ≤ 2000000000 * den }
    requires above_zero { 0 < den }
    ensures { result ≡ int_div_euclid (pos seats -ℤ pos taken) (pos den) }
{
    (seats as i128 - taken as i128).div_euclid(den as i128) as i64
}
