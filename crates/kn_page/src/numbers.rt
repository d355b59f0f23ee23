//! Fractions as decimals.
ghost use Rattle.std.specs.Prelude.{◌≡◌, ◌<◌, ◌*◌, ◌/◌};

/// How many thousandths a fraction below 1 comes to, rounded down.
pub fn thousandths(num: u128, den: u128) -> u64
    requires { num < den }
    ensures value { result ≡ num * 1000 / den }
    ensures below { result < 1000 }
{
    let mut whole = 0;
    let mut rest = 0;
    // A thousand times the numerator may not fit, so it is added up, and each whole one taken off.
    for _k in 0..1000u64 {
        if rest < den - num {
            rest += num;
        } else {
            rest -= den - num;
            whole += 1;
        }
    }
    whole
}
