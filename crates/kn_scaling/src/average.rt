ghost use Rattle.std.specs.Prelude.{◌≡◌};
ghost use Rattle.kn_scaling.specs.Average.{load_over};

use kn_event::Frac;

/// Seconds in a row that are samples with the same load.
#[derive(Clone, Copy)]
pub struct SampleRun {
    /// The first of them.
    pub second: u64,
    /// How many there are.
    pub count: u64,
    /// The load of each, in milliseconds.
    pub load: u64,
}

/// A sum over the milliseconds of one second and so many others, not reduced.
#[tactic(auto, using(kn_event::specs::Fractions::frac_by_parts))]
pub fn load_over(sum: u128, others: u64) -> Frac
    ensures { result ≡ load_over sum others }
{
    Frac {
        num: sum,
        den: 1000 * (u128::from(others) + 1),
    }
}
