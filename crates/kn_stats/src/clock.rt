ghost use Rattle.std.specs.Prelude.{◌≡◌, ◌≤◌, ◌==◌};
ghost use Rattle.kn_scaling.specs.Average.{second_of};
ghost use Rattle.kn_stats.specs.Totals.{left_of};

use std::marker::Model;

/// A time in milliseconds, with its second and where that begins, so that what is asked often divides nothing. Contracts see
/// the time.
#[derive(Drop)]
pub(crate) struct Clock {
    time: u64,
    second: u64,
    begin: u64,
}

impl Model for Clock {
    ghost use Rattle.std.specs.Prelude.{ℕ, ◌≡◌, ◌*◌};
    ghost use Rattle.kn_scaling.specs.Average.{second_of};

    ghost Value = { ℕ };

    ghost view = { λ t. t.time };

    ghost invariant = { λ t. record {
      second : t.second ≡ second_of t.time;
      begin : t.begin ≡ 1000 * t.second;
    } };
}

impl Clock {
    pub(crate) fn at(time: u64) -> Clock
        ensures { result ≡ time }
    {
        let second = time / 1000;
        Clock {
            time,
            second,
            begin: 1000 * second,
        }
    }

    /// Whether this later time lies in the same second.
    #[inline(always)]
    pub(crate) fn has_second_of(&self, to: u64) -> bool
        requires { self.now ≤ to }
        ensures { result ≡ (second_of self.now == second_of to) }
    {
        to - self.begin < 1000
    }

    /// Goes on to a time in the same second.
    #[inline(always)]
    pub(crate) fn go_on(&mut self, to: u64)
        requires { second_of self.old ≡ second_of to }
        ensures { self.new ≡ to }
    {
        self.time = to;
    }

    #[inline(always)]
    pub(crate) fn second(&self) -> u64
        ensures { result ≡ second_of self.now }
    {
        self.second
    }

    /// Milliseconds of the second that lie after it.
    #[inline(always)]
    pub(crate) fn left(&self) -> u64
        ensures left { result ≡ left_of self.now }
        ensures most { result ≤ 1000 }
    {
        1000 - (self.time - self.begin)
    }
}
