//! Which faults are told one by one.
ghost use Rattle.std.specs.Prelude.{◌≡◌, ◌<◌, ◌+◌, ◌∷◌, [], List, ℕ, nat_lt, max};
ghost use Rattle.kn_faults.specs.Telling.{Stands, is_lone};

/// How many faults of one second are told one by one at most.
pub const MOST_A_SECOND: u64 = 10;

/// Says which faults are told one by one, and how many others are told in counts. Each fault is told once, up to 2^64 of them.
#[derive(Clone, Copy)]
pub struct Limiter {
    second: u64,
    // How many of this second were told one by one.
    lone: u64,
    // How many weren't told so far.
    untold: u64,
}

impl Limiter {
    /// No fault so far, in second 0.
    pub fn new() -> Limiter
        ensures { Stands result [] 0 }
    {
        Limiter {
            second: 0,
            lone: 0,
            untold: 0,
        }
    }

    /// From now on it is this second, or still the one before where that is later. Whether it is a later one than before.
    pub fn begin(&mut self, second: u64) -> bool
        ensures later { result ≡ nat_lt self.old.second second }
        ensures second { self.new.second ≡ max self.old.second second }
        ensures stands { (faults : List ℕ) (counted : ℕ) → Stands self.old faults counted → Stands self.new faults counted }
        ensures untold { self.new.untold ≡ self.old.untold }
    {
        let later = second > self.second;
        if later {
            self.second = second;
            self.lone = 0;
        }
        later
    }

    /// One more fault. Whether it is told by a line of its own; else it is told in the next count.
    pub fn tells(&mut self) -> bool
        ensures told { (faults : List ℕ) (counted : ℕ) → Stands self.old faults counted → result ≡ is_lone self.old.second faults }
        ensures stands { (faults : List ℕ) (counted : ℕ) → Stands self.old faults counted → Stands self.new (self.old.second ∷ faults) counted }
        ensures second { self.new.second ≡ self.old.second }
    {
        if self.lone < MOST_A_SECOND {
            self.lone += 1;
            return true;
        }
        self.untold = self.untold.saturating_add(1);
        false
    }

    /// How many faults weren't told so far. They are by this count.
    pub fn take_untold(&mut self) -> u64
        ensures count { result ≡ self.old.untold }
        ensures none { self.new.untold ≡ 0 }
        ensures stands { (faults : List ℕ) (counted : ℕ) → Stands self.old faults counted → Stands self.new faults (counted + result) }
        ensures second { self.new.second ≡ self.old.second }
    {
        let untold = self.untold;
        self.untold = 0;
        untold
    }
}
