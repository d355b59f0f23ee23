//! Which pods may have something to do.
ghost use Rattle.std.specs.Prelude.{◌≡◌, if◌then◌else◌};
ghost use Rattle.kn_throttle.specs.Touched.{one_more, one_less};

/// The pods at which something changed since all was done: none, this one, or any.
#[derive(Clone, Copy)]
pub enum Touched {
    Nowhere,
    At(u64),
    Anywhere,
}

impl Touched {
    /// With this pod too.
    pub fn with(self, p: u64) -> Touched
        ensures { result ≡ one_more p self }
    {
        match self {
            Touched::Nowhere => Touched::At(p),
            Touched::At(q) if q == p => Touched::At(q),
            _ => Touched::Anywhere,
        }
    }

    /// With this pod too, where it may have something to do.
    pub fn add_if(&mut self, p: u64, busy: bool)
        ensures { self.new ≡ (if busy then one_more p self.old else self.old) }
    {
        if busy {
            *self = self.with(p);
        }
    }

    /// Once this pod is gone.
    pub fn without(self, p: u64) -> Touched
        ensures { result ≡ one_less p self }
    {
        match self {
            Touched::At(q) if q == p => Touched::Nowhere,
            other => other,
        }
    }
}
