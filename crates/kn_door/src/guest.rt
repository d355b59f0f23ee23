//! A caller whose client can leave.
ghost use Rattle.std.specs.Prelude.{◌≡◌, ◌+◌, ◌-◌, ◌^◌, min};
ghost use Rattle.kn_io.specs.Causes.{one_more};

use kn_io::{Caller, Failed, Faulty, Sink, Source};

/// A caller whose client can leave. That is a fault of it, and all else is as the caller has it.
#[derive(Drop)]
pub struct Guest<C> {
    pub caller: C,
    /// How many times a client has left, at most 2^64 - 1.
    pub departures: u64,
}

impl<C> Guest<C> {
    /// This caller, of whose clients none has left.
    pub fn new(caller: C) -> Guest<C>
        ensures caller { result.caller ≡ caller }
        ensures departures { result.departures ≡ 0 }
    {
        Guest {
            caller,
            departures: 0,
        }
    }

    /// The client that was met last has left.
    pub fn leave(&mut self)
        ensures caller { self.new.caller ≡ self.old.caller }
        ensures departures { self.new.departures ≡ one_more self.old.departures }
    {
        self.departures = self.departures.saturating_add(1);
    }
}

impl<C: Faulty> Faulty for Guest<C> {
    ghost faults = { λ g. min (C.faults g.caller + g.departures) (2 ^ 64 - 1) };

    fn faults(&self) -> u64 {
        self.caller.faults().saturating_add(self.departures)
    }
}

impl<C: Source> Source for Guest<C> {
    ghost left = { λ g. C.left g.caller };

    ghost apart = { λ g. C.apart g.caller };

    ghost given = { λ g. C.given g.caller };

    fn read(&mut self, buf: &mut [u8]) -> Result<usize, Failed> {
        self.caller.read(buf)
    }
}

impl<C: Sink> Sink for Guest<C> {
    ghost held = { λ g. C.held g.caller };

    ghost kept = { λ g. C.kept g.caller };

    fn write(&mut self, bytes: &[u8]) -> Result<usize, Failed> {
        self.caller.write(bytes)
    }
}

impl<C: Caller> Caller for Guest<C> {
    ghost paired = { λ g. C.paired g.caller };

    ghost together = { λ g. C.together g.caller };

    ghost heard = { λ g. C.heard g.caller };

    fn meet(&mut self) -> Result<(), Failed> {
        self.caller.meet()
    }

    fn part(&mut self) {
        self.caller.part()
    }
}
