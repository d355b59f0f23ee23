//! Who writes of a run.
ghost use Rattle.std.specs.Prelude.{◌≡◌, ◌+◌, ◌<◌, ◌≤◌, ◌^◌, ◌++◌, ℕ, length, IfOk, OnErr, OnOk};
ghost use Rattle.kn_io.specs.Causes.{HasCause};
ghost use Rattle.kn_io.specs.Prefix.{AppendsPrefix};
ghost use Rattle.kn_core.specs.Steps.{IsWithinRange};
ghost use Rattle.kn_report.specs.Waiting.{Adds};
ghost use Rattle.kn_teller.specs.Manner.{Manner};
ghost use Rattle.kn_teller.specs.Run.{IsOpened, IsRunOf, IsStep, Run, Takes, begun, later};

use crate::taking::take_by_log;
use kn_core::Revision;
use kn_event::{EntryLog, Event, Line, Memory, Spec};
use kn_io::{Failed, Sink};
use kn_report::Waiting;
use std::alloc::Global;

/// Writes of a run, event after event, by way of a text that waits. It takes no memory. After `Failed` it is told nothing more.
pub trait Teller {
    /// What it writes.
    ghost manner: { Self → Manner };

    /// It was made for this run, which has not begun.
    ghost awaits: { Self → Run → Type 0 };

    /// What it keeps is that of this run.
    ghost knows: { Self → Run → Type 0 };

    /// How many rows it has counted, at most.
    ghost load: { Self → ℕ };

    /// Adds what stands once the start was read, behind what waits. The log has the entries of the opening.
    fn open<O: Sink>(
        &mut self,
        revision: &Revision,
        log: &EntryLog,
        line: &mut Line,
        waiting: &mut Waiting,
        out: &mut O,
    ) -> Result<(), Failed>
        requires few { load self.old ≤ 0 }
        ensures ok { (r : Run) → awaits self.old r → IsOpened r revision.now log.now → OnOk result (Adds (O.held out.old) (O.held out.new) waiting.old waiting.new ((manner self.old).opens r)) }
        ensures err { (r : Run) → awaits self.old r → IsOpened r revision.now log.now → OnErr result (AppendsPrefix (O.held out.old) (O.held out.new) (waiting.old ++ (manner self.old).opens r)) }
        ensures knows { (r : Run) → awaits self.old r → IsOpened r revision.now log.now → OnOk result (knows self.new r) }
        ensures manner { manner self.new ≡ manner self.old }
        ensures few { OnOk result (load self.new < 2 ^ 64) }
        ensures cause { HasCause (O.Faulty.faults out.old) (O.Faulty.faults out.new) result };

    /// Adds what is told of one more event, behind what waits. The log has its entries, and the revision has taken it.
    fn tell<O: Sink>(
        &mut self,
        e: &Event,
        revision: &Revision,
        log: &EntryLog,
        line: &mut Line,
        waiting: &mut Waiting,
        out: &mut O,
    ) -> Result<(), Failed>
        requires few { load self.old ≤ 2 ^ 126 }
        ensures ok { (r : Run) → knows self.old r → IsStep r e.now revision.now log.now → OnOk result (Adds (O.held out.old) (O.held out.new) waiting.old waiting.new ((manner self.old).tells r e.now)) }
        ensures err { (r : Run) → knows self.old r → IsStep r e.now revision.now log.now → OnErr result (AppendsPrefix (O.held out.old) (O.held out.new) (waiting.old ++ (manner self.old).tells r e.now)) }
        ensures knows { (r : Run) → knows self.old r → IsStep r e.now revision.now log.now → OnOk result (knows self.new (later r e.now)) }
        ensures manner { manner self.new ≡ manner self.old }
        ensures few { OnOk result (load self.new < load self.old + 2 ^ 64) }
        ensures cause { HasCause (O.Faulty.faults out.old) (O.Faulty.faults out.new) result };

    /// Has the revision take one more event, and adds what is told of it, behind what waits. The log is room that may be used.
    #[inline(always)]
    fn take<O: Sink>(
        &mut self,
        e: &Event,
        revision: &mut Revision,
        log: &mut EntryLog,
        line: &mut Line,
        waiting: &mut Waiting,
        out: &mut O,
    ) -> Result<(), Failed>
        requires order { revision.old.clock ≤ e.now.time }
        requires times { e.now.time ≤ 2 ^ 42 }
        requires count { revision.old.events < 2 ^ 54 }
        requires limit { IsWithinRange e.now.act }
        requires few { load self.old ≤ 2 ^ 126 }
        ensures ok { (r : Run) → knows self.old r → IsRunOf r revision.old → OnOk result (Adds (O.held out.old) (O.held out.new) waiting.old waiting.new ((manner self.old).tells r e.now)) }
        ensures err { (r : Run) → knows self.old r → IsRunOf r revision.old → OnErr result (AppendsPrefix (O.held out.old) (O.held out.new) (waiting.old ++ (manner self.old).tells r e.now)) }
        ensures knows { (r : Run) → knows self.old r → IsRunOf r revision.old → OnOk result (knows self.new (later r e.now)) }
        ensures takes { Takes revision.old e.now revision.new }
        ensures manner { manner self.new ≡ manner self.old }
        ensures few { OnOk result (load self.new < load self.old + 2 ^ 64) }
        ensures cause { HasCause (O.Faulty.faults out.old) (O.Faulty.faults out.new) result }
    {
        take_by_log(revision, e, log);
        self.tell(e, revision, log, line, waiting, out)
    }

    /// Adds what stands at the end of a good journal of this version with so many events, behind what waits.
    fn end<O: Sink>(
        &mut self,
        version: u64,
        events: u64,
        line: &mut Line,
        waiting: &mut Waiting,
        out: &mut O,
    ) -> Result<(), Failed>
        requires few { load self.old ≤ 2 ^ 126 }
        ensures ok { (r : Run) → knows self.old r → events ≡ length r.events → OnOk result (Adds (O.held out.old) (O.held out.new) waiting.old waiting.new ((manner self.old).ends version r)) }
        ensures err { (r : Run) → knows self.old r → events ≡ length r.events → OnErr result (AppendsPrefix (O.held out.old) (O.held out.new) (waiting.old ++ (manner self.old).ends version r)) }
        ensures cause { HasCause (O.Faulty.faults out.old) (O.Faulty.faults out.new) result };
}

/// Which text is asked for: it makes the teller, with all the memory that this will ever have.
pub trait Form<T: Teller> {
    /// What its tellers write.
    ghost writes: { Self → Manner };

    /// A teller for a run of this specification from this start.
    fn make(&self, alloc: Global, spec: &Spec, start: u64) -> Result<T, Memory>
        requires times { start ≤ 2 ^ 42 }
        ensures awaits { IfOk result (λ t. T.awaits t (begun spec.now start)) }
        ensures manner { IfOk result (λ t. T.manner t ≡ writes self.now) }
        ensures few { IfOk result (λ t. T.load t ≤ 0) };
}
