//! How a replay of several activators begins and ends.
ghost use Rattle.std.specs.Prelude.{◌≡◌, ◌<◌, ◌≤◌, ◌^◌, [], IfOk, OnErr, OnOk};
ghost use Rattle.kn_io.specs.Causes.{HasCause};
ghost use Rattle.kn_io.specs.Prefix.{AppendsPrefix};
ghost use Rattle.kn_activators.specs.Calls.{AddsText, CutsText, opens_text};
ghost use Rattle.kn_activators.specs.Sharing.{end_line, opened, opening_at};
ghost use Rattle.kn_activators.specs.Standing.{AreBefore, IsBelow, IsGroupSetup, Stands};

use super::Replay;
use crate::setup::GroupSetup;
use kn_event::{EntryLog, Line, Memory};
use kn_io::{Failed, Sink};
use kn_report::Waiting;
use kn_report::laws::adding_laws;
use kn_slices::Group;
use std::alloc::Global;

/// Sets the line to the last one, over so many events.
#[tactic(auto, using(std::proofs::Common::append_assoc), unfolding(crate::specs::Sharing::end_line))]
fn set_end(line: &mut Line, events: u64)
    ensures { line.new ≡ end_line events }
{
    line.clear();
    line.put(b"end events=");
    line.put_integer(events);
    line.put(b"\n");
}

impl Replay {
    /// Opens the activators at the start, with all the memory that they will ever have.
    pub fn new(alloc: Global, setup: GroupSetup, start: u64) -> Result<Replay, Memory>
        requires setup { IsGroupSetup setup }
        requires start { start ≤ 2 ^ 42 }
        ensures stands { IfOk result (λ r. Stands r.group (opened setup start)) }
        ensures setup { IfOk result (λ r. r.setup ≡ setup) }
        ensures start { IfOk result (λ r. r.group.start ≡ start) }
        ensures order { IfOk result (λ r. AreBefore start r.group) }
        ensures few { IfOk result (λ r. IsBelow 1 r.group) }
        ensures waiting { IfOk result (λ r. r.waiting ≡ []) }
    {
        let group = Group::new(
            alloc,
            setup.activators,
            setup.limit,
            setup.pods,
            setup.timeout_s,
            setup.slots,
            start,
        )?;
        let log = EntryLog::new(alloc)?;
        let before = match vec![in alloc; setup.limit; setup.pods as usize] {
            Ok(before) => before,
            Err(_) => return Err(Memory),
        };
        Ok(Replay {
            setup,
            group,
            before,
            log,
            line: Line::new(),
            waiting: Waiting::new(),
        })
    }

    /// The log becomes the opening of an activator.
    fn open_only(&mut self, i: u64)
        requires { i < self.old.setup.activators }
        ensures log { self.new.log ≡ opening_at self.old.setup self.old.group.start i }
        ensures group { self.new.group ≡ self.old.group }
        ensures setup { self.new.setup ≡ self.old.setup }
        ensures waiting { self.new.waiting ≡ self.old.waiting }
    {
        self.log.clear();
        self.group.opening(i, &mut self.log);
    }

    /// Adds the opening rows of each activator behind what waits.
    pub fn open<O: Sink>(&mut self, out: &mut O) -> Result<(), Failed>
        ensures ok { OnOk result (AddsText (opens_text self.old) self.old self.new (O.held out.old) (O.held out.new)) }
        ensures err { OnErr result (CutsText (opens_text self.old) self.old (O.held out.old) (O.held out.new)) }
        ensures group { self.new.group ≡ self.old.group }
        ensures setup { self.new.setup ≡ self.old.setup }
        ensures cause { HasCause (O.Faulty.faults out.old) (O.Faulty.faults out.new) result }
    {
        adding_laws();
        for i in 0..self.activators() {
            self.open_only(i);
            match self.put_rows(i, out) {
                Ok(()) => {}
                Err(Failed) => return Err(Failed),
            }
        }
        Ok(())
    }

    /// Writes what waits, or on `Failed` some first of it. Nothing waits then.
    pub fn flush<O: Sink>(&mut self, out: &mut O) -> Result<(), Failed>
        ensures ok { OnOk result (AddsText [] self.old self.new (O.held out.old) (O.held out.new)) }
        ensures err { OnErr result (AppendsPrefix (O.held out.old) (O.held out.new) self.old.waiting) }
        ensures empty { self.new.waiting ≡ [] }
        ensures group { self.new.group ≡ self.old.group }
        ensures setup { self.new.setup ≡ self.old.setup }
        ensures cause { HasCause (O.Faulty.faults out.old) (O.Faulty.faults out.new) result }
    {
        self.waiting.flush(out)
    }

    /// Adds the last line behind what waits, over so many events.
    pub fn end<O: Sink>(&mut self, events: u64, out: &mut O) -> Result<(), Failed>
        ensures ok { OnOk result (AddsText (end_line events) self.old self.new (O.held out.old) (O.held out.new)) }
        ensures err { OnErr result (CutsText (end_line events) self.old (O.held out.old) (O.held out.new)) }
        ensures cause { HasCause (O.Faulty.faults out.old) (O.Faulty.faults out.new) result }
    {
        set_end(&mut self.line, events);
        self.waiting.add(self.line.bytes(), out)
    }
}
