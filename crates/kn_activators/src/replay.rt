//! Activators that are replayed, event after event.
ghost use Rattle.std.specs.Prelude.{◌≡◌, ◌<◌, ◌≤◌, ◌-◌, ◌^◌, ℕ, length, IfSome, OnErr, OnOk, Some};
ghost use Rattle.kn_io.specs.Causes.{HasCause};
ghost use Rattle.kn_slices.specs.Activators.{IsPlain};
ghost use Rattle.kn_slices.specs.Traces.{IsCalm, due_of, made_at};
ghost use Rattle.kn_activators.specs.Calls.{AddsText, CanGoOn, CutsText, FailsBy, MakesBy, StepsOnly, made_outcome, due_outcome, each_outcome, forces_text, line_outcome, own_outcome, whole_outcome};
ghost use Rattle.kn_activators.specs.Reading.{IsGroupEvent};
ghost use Rattle.kn_activators.specs.Sharing.{Sharing, asked, by_event, by_line, changes_most, due_in, time_of};
ghost use Rattle.kn_activators.specs.Standing.{AreBefore, Fails, Grows, IsBelow, IsSameReplay, Makes, Stands, none, one, one_at};
ghost use Rattle.kn_report.specs.Waiting.{own_rows};

mod opening;

use crate::event::GroupEvent;
use crate::forces::add_forces;
use crate::setup::GroupSetup;
use kn_event::{Act, EntryLog, Event, Line};
use kn_io::{Failed, Sink};
use kn_report::laws::adding_laws;
use kn_report::{Waiting, add_own_rows};
use kn_slices::{Change, Group};
use std::marker::Model;

/// The activators, the limits in force that were kept, the entries of the last event, and the text that waits.
#[derive(Drop)]
pub struct Replay {
    setup: GroupSetup,
    group: Group,
    before: Vec<u64>,
    log: EntryLog,
    line: Line,
    waiting: Waiting,
}

impl Model for Replay {
    ghost use Rattle.std.specs.Prelude.{◌≡◌, length};
    ghost use Rattle.kn_activators.specs.Standing.{IsGroupSetup, IsOf, ReplayState};

    ghost Value = { ReplayState };

    ghost view = { λ r. record { setup = r.setup; group = r.group; before = r.before.items; log = r.log; waiting = r.waiting } };

    ghost invariant = { λ r. record { setup : IsGroupSetup r.setup; of : IsOf r.setup r.group; many : length r.before.items ≡ r.setup.pods } };
}

impl Replay {
    /// Adds the rows of the log behind what waits, behind the number of their activator.
    #[inline(always)]
    fn put_rows<O: Sink>(&mut self, i: u64, out: &mut O) -> Result<(), Failed>
        ensures ok { OnOk result (AddsText (own_rows i self.old.log) self.old self.new (O.held out.old) (O.held out.new)) }
        ensures err { OnErr result (CutsText (own_rows i self.old.log) self.old (O.held out.old) (O.held out.new)) }
        ensures group { self.new.group ≡ self.old.group }
        ensures setup { self.new.setup ≡ self.old.setup }
        ensures before { self.new.before ≡ self.old.before }
        ensures cause { HasCause (O.Faulty.faults out.old) (O.Faulty.faults out.new) result }
    {
        add_own_rows(&self.log, i, &mut self.line, &mut self.waiting, out)
    }

    /// The event of one activator, whose rows are still to be added.
    #[inline(always)]
    fn step_only(&mut self, i: u64, e: &Event)
        requires can { CanGoOn self.old i e.now.time }
        requires act { IsPlain e.now.act }
        ensures steps { StepsOnly self.old self.new i e.now }
        ensures calm { IsCalm self.old.group → IsCalm self.new.group }
        ensures load { Grows (one_at i) self.old.group self.new.group }
    {
        self.log.clear();
        self.group.take(i, e, &mut self.log);
    }

    /// An event of one activator.
    #[inline(always)]
    fn step<O: Sink>(&mut self, i: u64, e: &Event, out: &mut O) -> Result<(), Failed>
        requires can { CanGoOn self.old i e.now.time }
        requires act { IsPlain e.now.act }
        ensures ok { OnOk result (MakesBy (own_outcome i e.now) self.old self.new (O.held out.old) (O.held out.new)) }
        ensures err { OnErr result (FailsBy (own_outcome i e.now) self.old (O.held out.old) (O.held out.new)) }
        ensures same { IsSameReplay self.old self.new }
        ensures order { AreBefore e.now.time self.new.group }
        ensures calm { IsCalm self.old.group → IsCalm self.new.group }
        ensures load { Grows (one_at i) self.old.group self.new.group }
        ensures cause { HasCause (O.Faulty.faults out.old) (O.Faulty.faults out.new) result }
    {
        self.step_only(i, e);
        self.put_rows(i, out)
    }

    /// The due change, whose rows are still to be added.
    fn change_only(&mut self, change: &Change, time: u64)
        requires due { due_of self.old.group ≡ Some change.now }
        requires can { CanGoOn self.old change.now.activator time }
        ensures steps { StepsOnly self.old self.new change.now.activator (made_at time change.now) }
        ensures load { Grows none self.old.group self.new.group }
    {
        self.log.clear();
        self.group.change(time, &mut self.log);
    }

    /// Makes the due change.
    fn make<O: Sink>(&mut self, change: &Change, time: u64, out: &mut O) -> Result<(), Failed>
        requires due { due_of self.old.group ≡ Some change.now }
        requires can { CanGoOn self.old change.now.activator time }
        ensures ok { OnOk result (MakesBy (made_outcome time change.now) self.old self.new (O.held out.old) (O.held out.new)) }
        ensures err { OnErr result (FailsBy (made_outcome time change.now) self.old (O.held out.old) (O.held out.new)) }
        ensures same { IsSameReplay self.old self.new }
        ensures order { AreBefore time self.new.group }
        ensures load { Grows none self.old.group self.new.group }
        ensures cause { HasCause (O.Faulty.faults out.old) (O.Faulty.faults out.new) result }
    {
        self.change_only(change, time);
        self.put_rows(change.activator, out)
    }

    /// Another limit of a pod is wanted.
    fn ask(&mut self, p: u64, limit: u64)
        requires pod { p < self.old.setup.pods }
        requires least { self.old.setup.activators ≤ limit }
        requires most { limit ≤ 1000 }
        ensures stands { (x : Sharing) → Stands self.old.group x → Stands self.new.group (asked p limit x) }
        ensures setup { self.new.setup ≡ self.old.setup }
        ensures before { self.new.before ≡ self.old.before }
        ensures waiting { self.new.waiting ≡ self.old.waiting }
        ensures parts { length self.new.group.parts ≡ length self.old.group.parts }
        ensures order { (time : ℕ) → AreBefore time self.old.group → AreBefore time self.new.group }
        ensures load { Grows one self.old.group self.new.group }
    {
        self.group.ask(p, limit);
    }

    /// How many activators there are.
    fn activators(&self) -> u64
        ensures value { result ≡ self.now.setup.activators }
        ensures parts { length self.now.group.parts ≡ self.now.setup.activators }
    {
        self.setup.activators
    }

    /// An event of each activator in order.
    fn step_each<O: Sink>(&mut self, e: &Event, out: &mut O) -> Result<(), Failed>
        requires order { AreBefore e.now.time self.old.group }
        requires times { e.now.time ≤ 2 ^ 42 }
        requires few { IsBelow (2 ^ 54) self.old.group }
        requires act { IsPlain e.now.act }
        ensures ok { OnOk result (MakesBy (each_outcome e.now) self.old self.new (O.held out.old) (O.held out.new)) }
        ensures err { OnErr result (FailsBy (each_outcome e.now) self.old (O.held out.old) (O.held out.new)) }
        ensures same { IsSameReplay self.old self.new }
        ensures order { AreBefore e.now.time self.new.group }
        ensures load { Grows one self.old.group self.new.group }
        ensures cause { HasCause (O.Faulty.faults out.old) (O.Faulty.faults out.new) result }
    {
        adding_laws();
        for i in 0..self.activators() {
            match self.step(i, e, out) {
                Ok(()) => {}
                Err(Failed) => return Err(Failed),
            }
        }
        Ok(())
    }

    /// What the event itself makes.
    fn act<O: Sink>(&mut self, e: &GroupEvent, out: &mut O) -> Result<(), Failed>
        requires event { IsGroupEvent self.old.setup.activators self.old.setup.pods e.now }
        requires order { AreBefore (time_of e.now) self.old.group }
        requires times { time_of e.now ≤ 2 ^ 42 }
        requires few { IsBelow (2 ^ 54) self.old.group }
        ensures ok { OnOk result (Makes (by_event self.old.setup e.now) self.old self.new (O.held out.old) (O.held out.new)) }
        ensures err { OnErr result (Fails (by_event self.old.setup e.now) self.old (O.held out.old) (O.held out.new)) }
        ensures same { IsSameReplay self.old self.new }
        ensures order { AreBefore (time_of e.now) self.new.group }
        ensures load { Grows one self.old.group self.new.group }
        ensures cause { HasCause (O.Faulty.faults out.old) (O.Faulty.faults out.new) result }
    {
        match *e {
            GroupEvent::One(i, own) => {
                let _many = self.activators();
                self.step(i, &own, out)
            }
            GroupEvent::Ready(time, p) => {
                let ready = Event {
                    time,
                    act: Act::Ready(p),
                };
                self.step_each(&ready, out)
            }
            GroupEvent::Limit(_, p, limit) => {
                self.ask(p, limit);
                Ok(())
            }
        }
    }

    /// The due change.
    fn due(&self) -> Option<Change>
        ensures due { result ≡ due_of self.now.group }
        ensures stands { (x : Sharing) → Stands self.now.group x → result ≡ due_in x }
        ensures one { IfSome result (λ change. change.activator < self.now.setup.activators) }
        ensures parts { length self.now.group.parts ≡ self.now.setup.activators }
    {
        self.group.plan()
    }

    /// How many changes may be due, one after the other.
    fn changes_most(&self) -> u64
        ensures { result ≡ changes_most self.now.setup }
    {
        self.setup.pods * self.setup.activators
    }

    /// Makes all due changes.
    fn change_all<O: Sink>(&mut self, time: u64, out: &mut O) -> Result<(), Failed>
        requires order { AreBefore time self.old.group }
        requires times { time ≤ 2 ^ 42 }
        requires few { IsBelow (2 ^ 54) self.old.group }
        ensures ok { OnOk result (MakesBy (due_outcome time) self.old self.new (O.held out.old) (O.held out.new)) }
        ensures err { OnErr result (FailsBy (due_outcome time) self.old (O.held out.old) (O.held out.new)) }
        ensures same { IsSameReplay self.old self.new }
        ensures order { AreBefore time self.new.group }
        ensures load { Grows none self.old.group self.new.group }
        ensures cause { HasCause (O.Faulty.faults out.old) (O.Faulty.faults out.new) result }
    {
        adding_laws();
        for k in 0..self.changes_most() {
            let Some(change) = self.due() else {
                return Ok(());
            };
            match self.make(&change, time, out) {
                Ok(()) => {}
                Err(Failed) => return Err(Failed),
            }
        }
        Ok(())
    }

    /// Makes what the event itself makes, and then all due changes.
    fn make_all<O: Sink>(&mut self, e: &GroupEvent, out: &mut O) -> Result<(), Failed>
        requires event { IsGroupEvent self.old.setup.activators self.old.setup.pods e.now }
        requires order { AreBefore (time_of e.now) self.old.group }
        requires times { time_of e.now ≤ 2 ^ 42 }
        requires few { IsBelow (2 ^ 54 - 1) self.old.group }
        ensures ok { OnOk result (MakesBy (whole_outcome e.now) self.old self.new (O.held out.old) (O.held out.new)) }
        ensures err { OnErr result (FailsBy (whole_outcome e.now) self.old (O.held out.old) (O.held out.new)) }
        ensures same { IsSameReplay self.old self.new }
        ensures order { AreBefore (time_of e.now) self.new.group }
        ensures load { Grows one self.old.group self.new.group }
        ensures cause { HasCause (O.Faulty.faults out.old) (O.Faulty.faults out.new) result }
    {
        adding_laws();
        match self.act(e, out) {
            Ok(()) => {}
            Err(Failed) => return Err(Failed),
        }
        self.change_all(e.time(), out)
    }

    /// Keeps the limits in force.
    fn keep_forces(&mut self)
        ensures before { self.new.before ≡ self.old.group.force }
        ensures group { self.new.group ≡ self.old.group }
        ensures setup { self.new.setup ≡ self.old.setup }
        ensures waiting { self.new.waiting ≡ self.old.waiting }
    {
        self.before.copy_from_slice(self.group.forces());
    }

    /// Adds a line behind what waits for each pod whose limit in force isn't the one that was kept.
    fn put_forces<O: Sink>(&mut self, time: u64, out: &mut O) -> Result<(), Failed>
        ensures ok { OnOk result (AddsText (forces_text time self.old) self.old self.new (O.held out.old) (O.held out.new)) }
        ensures err { OnErr result (CutsText (forces_text time self.old) self.old (O.held out.old) (O.held out.new)) }
        ensures group { self.new.group ≡ self.old.group }
        ensures setup { self.new.setup ≡ self.old.setup }
        ensures cause { HasCause (O.Faulty.faults out.old) (O.Faulty.faults out.new) result }
    {
        add_forces(
            &self.before,
            self.group.forces(),
            time,
            &mut self.line,
            &mut self.waiting,
            out,
        )
    }

    /// Takes the event of a line, where limits may change.
    #[inline(never)]
    fn take_open<O: Sink>(&mut self, e: &GroupEvent, out: &mut O) -> Result<(), Failed>
        requires event { IsGroupEvent self.old.setup.activators self.old.setup.pods e.now }
        requires order { AreBefore (time_of e.now) self.old.group }
        requires times { time_of e.now ≤ 2 ^ 42 }
        requires few { IsBelow (2 ^ 54 - 1) self.old.group }
        ensures ok { OnOk result (Makes (by_line self.old.setup e.now) self.old self.new (O.held out.old) (O.held out.new)) }
        ensures err { OnErr result (Fails (by_line self.old.setup e.now) self.old (O.held out.old) (O.held out.new)) }
        ensures setup { self.new.setup ≡ self.old.setup }
        ensures parts { OnOk result (length self.new.group.parts ≡ length self.old.group.parts) }
        ensures order { OnOk result (AreBefore (time_of e.now) self.new.group) }
        ensures load { OnOk result (Grows one self.old.group self.new.group) }
        ensures cause { HasCause (O.Faulty.faults out.old) (O.Faulty.faults out.new) result }
    {
        adding_laws();
        self.keep_forces();
        match self.make_all(e, out) {
            Ok(()) => {}
            Err(Failed) => return Err(Failed),
        }
        self.put_forces(e.time(), out)
    }

    /// Takes the event of one activator's line, where no limit is still to change: none does then.
    #[inline(always)]
    fn take_calm<O: Sink>(&mut self, i: u64, e: &Event, out: &mut O) -> Result<(), Failed>
        requires calm { IsCalm self.old.group }
        requires one { i < self.old.setup.activators }
        requires order { AreBefore e.now.time self.old.group }
        requires times { e.now.time ≤ 2 ^ 42 }
        requires few { IsBelow (2 ^ 54 - 1) self.old.group }
        requires act { IsPlain e.now.act }
        ensures ok { OnOk result (MakesBy (line_outcome i e.now) self.old self.new (O.held out.old) (O.held out.new)) }
        ensures err { OnErr result (FailsBy (line_outcome i e.now) self.old (O.held out.old) (O.held out.new)) }
        ensures same { IsSameReplay self.old self.new }
        ensures order { AreBefore e.now.time self.new.group }
        ensures load { Grows one self.old.group self.new.group }
        ensures cause { HasCause (O.Faulty.faults out.old) (O.Faulty.faults out.new) result }
    {
        adding_laws();
        let _many = self.activators();
        self.step(i, e, out)
    }

    /// Takes the event of a line, and adds its text behind what waits: the event's rows, those of all due changes, and a line for each
    /// pod whose limit in force is another than before.
    #[inline(always)]
    pub fn take<O: Sink>(&mut self, e: &GroupEvent, out: &mut O) -> Result<(), Failed>
        requires event { IsGroupEvent self.old.setup.activators self.old.setup.pods e.now }
        requires order { AreBefore (time_of e.now) self.old.group }
        requires times { time_of e.now ≤ 2 ^ 42 }
        requires few { IsBelow (2 ^ 54 - 1) self.old.group }
        ensures ok { OnOk result (Makes (by_line self.old.setup e.now) self.old self.new (O.held out.old) (O.held out.new)) }
        ensures err { OnErr result (Fails (by_line self.old.setup e.now) self.old (O.held out.old) (O.held out.new)) }
        ensures setup { self.new.setup ≡ self.old.setup }
        ensures parts { OnOk result (length self.new.group.parts ≡ length self.old.group.parts) }
        ensures order { OnOk result (AreBefore (time_of e.now) self.new.group) }
        ensures load { OnOk result (Grows one self.old.group self.new.group) }
        ensures cause { HasCause (O.Faulty.faults out.old) (O.Faulty.faults out.new) result }
    {
        if self.group.settle() {
            if let GroupEvent::One(i, own) = e {
                return self.take_calm(*i, own, out);
            }
        }
        self.take_open(e, out)
    }
}
