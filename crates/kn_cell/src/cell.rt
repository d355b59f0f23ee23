//! The cell and its passes.
ghost use Rattle.std.specs.Prelude.{◌≡◌, ◌<◌, ◌≤◌, ◌+◌, ◌++◌, ◌-◌, ◌^◌, List, [], true, length, vec_capacity, IfOk, IfErr, IfSome};
ghost use Rattle.kn_event.specs.declared.event.Act.TheVariants as act;
ghost use Rattle.kn_trace.specs.Trace.{next_starting, proxied, stand_of};
ghost use Rattle.kn_book.specs.Book.{next_to_probe};
ghost use Rattle.kn_cell.specs.declared.past.Past.{Past};
ghost use Rattle.kn_cell.specs.Counted.{AreFiguresOf};
ghost use Rattle.kn_cell.specs.Course.{ArrivalHasCourse, IsCourseOf};
ghost use Rattle.kn_cell.specs.History.{MayCome, rows_by};
ghost use Rattle.kn_cell.specs.Shown.{Looks, LooksBy, Sees, RecordsLast, Misfits, Tries, new_shown, joined_shown, IsClosed};

mod opening;

use crate::course::{Course, arrival_at, arrived, course_at};
use crate::desk::Desk;
use crate::past::{Full, History, Past, TryError};
use crate::rule::{Cut, Glue, Order};
use crate::steps::{AWAITED, Place, confirm, give, hand_back, heard, ring_left, take, wait_bell};
use crate::turn::{
    attempt, enter, figures_at, proxied_at, rows_at, stand_at, starting_at, take_turn, to_probe_at,
};
use crate::view::{Key, View};
use atomic_table::Table;
use kn_core::Revision;
use kn_event::{Act, Stand, Told};
use kn_figures::Figures;
use kn_laws::laws::history_laws;
use std::alloc::Global;
use std::marker::Model;
use std::sync::Wait;
use std::time::Duration;

/// A revision that threads share. Contracts see its name.
pub struct RevisionCell {
    table: Table<Desk, View, Key, Order, Global>,
}

impl Drop for RevisionCell {
    fn drop(self) {
        let RevisionCell { table: _ } = self;
    }
}

impl Model for RevisionCell {
    ghost use Rattle.std.specs.Prelude.{◌≡◌, ◌≤◌};
    ghost use Rattle.atomic_table.specs.Seated.{TableId, table_id_coded};

    ghost Value = { TableId };

    ghost coded = { table_id_coded };

    ghost view = { λ c. c.table.shared.table_id };

    ghost invariant = { λ c. (2 ≤ c.table.shared.table_id.words) × (c.table.shared.table_id.slots ≡ 1) };
}

/// A thread's way to the cell, with what it has seen.
#[derive(Drop)]
pub struct Pass {
    number: u64,
    free: u64,
    passes: u64,
    place: Place,
    /// The request of the last look.
    asked: Option<u64>,
    /// What the pass's bell read at the last look.
    heard: u64,
}

impl Model for Pass {
    ghost use Rattle.kn_cell.specs.Shown.{PassView, shown, IsIdle};

    ghost Value = { PassView };

    ghost view = { λ p. shown p.place.table_id p.place.me.0 };

    ghost invariant = { λ p. IsIdle p.place p.number p.free p.passes };
}

impl RevisionCell {
    /// Records the event, behind all that others recorded, or says that the room is too small.
    #[inline(always)]
    pub fn on<R: Wait>(&self, rt: &R, pass: &mut Pass, act: Act, time: u64) -> Result<Told, Full>
        requires cell { pass.old.cell ≡ self.now }
        requires act { MayCome act }
        ensures looks { Looks pass.old pass.new }
        ensures ok { IfOk result (λ told. RecordsLast pass.old act time told pass.new) }
        ensures full { IfErr result (λ full. Misfits pass.old act full pass.new) }
    {
        let board = &self.table.shared;
        let number = pass.number;
        let passes = pass.passes;
        let place = &mut pass.place;
        take_turn(rt, board, place);
        let mut told = Told::Passed;
        match attempt(board, place, number, passes, act, time, &mut told) {
            Ok(()) => Ok(told),
            Err(full) => Err(full),
        }
    }

    /// The same, where no other pass has the turn just now.
    pub fn try_on(&self, pass: &mut Pass, act: Act, time: u64) -> Result<Told, TryError>
        requires cell { pass.old.cell ≡ self.now }
        requires act { MayCome act }
        ensures { Tries pass.old act time result pass.new }
    {
        let board = &self.table.shared;
        let number = pass.number;
        let passes = pass.passes;
        let place = &mut pass.place;
        // A mark of AWAITED erases no other's; at worst it wakes one for nothing.
        if take(board, place, AWAITED) != 0 {
            return Err(TryError::Busy);
        }
        let mut told = Told::Passed;
        match attempt(board, place, number, passes, act, time, &mut told) {
            Ok(()) => Ok(told),
            Err(full) => Err(TryError::Full(full)),
        }
    }

    /// Where the request stands after all that is then seen. Where it is held or queued, the pass's bell is rung once it is not.
    pub fn look<R: Wait>(&self, rt: &R, pass: &mut Pass, r: u64) -> Stand
        requires { pass.old.cell ≡ self.now }
        ensures looks { Looks pass.old pass.new }
        ensures mine { pass.new.mine ≡ pass.old.mine }
        ensures stand { Sees pass.new (λ c. result ≡ stand_of c r) }
    {
        let board = &self.table.shared;
        let number = pass.number;
        let place = &mut pass.place;
        take_turn(rt, board, place);
        let stand = stand_at(board, place, number, pass.asked, r);
        pass.asked = Some(r);
        pass.heard = heard(board, number);
        give(board, place);
        stand
    }

    /// How the request goes on after all that is then seen. Where it waits, the pass's bell is rung once it doesn't.
    pub fn course<R: Wait>(&self, rt: &R, pass: &mut Pass, r: u64) -> Course
        requires { pass.old.cell ≡ self.now }
        ensures looks { Looks pass.old pass.new }
        ensures mine { pass.new.mine ≡ pass.old.mine }
        ensures course { Sees pass.new (λ c. IsCourseOf pass.new.book c r result) }
    {
        let board = &self.table.shared;
        let number = pass.number;
        let place = &mut pass.place;
        take_turn(rt, board, place);
        let course = course_at(board, place, number, pass.asked, r);
        pass.asked = Some(r);
        pass.heard = heard(board, number);
        give(board, place);
        course
    }

    /// Records an arrival as `on` does, and says how its request goes on then, as `course` does.
    pub fn arrive<R: Wait>(
        &self,
        rt: &R,
        pass: &mut Pass,
        tag: u64,
        time: u64,
    ) -> Result<(Told, Course), Full>
        requires cell { pass.old.cell ≡ self.now }
        ensures looks { Looks pass.old pass.new }
        ensures ok { IfOk result (λ x. RecordsLast pass.old (act.Arrive tag) time x.0 pass.new) }
        ensures course { IfOk result (λ x. ArrivalHasCourse pass.new x.0 x.1) }
        ensures full { IfErr result (λ full. Misfits pass.old (act.Arrive tag) full pass.new) }
    {
        let board = &self.table.shared;
        let number = pass.number;
        let passes = pass.passes;
        let place = &mut pass.place;
        take_turn(rt, board, place);
        let act = Act::Arrive(tag);
        let mut told = Told::Passed;
        match enter(board, place, number, passes, act, time, &mut told) {
            Ok(left) => {
                let course = arrival_at(board, place, number, pass.asked, told);
                pass.asked = arrived(told).or(pass.asked);
                pass.heard = heard(board, number);
                give(board, place);
                ring_left(board, place, passes, left);
                Ok((told, course))
            }
            Err(full) => {
                give(board, place);
                Err(full)
            }
        }
    }

    /// Whether the request is proxied, after all that is then seen.
    pub fn proxied<R: Wait>(&self, rt: &R, pass: &mut Pass, r: u64) -> bool
        requires { pass.old.cell ≡ self.now }
        ensures looks { Looks pass.old pass.new }
        ensures mine { pass.new.mine ≡ pass.old.mine }
        ensures proxied { Sees pass.new (λ c. result ≡ proxied c r) }
    {
        let board = &self.table.shared;
        let place = &mut pass.place;
        take_turn(rt, board, place);
        let proxied = proxied_at(board, place, r);
        give(board, place);
        proxied
    }

    /// The least Starting pod not below this one, after all that is then seen.
    pub fn next_starting<R: Wait>(&self, rt: &R, pass: &mut Pass, from: u64) -> Option<u64>
        requires { pass.old.cell ≡ self.now }
        ensures looks { Looks pass.old pass.new }
        ensures mine { pass.new.mine ≡ pass.old.mine }
        ensures starting { Sees pass.new (λ c. result ≡ next_starting c from) }
        ensures from { IfSome result (λ p. from ≤ p) }
        ensures most { IfSome result (λ p. p < 2 ^ 63) }
    {
        let board = &self.table.shared;
        let place = &mut pass.place;
        take_turn(rt, board, place);
        let next = starting_at(board, place, from);
        give(board, place);
        next
    }

    /// The least Starting pod that is not below this one and has an address, after all that is then seen, with that address.
    pub fn next_to_probe<R: Wait>(&self, rt: &R, pass: &mut Pass, from: u64) -> Option<(u64, u64)>
        requires { pass.old.cell ≡ self.now }
        ensures looks { Looks pass.old pass.new }
        ensures mine { pass.new.mine ≡ pass.old.mine }
        ensures probe { Sees pass.new (λ c. result ≡ next_to_probe pass.new.book c from) }
        ensures from { IfSome result (λ x. from ≤ x.0) }
        ensures most { IfSome result (λ x. x.0 < 2 ^ 63) }
    {
        let board = &self.table.shared;
        let place = &mut pass.place;
        take_turn(rt, board, place);
        let next = to_probe_at(board, place, from);
        give(board, place);
        next
    }

    /// What is counted after all that is then seen: the requests and pods of the whole trace, the rows by their kinds without
    /// those that the revision opened with, and how many events were recorded and not taken out.
    pub fn figures<R: Wait>(&self, rt: &R, pass: &mut Pass) -> Figures
        requires { pass.old.cell ≡ self.now }
        ensures looks { Looks pass.old pass.new }
        ensures mine { pass.new.mine ≡ pass.old.mine }
        ensures figures { AreFiguresOf pass.new result }
    {
        let board = &self.table.shared;
        let place = &mut pass.place;
        take_turn(rt, board, place);
        let figures = figures_at(board, place);
        give(board, place);
        figures
    }

    /// Waits for a millisecond, or returns at once. Nothing changes.
    pub fn rest<R: Wait>(&self, rt: &R, pass: &mut Pass)
        requires { pass.old.cell ≡ self.now }
        ensures { pass.new ≡ pass.old }
    {
        let _ = pass;
        let board = &self.table.shared;
        let count = board.peek(0);
        board.park_timeout(
            rt,
            0,
            (count & 0xffff_ffff) as u32,
            Duration::from_millis(1),
        );
    }

    /// Waits until an event has moved the request of the pass's last look, where that was held or queued, but for no longer
    /// than so many milliseconds; or returns at once. Nothing changes.
    pub fn wait<R: Wait>(&self, rt: &R, pass: &mut Pass, ms: u64)
        requires { pass.old.cell ≡ self.now }
        ensures { pass.new ≡ pass.old }
    {
        wait_bell(rt, &self.table.shared, pass.number, pass.heard, ms);
    }

    /// A pass for another thread, which has seen as much.
    pub fn split(&self, pass: &mut Pass) -> Pass
        requires cell { pass.old.cell ≡ self.now }
        requires free { 0 < pass.old.free }
        ensures same { pass.new ≡ record pass.old { free = pass.old.free - 1 } }
        ensures new { result ≡ new_shown pass.old }
        ensures own { result.mine ≡ rows_by result.number result.seen }
    {
        let number = pass.passes - pass.free;
        pass.free -= 1;
        let board = &self.table.shared;
        let mut place = board.split_seat::<Cut>(&mut pass.place);
        confirm(board, &mut place);
        Pass {
            number,
            free: 0,
            passes: pass.passes,
            place,
            asked: None,
            heard: 0,
        }
    }

    /// Takes in another pass.
    pub fn join(&self, pass: &mut Pass, other: Pass)
        requires cell { pass.old.cell ≡ self.now }
        requires other { other.cell ≡ self.now }
        ensures { pass.new ≡ joined_shown pass.old other }
    {
        let Pass {
            number: _,
            free: _,
            passes: _,
            place,
            asked: _,
            heard: _,
        } = other;
        self.table.shared.join_seat::<Glue>(&mut pass.place, place);
    }

    /// Takes out all rows that are there. The cell goes on in the memory of the empty list that it is given.
    pub fn take<R: Wait>(&self, rt: &R, pass: &mut Pass, rows: &mut Vec<Past>)
        requires cell { pass.old.cell ≡ self.now }
        requires scribe { pass.old.scribe ≡ true }
        requires empty { rows.old.items ≡ [] }
        requires room { pass.old.room ≤ vec_capacity rows.old }
        ensures looks { LooksBy (length rows.new.items) pass.old pass.new }
        ensures mine { pass.new.mine ≡ pass.old.mine }
        ensures taken { (front : List Past) × (length front ≡ pass.old.gone) × (pass.new.seen ≡ front ++ rows.new.items) }
        ensures room { pass.old.room ≤ vec_capacity rows.new }
    {
        let board = &self.table.shared;
        let place = &mut pass.place;
        take_turn(rt, board, place);
        rows_at(board, place, rows);
        hand_back(board, place);
    }

    /// Ends the cell, and answers the rows that are left. Every number has come back to the pass. The whole history, the
    /// rows that were taken out and then these, is lawful, and the trace is settled after each beginning of it.
    pub fn close(self, pass: Pass) -> (Revision, History)
        requires cell { pass.cell ≡ self }
        requires all { 1 + pass.free + pass.back ≡ pass.passes }
        ensures closes { IsClosed pass result.0 result.1 }
    {
        history_laws();
        let RevisionCell { table } = self;
        let Pass {
            number: _,
            free: _,
            passes: _,
            place,
            asked: _,
            heard: _,
        } = pass;
        let mut closed = table.close_with(place);
        let desk = closed.take(0);
        closed.free();
        desk.into_parts()
    }
}
