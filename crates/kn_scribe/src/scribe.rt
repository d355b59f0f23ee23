//! The scribe.
ghost use Rattle.std.specs.Prelude.{◌≡◌, ◌≤◌, [], Ok, true, vec_capacity, IfOk};
ghost use Rattle.kn_scribe.specs.Printing.{Prints};

use crate::doors::Doors;
use crate::round::print_taken;
use kn_cell::{Pass, Past, RevisionCell};
use kn_door::{Close, Stop};
use kn_event::Memory;
use kn_io::{Clock, Failed, Sink};
use kn_print::printed_laws;
use kn_request::Left;
use kn_session::Attendant;
use std::alloc::Global;
use std::sync::Wait;

/// No rows, and memory for as many as a cell has room for.
pub fn rows_for(alloc: Global, room: u64) -> Result<Vec<Past>, Memory>
    ensures none { IfOk result (λ rows. rows.items ≡ []) }
    ensures room { IfOk result (λ rows. room ≤ vec_capacity rows) }
{
    match Vec::with_capacity(alloc, room as usize) {
        Ok(rows) => Ok(rows),
        Err(_) => Err(Memory),
    }
}

/// Prints the rows of a lasting cell as they come, and closes the doors: that of the clients once the server is to stop or nothing
/// can be written, and that of the page last of all.
#[derive(Drop)]
pub struct Scribe<'a, O, K, T, D, E> {
    pub out: &'a mut O,
    clock: &'a K,
    stop: &'a mut T,
    doors: &'a Doors<'a, D, E>,
    /// Empty between two rounds, with memory for the cell's room.
    pub rows: &'a mut Vec<Past>,
    /// How printing went so far.
    pub done: Result<(), Failed>,
}

impl<'a, O: Sink, K: Clock, T: Stop, D: Close, E: Close> Scribe<'a, O, K, T, D, E> {
    /// A scribe that has printed nothing. It takes rows out into these, which are none so far.
    pub fn new(
        rows: &'a mut Vec<Past>,
        out: &'a mut O,
        clock: &'a K,
        stop: &'a mut T,
        doors: &'a Doors<'a, D, E>,
    ) -> Scribe<'a, O, K, T, D, E>
        ensures out { (result.out.ghost_name ≡ out.entry.ghost_name) × (result.out.now ≡ out.old) }
        ensures rows { result.rows.now ≡ rows.old }
        ensures done { result.done ≡ Ok tt }
    {
        Scribe {
            out,
            clock,
            stop,
            doors,
            rows,
            done: Ok(()),
        }
    }

    /// A round: the clients' door is closed where the server is to stop; what is there is taken out and printed. Says whether a
    /// further round is due: none is once no slot was at work before this one, nor after a write fault, which closes that door too.
    fn round<R: Wait>(&mut self, rt: &R, cell: &RevisionCell, pass: &mut Pass, left: &Left) -> bool
        requires cell { pass.old.cell ≡ cell.now }
        requires scribe { pass.old.scribe ≡ true }
        requires empty { self.old.rows.now.items ≡ [] }
        requires room { pass.old.room ≤ vec_capacity self.old.rows.now }
        ensures prints { Prints pass.old pass.new (O.held self.old.out.now) (O.held self.new.out.now)
            (O.Faulty.faults self.old.out.now) (O.Faulty.faults self.new.out.now) self.new.done }
        ensures out { self.new.out.ghost_name ≡ self.old.out.ghost_name }
        ensures further { result ≡ true → self.new.done ≡ Ok tt }
        ensures empty { self.new.rows.now.items ≡ [] }
        ensures room { pass.old.room ≤ vec_capacity self.new.rows.now }
    {
        if self.stop.is_over() {
            self.doors.clients.close();
        }
        let last = left.is_zero();
        self.done = print_taken(rt, cell, pass, self.rows, self.out);
        match self.done {
            Ok(()) => !last,
            Err(Failed) => {
                self.doors.clients.close();
                false
            }
        }
    }

    /// Round after round, until no slot is at work or writing fails.
    fn print_all<R: Wait>(&mut self, rt: &R, cell: &RevisionCell, pass: &mut Pass, left: &Left)
        requires cell { pass.old.cell ≡ cell.now }
        requires scribe { pass.old.scribe ≡ true }
        requires empty { self.old.rows.now.items ≡ [] }
        requires room { pass.old.room ≤ vec_capacity self.old.rows.now }
        ensures prints { Prints pass.old pass.new (O.held self.old.out.now) (O.held self.new.out.now)
            (O.Faulty.faults self.old.out.now) (O.Faulty.faults self.new.out.now) self.new.done }
        ensures out { self.new.out.ghost_name ≡ self.old.out.ghost_name }
    {
        printed_laws();
        let mut further = self.round(rt, cell, pass, left);
        for _ in rt.forever() {
            if !further {
                return;
            }
            self.clock.nap();
            further = self.round(rt, cell, pass, left);
        }
        unreachable!()
    }

    /// Waits until no slot is at work.
    fn wait_out<R: Wait>(&self, rt: &R, left: &Left) {
        for _ in rt.forever() {
            if left.is_zero() {
                return;
            }
            self.clock.nap();
        }
        unreachable!()
    }
}

impl<'a, O: Sink, K: Clock, T: Stop, D: Close, E: Close> Attendant for Scribe<'a, O, K, T, D, E> {
    ghost may = { λ s p. (p.scribe ≡ true) × (s.rows.now.items ≡ []) × (p.room ≤ vec_capacity s.rows.now) };

    ghost attends = { λ s t p q. (t.out.ghost_name ≡ s.out.ghost_name)
        × Prints p q (O.held s.out.now) (O.held t.out.now) (O.Faulty.faults s.out.now) (O.Faulty.faults t.out.now) t.done };

    /// Prints the rows of the cell as they come, until no slot is at work. After a write fault it takes no more of them out, and
    /// waits until then. The page's door is closed last of all, so that the page is there as long as a client is served.
    fn attend<R: Wait>(&mut self, rt: &R, cell: &RevisionCell, pass: &mut Pass, left: &Left) {
        self.print_all(rt, cell, pass, left);
        self.wait_out(rt, left);
        self.doors.page.close();
    }
}
