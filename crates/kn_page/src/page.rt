//! The page.
ghost use Rattle.std.specs.Prelude.{◌≡◌, ⊤};
ghost use Rattle.kn_page.specs.Visits.{Visits, side_of};

use crate::server::Server;
use crate::sheet::Sheet;
use crate::visit::{Sheets, receive};
use kn_cell::{Pass, RevisionCell};
use kn_door::Door;
use kn_io::Caller;
use kn_request::Left;
use kn_session::Attendant;
use std::sync::Wait;

/// Answers those who come through a door of its own: whether the server lives, whether it takes requests, and its metrics.
#[derive(Drop)]
pub struct Page<'a, C, D, E> {
    pub caller: C,
    pub server: &'a E,
    door: &'a D,
    sheets: Sheets,
}

impl<'a, C: Caller, D: Door<C>, E: Server> Page<'a, C, D, E> {
    /// A page that answers this caller's clients, which come through this door, of this server.
    pub fn new(caller: C, door: &'a D, server: &'a E) -> Page<'a, C, D, E>
        ensures caller { result.caller ≡ caller }
        ensures server { result.server.now ≡ server.now }
    {
        Page {
            caller,
            server,
            door,
            sheets: Sheets {
                body: Sheet::new(),
                answer: Sheet::new(),
            },
        }
    }
}

impl<'a, C: Caller, D: Door<C>, E: Server> Attendant for Page<'a, C, D, E> {
    ghost may = { λ _ _. ⊤ };

    // Some connections came, one after the other, and each was answered from what the pass had then seen. The door was shut at last.
    ghost attends = { λ s t p q. Visits (E.stops s.server.now) (E.waits s.server.now) p q
        (side_of C.Sink.kept C.Sink.held C.Faulty.faults s.caller) (side_of C.Sink.kept C.Sink.held C.Faulty.faults t.caller)
        × D.shut s.door.now };

    /// Answers who comes, until the door is closed and nobody is left behind it.
    fn attend<R: Wait>(&mut self, rt: &R, cell: &RevisionCell, pass: &mut Pass, _left: &Left) {
        for _ in rt.forever() {
            if !self.door.next(rt, &mut self.caller) {
                return;
            }
            receive(
                rt,
                cell,
                pass,
                &mut self.caller,
                self.server,
                &mut self.sheets,
            );
            // The client may see the end of its answer while nobody else comes.
            self.caller.part();
        }
        unreachable!()
    }
}
