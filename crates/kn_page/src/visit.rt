//! One connection: it is met, its head is read, and it is answered.
ghost use Rattle.std.specs.Prelude.{◌≡◌, Ok, Err};
ghost use Rattle.kn_page.specs.Visits.{Answers, HasVisited, ShowsMetrics};

use crate::asked::{Asked, Wanted};
use crate::metrics::{Outer, write_metrics};
use crate::read::read_asked;
use crate::reply::{Reply, ready_reply, write_answer, write_plain};
use crate::server::Server;
use crate::sheet::Sheet;
use kn_cell::{Pass, RevisionCell};
use kn_io::{Caller, caller_laws, put_all};
use std::sync::Wait;

/// What became of a connection.
#[derive(Clone, Copy)]
pub enum Visit {
    /// Nobody was met.
    Missed,
    /// The head couldn't be read.
    Unread,
    /// This was asked for, and the answer broke off.
    Cut(Asked),
    /// This was asked for, and answered.
    Told(Asked),
}

/// What answers are written to: the metrics, and the whole answer.
#[derive(Drop)]
pub struct Sheets {
    pub body: Sheet,
    pub answer: Sheet,
}

/// Sets the answer to the metrics of all that is then seen.
fn show_metrics<R: Wait, E: Server>(
    rt: &R,
    cell: &RevisionCell,
    pass: &mut Pass,
    server: &E,
    wants: bool,
    sheets: &mut Sheets,
)
    requires cell { pass.old.cell ≡ cell.now }
    ensures { ShowsMetrics (E.waits server.now) wants pass.old pass.new sheets.new.answer }
{
    let figures = cell.figures(rt, pass);
    let decision = figures.tally.last_decision();
    let outer = Outer {
        waiting: server.waiting(rt),
        at_work: server.at_work(),
    };
    write_metrics(&mut sheets.body, &figures, &decision, &outer);
    write_answer(
        &mut sheets.answer,
        Reply::Metrics,
        wants,
        sheets.body.bytes(),
    );
}

/// Sets the answer to what is asked for.
fn answer<R: Wait, E: Server>(
    rt: &R,
    cell: &RevisionCell,
    pass: &mut Pass,
    server: &E,
    asked: Asked,
    sheets: &mut Sheets,
)
    requires cell { pass.old.cell ≡ cell.now }
    ensures { Answers (E.stops server.now) (E.waits server.now) asked pass.old pass.new sheets.new.answer }
{
    let wants = asked.body;
    match asked.wanted {
        Wanted::Health => write_plain(&mut sheets.answer, Reply::Healthy, wants),
        Wanted::Ready => {
            let stopping = server.is_stopping();
            write_plain(&mut sheets.answer, ready_reply(stopping), wants)
        }
        Wanted::Metrics => show_metrics(rt, cell, pass, server, wants, sheets),
        Wanted::Nothing => write_plain(&mut sheets.answer, Reply::NotFound, wants),
        Wanted::Other => write_plain(&mut sheets.answer, Reply::NotAllowed, wants),
        Wanted::NoHead => write_plain(&mut sheets.answer, Reply::BadRequest, wants),
    }
}

/// Meets a caller and answers its request.
pub fn receive<R: Wait, C: Caller, E: Server>(
    rt: &R,
    cell: &RevisionCell,
    pass: &mut Pass,
    caller: &mut C,
    server: &E,
    sheets: &mut Sheets,
) -> Visit
    requires cell { pass.old.cell ≡ cell.now }
    ensures { HasVisited (E.stops server.now) (E.waits server.now) C.Sink.kept C.Sink.held C.Faulty.faults pass caller result }
{
    caller_laws();
    match caller.meet() {
        Err(_) => Visit::Missed,
        Ok(()) => match read_asked(caller) {
            Err(_) => Visit::Unread,
            Ok(asked) => {
                answer(rt, cell, pass, server, asked, sheets);
                match put_all(caller, sheets.answer.bytes()) {
                    Ok(()) => Visit::Told(asked),
                    Err(_) => Visit::Cut(asked),
                }
            }
        },
    }
}
