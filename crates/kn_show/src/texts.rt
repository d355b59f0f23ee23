//! What is told of a status.
ghost use Rattle.std.specs.Prelude.{◌≡◌, ◌≤◌, ◌++◌, length};
ghost use Rattle.kn_replay.specs.Texts.{error_text};
ghost use Rattle.kn_show.specs.Texts.{TellsStatus, status_text, told};

use kn_event::Line;
use kn_io::{Sink, put_all};
use kn_journal::{JournalError, Status};
use kn_replay::put_error;

#[tactic(auto, using(std::proofs::Common::append_assoc))]
fn put_told(error: &JournalError, line: &mut Line)
    requires { length line.old ≤ 0 }
    ensures { line.new ≡ line.old ++ told (error_text error.now) }
{
    let mut why = Line::new();
    put_error(error, &mut why);
    line.put(b"kact_show: ");
    line.put(why.bytes());
    line.put(b"\n");
}

/// Sets the line to what is told of a status.
#[tactic(auto, unfolding(crate::specs::Texts::status_text))]
fn put_status(status: &Status, line: &mut Line)
    ensures { line.new ≡ status_text status.now }
{
    line.clear();
    match *status {
        Status::Usage => line.put(
            b"usage: kact_show reasons | kact_show requests | kact_show summary | kact_show series STEP | kact_show settings\n",
        ),
        Status::BadInput(error) => put_told(&error, line),
        Status::BadSetup(error) => put_told(&error, line),
        Status::ReadFault => line.put(b"kact_show: read failed\n"),
        Status::WriteFault => line.put(b"kact_show: write failed\n"),
        Status::Memory => line.put(b"kact_show: out of memory\n"),
        _ => {}
    }
}

/// Tells of a status, and answers it.
pub fn tell<E: Sink>(status: Status, err: &mut E) -> Status
    ensures same { result ≡ status }
    ensures told { TellsStatus E.Sink.own E.Faulty err.old err.new result }
{
    let mut line = Line::new();
    put_status(&status, &mut line);
    let _ = put_all(err, line.bytes());
    status
}
