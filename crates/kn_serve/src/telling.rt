//! What is told of a status.
ghost use Rattle.std.specs.Prelude.{◌≡◌, ◌≤◌, ◌++◌, codes, length};
ghost use Rattle.std.specs.Fmt.{decimal};
ghost use Rattle.kn_replay.specs.Texts.{error_text};
ghost use Rattle.kn_serve.specs.Texts.{IsToldOn, status_text, told_of};

use kn_event::Line;
use kn_io::{Sink, put_all};
use kn_journal::{JournalError, Status};
use kn_replay::put_error;

#[tactic(auto, using(std::proofs::Common::append_assoc))]
fn put_told(error: &JournalError, line: &mut Line)
    requires { length line.old ≤ 0 }
    ensures { line.new ≡ line.old ++ told_of (error_text error.now) }
{
    line.put(b"kactd: ");
    put_error(error, line);
    line.put(b"\n");
}

#[tactic(auto, using(std::proofs::Common::append_assoc))]
fn put_slot(slot: u64, line: &mut Line)
    requires { length line.old ≤ 0 }
    ensures { line.new ≡ line.old ++ (codes "kactd: slot " ++ (decimal slot ++ codes " failed\n")) }
{
    line.put(b"kactd: slot ");
    line.put_integer(slot);
    line.put(b" failed\n");
}

/// Sets the line to what is told of a status.
#[tactic(auto, unfolding(crate::specs::Texts::status_text))]
fn put_status(status: &Status, line: &mut Line)
    ensures { line.new ≡ status_text status.now }
{
    line.clear();
    match *status {
        Status::Ok => {}
        Status::Usage => line.put(
            b"usage: kactd --listen HOST:PORT --pods HOST:PORT,.. [--slots N] [--rounds N] [--room N]\n",
        ),
        Status::BadInput(error) => put_told(&error, line),
        Status::BadSetup(error) => put_told(&error, line),
        Status::ReadFault => line.put(b"kactd: read failed\n"),
        Status::WriteFault => line.put(b"kactd: write failed\n"),
        Status::Memory => line.put(b"kactd: out of memory\n"),
        Status::SlotFault(slot) => put_slot(slot, line),
        Status::ListenFault => line.put(b"kactd: listen failed\n"),
    }
}

/// Tells of a status, and answers it.
pub fn tell<E: Sink>(status: Status, err: &mut E) -> Status
    ensures same { result ≡ status }
    ensures told { IsToldOn E.held E.Faulty.faults (status_text result) err }
{
    let mut line = Line::new();
    put_status(&status, &mut line);
    let _ = put_all(err, line.bytes());
    status
}
