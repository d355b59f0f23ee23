//! How a server ended, and what is told of it.
ghost use Rattle.std.specs.Prelude.{◌≡◌};
ghost use Rattle.kn_stay_tcp.specs.Ending.{status_of_ended, text_of};

use kn_event::Line;
use kn_io::{Sink, put_all};
use kn_journal::Status;
use kn_serve::tell;
use kn_stay::Stayed;

/// How a server ended.
#[derive(Clone, Copy)]
pub enum Ended {
    So(Status),
    /// So many threads are needed, and not all can be made.
    NoThreads(u64),
    /// The setup names more pods than there are addresses.
    TooManyPods { pods: u64, addresses: u64 },
}

impl Ended {
    /// How a server with so many addresses ended.
    pub fn of(stayed: Stayed, addresses: u64) -> Ended {
        match stayed {
            Stayed::Ended(status) => Ended::So(status),
            Stayed::TooManyPods(pods) => Ended::TooManyPods { pods, addresses },
        }
    }

    /// The status of a program that ended so.
    pub fn status(&self) -> Status
        ensures { result ≡ status_of_ended self.now }
    {
        match *self {
            Ended::So(status) => status,
            Ended::NoThreads(_) => Status::Memory,
            Ended::TooManyPods { .. } => Status::Usage,
        }
    }
}

/// Sets the line to what is told of too few threads.
#[tactic(auto, using(std::proofs::Common::append_assoc))]
fn put_threads(threads: u64, line: &mut Line)
    ensures { line.new ≡ text_of (Ended.NoThreads threads) }
{
    line.clear();
    line.put(b"kactd: not all of ");
    line.put_integer(threads);
    line.put(b" threads can be made\n");
}

/// Sets the line to what is told of too many pods.
#[tactic(auto, using(std::proofs::Common::append_assoc))]
fn put_pods(pods: u64, addresses: u64, line: &mut Line)
    ensures { line.new ≡ text_of (Ended.TooManyPods pods addresses) }
{
    line.clear();
    line.put(b"kactd: the setup names ");
    line.put_integer(pods);
    line.put(b" pods, but --pods has ");
    line.put_integer(addresses);
    line.put(b" addresses\n");
}

/// Tells how a server ended, and answers its status.
pub fn tell_ended<E: Sink>(ended: Ended, err: &mut E) -> Status
    ensures { result ≡ status_of_ended ended }
{
    let mut line = Line::new();
    match ended {
        Ended::So(status) => return tell(status, err),
        Ended::NoThreads(threads) => put_threads(threads, &mut line),
        Ended::TooManyPods { pods, addresses } => put_pods(pods, addresses, &mut line),
    }
    // Nobody is told where standard error takes nothing.
    let _ = put_all(err, line.bytes());
    ended.status()
}
