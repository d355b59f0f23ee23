//! The front of a server that goes on.
ghost use Rattle.std.specs.Prelude.{IfOk};
ghost use Rattle.kn_front.specs.Patience.{IsAsPatient};

use crate::caller::FrontCaller;
use crate::door::TcpDoor;
use crate::limits::{Limits, MOST_WAITING};
use crate::queue::Queue;
use crate::socket::Socket;
use crate::station::{Station, WAKER};
use mio::{Poll, Waker};
use std::alloc::Global;
use std::io;
use std::net::{Net, SocketAddr};
use std::sync::{Mutex, Wait};
use std::time::Clock;

/// A socket that is listened on, where connections wait until their requests begin, and the door through which they come then.
#[derive(Drop)]
pub struct Front {
    /// How long clients may take, and how many may wait.
    pub limits: Limits,
    address: SocketAddr,
    door: TcpDoor,
    /// None once it runs.
    station: Mutex<Option<Station>>,
}

impl Front {
    /// Listens on an address, `HOST:PORT`, where port 0 is any free one, with the longest backlog that the system allows. All
    /// memory that it takes is taken here.
    pub fn open<N: Net>(net: &N, alloc: Global, address: &str, limits: Limits) -> io::Result<Front>
        ensures { IfOk result (λ front. IsAsPatient front.limits limits) }
    {
        let limits = Limits {
            waiting: limits.waiting.max(1).min(MOST_WAITING),
            ..limits
        };
        let socket = Socket::open(net, address)?;
        let poll = Poll::new(net)?;
        let waker = Waker::new(poll.registry(), WAKER)?;
        let queue = Queue::new(alloc, limits.waiting)?;
        Ok(Front {
            limits,
            address: socket.address(),
            door: TcpDoor::new(socket, queue, waker),
            station: Mutex::new(Some(Station::new(alloc, poll, limits)?)),
        })
    }

    /// Where it listens.
    pub fn address(&self) -> SocketAddr {
        self.address
    }

    /// The door to it.
    pub fn door(&self) -> &TcpDoor {
        &self.door
    }

    /// A caller that meets clients through the door.
    pub fn caller<K: Clock>(&self, clock: K) -> FrontCaller<K> {
        FrontCaller::new(clock, self.limits.read)
    }

    /// Takes connections in, up to as many as may wait, and lets each through the door once its request has begun; one that is
    /// silent for too long is closed. It sleeps while nothing happens. Once the door is closed it lets those through whose
    /// requests have begun by then, closes the others and the socket, and ends. It is for one thread to call; a further call does
    /// nothing.
    pub fn run<R: Wait + Clock + Net>(&self, rt: &R) -> io::Result<()> {
        let Some(station) = self.station.lock(rt).take() else {
            return Ok(());
        };
        let ran = station.run(rt, &self.door);
        self.door.end(rt);
        ran
    }
}
