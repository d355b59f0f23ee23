//! The fronts of a server.

use kn_event::Text;
use kn_front::{Front, Limits, room_for};
use kn_journal::Status;
use kn_plan::StayPlan;
use std::alloc::Global;
use std::io::ErrorKind;
use std::net::{Net, TcpListener, TcpStream};
use std::time::Duration;
use std::{io, str};

/// How many descriptors are needed beside those of the slots and of the clients that wait.
const DESCRIPTORS: u64 = 128;

/// How many connections wait for the status page at most, and how many seconds one may be silent, and may take for its request.
const PAGE_WAITING: usize = 32;

const PAGE_SECONDS: u64 = 10;

/// How it ends where nobody can be listened to.
pub fn unheard(error: &io::Error) -> Status {
    match error.kind() {
        ErrorKind::OutOfMemory => Status::Memory,
        _ => Status::ListenFault,
    }
}

fn open<N: Net<Listener = TcpListener, Stream = TcpStream>>(
    net: &N,
    alloc: Global,
    address: &Text,
    limits: Limits,
) -> Result<Front, Status> {
    let Ok(address) = str::from_utf8(address.bytes()) else {
        return Err(Status::ListenFault);
    };
    match Front::open(net, alloc, address, limits) {
        Ok(front) => Ok(front),
        Err(error) => Err(unheard(&error)),
    }
}

/// The front of the plan's clients. As many connections wait in it as the descriptors allow that the slots leave.
pub fn open_clients<N: Net<Listener = TcpListener, Stream = TcpStream>>(
    net: &N,
    alloc: Global,
    plan: &StayPlan,
) -> Result<Front, Status> {
    let needed = plan.slots.saturating_mul(2).saturating_add(DESCRIPTORS);
    let limits = Limits {
        idle: Duration::from_secs(plan.idle),
        read: Duration::from_secs(plan.read),
        waiting: room_for(needed),
    };
    open(net, alloc, &plan.listen, limits)
}

/// The front of the plan's status page, where it has one.
pub fn open_page<N: Net<Listener = TcpListener, Stream = TcpStream>>(
    net: &N,
    alloc: Global,
    plan: &StayPlan,
) -> Result<Option<Front>, Status> {
    let Some(address) = &plan.status else {
        return Ok(None);
    };
    let limits = Limits {
        idle: Duration::from_secs(PAGE_SECONDS),
        read: Duration::from_secs(PAGE_SECONDS),
        waiting: PAGE_WAITING,
    };
    Ok(Some(open(net, alloc, address, limits)?))
}
