//! The socket that is listened on, and a slot's caller and link.
ghost use Rattle.std.specs.Prelude.{◌≡◌, IfOk};

use kn_event::{Memory, Text};
use kn_serve::{Hosts, OpenError};
use kn_tcp::{TcpCaller, TcpLink};
use std::alloc::Global;
use std::net::{Net, TcpListener, TcpStream};
use std::str;
use std::time::Clock;

/// A socket that listens on this address.
pub fn listen<N: Net<Listener = TcpListener, Stream = TcpStream>>(
    net: &N,
    address: &Text,
) -> Option<TcpListener> {
    let address = str::from_utf8(address.bytes()).ok()?;
    TcpListener::bind(net, address).ok()
}

/// A caller that meets the clients of this socket.
pub fn caller(listener: &TcpListener) -> Result<TcpCaller, OpenError> {
    match listener.try_clone() {
        Ok(listener) => Ok(TcpCaller::new(listener)),
        Err(_) => Err(OpenError::Failed),
    }
}

/// A link to these pods, in their order.
pub fn link<'a, N: Net<Listener = TcpListener, Stream = TcpStream> + Clock>(
    alloc: Global,
    net: &'a N,
    pods: &Hosts,
) -> Result<TcpLink<&'a N>, OpenError>
    ensures { IfOk result (λ link. link.addresses ≡ pods.now) }
{
    match TcpLink::new(alloc, net, pods.items()) {
        Ok(link) => Ok(link),
        Err(Memory) => Err(OpenError::Memory),
    }
}
