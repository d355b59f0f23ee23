//! Links to pods.
ghost use Rattle.std.specs.Prelude.{◌≡◌, ◌≤◌, ◌%◌, ◌==◌, length, map, None, Some, Err, IfOk, if◌then◌else◌};
ghost use Rattle.kn_io.specs.Causes.{Rose};
ghost use Rattle.kn_reply.specs.Replies.{IsWholeReply};
ghost use Rattle.kn_reply.specs.Closing.{IsHandedOn};

use crate::pod::Pod;
use kn_event::{Memory, Text};
use kn_io::{Failed, Faulty, LinkError, PodLink, fault};
use kn_reply::read_answer;
use std::alloc::Global;
use std::io::{ErrorKind, Write};
use std::marker::Model;
use std::net::{Net, OpenStream, SocketAddr, ToSocketAddrs};
use std::time::{Clock, Duration, Instant};
use std::{io, str};

/// How many seconds a call waits for a connection with one address of the pod.
const CONNECT_WAIT: u64 = 10;

/// How many seconds a call waits for the pod to take or to give a further piece.
const REPLY_WAIT: u64 = 600;

/// A link whose pod p is the address at position p modulo their number, each spelled as a host and a port with a colon
/// between. A call reads to the end of the reply, and drops what is behind it. It answers that reply with `Connection: close`
/// in place of the fields of the pod's connection. Each error is a fault, and so are a pod where there is no address, a reply
/// above 1,114,112 bytes, and one that didn't come whole.
#[derive(Drop)]
pub struct TcpLink<N> {
    net: N,
    pods: Vec<Pod>,
    faults: u64,
}

impl<N> Model for TcpLink<N> {
    ghost use Rattle.std.specs.Prelude.{map};
    ghost use Rattle.kn_tcp.specs.Reach.{Reach};

    ghost Value = { Reach };

    ghost view = { λ l. record { addresses = map (λ p. p.name) l.pods.items; faults = l.faults } };
}

impl<N: Net + Clock + Drop> TcpLink<N> {
    /// A link to these addresses, without faults so far.
    pub fn new(alloc: Global, net: N, addresses: &[Text]) -> Result<TcpLink<N>, Memory>
        ensures faults { IfOk result (λ link. ⟦<TcpLink<N> as Faulty>⟧.faults link ≡ 0) }
        ensures addresses { IfOk result (λ link. link.addresses ≡ addresses.now) }
    {
        let pods = pods_of(alloc, addresses)?;
        Ok(TcpLink {
            net,
            pods,
            faults: 0,
        })
    }
}

/// A pod for each address.
fn pods_of(alloc: Global, addresses: &[Text]) -> Result<Vec<Pod>, Memory>
    ensures { IfOk result (λ pods. map (λ p. p.name) pods.items ≡ addresses.now) }
{
    let Ok(mut pods) = Vec::with_capacity(alloc, addresses.len()) else {
        return Err(Memory);
    };
    for address in addresses {
        let name = address.copy(alloc)?;
        if pods.push(Pod::new(name)).is_err() {
            return Err(Memory);
        }
    }
    Ok(pods)
}

/// The place of a pod among so many. None where there are none.
fn place_of(count: usize, pod: u64) -> Option<usize>
    ensures { result ≡ (if 0 == count then None else Some (pod % count)) }
{
    if count == 0 {
        return None;
    }
    Some((pod % count as u64) as usize)
}

/// A connection with the first address of this name that takes it, in time, and that address.
fn connect_anew<N: Net>(net: &N, text: &[u8]) -> io::Result<(N::Stream, SocketAddr)> {
    let mut last = io::Error::from(ErrorKind::InvalidInput);
    let Ok(text) = str::from_utf8(text) else {
        return Err(last);
    };
    for address in text.to_socket_addrs(net)? {
        match net.connect_timeout(address, Duration::from_secs(CONNECT_WAIT)) {
            Ok(stream) => return Ok((stream, address)),
            Err(e) => last = e,
        }
    }
    Err(last)
}

/// A connection with the address that this pod had not long ago, or else with the first one that takes it.
fn connect<N: Net + Clock>(net: &N, pod: &mut Pod) -> io::Result<N::Stream> {
    let now = Instant::now(net)?;
    if let Some(address) = pod.address(now) {
        if let Ok(stream) = net.connect_timeout(address, Duration::from_secs(CONNECT_WAIT)) {
            return Ok(stream);
        }
        pod.forget();
    }
    let (stream, address) = connect_anew(net, pod.name.bytes())?;
    pod.keep(now, address);
    Ok(stream)
}

/// Sends the request. A pod may answer and close before it took all of it: what it answered is read all the same.
fn send<S: OpenStream + Write>(stream: &mut S, request: &[u8]) -> io::Result<()> {
    stream.set_read_timeout(Some(Duration::from_secs(REPLY_WAIT)))?;
    stream.set_write_timeout(Some(Duration::from_secs(REPLY_WAIT)))?;
    match stream.write_all(request) {
        Err(e) if e.kind() == ErrorKind::BrokenPipe => Ok(()),
        Err(e) if e.kind() == ErrorKind::ConnectionReset => Ok(()),
        sent => sent,
    }
}

/// Sends a pod the request, and answers what the client is handed of its reply, which came whole.
fn exchange<N: Net + Clock>(
    net: &N,
    pod: &mut Pod,
    alloc: Global,
    request: &[u8],
) -> Result<Text, LinkError>
    ensures short { IfOk result (λ answer. length answer ≤ 1114646) }
    ensures whole { IfOk result (λ answer. IsWholeReply request.now answer) }
    ensures exact { IfOk result (λ answer. IsHandedOn request.now answer) }
{
    let Ok(mut stream) = connect(net, pod) else {
        return Err(LinkError::Failed);
    };
    if send(&mut stream, request).is_err() {
        return Err(LinkError::Failed);
    }
    read_answer(alloc, request, &mut stream)
}

impl<N: Net> Faulty for TcpLink<N> {
    ghost faults = { λ l. l.faults };

    fn faults(&self) -> u64 {
        self.faults
    }
}

impl<N: Net + Clock> PodLink for TcpLink<N> {
    ghost told = { λ _. None };

    fn probe(&mut self, pod: u64) -> Result<bool, Failed> {
        let Some(place) = place_of(self.pods.len(), pod) else {
            return Err(fault(&mut self.faults));
        };
        match self.pods[place].probe(&self.net) {
            Ok(is_there) => Ok(is_there),
            Err(e) if e.kind() == ErrorKind::ConnectionRefused => Ok(false),
            Err(_) => Err(fault(&mut self.faults)),
        }
    }

    fn call(&mut self, alloc: Global, pod: u64, request: &[u8]) -> Result<Text, LinkError>
        ensures short { IfOk result (λ answer. length answer ≤ 1114646) }
        ensures whole { IfOk result (λ answer. IsWholeReply request.now answer) }
        ensures exact { IfOk result (λ answer. IsHandedOn request.now answer) }
        ensures never_falls { self.old.faults ≤ self.new.faults }
        ensures cause { result ≡ Err LinkError.Failed → Rose self.old.faults self.new.faults }
    {
        let answer = match place_of(self.pods.len(), pod) {
            Some(place) => exchange(&self.net, &mut self.pods[place], alloc, request),
            None => Err(LinkError::Failed),
        };
        if let Err(LinkError::Failed) = &answer {
            let _ = fault(&mut self.faults);
        }
        answer
    }
}
