//! Clients, and the callers that they come to. `clients 2`: so many more come. What one of them does: `client 0 sends TEXT`, `client 0 shuts` its sending
//! side, `client 0 gets` all that comes up to the end. What a caller does: `caller 0 meets` the next client, `caller 0 reads 4` bytes at most, `caller 0
//! writes TEXT`, `caller 0 floods` its client until a write fails, `caller 0 parts`, `caller 0 counts` its faults. `caller 0-2 meets` is each of three.

use crate::answers::{Answer, Bytes};
use crate::shown::Shown;
use crate::sockets::client;
use crate::words::{Act, number, spelled};
use kn_io::Caller;
use std::io;
use std::io::{Read, Write};
use std::net::{Shutdown, TcpStream};

/// How many bytes a flood writes at once, and how often it does at most.
const FLOOD: usize = 65_536;

const FLOODS: u32 = 4_096;

/// Those who are there.
#[derive(Drop)]
pub struct Stage<C> {
    pub port: u16,
    clients: Vec<TcpStream>,
    pub callers: Vec<C>,
}

/// All that comes up to the end.
fn get(client: &mut TcpStream) -> Answer {
    let mut all = Bytes::new();
    for _ in 0..1_000 {
        let mut piece = [0; 64];
        match client.read(&mut piece) {
            Ok(0) => return Answer::Text(all),
            Ok(count) => all.put(&piece[..count]),
            Err(_) => break,
        }
    }
    Answer::Failed
}

fn client_does(client: &mut TcpStream, what: &str, text: &str) -> Answer {
    match what {
        "sends" => Answer::of(client.write_all(spelled(text).get()).is_ok()),
        "shuts" => Answer::of(client.shutdown(Shutdown::Write).is_ok()),
        _ => get(client),
    }
}

fn read<C: Caller>(caller: &mut C, most: u64) -> Answer {
    let mut piece = [0; 128];
    let most = most.min(128) as usize;
    match caller.read(&mut piece[..most]) {
        Ok(count) => Answer::text(&piece[..count]),
        Err(_) => Answer::Failed,
    }
}

fn write<C: Caller>(caller: &mut C, text: &str) -> Answer {
    match caller.write(spelled(text).get()) {
        Ok(count) => Answer::Count(count as u64),
        Err(_) => Answer::Failed,
    }
}

fn flood<C: Caller>(caller: &mut C) -> Answer {
    for _ in 0..FLOODS {
        if caller.write(&[b'x'; FLOOD]).is_err() {
            return Answer::Failed;
        }
    }
    Answer::Is(true)
}

fn caller_does<C: Caller>(caller: &mut C, what: &str, rest: &str) -> Answer {
    match what {
        "meets" => Answer::of(caller.meet().is_ok()),
        "reads" => read(caller, number(rest)),
        "writes" => write(caller, rest),
        "floods" => flood(caller),
        "parts" => {
            caller.part();
            Answer::Is(true)
        }
        _ => Answer::Count(caller.faults()),
    }
}

impl<C: Caller + Drop> Stage<C> {
    /// Clients are to come to this port, and nobody is there so far.
    pub fn new(rt: &HostRuntime, port: u16) -> Stage<C> {
        Stage {
            port,
            clients: Vec::new(rt.alloc()),
            callers: Vec::new(rt.alloc()),
        }
    }

    fn come(&mut self, rt: &HostRuntime, count: u64) -> io::Result<()> {
        for _ in 0..count {
            self.clients.push(client(rt, self.port)?)?;
        }
        Ok(())
    }
}

impl<C: Caller + Drop> Shown for Stage<C> {
    fn act(&mut self, rt: &HostRuntime, act: Act<'_>, place: u64) -> Answer {
        if act.who == "clients" {
            return Answer::of(self.come(rt, place).is_ok());
        }
        let place = place as usize;
        if let ("client", Some(client)) = (act.who, self.clients.get_mut(place)) {
            client_does(client, act.what, act.rest)
        } else if let ("caller", Some(caller)) = (act.who, self.callers.get_mut(place)) {
            caller_does(caller, act.what, act.rest)
        } else {
            Answer::Failed
        }
    }
}
