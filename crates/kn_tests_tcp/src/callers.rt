//! Callers at one socket: `callers WAIT COUNT|ACTS`, so many, whose reads and writes wait so many milliseconds at most.

use crate::shown::show_acts;
use crate::sockets::listening;
use crate::stage::Stage;
use crate::words::{cut, number};
use kn_tcp::TcpCaller;
use std::io;
use std::net::TcpListener;
use std::time::Duration;

fn add_callers(
    listener: &TcpListener,
    wait: u64,
    count: u64,
    callers: &mut Vec<TcpCaller>,
) -> io::Result<()> {
    for _ in 0..count {
        let caller = TcpCaller::waiting(listener.try_clone()?, Duration::from_millis(wait));
        callers.push(caller)?;
    }
    Ok(())
}

/// Shows what is done at a new socket.
pub fn show(rt: &HostRuntime, setting: &str, acts: &str) -> io::Result<()> {
    let (wait, count) = cut(setting, ' ');
    let (listener, port) = listening(rt)?;
    let mut stage = Stage::new(rt, port);
    add_callers(&listener, number(wait), number(count), &mut stage.callers)?;
    show_acts(rt, &mut stage, acts)
}
