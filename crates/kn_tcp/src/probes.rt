//! Probes of pods, none of which waits for a connection.

use crate::attempt::{Attempt, Progress};
use crate::pod::Pod;
use std::io::ErrorKind;
use std::net::{Net, SocketAddr, ToSocketAddrs};
use std::time::{Clock, Instant};
use std::{io, str};

impl Pod {
    /// Whether a connection with an address of this pod is there. Where it isn't there yet, a later probe looks at it again;
    /// after a second, or where it fails, the next address is tried, and the error is that of the last one.
    pub(crate) fn probe<N: Net + Clock>(&mut self, net: &N) -> io::Result<bool> {
        let now = Instant::now(net)?;
        let none = io::Error::from(ErrorKind::InvalidInput);
        let (looked, tried) = match self.begun.take() {
            Some(attempt) => {
                let tried = attempt.tried;
                (self.settle(attempt, now), tried)
            }
            None => match self.address(now) {
                Some(address) => (self.begin(net, address, 0, now), 0),
                None => (Err(none), 0),
            },
        };
        match looked {
            Ok(is_there) => Ok(is_there),
            Err(error) => {
                self.forget();
                self.try_rest(net, tried, now, error)
            }
        }
    }

    /// Tries the addresses of the name that are left, up to the first one that doesn't fail at once.
    fn try_rest<N: Net>(
        &mut self,
        net: &N,
        tried: usize,
        now: Instant,
        error: io::Error,
    ) -> io::Result<bool> {
        let mut last = error;
        let Ok(text) = str::from_utf8(self.name.bytes()) else {
            return Err(last);
        };
        for (i, address) in text.to_socket_addrs(net)?.enumerate().skip(tried) {
            let tried = i.saturating_add(1);
            match self.begin(net, address, tried, now) {
                Ok(is_there) => return Ok(is_there),
                Err(e) => last = e,
            }
        }
        Err(last)
    }

    /// Begins to connect with an address, and looks whether that is done already.
    fn begin<N: Net>(
        &mut self,
        net: &N,
        address: SocketAddr,
        tried: usize,
        now: Instant,
    ) -> io::Result<bool> {
        let attempt = Attempt::begin(net, address, tried, now)?;
        self.settle(attempt, now)
    }

    /// Whether the attempt's connection is there. One that isn't there yet is kept.
    fn settle(&mut self, attempt: Attempt, now: Instant) -> io::Result<bool> {
        match attempt.progress(now) {
            Progress::There => {
                self.keep(now, attempt.address);
                Ok(true)
            }
            Progress::NotYet => {
                self.begun = Some(attempt);
                Ok(false)
            }
            Progress::Failed(error) => Err(error),
        }
    }
}
