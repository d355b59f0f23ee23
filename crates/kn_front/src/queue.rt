//! The connections that callers are to take, and who waits for them where.
ghost use Rattle.std.specs.Prelude.{◌≡◌, ◌<◌, ◌≤◌, ◌+◌, ◌-◌, ◌++◌, ◌∷◌, ◌==◌, ◌&&◌, [], length, not, true, false, IfOk, MatchOption};

use std::alloc::{AllocError, Global};
use std::collections::VecDeque;
use std::marker::Model;
use std::net::TcpStream;

/// What a caller that is free does next.
#[derive(Drop)]
pub(crate) enum Turn {
    /// It takes this connection, whose request has begun.
    Take(TcpStream),
    /// It waits at the socket for one that comes, where it is counted.
    Come,
    /// It waits here.
    Wait,
    /// No more are to come.
    End,
}

/// The connections whose requests have begun, in turn, until callers take them, those that callers found silent, until the front
/// takes them, and who waits for whom.
#[derive(Drop)]
pub(crate) struct Queue {
    begun: VecDeque<TcpStream>,
    silent: VecDeque<TcpStream>,
    /// How many callers wait at the socket.
    waits: usize,
    /// Whether the front sleeps until none of them does.
    asleep: bool,
    /// Whether callers go to the socket no more.
    shut: bool,
    /// Whether no more are to come.
    ended: bool,
}

impl Model for Queue {
    ghost use Rattle.std.specs.declared.net.tcp.TcpStream.{TcpStream as Stream};
    ghost use Rattle.kn_front.specs.Queued.{Queued};

    ghost Value = { Queued Stream };

    ghost view = { λ q. record { begun = q.begun.items; silent = q.silent.items; waits = q.waits; asleep = q.asleep; shut = q.shut; ended = q.ended } };
}

impl Queue {
    ghost use Rattle.kn_front.specs.Turns.{IsTurn};

    /// Nobody waits, neither connections nor callers.
    pub(crate) fn new(alloc: Global, room: usize) -> Result<Queue, AllocError>
        ensures { IfOk result (λ q. q ≡ record { begun = []; silent = []; waits = 0; asleep = false; shut = false; ended = false }) }
    {
        Ok(Queue {
            begun: VecDeque::with_capacity(alloc, room)?,
            silent: VecDeque::with_capacity(alloc, room)?,
            waits: 0,
            asleep: false,
            shut: false,
            ended: false,
        })
    }

    /// How many wait whose requests have begun.
    pub(crate) fn len(&self) -> usize
        ensures { result ≡ length self.now.begun }
    {
        self.begun.len()
    }

    /// How many callers wait at the socket.
    pub(crate) fn waits(&self) -> usize
        ensures { result ≡ self.now.waits }
    {
        self.waits
    }

    /// One more whose request has begun, behind the others, and whether there is memory for it. Else it is closed.
    pub(crate) fn push(&mut self, stream: TcpStream) -> bool
        ensures pushed { result ≡ true → self.new ≡ record self.old { begun = self.old.begun ++ stream ∷ [] } }
        ensures closed { result ≡ false → self.new ≡ self.old }
    {
        self.begun.push_back(stream).is_ok()
    }

    /// What a caller that is free does next.
    pub(crate) fn turn(&mut self) -> Turn
        ensures turn { IsTurn result self.old self.new }
        ensures counted { result ≡ Turn.Come → self.old.waits < usize.MAX → self.new.waits ≡ self.old.waits + 1 }
    {
        match self.begun.pop_front() {
            Some(stream) => Turn::Take(stream),
            None if self.ended => Turn::End,
            None if self.shut => Turn::Wait,
            None => {
                self.waits = self.waits.saturating_add(1);
                Turn::Come
            }
        }
    }

    /// A caller has come back from the socket. Whether the front is to be woken, since it sleeps and none is there any more.
    pub(crate) fn come_back(&mut self) -> bool
        ensures back { self.new ≡ record self.old { waits = self.old.waits - 1; asleep = self.new.asleep } }
        ensures wakes { result ≡ (self.old.asleep && self.new.waits == 0) }
        ensures awake { self.new.asleep ≡ (self.old.asleep && not result) }
    {
        self.waits = self.waits.saturating_sub(1);
        let wakes = self.asleep && self.waits == 0;
        self.asleep = self.asleep && !wakes;
        wakes
    }

    /// Whether the front may sleep: it is woken once no caller is at the socket any more, or one has found a connection silent.
    pub(crate) fn fall_asleep(&mut self) -> bool
        ensures may { result ≡ (not (self.old.waits == 0) && (length self.old.begun == 0 && length self.old.silent == 0)) }
        ensures sleeps { self.new ≡ record self.old { asleep = result } }
    {
        self.asleep = self.waits > 0 && self.begun.is_empty() && self.silent.is_empty();
        self.asleep
    }

    /// Whether a caller that waits here goes on waiting.
    pub(crate) fn is_waited_for(&self) -> bool
        ensures { result ≡ (length self.now.begun == 0 && not self.now.ended) }
    {
        self.begun.is_empty() && !self.ended
    }

    /// One that a caller found silent, for the front, and whether it is to be had: once no more are to come, or where there is no
    /// memory for it, it is closed.
    pub(crate) fn give_back(&mut self, stream: TcpStream) -> bool
        ensures given { result ≡ true → self.new ≡ record self.old { silent = self.old.silent ++ stream ∷ [] } }
        ensures closed { result ≡ false → self.new ≡ self.old }
        ensures ended { self.old.ended ≡ true → result ≡ false }
    {
        !self.ended && self.silent.push_back(stream).is_ok()
    }

    /// The first one that a caller found silent.
    pub(crate) fn take_back(&mut self) -> Option<TcpStream>
        ensures first { MatchOption result (self.old.silent ≡ []) (λ s. self.old.silent ≡ s ∷ self.new.silent) }
        ensures rest { self.new ≡ record self.old { silent = self.new.silent } }
        ensures none { self.old.silent ≡ [] → self.new.silent ≡ [] }
    {
        self.silent.pop_front()
    }

    /// Whether one more may wait besides so many others, where so many may in all.
    pub(crate) fn has_room(&self, others: usize, most: usize) -> bool
        ensures room { result ≡ true → others + length self.now.begun < most }
        ensures full { result ≡ false → most ≤ others + length self.now.begun }
    {
        others < most && self.begun.len() < most - others
    }

    /// Callers go to the socket no more.
    pub(crate) fn shut(&mut self)
        ensures { self.new ≡ record self.old { shut = true } }
    {
        self.shut = true;
    }

    /// No more are to come. Those that callers found silent are closed.
    pub(crate) fn end(&mut self)
        ensures { self.new ≡ record self.old { silent = []; shut = true; ended = true } }
    {
        self.silent.clear();
        self.shut = true;
        self.ended = true;
    }
}
