//! The door through which clients come from a front.
ghost use Rattle.std.specs.Prelude.{◌+◌, ◌≤◌, ◌*◌, ⊤};

use crate::caller::FrontCaller;
use crate::gauge::Gauge;
use crate::queue::{Queue, Turn};
use crate::socket::{Intake, Socket};
use kn_door::{Close, Door, Watch};
use kn_io::Caller;
use kn_tcp::{Found, look};
use mio::Waker;
use std::net::{Net, TcpStream};
use std::sync::atomic::{AtomicBool, AtomicU64, AtomicUsize, Ordering};
use std::sync::{Condvar, Mutex, Wait};
use std::thread;
use std::time::{Clock, Duration};

/// Those who wait look for their clients at common moments, so many milliseconds apart: threads that wake together cost half of what
/// they do one by one.
const BEAT_MS: u64 = 20;

/// How many of them look at each such moment, as long as there are enough moments.
const LOOKS_A_BEAT: u64 = 10;

/// How many of these moments pass at most until one looks again.
const MOST_BEATS: u64 = 100;

/// How many milliseconds a caller waits for the first byte of a connection that came just now. A client that asks at once has sent it
/// together with the last step of the handshake, however far it is.
const TRIAL_MS: u16 = 10;

/// How many milliseconds pass before a socket is tried again that failed, as where descriptors have run out.
pub(crate) const RETRY_MS: u64 = 100;

/// A front's door. A caller that is free waits at the socket itself, serves the connection that comes if its request begins in a
/// moment, and else gives it to the front. Those that begin later come through the door in turn, each to one caller. All threads
/// share it.
#[derive(Drop)]
pub struct TcpDoor {
    socket: Socket,
    queue: Mutex<Queue>,
    /// A connection came through the door while callers wait there, or no more are to come.
    came: Condvar,
    /// Ends the front's sleep.
    waker: Waker,
    closed: AtomicBool,
    silent: AtomicU64,
    /// Those of which a caller sees whether they begin.
    on_trial: AtomicUsize,
    /// Those who have a connection.
    busy: Gauge,
    /// Those whose request had to wait.
    watched: Gauge,
    /// How many milliseconds of a beat had passed when one looked last.
    passed: AtomicU64,
}

/// How many milliseconds a request sleeps between two looks for its client, where so many wait, and so many have passed of a beat.
fn pause_ms(waiting: u64, passed: u64) -> u64
    ensures some { 1 ≤ result }
    ensures longest { result ≤ 2000 }
    ensures seldom { waiting ≤ 1000 → 2 * waiting ≤ result + 20 }
{
    let beats = waiting.div_ceil(LOOKS_A_BEAT).clamp(1, MOST_BEATS);
    beats * BEAT_MS - passed % BEAT_MS
}

impl TcpDoor {
    /// An open door, behind which nobody waits.
    pub(crate) fn new(socket: Socket, queue: Queue, waker: Waker) -> TcpDoor {
        TcpDoor {
            socket,
            queue: Mutex::new(queue),
            came: Condvar::new(),
            waker,
            closed: AtomicBool::new(false),
            silent: AtomicU64::new(0),
            on_trial: AtomicUsize::new(0),
            busy: Gauge::new(),
            watched: Gauge::new(),
            passed: AtomicU64::new(0),
        }
    }

    /// How many connections wait in front: those that are silent, and those that no caller has taken yet.
    pub fn waiting<R: Wait>(&self, rt: &R) -> u64 {
        let begun = self.queue.lock(rt).len();
        self.silent
            .load(Ordering::SeqCst)
            .saturating_add(begun as u64)
            .saturating_add(self.on_trial() as u64)
    }

    /// How many callers have a connection: each from when the door hands it one until it asks for the next.
    pub fn busy(&self) -> u64 {
        self.busy.count()
    }

    /// Waits until a connection's request has begun, and takes it. None where no more are to come.
    fn take<R: Wait, K: Clock>(&self, rt: &R, clock: &K) -> Option<TcpStream> {
        for _ in rt.forever() {
            let mut queue = self.queue.lock(rt);
            match queue.turn() {
                Turn::Take(stream) => return Some(stream),
                Turn::End => return None,
                Turn::Wait => {
                    self.came
                        .wait_while(rt, queue, |queue| queue.is_waited_for());
                }
                Turn::Come => {
                    drop(queue);
                    if let Some(stream) = self.meet(rt, clock) {
                        return Some(stream);
                    }
                }
            }
        }
        unreachable!()
    }

    /// Waits at the socket until a connection comes. None where its request doesn't begin in a moment, or none came.
    fn meet<R: Wait, K: Clock>(&self, rt: &R, clock: &K) -> Option<TcpStream> {
        let came = self.socket.accept();
        let failed = matches!(came, Intake::Failed);
        // It is counted on trial before it isn't at the socket any more.
        self.on_trial.fetch_add(1, Ordering::SeqCst);
        if self.queue.lock(rt).come_back() {
            self.wake_front();
        }
        let begun = match came {
            Intake::Came(stream) => self.try_out(rt, stream),
            Intake::Nobody | Intake::Failed => None,
        };
        self.on_trial.fetch_sub(1, Ordering::SeqCst);
        if failed && !self.is_closed() {
            thread::sleep(clock, Duration::from_millis(RETRY_MS));
        }
        begun
    }

    /// The connection again, if its request begins in a moment. One that is silent is the front's from now on.
    fn try_out<R: Wait>(&self, rt: &R, stream: TcpStream) -> Option<TcpStream> {
        match look(&stream, TRIAL_MS) {
            Found::Begun => Some(stream),
            Found::Ended => None,
            Found::Silent => {
                if self.queue.lock(rt).give_back(stream) {
                    self.wake_front();
                }
                None
            }
        }
    }

    fn wake_front(&self) {
        // It fails only where the front wakes anyway.
        let _ = self.waker.wake();
    }

    /// Lets a connection through whose request has begun.
    pub(crate) fn put<R: Wait>(&self, rt: &R, stream: TcpStream) {
        let put = self.queue.lock(rt).push(stream);
        if put {
            self.came.notify_one();
        }
    }

    /// The next connection that a caller found silent.
    pub(crate) fn take_back<R: Wait>(&self, rt: &R) -> Option<TcpStream> {
        self.queue.lock(rt).take_back()
    }

    /// Takes the next connection for the front, where no caller waits at the socket, and one more may wait besides so many silent
    /// ones, where so many may in all. It doesn't wait.
    pub(crate) fn take_in<R: Wait>(&self, rt: &R, silent: usize, most: usize) -> Intake {
        let others = silent.saturating_add(self.on_trial());
        // No caller goes to the socket meanwhile, so what is there stays.
        let queue = self.queue.lock(rt);
        if queue.waits() > 0 || !queue.has_room(others, most) || !self.socket.has_come() {
            return Intake::Nobody;
        }
        self.socket.accept()
    }

    /// How many callers wait at the socket though a connection waits whose request has begun: as many are to be called.
    pub(crate) fn to_call<R: Wait>(&self, rt: &R) -> usize {
        let queue = self.queue.lock(rt);
        queue.len().min(queue.waits())
    }

    /// Whether the front may sleep until it is woken. Else it looks again soon.
    pub(crate) fn lets_sleep<R: Wait>(&self, rt: &R) -> bool {
        self.queue.lock(rt).fall_asleep()
    }

    /// Of how many callers see whether they begin.
    pub(crate) fn on_trial(&self) -> usize {
        self.on_trial.load(Ordering::SeqCst)
    }

    /// So many are silent by now.
    pub(crate) fn count_silent(&self, silent: usize) {
        self.silent.store(silent as u64, Ordering::SeqCst);
    }

    /// Whether no further connection is let in.
    pub fn is_closed(&self) -> bool {
        self.closed.load(Ordering::SeqCst)
    }

    /// Callers go to the socket no more. How many are still there.
    pub(crate) fn shut<R: Wait>(&self, rt: &R) -> usize {
        let mut queue = self.queue.lock(rt);
        queue.shut();
        queue.waits()
    }

    /// Calls so many callers away from the socket, who then see what waits here. Whom a call doesn't reach is to be called again.
    pub(crate) fn call<N: Net>(&self, net: &N, count: usize) {
        for _ in 0..count {
            self.socket.knock(net);
        }
    }

    /// Nobody comes to the socket any more, and who waits there comes back.
    pub(crate) fn close_socket(&self) {
        self.socket.close();
    }

    /// No more are to come.
    pub(crate) fn end<R: Wait>(&self, rt: &R) {
        self.closed.store(true, Ordering::SeqCst);
        self.silent.store(0, Ordering::SeqCst);
        self.queue.lock(rt).end();
        self.socket.close();
        self.came.notify_all();
    }
}

impl Close for TcpDoor {
    /// No further connection is let in. Those whose requests have begun come through all the same.
    fn close(&self) {
        self.closed.store(true, Ordering::SeqCst);
        self.wake_front();
    }
}

impl<K: Clock> Watch<FrontCaller<K>> for TcpDoor {
    ghost leaves = { ⊤ };

    /// Whether the client that was met last has closed its connection, or its sending side, which looks the same. It says so once of
    /// each client.
    fn has_left(&self, caller: &mut FrontCaller<K>) -> bool {
        if caller.busy {
            self.watched.enter(&mut caller.watched);
        }
        self.passed
            .store(caller.now_ms() % BEAT_MS, Ordering::SeqCst);
        caller.has_left()
    }

    /// The more requests wait, the longer: all of them together ask some 500 times a second at most.
    fn often_ms(&self) -> u64 {
        pause_ms(self.watched.count(), self.passed.load(Ordering::SeqCst))
    }
}

impl<K: Clock> Door<FrontCaller<K>> for TcpDoor {
    ghost lets_in = { λ _. ⊤ };

    ghost shut = { λ _. ⊤ };

    fn next<R: Wait>(&self, rt: &R, caller: &mut FrontCaller<K>) -> bool {
        // The client before sees the end of its answer, also while nobody else comes.
        caller.part();
        self.watched.leave(&mut caller.watched);
        self.busy.leave(&mut caller.busy);
        match self.take(rt, &caller.clock) {
            Some(stream) => {
                caller.hand(stream);
                self.busy.enter(&mut caller.busy);
                true
            }
            None => false,
        }
    }

    fn is_closed(&self) -> bool {
        TcpDoor::is_closed(self)
    }

    fn waiting<R: Wait>(&self, rt: &R) -> u64 {
        TcpDoor::waiting(self, rt)
    }
}
