//! Where faults are told.
ghost use Rattle.std.specs.Prelude.{◌≡◌, ◌≤◌, length};
ghost use Rattle.kn_faults.specs.Texts.{count_text, faults_text, text_of};

use crate::limiter::Limiter;
use kn_event::Line;
use kn_io::{Sink, put_all};
use std::sync::atomic::{AtomicBool, Ordering};
use std::sync::{Mutex, Wait};
use std::time::{Clock, Instant};

/// Whose fault it is.
#[derive(Clone, Copy)]
pub enum Party {
    Pod,
    Client,
}

/// The line that tells of a fault.
fn fault_text(party: Party) -> &'static [u8]
    ensures { result.now ≡ text_of party }
{
    match party {
        Party::Pod => b"kactd: a pod failed\n",
        Party::Client => b"kactd: a client failed\n",
    }
}

/// What stands behind the number of faults.
fn faults_text(count: u64) -> &'static [u8]
    ensures text { result.now ≡ faults_text count }
    ensures short { length result.now ≤ 13 }
{
    if count == 1 {
        b" more fault\n"
    } else {
        b" more faults\n"
    }
}

/// Sets the line to one that tells of so many more faults.
#[tactic(auto, using(std::proofs::Common::append_assoc))]
fn put_count(count: u64, line: &mut Line)
    ensures { line.new ≡ count_text count }
{
    line.clear();
    line.put(b"kactd: ");
    line.put_integer(count);
    line.put(faults_text(count));
}

/// What the log writes to, and what it has told.
#[derive(Drop)]
struct Told<O> {
    out: O,
    limiter: Limiter,
}

impl<O: Sink> Told<O> {
    /// Goes on in this second, or where the clock can't be read in the one before, and says whether it is a later one.
    fn begin(&mut self, second: Option<u64>) -> bool {
        match second {
            Some(second) => self.limiter.begin(second),
            None => false,
        }
    }

    /// Writes a text. Nobody is told where the output doesn't take it.
    fn put(&mut self, text: &[u8]) {
        let _ = put_all(&mut self.out, text);
    }

    /// Tells in a count of those that weren't told.
    fn put_untold(&mut self) {
        let untold = self.limiter.take_untold();
        if untold > 0 {
            let mut line = Line::new();
            put_count(untold, &mut line);
            self.put(line.bytes());
        }
    }
}

/// Tells the faults of pods and of clients: each by a line, at most ten a second, and then how many more there were, as soon as
/// something happens in a later second, or at the end. All threads share it. One that tells waits while the output takes nothing.
#[derive(Drop)]
pub struct FaultLog<O, K> {
    told: Mutex<Told<O>>,
    // Whether there are faults to be told in a count.
    behind: AtomicBool,
    clock: K,
    begun: Option<Instant>,
}

impl<O: Sink + Drop, K: Clock + Drop> FaultLog<O, K> {
    /// A log that has told nothing.
    pub fn new(out: O, clock: K) -> FaultLog<O, K> {
        let begun = Instant::now(&clock).ok();
        FaultLog {
            told: Mutex::new(Told {
                out,
                limiter: Limiter::new(),
            }),
            behind: AtomicBool::new(false),
            clock,
            begun,
        }
    }

    /// How many seconds the log has been there, where the clock can be read.
    fn second(&self) -> Option<u64> {
        Some(self.begun?.elapsed(&self.clock).ok()?.as_secs())
    }

    /// Tells this text at once.
    pub fn say<R: Wait>(&self, rt: &R, text: &[u8]) {
        self.told.lock(rt).put(text);
    }

    /// Tells of a fault, by a line or in the next count.
    pub fn tell<R: Wait>(&self, rt: &R, party: Party) {
        let mut told = self.told.lock(rt);
        self.catch_up(&mut told);
        if told.limiter.tells() {
            told.put(fault_text(party));
        } else {
            self.behind.store(true, Ordering::SeqCst);
        }
    }

    /// Tells in a count of those of earlier seconds that weren't told.
    pub fn go_on<R: Wait>(&self, rt: &R) {
        if self.behind.load(Ordering::SeqCst) {
            self.catch_up(&mut self.told.lock(rt));
        }
    }

    /// Tells in a count of all that weren't told, and gives the output back.
    pub fn end(self) -> O {
        let mut told = self.told.into_inner();
        told.put_untold();
        told.out
    }

    fn catch_up(&self, told: &mut Told<O>) {
        if told.begin(self.second()) {
            told.put_untold();
            self.behind.store(false, Ordering::SeqCst);
        }
    }
}
