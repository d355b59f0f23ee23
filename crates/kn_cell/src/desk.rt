//! What lies in the slot: the revision with its history. What an event does is said here, and needs no thread.
ghost use Rattle.std.specs.Prelude.{◌≡◌, ◌<◌, ◌≤◌, ◌+◌, ◌++◌, ◌∷◌, ◌^◌, true, false, IfOk, IfErr, IfSome, [], vec_capacity, vec_len};
ghost use Rattle.kn_trace.specs.Events.{need_of};
ghost use Rattle.kn_trace.specs.Trace.{Trace, next_starting, proxied, stand_of};
ghost use Rattle.kn_book.specs.Book.{call_address};
ghost use Rattle.kn_book.specs.State.{IsBookOf};
ghost use Rattle.kn_core.specs.State.{StandsFor};
ghost use Rattle.kn_figures.specs.Tallies.{IsTallyOf};
ghost use Rattle.kn_sizes.specs.Course.{waits_by};
ghost use Rattle.kn_cell.specs.History.{MayCome, past};
ghost use Rattle.kn_cell.specs.Desk.{Applies, IsNextToProbe, IsTooSmall, emptied, new_desk};
ghost use Rattle.kn_cell.specs.Counted.{AreFiguresIn};
ghost use Rattle.kn_cell.specs.Books.{HasBook};
ghost use Rattle.kn_cell.specs.State.{live_in};

use crate::past::{Full, History, Past};
use kn_book::Book;
use kn_book::laws::{book_laws, room_laws};
use kn_core::Revision;
use kn_event::{Act, EntryLog, Event, Memory, Stand, Told};
use kn_figures::{Figures, Tally};
use kn_laws::laws::history_laws;
use kn_sizes::server::request_laws;
use kn_waiters::Waiters;
use std::alloc::Global;
use std::marker::Model;

// The most rows that are ever recorded in all, and live requests beside them.
const MOST_ROWS: u64 = 1 << 53;

pub struct Desk {
    room: u64,
    revision: Revision,
    /// How many rows were taken out.
    taken: u64,
    /// The rows that are left.
    history: Vec<Past>,
    log: EntryLog,
    waiters: Waiters,
    /// Which address each live pod has.
    book: Book,
    /// The rows that were made since it was new.
    tally: Tally,
}

impl Drop for Desk {
    fn drop(self) {
        let Desk {
            room: _,
            revision: _,
            taken: _,
            history: _,
            log: _,
            waiters: _,
            book: _,
            tally: _,
        } = self;
    }
}

impl Model for Desk {
    ghost use Rattle.std.specs.Prelude.{◌≤◌, ◌+◌, ◌^◌, length, vec_capacity};
    ghost use Rattle.kn_cell.specs.Books.{HasBook};
    ghost use Rattle.kn_cell.specs.State.{DeskState, live_in};

    ghost Value = { DeskState };

    ghost view = { λ d. record { room = d.room; revision = d.revision; taken = d.taken; history = d.history.items; book = d.book; tally = d.tally } };

    ghost invariant = { λ d. (length d.history.items + live_in d.revision ≤ d.room) × (d.room ≤ vec_capacity d.history) × (d.taken + length d.history.items + live_in d.revision ≤ 2 ^ 53) × HasBook d.book d.revision };
}

impl Desk {
    /// The revision and the book of its pods, with room for so many rows, and none yet, and for so many passes that wait.
    pub fn new(
        alloc: Global,
        revision: Revision,
        book: Book,
        room: u64,
        passes: u64,
    ) -> Result<Desk, Memory>
        requires live { live_in revision ≤ room }
        requires room { room ≤ 1000000 }
        requires book { HasBook book revision }
        ensures new { IfOk result (λ d. d ≡ new_desk room revision book d.tally) }
        ensures tally { IfOk result (λ d. IsTallyOf d.tally []) }
    {
        let Ok(history) = Vec::with_capacity(alloc, room as usize) else {
            return Err(Memory);
        };
        let log = EntryLog::new(alloc)?;
        let waiters = Waiters::new(alloc, passes)?;
        Ok(Desk {
            room,
            revision,
            taken: 0,
            history,
            log,
            waiters,
            book,
            tally: Tally::new(),
        })
    }

    /// Takes the event in, or says that the room is too small. What it is told goes to `answer`: each further move of it would
    /// copy a whole decision.
    pub fn apply(&mut self, pass: u64, act: Act, time: u64, answer: &mut Told) -> Result<(), Full>
        requires events { self.old.revision.events < 2 ^ 54 }
        requires act { MayCome act }
        ensures ok { IfOk result (λ _. Applies self.old pass act time answer.new self.new) }
        ensures err { IfErr result (λ full. (self.new ≡ self.old) × IsTooSmall self.old act full) }
    {
        history_laws();
        room_laws();
        let live = self.revision.live();
        let used = self.history.len() as u64;
        let left = self.room.min(MOST_ROWS - self.taken) - used - live;
        if lacks(&self.revision, &act, left) {
            return Err(Full {
                room: self.room,
                used,
                live,
            });
        }
        let time = time.max(self.revision.now()).min(1 << 42);
        let event = Event { time, act };
        self.log.clear();
        self.revision.step_into(&event, &mut self.log, answer);
        keep(&mut self.history, pass, event, answer);
        self.book.apply(self.log.entries());
        self.tally.apply(self.log.entries());
        self.waiters.call_all(self.log.entries());
        Ok(())
    }

    /// Takes all rows out, and keeps the memory of the empty list that it is given.
    pub fn take(&mut self, rows: &mut Vec<Past>)
        requires empty { rows.old.items ≡ [] }
        requires room { self.old.room ≤ vec_capacity rows.old }
        ensures desk { self.new ≡ emptied self.old }
        ensures rows { rows.new.items ≡ self.old.history }
        ensures room { self.old.room ≤ vec_capacity rows.new }
    {
        self.taken += self.history.len() as u64;
        std::mem::swap(&mut self.history, rows);
    }

    /// Its revision and the rows that are left.
    pub fn into_parts(self) -> (Revision, History)
        ensures revision { result.0 ≡ self.revision }
        ensures history { result.1 ≡ self.history }
    {
        let Desk {
            room: _,
            revision,
            taken: _,
            history,
            log: _,
            waiters: _,
            book: _,
            tally: _,
        } = self;
        (revision, History::new(history))
    }

    /// Where the request stands. Where it waits, the pass is put down for it, and no more for the one that it asked for before.
    pub fn look(&mut self, pass: u64, asked: Option<u64>, r: u64) -> Stand
        ensures same { self.new ≡ self.old }
        ensures stand { (c : Trace) → StandsFor self.old.revision c → result ≡ stand_of c r }
    {
        let stand = self.revision.stand(r);
        self.waiters.ask(pass, asked, r, waits(stand));
        stand
    }

    /// What is counted of it.
    pub fn figures(&self) -> Figures
        ensures { AreFiguresIn self.now result }
    {
        let left = self.history.len() as u64;
        Figures::of(&self.revision, &self.tally, self.taken, left)
    }

    /// The next pass whose bell is to be rung.
    pub fn next_called(&mut self) -> Option<u64>
        ensures { self.new ≡ self.old }
    {
        self.waiters.next_called()
    }

    /// Whether the request was assigned to a pod, and has not ended.
    pub fn proxied(&self, r: u64) -> bool
        ensures { (c : Trace) → StandsFor self.now.revision c → result ≡ proxied c r }
    {
        self.revision.proxied(r)
    }

    /// The least Starting pod that is not below this number.
    pub fn next_starting(&self, from: u64) -> Option<u64>
        ensures starting { (c : Trace) → StandsFor self.now.revision c → result ≡ next_starting c from }
        ensures from { IfSome result (λ p. from ≤ p) }
        ensures most { IfSome result (λ p. p < 2 ^ 63) }
    {
        self.revision.next_starting(from)
    }

    /// Whom a call of the pod reaches: its address, or the number of addresses where it has none.
    pub fn call_address(&self, pod: u64) -> u64
        ensures { (c : Trace) → IsBookOf self.now.book c → result ≡ call_address self.now.book.addresses c pod }
    {
        self.book.call_address(pod)
    }

    /// The least Starting pod that is not below this number and has an address, with that address.
    pub fn next_to_probe(&self, from: u64) -> Option<(u64, u64)>
        ensures probe { IsNextToProbe self.now from result }
        ensures from { IfSome result (λ x. from ≤ x.0) }
        ensures most { IfSome result (λ x. x.0 < 2 ^ 63) }
    {
        book_laws();
        // Behind a pod that waits for an address each waits.
        let pod = self.next_starting(from)?;
        let address = self.book.address(pod)?;
        Some((pod, address))
    }
}

/// Puts a row behind the others. The most common answers are written where they stay: as a whole each would be moved twice, with
/// the room that only a decision takes.
#[inline(always)]
fn keep(rows: &mut Vec<Past>, pass: u64, event: Event, told: &Told)
    requires { vec_len rows.old < vec_capacity rows.old }
    ensures items { rows.new.items ≡ rows.old.items ++ past pass event told.now ∷ [] }
    ensures len { vec_len rows.new ≡ vec_len rows.old + 1 }
    ensures capacity { vec_capacity rows.new ≡ vec_capacity rows.old }
{
    match *told {
        Told::Run(r, p) => put(rows, pass, event, Told::Run(r, p)),
        Told::AtPod(r, p) => put(rows, pass, event, Told::AtPod(r, p)),
        Told::Held(r) => put(rows, pass, event, Told::Held(r)),
        Told::Done(r) => put(rows, pass, event, Told::Done(r)),
        told => put(rows, pass, event, told),
    }
}

#[inline(always)]
fn put(rows: &mut Vec<Past>, pass: u64, event: Event, told: Told)
    requires { vec_len rows.old < vec_capacity rows.old }
    ensures items { rows.new.items ≡ rows.old.items ++ past pass event told ∷ [] }
    ensures len { vec_len rows.new ≡ vec_len rows.old + 1 }
    ensures capacity { vec_capacity rows.new ≡ vec_capacity rows.old }
{
    rows.push_reserved(Past { pass, event, told });
}

/// Whether a request waits where it stands.
fn waits(stand: Stand) -> bool
    ensures { result ≡ waits_by stand }
{
    matches!(stand, Stand::Held | Stand::Queued(_))
}

/// Whether an act needs more room than is left.
#[inline(always)]
fn lacks(revision: &Revision, act: &Act, left: u64) -> bool
    ensures yes { result ≡ true → (c : Trace) → StandsFor revision.now c → left < need_of c act.now }
    ensures no { result ≡ false → (c : Trace) → StandsFor revision.now c → need_of c act.now ≤ left }
{
    // No act needs more, and a request is looked up only where it matters.
    if left >= 2 {
        return false;
    }
    left < need(revision, act)
}

/// How much room an act needs: an arrival its row and, later, its end; the end of a live request none.
fn need(revision: &Revision, act: &Act) -> u64
    ensures value { (c : Trace) → StandsFor revision.now c → result ≡ need_of c act.now }
    ensures small { result ≤ 2 }
{
    history_laws();
    request_laws();
    match *act {
        Act::Arrive(_) => 2,
        Act::Finish(r, _) => match revision.stand(r) {
            Stand::Running(_) => 0,
            _ => 1,
        },
        Act::Cancel(r) => match revision.stand(r) {
            Stand::Held | Stand::Queued(_) => 0,
            _ => 1,
        },
        _ => 1,
    }
}
