//! The steps on the table, each with what it asks.
ghost use Rattle.std.specs.Prelude.{◌≡◌, ◌≢◌, ◌<◌, ◌≤◌, ◌+◌, ◌∷◌, [], ◌^◌, length, true, false, IfSome};
ghost use Rattle.kn_cell.specs.State.{DeskState};
ghost use Rattle.kn_cell.specs.Rule.{GetsTurn, Misses, GoesBack, HasRow, SeesLast, gives_back, IsSound};
ghost use Rattle.kn_cell.specs.Seats.{KeepsSeat, MayTakeTurn, GivesTurn};
ghost use Rattle.kn_cell.specs.Turns.{HasTurn};

use crate::desk::Desk;
use crate::rule::{Confirm, Give, Order, Record, Ring, Take};
use crate::view::{Key, View};
use atomic_table::{Seat, Shared};
use std::sync::Wait;
use std::time::Duration;

pub type Board = Shared<Desk, View, Key, Order>;

pub type Place = Seat<Desk, View>;

// What the turn word says where it isn't 0, which is the turn free: somebody has the turn.
pub const TAKEN: u64 = 1;

// Somebody has it, and others may be parked until it is given back.
pub const AWAITED: u64 = 2;

/// Takes the turn and leaves this mark. Answers what the word said before: 0 where the turn was free, and else another
/// has it.
pub fn take(board: &Board, place: &mut Place, mark: u64) -> u64
    requires same { place.old.table_id ≡ board.now.table_id }
    requires sized { 2 ≤ board.now.table_id.words }
    requires mark { mark ≢ 0 }
    requires free { MayTakeTurn place.old.me }
    ensures same { (place.new.table_id ≡ place.old.table_id) × (place.new.id ≡ place.old.id) }
    ensures turn { result ≡ 0 → GetsTurn place.old.me place.new.me }
    ensures held { result ≢ 0 → Misses place.old.me place.new.me }
{
    board.swap::<Take>(place, 1, mark)
}

/// Counts the row that was added to the history in the slot.
pub fn record(board: &Board, place: &mut Place)
    requires same { place.old.table_id ≡ board.now.table_id }
    requires sized { 2 ≤ board.now.table_id.words }
    requires turn { (place.old.me.0.turn ≡ true) × (place.old.me.0.spent ≡ false) }
    requires added { HasRow place.old.me }
    requires small { length place.old.me.0.seen < 2 ^ 63 }
    ensures same { (place.new.table_id ≡ place.old.table_id) × (place.new.id ≡ place.old.id) }
    ensures seen { SeesLast place.old.me place.new.me }
{
    board.fetch_add::<Record>(place, 0, 1);
}

/// Gives the turn back, where no row was taken out.
pub fn give(board: &Board, place: &mut Place)
    requires same { place.old.table_id ≡ board.now.table_id }
    requires sized { 2 ≤ board.now.table_id.words }
    requires turn { HasTurn place.old.me }
    ensures same { (place.new.table_id ≡ place.old.table_id) × (place.new.id ≡ place.old.id) }
    ensures free { GivesTurn place.old.me place.new.me }
{
    hand_back(board, place);
}

/// Gives the turn back, and wakes one where somebody may be parked.
pub fn hand_back(board: &Board, place: &mut Place)
    requires same { place.old.table_id ≡ board.now.table_id }
    requires sized { 2 ≤ board.now.table_id.words }
    requires turn { (place.old.me.0.turn ≡ true) × (place.old.me.0.spent ≡ false) }
    requires slot { (x : DeskState) × (place.old.me.1 ≡ (0, x) ∷ []) × GoesBack place.old.me.0 x }
    ensures same { (place.new.table_id ≡ place.old.table_id) × (place.new.id ≡ place.old.id) }
    ensures free { (x : DeskState) → place.old.me.1 ≡ (0, x) ∷ [] → place.new.me ≡ (gives_back place.old.me.0 x.taken, []) }
{
    if board.swap::<Give>(place, 1, 0) == AWAITED {
        board.wake_one(1);
    }
}

/// Rings a pass's bell: its word is another, and whoever parks on it is woken.
pub fn ring(board: &Board, place: &mut Place, pass: u64)
    requires same { place.old.table_id ≡ board.now.table_id }
    requires sized { pass + 2 < board.now.table_id.words }
    requires small { pass < 2 ^ 32 }
    ensures same { KeepsSeat place.old place.new }
{
    let bell = pass as usize + 2;
    board.fetch_add::<Ring>(place, bell, 1);
    board.wake_one(bell);
}

/// Rings the bell of the pass that was left to be rung, if there is one.
pub fn ring_left(board: &Board, place: &mut Place, passes: u64, left: Option<u64>)
    requires same { place.old.table_id ≡ board.now.table_id }
    requires sized { board.now.table_id.words ≡ passes + 2 }
    requires few { passes ≤ 1100 }
    requires left { IfSome left (λ p. p < passes) }
    ensures same { KeepsSeat place.old place.new }
{
    if let Some(pass) = left {
        ring(board, place, pass);
    }
}

/// What the pass's bell reads: it parks until the bell reads otherwise.
pub fn heard(board: &Board, pass: u64) -> u64
    requires sized { pass + 2 < board.now.table_id.words }
    requires small { pass < 2 ^ 32 }
{
    board.peek(pass as usize + 2)
}

/// Parks until the pass's bell is rung, or for so many milliseconds.
pub fn wait_bell<R: Wait>(rt: &R, board: &Board, pass: u64, heard: u64, ms: u64)
    requires sized { pass + 2 < board.now.table_id.words }
    requires small { pass < 2 ^ 32 }
{
    board.park_timeout(
        rt,
        pass as usize + 2,
        (heard & 0xffff_ffff) as u32,
        Duration::from_millis(ms),
    );
}

/// Changes nothing, and learns that what the seat knows is so.
pub fn confirm(board: &Board, place: &mut Place)
    requires same { place.old.table_id ≡ board.now.table_id }
    requires sized { 2 ≤ board.now.table_id.words }
    requires fresh { place.old.me.0.spent ≡ false }
    ensures same { KeepsSeat place.old place.new }
    ensures so { IsSound place.old.me.0 }
{
    board.load::<Confirm>(place, 0);
}
