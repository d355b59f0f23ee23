//! What a pass does with the turn: it waits for it, and records one event.
ghost use Rattle.std.specs.Prelude.{◌≡◌, ◌<◌, ◌≤◌, ◌+◌, ◌∷◌, [], ◌^◌, IfOk, IfErr, IfSome, vec_capacity};
ghost use Rattle.kn_book.specs.Book.{call_address, next_to_probe};
ghost use Rattle.kn_trace.specs.Trace.{stand_of, proxied, next_starting};
ghost use Rattle.kn_cell.specs.State.{DeskState};
ghost use Rattle.kn_cell.specs.Desk.{emptied};
ghost use Rattle.kn_cell.specs.History.{MayCome};
ghost use Rattle.kn_cell.specs.Seats.{KeepsSeat, KeepsView, MayTakeTurn, GivesTurn, AppliesInSlot, OverflowsSlot};
ghost use Rattle.kn_cell.specs.Counted.{AreFiguresAt};
ghost use Rattle.kn_cell.specs.Turns.{HasTurn, WaitsForTurn, Enters, RecordsRow, Overflows, SeesAt};

use crate::past::{Full, Past};
use crate::steps::{AWAITED, Board, Place, TAKEN, give, record, ring_left, take};
use kn_event::{Act, Stand, Told};
use kn_figures::Figures;
use std::sync::Wait;

// How often a pass that wants the turn looks whether it is free before it parks.
const LOOKS: u64 = 50;

// The longest pause between two looks. A look takes the word out of the cache of who has the turn, so each pause is twice the one
// before: most turns are short, and who gives the turn back often takes it again at once.
const LONGEST: u64 = 64;

// How often a pass may see the turn free and find it taken before it parks.
const TRIES: u64 = 100;

/// Waits until it has the turn.
#[inline(always)]
pub fn take_turn<R: Wait>(rt: &R, board: &Board, place: &mut Place)
    requires same { place.old.table_id ≡ board.now.table_id }
    requires sized { 2 ≤ board.now.table_id.words }
    requires free { MayTakeTurn place.old.me }
    ensures same { (place.new.table_id ≡ place.old.table_id) × (place.new.id ≡ place.old.id) }
    ensures turn { WaitsForTurn place.old.me.0 place.new.me }
{
    let found = take(board, place, TAKEN);
    if found == 0 {
        return;
    }
    await_turn(rt, board, place, found);
}

/// Waits until it has the turn, where its last swap found this in the turn word.
#[inline(never)]
fn await_turn<R: Wait>(rt: &R, board: &Board, place: &mut Place, before: u64)
    requires same { place.old.table_id ≡ board.now.table_id }
    requires sized { 2 ≤ board.now.table_id.words }
    requires free { MayTakeTurn place.old.me }
    ensures same { (place.new.table_id ≡ place.old.table_id) × (place.new.id ≡ place.old.id) }
    ensures turn { WaitsForTurn place.old.me.0 place.new.me }
{
    let mut found = before;
    for _ in 0..TRIES {
        if found != TAKEN {
            // The swap overwrote the mark of one that is parked: those below put it back, or take the turn with it.
            break;
        }
        if !sees_free(board) {
            break;
        }
        found = take(board, place, TAKEN);
        if found == 0 {
            return;
        }
    }
    for _ in rt.forever() {
        if take(board, place, AWAITED) == 0 {
            return;
        }
        board.park(rt, 1, AWAITED as u32);
        // While it looks nobody need wake it, and its next swap leaves the mark of those that are parked.
        let _ = sees_free(board);
    }
    unreachable!()
}

/// Looks until the turn is free, but not for long. Whether it was.
fn sees_free(board: &Board) -> bool
    requires sized { 2 ≤ board.now.table_id.words }
{
    let mut pauses = 1;
    for _ in 0..LOOKS {
        if board.peek(1) == 0 {
            return true;
        }
        pause(pauses);
        pauses = pauses.saturating_mul(2).min(LONGEST);
    }
    false
}

fn pause(times: u64) {
    for _ in 0..times {
        std::hint::spin_loop();
    }
}

/// Takes the event in at the value in the slot. What it is told goes to `answer`.
fn apply_at(
    board: &Board,
    place: &mut Place,
    number: u64,
    act: Act,
    time: u64,
    answer: &mut Told,
) -> Result<(), Full>
    requires same { place.old.table_id ≡ board.now.table_id }
    requires slot { (x : DeskState) × (place.old.me.1 ≡ (0, x) ∷ []) × (x.revision.events < 2 ^ 54) }
    requires act { MayCome act }
    ensures same { KeepsView place.old place.new }
    ensures ok { AppliesInSlot place.old.me place.new.me number act time answer.new result }
    ensures err { OverflowsSlot place.old.me place.new.me act result }
{
    place.slot_mut(board, 0).apply(number, act, time, answer)
}

/// Takes all rows out of the value in the slot.
pub fn rows_at(board: &Board, place: &mut Place, rows: &mut Vec<Past>)
    requires same { place.old.table_id ≡ board.now.table_id }
    requires slot { (x : DeskState) × (place.old.me.1 ≡ (0, x) ∷ []) × (x.room ≤ vec_capacity rows.old) }
    requires empty { rows.old.items ≡ [] }
    ensures same { KeepsView place.old place.new }
    ensures slot { (x : DeskState) → place.old.me.1 ≡ (0, x) ∷ [] → place.new.me.1 ≡ (0, emptied x) ∷ [] }
    ensures rows { (x : DeskState) → place.old.me.1 ≡ (0, x) ∷ [] → rows.new.items ≡ x.history }
    ensures room { (x : DeskState) → place.old.me.1 ≡ (0, x) ∷ [] → x.room ≤ vec_capacity rows.new }
{
    place.slot_mut(board, 0).take(rows);
}

/// The next pass whose bell is to be rung.
fn called_at(board: &Board, place: &mut Place) -> Option<u64>
    requires same { place.old.table_id ≡ board.now.table_id }
    requires slot { (x : DeskState) × (place.old.me.1 ≡ (0, x) ∷ []) }
    ensures same { KeepsSeat place.old place.new }
{
    place.slot_mut(board, 0).next_called()
}

/// Rings the bells of the passes that were called, but for one, which it answers. That one is rung once the turn is given back:
/// who is woken wants the turn, and the system may let it run at once in the ringer's place.
fn ring_called(board: &Board, place: &mut Place, passes: u64) -> Option<u64>
    requires same { place.old.table_id ≡ board.now.table_id }
    requires sized { board.now.table_id.words ≡ passes + 2 }
    requires few { passes ≤ 1100 }
    requires slot { (x : DeskState) × (place.old.me.1 ≡ (0, x) ∷ []) }
    ensures same { KeepsSeat place.old place.new }
    ensures left { IfSome result (λ p. p < passes) }
{
    let mut left = None;
    for _ in 0..passes {
        let Some(pass) = called_at(board, place) else {
            break;
        };
        ring_left(board, place, passes, left);
        left = Some(pass).filter(|p| *p < passes);
    }
    left
}

/// Takes the event in, records it, and rings the bells of those whose request it moved, but for one, which is to be rung once
/// the turn is given back. The turn is kept. What the event is told goes to `answer`.
pub fn enter(
    board: &Board,
    place: &mut Place,
    number: u64,
    passes: u64,
    act: Act,
    time: u64,
    answer: &mut Told,
) -> Result<Option<u64>, Full>
    requires same { place.old.table_id ≡ board.now.table_id }
    requires sized { board.now.table_id.words ≡ passes + 2 }
    requires few { passes ≤ 1100 }
    requires turn { HasTurn place.old.me }
    requires number { place.old.me.0.number ≡ number }
    requires act { MayCome act }
    ensures same { (place.new.table_id ≡ place.old.table_id) × (place.new.id ≡ place.old.id) }
    ensures ok { IfOk result (λ _. Enters place.old.me.0 act time answer.new place.new.me) }
    ensures left { IfOk result (λ left. IfSome left (λ p. p < passes)) }
    ensures err { IfErr result (λ full. (place.new.me ≡ place.old.me) × Overflows place.old.me.0 act full) }
{
    match apply_at(board, place, number, act, time, answer) {
        Ok(()) => {
            record(board, place);
            let left = ring_called(board, place, passes);
            Ok(left)
        }
        Err(full) => Err(full),
    }
}

/// Takes the event in, records it, gives the turn back, and rings the bells of those whose request it moved. What the event
/// is told goes to `answer`.
#[inline(never)]
pub fn attempt(
    board: &Board,
    place: &mut Place,
    number: u64,
    passes: u64,
    act: Act,
    time: u64,
    answer: &mut Told,
) -> Result<(), Full>
    requires same { place.old.table_id ≡ board.now.table_id }
    requires sized { board.now.table_id.words ≡ passes + 2 }
    requires few { passes ≤ 1100 }
    requires turn { HasTurn place.old.me }
    requires number { place.old.me.0.number ≡ number }
    requires act { MayCome act }
    ensures same { (place.new.table_id ≡ place.old.table_id) × (place.new.id ≡ place.old.id) }
    ensures ok { IfOk result (λ _. RecordsRow place.old.me.0 act time answer.new place.new.me) }
    ensures err { IfErr result (λ full. GivesTurn place.old.me place.new.me × Overflows place.old.me.0 act full) }
{
    match enter(board, place, number, passes, act, time, answer) {
        Ok(left) => {
            give(board, place);
            ring_left(board, place, passes, left);
            Ok(())
        }
        Err(full) => {
            give(board, place);
            Err(full)
        }
    }
}

/// Where the request stands after all that is seen. The pass is put down for it where it waits.
pub fn stand_at(board: &Board, place: &mut Place, number: u64, asked: Option<u64>, r: u64) -> Stand
    requires same { place.old.table_id ≡ board.now.table_id }
    requires turn { HasTurn place.old.me }
    ensures same { KeepsSeat place.old place.new }
    ensures value { SeesAt place.old.me.0 (λ c. result ≡ stand_of c r) }
{
    place.slot_mut(board, 0).look(number, asked, r)
}

/// Whether the request is proxied, after all that is seen.
pub fn proxied_at(board: &Board, place: &mut Place, r: u64) -> bool
    requires same { place.old.table_id ≡ board.now.table_id }
    requires turn { HasTurn place.old.me }
    ensures same { KeepsSeat place.old place.new }
    ensures value { SeesAt place.old.me.0 (λ c. result ≡ proxied c r) }
{
    place.slot_mut(board, 0).proxied(r)
}

/// The least Starting pod not below this one, after all that is seen.
pub fn starting_at(board: &Board, place: &mut Place, from: u64) -> Option<u64>
    requires same { place.old.table_id ≡ board.now.table_id }
    requires turn { HasTurn place.old.me }
    ensures same { KeepsSeat place.old place.new }
    ensures value { SeesAt place.old.me.0 (λ c. result ≡ next_starting c from) }
    ensures from { IfSome result (λ p. from ≤ p) }
    ensures most { IfSome result (λ p. p < 2 ^ 63) }
{
    place.slot_mut(board, 0).next_starting(from)
}

/// Whom a call of the pod reaches, after all that is seen.
pub fn call_address_at(board: &Board, place: &mut Place, pod: u64) -> u64
    requires same { place.old.table_id ≡ board.now.table_id }
    requires turn { HasTurn place.old.me }
    ensures same { KeepsSeat place.old place.new }
    ensures value { SeesAt place.old.me.0 (λ c. result ≡ call_address place.old.me.0.key.addresses c pod) }
{
    place.slot_mut(board, 0).call_address(pod)
}

/// What is counted after all that is seen.
pub fn figures_at(board: &Board, place: &mut Place) -> Figures
    requires same { place.old.table_id ≡ board.now.table_id }
    requires turn { HasTurn place.old.me }
    ensures same { KeepsSeat place.old place.new }
    ensures value { AreFiguresAt place.old.me.0 result }
{
    place.slot_mut(board, 0).figures()
}

/// The next pod to probe, with its address, after all that is seen.
pub fn to_probe_at(board: &Board, place: &mut Place, from: u64) -> Option<(u64, u64)>
    requires same { place.old.table_id ≡ board.now.table_id }
    requires turn { HasTurn place.old.me }
    ensures same { KeepsSeat place.old place.new }
    ensures value { SeesAt place.old.me.0 (λ c. result ≡ next_to_probe place.old.me.0.key.addresses c from) }
    ensures from { IfSome result (λ x. from ≤ x.0) }
    ensures most { IfSome result (λ x. x.0 < 2 ^ 63) }
{
    place.slot_mut(board, 0).next_to_probe(from)
}
