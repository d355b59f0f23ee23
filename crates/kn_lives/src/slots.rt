//! Slots of lives, and how one is found by its number.
ghost use Rattle.std.specs.Prelude.{◌≡◌, ◌≢◌, ◌<◌, ◌≤◌, ℕ, None, All, IsTrue, MatchOption, filter, length, vec_capacity};
ghost use Rattle.kn_lives.specs.declared.lives.Life.{Life};
ghost use Rattle.kn_lives.specs.declared.slots.Slot.{Slot};
ghost use Rattle.kn_lives.specs.Lives.{life_at};
ghost use Rattle.kn_lives.specs.Slots.{AreAscending, IsPlaceOf, IsSlotOf, is_live, live_of};

use crate::hints::Hints;
use crate::lives::Life;

/// How many slots there is room for: twice as many as requests may be live.
pub const ROOM: usize = 40_000;

/// A request by its number, what is known of it, and whether it has ended.
#[derive(Clone, Copy)]
pub struct Slot {
    pub number: u64,
    pub life: Life,
    pub has_ended: bool,
}

/// Where the slot of this number stands, by a search.
#[inline(never)]
fn search(slots: &[Slot], r: u64) -> Option<usize>
    requires { AreAscending slots.now }
    ensures { MatchOption result (All (λ (s : Slot). s.number ≢ r) slots.now) (λ place. IsSlotOf r slots.now place) }
{
    match slots.binary_search_by_key(&r, |slot| slot.number) {
        Ok(place) => Some(place),
        Err(_) => None,
    }
}

/// Where the slot of this number stands: at the place that is looked at first, or by a search.
#[inline(always)]
fn slot_of(slots: &[Slot], hint: usize, r: u64) -> Option<usize>
    requires { AreAscending slots.now }
    ensures { MatchOption result (All (λ (s : Slot). s.number ≢ r) slots.now) (λ place. IsSlotOf r slots.now place) }
{
    if hint < slots.len() && slots[hint].number == r {
        return Some(hint);
    }
    search(slots, r)
}

/// Where the live request of this number stands; the hint is the place that is looked at first.
#[inline(always)]
pub fn place_of(slots: &[Slot], hint: usize, r: u64) -> Option<usize>
    requires { AreAscending slots.now }
    ensures { MatchOption result (life_at (live_of slots.now) r ≡ None) (λ place. IsPlaceOf r slots.now place) }
{
    match slot_of(slots, hint, r) {
        Some(place) => {
            if slots[place].has_ended {
                return None;
            }
            Some(place)
        }
        None => None,
    }
}

/// Whether a slot is left, and all numbers are below this one.
#[inline(always)]
fn has_room(slots: &[Slot], r: u64) -> bool
    requires { AreAscending slots.now }
    ensures few { IsTrue result → length slots.now < 40000 }
    ensures above { IsTrue result → All (λ (s : Slot). s.number < r) slots.now }
    ensures room { All (λ (s : Slot). s.number < r) slots.now → length slots.now < 40000 → IsTrue result }
{
    if slots.len() >= ROOM {
        return false;
    }
    match slots.last() {
        Some(slot) => slot.number < r,
        None => true,
    }
}

/// Takes out the slots of requests that have ended.
fn sweep(slots: &mut Vec<Slot>)
    ensures items { slots.new.items ≡ filter is_live slots.old.items }
    ensures capacity { vec_capacity slots.new ≡ vec_capacity slots.old }
{
    slots.retain(|slot| !slot.has_ended);
}

/// Takes out the slots of requests that have ended, and looks whether a request of this number may come next.
#[inline(never)]
fn sweep_for(slots: &mut Vec<Slot>, hints: &mut Hints, r: u64) -> bool
    requires order { AreAscending slots.old.items }
    requires short { length slots.old.items ≤ 40000 }
    ensures items { slots.new.items ≡ filter is_live slots.old.items }
    ensures few { IsTrue result → length slots.new.items < 40000 }
    ensures above { IsTrue result → All (λ (s : Slot). s.number < r) slots.new.items }
    ensures room { All (λ (s : Slot). s.number < r) slots.new.items → length slots.new.items < 40000 → IsTrue result }
    ensures capacity { vec_capacity slots.new ≡ vec_capacity slots.old }
{
    sweep(slots);
    hints.set_all(slots);
    has_room(slots, r)
}

/// Whether a request of this number may come next. It takes out those that have ended where none may.
#[inline(always)]
pub fn make_room(slots: &mut Vec<Slot>, hints: &mut Hints, r: u64) -> bool
    requires order { AreAscending slots.old.items }
    requires short { length slots.old.items ≤ 40000 }
    ensures order { AreAscending slots.new.items }
    ensures live { live_of slots.new.items ≡ live_of slots.old.items }
    ensures short { length slots.new.items ≤ 40000 }
    ensures few { IsTrue result → length slots.new.items < 40000 }
    ensures above { IsTrue result → All (λ (s : Slot). s.number < r) slots.new.items }
    ensures room { All (λ (x : ℕ × Life). x.0 < r) (live_of slots.old.items) → length (live_of slots.old.items) < 20000
        → IsTrue result }
    ensures capacity { vec_capacity slots.new ≡ vec_capacity slots.old }
{
    if has_room(slots, r) {
        return true;
    }
    sweep_for(slots, hints, r)
}
