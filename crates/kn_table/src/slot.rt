//! Slots, and how one is found by its number.
ghost use Rattle.std.specs.Prelude.{◌≡◌, ◌≢◌, ◌==◌, ◌*◌, ◌<◌, ◌≤◌, ℕ, None, All, IsTrue, MatchOption, filter, find, length, vec_capacity};
ghost use Rattle.kn_record.specs.declared.admission.Request.{Request};
ghost use Rattle.kn_record.specs.Admission.{begun, is_at};
ghost use Rattle.kn_table.specs.declared.slot.Slot.{Slot};
ghost use Rattle.kn_table.specs.Slots.{AreInOrder, IsPlaceOf, IsSlotOf, IsWithin, is_live, is_of_kind, is_placed, live_of};

use kn_record::{Place, Request};

/// A request, and whether it has ended.
#[derive(Clone, Copy)]
pub struct Slot {
    pub request: Request,
    pub has_ended: bool,
}

impl Slot {
    /// Whether the request is live, at a place of a kind.
    pub fn is_placed(&self, kind: PlaceKind) -> bool
        ensures { result ≡ is_placed (is_of_kind kind) self.now }
    {
        !self.has_ended && kind.includes(self.request.place)
    }
}

/// The places that are looked for.
#[derive(Clone, Copy)]
pub enum PlaceKind {
    Held,
    /// Held, or queued at a pod.
    Waiting,
    /// Queued or running at this pod.
    At(u64),
}

impl PlaceKind {
    /// Whether a place is of this kind.
    pub fn includes(self, place: Place) -> bool
        ensures { result ≡ is_of_kind self place }
    {
        match self {
            PlaceKind::Held => matches!(place, Place::Held),
            PlaceKind::Waiting => !matches!(place, Place::Running(_, _)),
            PlaceKind::At(p) => is_at(place, p),
        }
    }
}

fn is_at(place: Place, p: u64) -> bool
    ensures { result ≡ is_at p place }
{
    match place {
        Place::Held => false,
        Place::Queued(q) => q == p,
        Place::Running(q, _) => q == p,
    }
}

/// Where a request is that runs from now on, where it was queued.
pub fn begun(place: Place) -> Place
    ensures { result ≡ begun place }
{
    match place {
        Place::Held => Place::Held,
        Place::Queued(p) => Place::Running(p, false),
        Place::Running(p, assigned) => Place::Running(p, assigned),
    }
}

/// Whether a request comes after all slots, by its number and its time.
pub fn is_after(request: &Request, slots: &[Slot]) -> bool
    requires { AreInOrder slots.now }
    ensures above { IsTrue result → All (λ (s : Slot). s.request.number < request.now.number) slots.now }
    ensures later { IsTrue result → All (λ (s : Slot). s.request.time ≤ request.now.time) slots.now }
{
    match slots.last() {
        Some(slot) => slot.request.number < request.number && slot.request.time <= request.time,
        None => true,
    }
}

/// Some of the slots: so many of them, from a place on.
#[derive(Clone, Copy)]
struct Part {
    from: usize,
    len: usize,
}

/// The half of a part that has the slot of a number, if any has it.
#[inline(always)]
fn half(slots: &[Slot], r: u64, part: Part) -> Part
    requires order { AreInOrder slots.now }
    requires within { IsWithin r slots.now part.from part.len }
    ensures within { IsWithin r slots.now result.from result.len }
    ensures fewer { (n : ℕ) → part.len ≤ 2 * n → result.len ≤ n }
{
    let half = part.len / 2;
    let middle = part.from + half;
    let from = if slots[middle].request.number <= r {
        middle
    } else {
        part.from
    };
    Part {
        from,
        len: part.len - half,
    }
}

/// The sixteenth of a part that has the slot of a number, if any has it.
#[inline(always)]
fn sixteenth(slots: &[Slot], r: u64, part: Part) -> Part
    requires order { AreInOrder slots.now }
    requires within { IsWithin r slots.now part.from part.len }
    ensures within { IsWithin r slots.now result.from result.len }
    ensures fewer { (n : ℕ) → part.len ≤ 16 * n → result.len ≤ n }
{
    let part = half(slots, r, part);
    let part = half(slots, r, part);
    let part = half(slots, r, part);
    half(slots, r, part)
}

/// Where the slot of this number stands, by a binary search. It has no loop, so that the compiler can leave a search
/// out whose answer nobody uses.
#[inline(never)]
fn search(slots: &[Slot], r: u64) -> Option<usize>
    requires order { AreInOrder slots.now }
    requires few { length slots.now ≤ 65536 }
    ensures { MatchOption result (All (λ (s : Slot). s.request.number ≢ r) slots.now) (λ place. IsSlotOf r slots.now place) }
{
    if slots.is_empty() {
        return None;
    }
    let all = Part {
        from: 0,
        len: slots.len(),
    };
    let part = sixteenth(slots, r, all);
    let part = sixteenth(slots, r, part);
    let part = sixteenth(slots, r, part);
    let one = sixteenth(slots, r, part);
    if slots[one.from].request.number == r {
        Some(one.from)
    } else {
        None
    }
}

/// Where the slot of this number stands: at the place that is looked at first, or by a search.
#[inline]
pub fn slot_of(slots: &[Slot], hint: usize, r: u64) -> Option<usize>
    requires order { AreInOrder slots.now }
    requires few { length slots.now ≤ 65536 }
    ensures { MatchOption result (All (λ (s : Slot). s.request.number ≢ r) slots.now) (λ place. IsSlotOf r slots.now place) }
{
    if hint < slots.len() && slots[hint].request.number == r {
        return Some(hint);
    }
    search(slots, r)
}

/// Where the live request of this number stands; the hint is the place that is looked at first.
#[inline]
pub fn place_of(slots: &[Slot], hint: usize, r: u64) -> Option<usize>
    requires order { AreInOrder slots.now }
    requires few { length slots.now ≤ 65536 }
    ensures { MatchOption result (find (λ (q : Request). q.number == r) (live_of slots.now) ≡ None) (λ place. IsPlaceOf r slots.now place) }
{
    match slot_of(slots, hint, r) {
        Some(place) => {
            if slots[place].has_ended {
                return None;
            }
            Some(place)
        }
        None => None,
    }
}

/// Takes out the slots of requests that have ended.
pub fn sweep(slots: &mut Vec<Slot>)
    ensures items { slots.new.items ≡ filter is_live slots.old.items }
    ensures capacity { vec_capacity slots.new ≡ vec_capacity slots.old }
{
    slots.retain(|slot| !slot.has_ended);
}
