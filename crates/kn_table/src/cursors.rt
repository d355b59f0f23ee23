//! The first request of a kind, looked for from where the last search ended.
ghost use Rattle.std.specs.Prelude.{◌≡◌, ◌<◌, ◌≤◌, length, option_map, slice_get};
ghost use Rattle.kn_record.specs.Admission.{is_at, is_held_place, waits};
ghost use Rattle.kn_table.specs.declared.slot.Slot.{Slot};
ghost use Rattle.kn_table.specs.Links.{AreLinked};
ghost use Rattle.kn_table.specs.Slots.{IsLeftAt, first_placed, is_of_kind, passed};

use crate::links::Links;
use crate::slot::{PlaceKind, Slot};
use kn_record::{Place, Request};

/// Where the first live request stands whose place is of a kind, at this place or later; the end where there is none.
pub fn next_placed(kind: PlaceKind, slots: &[Slot], from: usize) -> usize
    requires { from ≤ first_placed (is_of_kind kind) slots.now }
    ensures { result ≡ first_placed (is_of_kind kind) slots.now }
{
    for place in from..slots.len() {
        if slots[place].is_placed(kind) {
            return place;
        }
    }
    slots.len()
}

/// Where the first of a kind stands once one more slot does, which is of the kind or not.
fn passed(is_of_kind: bool, end: usize, first: usize) -> usize
    requires { end < 40000 }
    ensures { result ≡ passed is_of_kind end first }
{
    if first == end && !is_of_kind {
        end + 1
    } else {
        first
    }
}

/// The request at a place.
pub fn request_at(slots: &[Slot], place: usize) -> Option<Request>
    ensures { result ≡ option_map (λ (s : Slot). s.request) (slice_get slots.now place) }
{
    slots.get(place).map(|slot| slot.request)
}

/// The number of the request at a place.
pub fn number_at(slots: &[Slot], place: usize) -> Option<u64>
    ensures { result ≡ option_map (λ (s : Slot). s.request.number) (slice_get slots.now place) }
{
    slots.get(place).map(|slot| slot.request.number)
}

/// Where the first request that is held stands and the first that waits, and a place before which no live request is at
/// one pod.
#[derive(Drop)]
pub struct Cursors {
    pub held: usize,
    pub waiting: usize,
    pub pod: u64,
    pub from: usize,
}

impl Cursors {
    /// At the first slot.
    pub fn new() -> Cursors
        ensures { result ≡ record { held = 0; waiting = 0; pod = 0; from = 0 } }
    {
        Cursors {
            held: 0,
            waiting: 0,
            pod: 0,
            from: 0,
        }
    }

    /// Moves both on to the first of its kind.
    pub fn advance(&mut self, slots: &[Slot])
        requires held { self.old.held ≤ first_placed is_held_place slots.now }
        requires waiting { self.old.waiting ≤ first_placed waits slots.now }
        ensures { self.new ≡ record self.old { held = first_placed is_held_place slots.now; waiting = first_placed waits slots.now } }
    {
        self.held = next_placed(PlaceKind::Held, slots, self.held);
        self.waiting = next_placed(PlaceKind::Waiting, slots, self.waiting);
    }

    /// One more slot stands at the end, of a live request at this place.
    #[inline]
    pub fn pass(&mut self, end: usize, place: Place)
        requires { end < 40000 }
        ensures { self.new ≡ record self.old { held = passed (is_held_place place) end self.old.held; waiting = passed (waits place) end self.old.waiting } }
    {
        self.held = passed(PlaceKind::Held.includes(place), end, self.held);
        self.waiting = passed(PlaceKind::Waiting.includes(place), end, self.waiting);
    }

    /// Those that stand at this place, whose slot is no longer of their kind, move on.
    #[inline(always)]
    pub fn leave(&mut self, place: usize, slots: &[Slot])
        requires held { IsLeftAt place (first_placed is_held_place slots.now) self.old.held }
        requires waiting { IsLeftAt place (first_placed waits slots.now) self.old.waiting }
        requires few { place < 40000 }
        ensures { self.new ≡ record self.old { held = first_placed is_held_place slots.now; waiting = first_placed waits slots.now } }
    {
        if self.held == place {
            self.held = next_placed(PlaceKind::Held, slots, place + 1);
        }
        if self.waiting == place {
            self.waiting = next_placed(PlaceKind::Waiting, slots, place + 1);
        }
    }

    /// Where the first live request at a pod stands; the end where there is none.
    pub fn first_at(&self, p: u64, slots: &[Slot], links: &Links) -> usize
        requires low { self.now.from ≤ first_placed (is_at self.now.pod) slots.now }
        requires linked { AreLinked links.now slots.now }
        requires few { length slots.now ≤ 40000 }
        ensures { result ≡ first_placed (is_at p) slots.now }
    {
        if p == self.pod {
            return links.next_at(p, self.from, slots);
        }
        links.first_at(p, slots)
    }
}
