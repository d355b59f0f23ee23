ghost use Rattle.std.specs.Prelude.{◌≡◌, ◌==◌, ◌+◌, ◌<◌, ◌≤◌, ℕ, Bool, true, false, List, [], ◌∷◌, ◌++◌, All, IfNone, IfOk, IfSome, IsSome, Some, filter, find, is_some, length, nat_le, vec_capacity};
ghost use Rattle.kn_event.specs.Lists.{contains};
ghost use Rattle.kn_trace.specs.Events.{live_most};
ghost use Rattle.kn_trace.specs.Trace.{first_of};
ghost use Rattle.kn_record.specs.declared.admission.Place.{Place};
ghost use Rattle.kn_record.specs.declared.admission.Place.TheVariants as place;
ghost use Rattle.kn_record.specs.declared.admission.Request.{Request};
ghost use Rattle.kn_record.specs.Admission.{begins, is_at, is_held_place, moved, placed_in, queues_at, waits, without};
ghost use Rattle.kn_record.specs.Views.{due_in, numbers_in};
ghost use Rattle.kn_table.specs.Links.{AreLinked, AreSame};
ghost use Rattle.kn_table.specs.Moves.{IsAssigned, IsRemoved, Leaves, Moves, waits_or_runs};
ghost use Rattle.kn_table.specs.Order.{IsOrdered};
ghost use Rattle.kn_table.specs.Slots.{AreFirst, AreInOrder, AreKept, IsHeldAt, IsNext, IsPlaceOf, is_live, live_of};

use crate::cursors::{Cursors, number_at, request_at};
use crate::hints::Hints;
use crate::links::Links;
use crate::slot::{PlaceKind, Slot, begun, is_after, place_of, slot_of, sweep};
use kn_event::Memory;
use kn_record::{Place, Request};
use std::alloc::Global;
use std::marker::Model;

/// How many slots there is room for: twice as many as requests may be live.
const ROOM: usize = 40_000;

/// Live requests in the order of their numbers, at most 20,000 of them. Contracts see the list.
///
/// A request that ended leaves its slot with a mark. All these are swept out once no slot is left, which happens after
/// at least 20,000 ends.
pub struct Table {
    slots: Vec<Slot>,
    hints: Hints,
    links: Links,
    live: u64,
    cursors: Cursors,
}

impl Drop for Table {
    fn drop(self) {
        let Table {
            slots: _,
            hints: _,
            links: _,
            live: _,
            cursors: _,
        } = self;
    }
}

impl Model for Table {
    ghost use Rattle.std.specs.Prelude.{◌≤◌, List, vec_capacity};
    ghost use Rattle.kn_record.specs.declared.admission.Request.{Request};
    ghost use Rattle.kn_table.specs.Links.{AreLinked};
    ghost use Rattle.kn_table.specs.Slots.{AreKept, live_of};

    ghost Value = { List Request };

    ghost view = { λ t. live_of t.slots.items };

    ghost invariant = { λ t. record {
      kept : AreKept t.slots.items t.live t.cursors;
      linked : AreLinked t.links t.slots.items;
      room : 40000 ≤ vec_capacity t.slots;
    } };
}

/// Whether so many milliseconds have passed at this time.
fn is_over(since: u64, timeout_ms: u64, time: u64) -> bool
    ensures { result ≡ nat_le (since + timeout_ms) time }
{
    timeout_ms <= time && since <= time - timeout_ms
}

/// Sweeps out the requests that have ended, where no slot is left, or where one of them isn't before this request.
#[inline]
fn make_room(
    slots: &mut Vec<Slot>,
    hints: &mut Hints,
    links: &mut Links,
    cursors: &mut Cursors,
    request: &Request,
)
    requires linked { AreLinked links.old slots.old.items }
    requires order { AreInOrder slots.old.items }
    requires first { AreFirst cursors.old slots.old.items }
    requires few { length (live_of slots.old.items) < live_most }
    requires above { All (λ (q : Request). q.number < request.now.number) (live_of slots.old.items) }
    requires later { All (λ (q : Request). q.time ≤ request.now.time) (live_of slots.old.items) }
    ensures live { live_of slots.new.items ≡ live_of slots.old.items }
    ensures next { IsNext request.now slots.new.items }
    ensures linked { AreLinked links.new slots.new.items }
    ensures first { AreFirst cursors.new slots.new.items }
    ensures capacity { vec_capacity slots.new ≡ vec_capacity slots.old }
{
    if slots.len() < ROOM && is_after(request, slots) {
        return;
    }
    sweep_out(slots, hints, links, cursors);
}

/// Sweeps out the requests that have ended.
#[inline(never)]
fn sweep_out(slots: &mut Vec<Slot>, hints: &mut Hints, links: &mut Links, cursors: &mut Cursors)
    requires { length (live_of slots.old.items) ≤ live_most }
    ensures linked { AreLinked links.new slots.new.items }
    ensures items { slots.new.items ≡ filter is_live slots.old.items }
    ensures first { AreFirst cursors.new slots.new.items }
    ensures capacity { vec_capacity slots.new ≡ vec_capacity slots.old }
{
    sweep(slots);
    hints.set_all(slots);
    links.link_all(slots);
    *cursors = Cursors::new();
    cursors.advance(slots);
}

/// Lets the held request at a place run at a pod that it is assigned to.
#[inline(always)]
fn assign_at(slots: &mut Vec<Slot>, links: &mut Links, cursors: &mut Cursors, at: usize, p: u64)
    requires linked { AreLinked links.old slots.old.items }
    requires kept { (live : ℕ) × AreKept slots.old.items live cursors.old }
    requires held { (r : ℕ) × IsHeldAt r slots.old.items at }
    ensures kept { (live : ℕ) → AreKept slots.old.items live cursors.old → AreKept slots.new.items live cursors.new }
    ensures linked { AreLinked links.new slots.new.items }
    ensures assigned { (r : ℕ) → IsHeldAt r slots.old.items at → IsAssigned r p (live_of slots.old.items) (live_of slots.new.items) }
    ensures capacity { vec_capacity slots.new ≡ vec_capacity slots.old }
{
    slots[at].request.place = Place::Running(p, true);
    links.link(at, p);
    cursors.from = 0;
    cursors.leave(at, slots);
}

/// Takes the live request at a place out, and answers it.
#[inline(always)]
fn remove_at(slots: &mut Vec<Slot>, live: &mut u64, cursors: &mut Cursors, at: usize) -> Request
    requires kept { AreKept slots.old.items live.old cursors.old }
    requires there { (r : ℕ) × IsPlaceOf r slots.old.items at }
    ensures kept { AreKept slots.new.items live.new cursors.new }
    ensures same { AreSame slots.old.items slots.new.items }
    ensures removed { (r : ℕ) → IsPlaceOf r slots.old.items at → IsRemoved r result (live_of slots.old.items) (live_of slots.new.items) }
    ensures capacity { vec_capacity slots.new ≡ vec_capacity slots.old }
{
    let slot = &mut slots[at];
    slot.has_ended = true;
    let request = slot.request;
    *live -= 1;
    cursors.leave(at, slots);
    request
}

impl Table {
    /// No request yet. It takes all the memory that it will ever have.
    pub fn new(alloc: Global) -> Result<Table, Memory>
        ensures { IfOk result (λ table. table ≡ []) }
    {
        let hints = Hints::new(alloc)?;
        let links = Links::new(alloc)?;
        match Vec::with_capacity(alloc, ROOM) {
            Ok(slots) => Ok(Table {
                slots,
                hints,
                links,
                live: 0,
                cursors: Cursors::new(),
            }),
            Err(_) => Err(Memory),
        }
    }

    /// How many requests are live.
    pub fn len(&self) -> u64
        ensures len { result ≡ length self.now }
        ensures order { IsOrdered self.now }
    {
        self.live
    }

    /// Whether none is live.
    pub fn is_empty(&self) -> bool
        ensures { result ≡ (length self.now == 0) }
    {
        self.live == 0
    }

    /// Takes in one more request, whose number is above all others and whose time is not before theirs.
    #[inline(always)]
    pub fn push(&mut self, request: Request)
        requires room { length self.old < live_most }
        requires above { All (λ (q : Request). q.number < request.number) self.old }
        requires later { All (λ (q : Request). q.time ≤ request.time) self.old }
        ensures pushed { self.new ≡ self.old ++ request ∷ [] }
        ensures len { length self.new ≡ length self.old + 1 }
    {
        make_room(
            &mut self.slots,
            &mut self.hints,
            &mut self.links,
            &mut self.cursors,
            &request,
        );
        let end = self.slots.len();
        self.hints.set(request.number, end);
        self.slots.push_reserved(Slot {
            request,
            has_ended: false,
        });
        self.live += 1;
        self.links.link_at(end, request.place);
        self.cursors.pass(end, request.place);
    }

    /// The live request of this number.
    #[inline(always)]
    pub fn get(&self, r: u64) -> Option<Request>
        ensures found { result ≡ find (λ (q : Request). q.number == r) self.now }
        ensures number { IfSome result (λ q. q.number ≡ r) }
        ensures live { contains r (numbers_in self.now) ≡ is_some result }
        ensures place { IfSome result (λ q. (test : Place → Bool) → contains r (placed_in test self.now) ≡ test q.place) }
    {
        match place_of(&self.slots, self.hints.get(r), r) {
            Some(place) => Some(self.slots[place].request),
            None => None,
        }
    }

    /// Lets a held request run at a pod that it is assigned to.
    #[inline]
    pub fn assign(&mut self, r: u64, p: u64)
        requires { contains r (placed_in is_held_place self.old) ≡ true }
        ensures moved { self.new ≡ moved r (place.Running p true) self.old }
        ensures moves { Moves r place.Held (place.Running p true) self.old self.new }
        ensures len { length self.new ≡ length self.old }
    {
        let place = place_of(&self.slots, self.cursors.held, r).unwrap();
        assign_at(
            &mut self.slots,
            &mut self.links,
            &mut self.cursors,
            place,
            p,
        );
    }

    /// As `assign`, for the first request that is held.
    #[inline]
    pub fn assign_first(&mut self, p: u64)
        requires { IsSome (first_of (placed_in is_held_place self.old)) }
        ensures moved { (r : ℕ) → first_of (placed_in is_held_place self.old) ≡ Some r → self.new ≡ moved r (place.Running p true) self.old }
        ensures moves { (r : ℕ) → first_of (placed_in is_held_place self.old) ≡ Some r → Moves r place.Held (place.Running p true) self.old self.new }
        ensures len { length self.new ≡ length self.old }
    {
        let place = self.cursors.held;
        assign_at(
            &mut self.slots,
            &mut self.links,
            &mut self.cursors,
            place,
            p,
        );
    }

    /// Lets a request run at the pod where it is queued.
    #[inline(always)]
    pub fn run(&mut self, r: u64)
        requires { (p : ℕ) × (contains r (placed_in (queues_at p) self.old) ≡ true) }
        ensures begun { self.new ≡ begins r self.old }
        ensures moves { (p : ℕ) → contains r (placed_in (queues_at p) self.old) ≡ true → Moves r (place.Queued p) (place.Running p false) self.old self.new }
        ensures len { length self.new ≡ length self.old }
    {
        let place = place_of(&self.slots, self.hints.get(r), r).unwrap();
        let slot = &mut self.slots[place];
        slot.request.place = begun(slot.request.place);
        self.cursors.leave(place, &self.slots);
    }

    /// Takes a request out, and answers it.
    #[inline]
    pub fn remove(&mut self, r: u64) -> Request
        requires { contains r (numbers_in self.old) ≡ true }
        ensures removed { self.new ≡ without r self.old }
        ensures request { find (λ (q : Request). q.number == r) self.old ≡ Some result }
        ensures leaves { Leaves r result.place self.old self.new }
        ensures len { length self.new + 1 ≡ length self.old }
    {
        let place = place_of(&self.slots, self.hints.get(r), r).unwrap();
        remove_at(&mut self.slots, &mut self.live, &mut self.cursors, place)
    }

    /// Takes a request out that waits, or one that runs, and answers it. None where it is not live, or not so, and then
    /// nothing changes.
    #[inline(always)]
    pub fn remove_where(&mut self, r: u64, waiting: bool) -> Option<Request>
        ensures there { is_some result ≡ contains r (placed_in (waits_or_runs waiting) self.old) }
        ensures request { IfSome result (λ q. find (λ (q : Request). q.number == r) self.old ≡ Some q) }
        ensures removed { IfSome result (λ q. self.new ≡ without r self.old) }
        ensures leaves { IfSome result (λ q. Leaves r q.place self.old self.new) }
        ensures len { IfSome result (λ q. length self.new + 1 ≡ length self.old) }
        ensures unchanged { IfNone result (self.new ≡ self.old) }
    {
        let place = match slot_of(&self.slots, self.hints.get(r), r) {
            Some(place) => place,
            None => return None,
        };
        let slot = self.slots[place];
        if slot.has_ended {
            return None;
        }
        if PlaceKind::Waiting.includes(slot.request.place) != waiting {
            return None;
        }
        Some(remove_at(&mut self.slots, &mut self.live, &mut self.cursors, place))
    }

    /// As `remove`, for the first request at a pod that loses all of them one after the other: the next call of
    /// `first_at` for that pod looks no further back than here.
    pub fn lose(&mut self, r: u64) -> Request
        requires { contains r (numbers_in self.old) ≡ true }
        ensures removed { self.new ≡ without r self.old }
        ensures request { find (λ (q : Request). q.number == r) self.old ≡ Some result }
        ensures leaves { Leaves r result.place self.old self.new }
        ensures len { length self.new + 1 ≡ length self.old }
    {
        let request = self.remove(r);
        if let Place::Queued(p) | Place::Running(p, _) = request.place {
            self.cursors.from = self.cursors.first_at(p, &self.slots, &self.links);
            self.cursors.pod = p;
        }
        request
    }

    /// The first request that is held.
    #[inline]
    pub fn first_held(&self) -> Option<u64>
        ensures first { result ≡ first_of (placed_in is_held_place self.now) }
        ensures held { IfSome result (λ r. contains r (placed_in is_held_place self.now) ≡ true) }
    {
        number_at(&self.slots, self.cursors.held)
    }

    /// The first request that waits: held, or queued at a pod.
    pub fn first_waiting(&self) -> Option<Request>
        ensures first { result ≡ first_of (filter (λ (q : Request). waits q.place) self.now) }
        ensures live { IfSome result (λ q. contains q.number (numbers_in self.now) ≡ true) }
    {
        request_at(&self.slots, self.cursors.waiting)
    }

    /// The first request that has waited at least so many milliseconds at this time.
    #[inline(always)]
    pub fn first_due(&self, timeout_ms: u64, time: u64) -> Option<u64>
        ensures first { result ≡ first_of (due_in timeout_ms time self.now) }
        ensures live { IfSome result (λ r. contains r (numbers_in self.now) ≡ true) }
    {
        match request_at(&self.slots, self.cursors.waiting) {
            Some(request) => {
                if is_over(request.time, timeout_ms, time) {
                    return Some(request.number);
                }
                None
            }
            None => None,
        }
    }

    /// The first request that runs or is queued at a pod.
    pub fn first_at(&self, p: u64) -> Option<u64>
        ensures first { result ≡ first_of (placed_in (is_at p) self.now) }
        ensures live { IfSome result (λ r. contains r (numbers_in self.now) ≡ true) }
    {
        let place = self.cursors.first_at(p, &self.slots, &self.links);
        number_at(&self.slots, place)
    }
}
