//! Queues whose cells lie in room that was taken before, so that no change of one takes memory.
ghost use Rattle.std.specs.Prelude.{◌≡◌, ℕ, ◌^◌, ◌<◌, length, slice_index, vec_capacity, Contains, IfOk, IsTrue, MatchOption};
ghost use Rattle.kn_seats.specs.Cells.{AreInside, IsBefore};
ghost use Rattle.kn_seats.specs.Chains.{requests_in};

use std::alloc::{AllocError, Global};

/// Cells for requests. What stands at one place of `request`, `next` and `home` is one cell: its request, the place of the
/// cell behind it, and the pod in whose queue it is, if it is in one. `spare` has the places of the cells that are in no
/// queue; the last of them is taken first.
#[derive(Drop)]
pub struct Cells {
    pub request: Vec<u64>,
    pub next: Vec<usize>,
    pub home: Vec<Option<u64>>,
    pub spare: Vec<usize>,
}

impl Cells {
    ghost use Rattle.kn_seats.specs.Cells.{CanTake, IsMade, IsNew, IsTaken, Leads, LeadsAlike};

    /// No cells yet, and room for so many. Each is made when it is first wanted, so that a start writes none.
    pub fn new(alloc: Global, count: usize) -> Result<Cells, AllocError>
        ensures { IfOk result (λ cells. IsNew count cells) }
    {
        Ok(Cells {
            request: Vec::with_capacity(alloc, count)?,
            next: Vec::with_capacity(alloc, count)?,
            home: Vec::with_capacity(alloc, count)?,
            spare: Vec::with_capacity(alloc, count)?,
        })
    }

    /// The place of a cell for a request at a pod: the last that is spare, or else one that is made.
    #[inline(always)]
    fn take(&mut self, p: u64, r: u64) -> usize
        requires { CanTake self.old }
        ensures taken { IsTaken p r result self.old self.new }
        ensures next { LeadsAlike self.old self.new }
    {
        match self.spare.pop() {
            Some(place) => {
                self.request[place] = r;
                self.home[place] = Some(p);
                place
            }
            None => self.make(p, r),
        }
    }

    /// The place of one more cell. It leads nowhere yet.
    #[inline(never)]
    fn make(&mut self, p: u64, r: u64) -> usize
        requires request { length self.old.request.items < vec_capacity self.old.request }
        requires next { length self.old.next.items < vec_capacity self.old.next }
        requires home { length self.old.home.items < vec_capacity self.old.home }
        ensures { IsMade p r result self.old self.new }
    {
        let place = self.request.len();
        self.request.push_reserved(r);
        self.next.push_reserved(0);
        self.home.push_reserved(Some(p));
        place
    }

    /// Whether the cell at this place is in a pod's queue, and leads to one with this request.
    pub fn leads(&self, place: usize, p: u64, r: u64) -> bool
        ensures { IsTrue result → Leads self.now place p r }
    {
        if place >= self.home.len() || place >= self.next.len() {
            return false;
        }
        let behind = self.next[place];
        if behind >= self.request.len() || self.request[behind] != r {
            return false;
        }
        match self.home[place] {
            Some(home) => home == p,
            None => false,
        }
    }
}

/// A queue: the places of its first and last cells, and how many it has. Without any, both places mean nothing.
#[derive(Clone, Copy)]
pub struct Queue {
    pub first: usize,
    pub last: usize,
    pub count: usize,
}

impl Queue {
    ghost use Rattle.kn_seats.specs.Cells.{CanTake, CanUnlink, IsQueued, IsDequeued, IsUnlinked};

    /// A queue without requests.
    pub fn empty() -> Queue
        ensures { result ≡ record { first = 0; last = 0; count = 0 } }
    {
        Queue {
            first: 0,
            last: 0,
            count: 0,
        }
    }

    /// Queues a request last at a pod whose queue this is, in a cell that is spare or made now.
    #[inline(always)]
    pub fn push(&mut self, p: u64, r: u64, cells: &mut Cells)
        requires cell { CanTake cells.old }
        requires last { 0 < self.old.count → self.old.last < length cells.old.next.items }
        requires fits { self.old.count < 2 ^ 63 }
        ensures { IsQueued p r self.old cells.old self.new cells.new }
    {
        let place = cells.take(p, r);
        if self.count == 0 {
            self.first = place;
        } else {
            cells.next[self.last] = place;
        }
        self.last = place;
        self.count += 1;
    }

    /// Takes the first request from the queue. Its cell is spare then.
    #[inline(always)]
    pub fn pop(&mut self, cells: &mut Cells) -> u64
        requires some { 0 < self.old.count }
        requires request { self.old.first < length cells.old.request.items }
        requires next { self.old.first < length cells.old.next.items }
        requires home { self.old.first < length cells.old.home.items }
        requires room { length cells.old.spare.items < vec_capacity cells.old.spare }
        ensures first { result ≡ slice_index cells.old.request.items self.old.first }
        ensures changed { IsDequeued self.old cells.old self.new cells.new }
    {
        let place = self.first;
        self.first = cells.next[place];
        self.count -= 1;
        cells.home[place] = None;
        cells.spare.push_reserved(place);
        cells.request[place]
    }

    /// Takes the request behind this place from the queue. Its cell is spare then.
    pub fn unlink(&mut self, before: usize, cells: &mut Cells)
        requires { CanUnlink before self.old cells.old }
        ensures { IsUnlinked before self.old cells.old self.new cells.new }
    {
        let place = cells.next[before];
        cells.next[before] = cells.next[place];
        if self.last == place {
            self.last = before;
        }
        self.count -= 1;
        cells.home[place] = None;
        cells.spare.push_reserved(place);
    }
}

/// The place of the cell that leads to this request, to the first of them if it stands there twice. None where the first cell
/// has it.
pub fn leading_to(queue: Queue, r: u64, cells: &Cells) -> Option<usize>
    requires queued { Contains (requests_in cells.now.request.items cells.now.next.items queue.first queue.count) r }
    requires inside { AreInside queue cells.now }
    ensures { MatchOption result (slice_index cells.now.request.items queue.first ≡ r) (IsBefore r queue cells.now) }
{
    if cells.request[queue.first] == r {
        return None;
    }
    let mut place = queue.first;
    for _ in 1..queue.count {
        let behind = cells.next[place];
        if cells.request[behind] == r {
            return Some(place);
        }
        place = behind;
    }
    unreachable!()
}
