//! The seats at all pods. A pod is found by a hint, or else by a binary search over the numbers, which rise.
ghost use Rattle.std.specs.Prelude.{true, ◌≡◌, ◌+◌, ◌-◌, ◌<◌, ◌≤◌, [], ◌∷◌, ◌++◌, None, drop, length, slice_get, IsTrue, IfOk, OnSome, IfNone, Contains, All, not, nat_lt, ◌&&◌, if◌then◌else◌};
ghost use Rattle.std.specs.Bool.{OnFalse, OnTrue};
ghost use Rattle.kn_seats.specs.Cells.{CanUnlink, IsUnlinked};

use crate::cells::{Cells, Queue, leading_to};
use crate::tracker::Tracker;
use kn_event::{Memory, PlaceHints};
use std::alloc::Global;
use std::marker::Model;

/// A pod at which one has ended: whether the first that is queued there may run, and whether the pod drains.
#[derive(Clone, Copy)]
pub struct Freed {
    pub next: bool,
    pub draining: bool,
}

/// A pod's limit, where 0 is no limit, and how many requests run and are queued there.
#[derive(Clone, Copy)]
pub struct Load {
    pub limit: u64,
    pub running: u64,
    pub queued: u64,
}

/// Pods, and the requests that run and are queued at each. Room for pods and requests is taken once.
///
/// Contracts see the list of the pods in the order of their numbers, and both rooms. A pod limit is at most 1,000.
/// Each call but `new` and `add` names a pod that is there, and none but `new` takes memory. Each says how many
/// requests are at pods afterwards, since room left is a condition of `reserve_seat` and `queue_at`.
pub struct Seats {
    pods: Vec<Tracker>,
    hints: PlaceHints,
    cells: Cells,
    // where the cell before that of a request may be
    before: PlaceHints,
    pod_room: u64,
    request_room: u64,
}

impl Drop for Seats {
    fn drop(self) {
        let Seats {
            pods: _,
            hints: _,
            cells: _,
            before: _,
            pod_room: _,
            request_room: _,
        } = self;
    }
}

impl Model for Seats {
    ghost use Rattle.std.specs.Prelude.{◌≤◌, map, vec_capacity};
    ghost use Rattle.kn_seats.specs.Seats.{State};
    ghost use Rattle.kn_seats.specs.Kept.{IsHeld, seen};

    ghost Value = { State };

    ghost view = { λ s. record { pods = map (seen s.cells) s.pods.items; pod_room = s.pod_room; request_room = s.request_room } };

    ghost invariant = { λ s. record {
      held : IsHeld s.pods.items s.cells s.pod_room s.request_room;
      reserved : s.pod_room ≤ vec_capacity s.pods;
    } };
}

impl Seats {
    ghost use Rattle.kn_seats.specs.Pods.{idle_pod, requests_at, requests_at_all, has_free_seat, is_full, has_pod, pod_at, without_pod, without_request, StandsOnce};
    ghost use Rattle.kn_seats.specs.Seats.{change};
    ghost use Rattle.kn_seats.specs.Kept.{IsPlaceOf, queued_at_all};

    /// No pods yet, and room for so many of them and so many requests at them.
    pub fn new(alloc: Global, pods: u64, requests: u64) -> Result<Seats, Memory>
        requires pods { pods ≤ 20500 }
        requires requests { requests ≤ 20000 }
        ensures { IfOk result (λ seats. seats ≡ record { pods = []; pod_room = pods; request_room = requests }) }
    {
        let Ok(cells) = Cells::new(alloc, requests as usize) else {
            return Err(Memory);
        };
        let Ok(held) = Vec::with_capacity(alloc, pods as usize) else {
            return Err(Memory);
        };
        let hints = PlaceHints::new(alloc)?;
        let before = PlaceHints::new(alloc)?;
        Ok(Seats {
            pods: held,
            hints,
            cells,
            before,
            pod_room: pods,
            request_room: requests,
        })
    }

    /// Adds a pod without requests. Its number is above all others.
    pub fn add(&mut self, p: u64, limit: u64)
        requires last { All (λ pod. pod.number < p) self.old.pods }
        requires room { length self.old.pods < self.old.pod_room }
        requires limit { limit ≤ 1000 }
        ensures added { self.new ≡ record self.old { pods = self.old.pods ++ idle_pod p limit ∷ [] } }
        ensures counted { requests_at_all self.new.pods ≡ requests_at_all self.old.pods }
    {
        self.hints.set(p, self.pods.len());
        self.pods.push_reserved(Tracker::idle(p, limit));
    }

    /// Changes a pod's limit; 0 is no limit. Who runs or is queued there stays.
    pub fn set_limit(&mut self, p: u64, n: u64)
        requires there { IsTrue (has_pod p self.old.pods) }
        requires limit { n ≤ 1000 }
        ensures changed { self.new ≡ change p (λ pod. record pod { limit = n }) self.old }
        ensures counted { requests_at_all self.new.pods ≡ requests_at_all self.old.pods }
    {
        let place = self.place_of(p);
        self.pods[place].limit = n;
    }

    /// Marks a pod as draining.
    pub fn drain(&mut self, p: u64)
        requires there { IsTrue (has_pod p self.old.pods) }
        ensures changed { self.new ≡ change p (λ pod. record pod { draining = true }) self.old }
        ensures counted { requests_at_all self.new.pods ≡ requests_at_all self.old.pods }
    {
        let place = self.place_of(p);
        self.pods[place].draining = true;
    }

    /// Removes a pod that drains and has no request.
    pub fn remove(&mut self, p: u64)
        requires there { IsTrue (has_pod p self.old.pods) }
        requires draining { IsTrue (pod_at p self.old.pods).draining }
        requires none { requests_at (pod_at p self.old.pods) ≡ 0 }
        ensures removed { self.new ≡ record self.old { pods = without_pod p self.old.pods } }
        ensures counted { requests_at_all self.new.pods ≡ requests_at_all self.old.pods }
    {
        let place = self.place_of(p);
        let _ = self.pods.remove(place);
        hint_from(&self.pods, place, &mut self.hints);
    }

    /// Lets one more request run at a pod, where a seat is free there.
    #[inline]
    pub fn reserve_seat(&mut self, p: u64) -> bool
        requires there { IsTrue (has_pod p self.old.pods) }
        requires room { requests_at_all self.old.pods < self.old.request_room }
        ensures free { result ≡ has_free_seat (pod_at p self.old.pods) }
        ensures reserved { OnTrue result (self.new ≡ change p (λ pod. record pod { running = pod.running + 1 }) self.old) }
        ensures counted { OnTrue result (requests_at_all self.new.pods ≡ requests_at_all self.old.pods + 1) }
        ensures refused { OnFalse result (self.new ≡ self.old) }
    {
        let place = self.place_of(p);
        let pod = &mut self.pods[place];
        if !pod.has_free_seat() {
            return false;
        }
        pod.running += 1;
        true
    }

    /// Queues a request last at a pod, unless the pod is full.
    #[inline(always)]
    pub fn queue_at(&mut self, p: u64, r: u64) -> bool
        requires there { IsTrue (has_pod p self.old.pods) }
        requires room { requests_at_all self.old.pods < self.old.request_room }
        ensures not_full { result ≡ not (is_full (pod_at p self.old.pods)) }
        ensures queued { OnTrue result (self.new ≡ change p (λ pod. record pod { queued = pod.queued ++ r ∷ [] }) self.old) }
        ensures counted { OnTrue result (requests_at_all self.new.pods ≡ requests_at_all self.old.pods + 1) }
        ensures refused { OnFalse result (self.new ≡ self.old) }
    {
        let place = self.place_of(p);
        let pod = &mut self.pods[place];
        if pod.is_full() {
            return false;
        }
        self.before.set(r, pod.queue.last);
        pod.queue.push(pod.number, r, &mut self.cells);
        true
    }

    /// Lets the first request that is queued at a pod run, where a seat is free there. Answers the request.
    #[inline]
    pub fn promote(&mut self, p: u64) -> Option<u64>
        requires there { IsTrue (has_pod p self.old.pods) }
        ensures answer { result ≡ (if has_free_seat (pod_at p self.old.pods) then slice_get (pod_at p self.old.pods).queued 0 else None) }
        ensures promoted { OnSome result (self.new ≡
            change p (λ pod. record pod { queued = drop 1 pod.queued; running = pod.running + 1 }) self.old) }
        ensures refused { IfNone result (self.new ≡ self.old) }
        ensures counted { requests_at_all self.new.pods ≡ requests_at_all self.old.pods }
    {
        let place = self.place_of(p);
        let tracker = &mut self.pods[place];
        if tracker.queue.count == 0 {
            return None;
        }
        if !tracker.has_free_seat() {
            return None;
        }
        let r = tracker.queue.pop(&mut self.cells);
        tracker.running += 1;
        Some(r)
    }

    /// Takes a request that is queued at a pod out of its queue, the first of them if it stands there twice.
    pub fn unqueue(&mut self, p: u64, r: u64)
        requires there { IsTrue (has_pod p self.old.pods) }
        requires queued { Contains (pod_at p self.old.pods).queued r }
        ensures changed { self.new ≡ change p (λ pod. record pod { queued = without_request r pod.queued }) self.old }
        ensures counted { requests_at_all self.new.pods + 1 ≡ requests_at_all self.old.pods }
    {
        let place = self.place_of(p);
        let queue = &mut self.pods[place].queue;
        match leading_to(*queue, r, &self.cells) {
            None => {
                let _ = queue.pop(&mut self.cells);
            }
            Some(before) => cut_out(before, queue, &mut self.cells, &mut self.before),
        }
    }

    /// As `unqueue`, for a request that stands in the queue once. It is unlinked where it lies, and looked for along the queue
    /// only where another one, whose number lies a multiple of 32,768 away, has had its hint since.
    pub fn unlink(&mut self, p: u64, r: u64)
        requires there { IsTrue (has_pod p self.old.pods) }
        requires once { StandsOnce r (pod_at p self.old.pods).queued }
        ensures changed { self.new ≡ change p (λ pod. record pod { queued = without_request r pod.queued }) self.old }
        ensures counted { requests_at_all self.new.pods + 1 ≡ requests_at_all self.old.pods }
    {
        let place = self.place_of(p);
        let pod = self.pods[place];
        let before = self.before.get(r);
        if before == pod.queue.last || !self.cells.leads(before, pod.number, r) {
            self.unqueue(p, r);
            return;
        }
        let queue = &mut self.pods[place].queue;
        cut_out(before, queue, &mut self.cells, &mut self.before);
    }

    /// Ends one that is running at a pod, and answers what may follow there.
    #[inline(always)]
    pub fn give_back(&mut self, p: u64) -> Freed
        requires there { IsTrue (has_pod p self.old.pods) }
        requires running { 0 < (pod_at p self.old.pods).running }
        ensures changed { self.new ≡ change p (λ pod. record pod { running = pod.running - 1 }) self.old }
        ensures counted { requests_at_all self.new.pods + 1 ≡ requests_at_all self.old.pods }
        ensures next { result.next ≡ (has_free_seat (pod_at p self.new.pods) && nat_lt 0 (length (pod_at p self.new.pods).queued)) }
        ensures draining { result.draining ≡ (pod_at p self.new.pods).draining }
    {
        let place = self.place_of(p);
        let pod = &mut self.pods[place];
        pod.running -= 1;
        Freed {
            next: pod.has_next(),
            draining: pod.draining,
        }
    }

    /// A pod's limit; 0 is no limit.
    pub fn limit(&self, p: u64) -> u64
        requires { IsTrue (has_pod p self.now.pods) }
        ensures { result ≡ (pod_at p self.now.pods).limit }
    {
        self.tracker(p).limit
    }

    /// How many run at a pod.
    pub fn running(&self, p: u64) -> u64
        requires { IsTrue (has_pod p self.now.pods) }
        ensures { result ≡ (pod_at p self.now.pods).running }
    {
        self.tracker(p).running
    }

    /// How many are queued at a pod.
    pub fn queued(&self, p: u64) -> u64
        requires { IsTrue (has_pod p self.now.pods) }
        ensures { result ≡ length (pod_at p self.now.pods).queued }
    {
        self.tracker(p).queue.count as u64
    }

    /// What a pod has to bear, looked up at once.
    #[inline]
    pub fn load(&self, p: u64) -> Load
        requires { IsTrue (has_pod p self.now.pods) }
        ensures limit { result.limit ≡ (pod_at p self.now.pods).limit }
        ensures running { result.running ≡ (pod_at p self.now.pods).running }
        ensures queued { result.queued ≡ length (pod_at p self.now.pods).queued }
    {
        let pod = self.tracker(p);
        Load {
            limit: pod.limit,
            running: pod.running,
            queued: pod.queue.count as u64,
        }
    }

    /// How many are queued at all pods together.
    pub fn queued_at_all(&self) -> u64
        ensures { result ≡ queued_at_all self.now.pods }
    {
        (self.cells.request.len() - self.cells.spare.len()) as u64
    }

    /// The tracker of the pod of this number.
    fn tracker(&self, p: u64) -> &Tracker
        requires { IsTrue (has_pod p self.now.pods) }
        ensures limit { result.now.limit ≡ (pod_at p self.now.pods).limit }
        ensures running { result.now.running ≡ (pod_at p self.now.pods).running }
        ensures queued { result.now.queue.count ≡ length (pod_at p self.now.pods).queued }
    {
        let place = self.place_of(p);
        &self.pods[place]
    }

    /// Where the pod of this number stands: where the hint says, or else where a search finds it.
    #[inline]
    fn place_of(&self, p: u64) -> usize
        requires { IsTrue (has_pod p self.now.pods) }
        ensures { IsPlaceOf p self.now.pods result }
    {
        let guess = self.hints.get(p);
        if guess < self.pods.len() && self.pods[guess].number == p {
            return guess;
        }
        self.search(p)
    }

    #[inline(never)]
    fn search(&self, p: u64) -> usize
        requires { IsTrue (has_pod p self.now.pods) }
        ensures { IsPlaceOf p self.now.pods result }
    {
        self.pods
            .binary_search_by_key(&p, |pod| pod.number)
            .unwrap()
    }
}

/// The pods from this place on stand where they stand now.
fn hint_from(pods: &[Tracker], place: usize, hints: &mut PlaceHints) {
    for i in place..pods.len() {
        hints.set(pods[i].number, i);
    }
}

/// Takes the request behind this cell from its queue. Whoever stood behind it stands behind this cell from now on.
fn cut_out(before: usize, queue: &mut Queue, cells: &mut Cells, hints: &mut PlaceHints)
    requires { CanUnlink before queue.old cells.old }
    ensures { IsUnlinked before queue.old cells.old queue.new cells.new }
{
    queue.unlink(before, cells);
    let place = cells.next[before];
    if before != queue.last && place < cells.request.len() {
        hints.set(cells.request[place], before);
    }
}
