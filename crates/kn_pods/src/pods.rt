ghost use Rattle.std.specs.Prelude.{◌≡◌, ℕ, true, ◌+◌, ◌^◌, ◌<◌, ◌≤◌, ◌++◌, nat_le, find, [], ◌∷◌, length, take, IfOk, Some, if◌then◌else◌};
ghost use Rattle.kn_event.specs.declared.entry.Row.TheVariants as row;
ghost use Rattle.kn_event.specs.declared.event.Act.TheVariants as act;
ghost use Rattle.kn_event.specs.declared.revision.Spec.{Spec};
ghost use Rattle.kn_event.specs.Lists.{contains};
ghost use Rattle.kn_trace.specs.Events.{act_row};
ghost use Rattle.kn_trace.specs.Scale.{count_ready, scale_rows};
ghost use Rattle.kn_trace.specs.Trace.{Trace, entry, live_pods, next_starting};
ghost use Rattle.kn_record.specs.Made.{IsMade, IsProper};
ghost use Rattle.kn_pods.specs.Pods.{GoesOn, ArePodsOf, after_row, after_rows, creations, drain_order_of, drains, is_live, lost_row, ready_row, rows_of_scale};

use crate::laws::row_laws;
use crate::numbers::Numbers;
use kn_event::{Entry, EntryLog, Memory, Row};
use std::alloc::Global;
use std::marker::Model;

/// What a pod that is said to be Ready is answered.
#[derive(Clone, Copy)]
pub enum PodAnswer {
    /// It was Starting, and is Ready now.
    Done,
    /// It is live, and not Starting.
    NotStarting,
    /// No live pod has this number.
    NoPod,
}

/// The live pods of a revision, by how far they are, and how many were created. All memory is taken once.
///
/// Contracts see the numbers of the Starting, the Ready and the draining pods, each list ascending, and say for which traces
/// they stand. A pod's limit is at most 1,000, and 0 is no limit; it goes into the row and is not kept.
pub struct Pods {
    created: u64,
    starting: Numbers,
    ready: Numbers,
    draining: Numbers,
}

impl Drop for Pods {
    fn drop(self) {
        let Pods {
            created: _,
            starting: _,
            ready: _,
            draining: _,
        } = self;
    }
}

impl Model for Pods {
    ghost use Rattle.kn_pods.specs.Pods.{PodsState};
    ghost use Rattle.kn_pods.specs.Kept.{IsKept};

    ghost Value = { PodsState };

    ghost view = { λ p. record { created = p.created; starting = p.starting.items; ready = p.ready.items; draining = p.draining.items } };

    ghost invariant = { λ p. IsKept p.created p.starting p.ready p.draining };
}

impl Pods {
    ghost use Rattle.kn_pods.specs.Answer.{row_of};

    /// The most pods that don't drain.
    const SCALE_MOST: usize = 500;

    /// The most live pods.
    const LIVE_MOST: usize = 20500;

    /// No pod yet. It takes all the memory that it will ever have.
    pub fn new(alloc: Global) -> Result<Pods, Memory>
        ensures { IfOk result (λ pods. ArePodsOf pods []) }
    {
        row_laws();
        let starting = Numbers::new(alloc, Pods::SCALE_MOST)?;
        let ready = Numbers::new(alloc, Pods::SCALE_MOST)?;
        let draining = Numbers::new(alloc, Pods::LIVE_MOST)?;
        Ok(Pods {
            created: 0,
            starting,
            ready,
            draining,
        })
    }

    /// How many pods don't drain.
    fn standing(&self) -> u64
        ensures count { result ≡ length (drain_order_of self.now) }
        ensures most { result ≤ 500 }
    {
        self.starting.len() + self.ready.len()
    }

    /// The next pod, which is Starting.
    fn create_next(&mut self) -> u64
        requires few { length (drain_order_of self.old) < 500 }
        requires created { self.old.created + 1 < 2 ^ 64 }
        ensures number { result ≡ self.old.created }
        ensures standing { length (drain_order_of self.new) ≡ length (drain_order_of self.old) + 1 }
        ensures created { self.new.created ≡ self.old.created + 1 }
        ensures changed { (limit : ℕ) → self.new ≡ after_row (row.Create result limit) self.old }
        ensures goes { (t limit : ℕ) → GoesOn self.old self.new (entry t (row.Create result limit) ∷ []) }
    {
        row_laws();
        let p = self.created;
        self.starting.push(p);
        self.created += 1;
        p
    }

    /// The pod that drains next.
    #[tactic(auto, using(crate::proofs::Steps::came_without))]
    fn drain_next(&mut self) -> u64
        requires some { 0 < length (drain_order_of self.old) }
        requires room { length self.old.draining < 20500 }
        ensures first { drain_order_of self.old ≡ result ∷ drain_order_of self.new }
        ensures draining { length self.new.draining ≤ length self.old.draining + 1 }
        ensures changed { self.new ≡ after_row (row.Drain result) self.old }
        ensures goes { (t : ℕ) → GoesOn self.old self.new (entry t (row.Drain result) ∷ []) }
    {
        row_laws();
        match self.starting.pop() {
            Some(p) => {
                self.draining.insert(p);
                p
            }
            None => {
                let p = self.ready.pop().unwrap();
                self.draining.insert(p);
                p
            }
        }
    }

    fn create(&mut self, count: u64, limit: u64, time: u64, log: &mut EntryLog)
        requires few { length (drain_order_of self.old) + count ≤ 500 }
        requires created { self.old.created + count < 2 ^ 64 }
        requires room { length log.old + count ≤ 65536 }
        ensures logged { log.new ≡ log.old ++ creations limit time self.old.created count }
        ensures changed { self.new ≡ after_rows (creations limit time self.old.created count) self.old }
        ensures goes { GoesOn self.old self.new (creations limit time self.old.created count) }
    {
        for _ in 0..count {
            let p = self.create_next();
            log.put(Entry {
                time,
                row: Row::Create(p, limit),
            });
        }
    }

    fn drain(&mut self, count: u64, time: u64, log: &mut EntryLog)
        requires some { count ≤ length (drain_order_of self.old) }
        requires draining { length self.old.draining + count ≤ 20500 }
        requires room { length log.old + count ≤ 65536 }
        ensures logged { log.new ≡ log.old ++ drains time (take count (drain_order_of self.old)) }
        ensures changed { self.new ≡ after_rows (drains time (take count (drain_order_of self.old))) self.old }
        ensures goes { GoesOn self.old self.new (drains time (take count (drain_order_of self.old))) }
    {
        for _ in 0..count {
            let p = self.drain_next();
            log.put(Entry {
                time,
                row: Row::Drain(p),
            });
        }
    }

    /// As many pods that don't drain as are wanted, 500 at most: it creates pods with this limit, or drains some, Starting
    /// ones before Ready ones, of each the one with the greatest number first. Each row goes into the log, with this time in
    /// milliseconds.
    pub fn apply(&mut self, want: u64, limit: u64, time: u64, log: &mut EntryLog)
        requires want { want ≤ 500 }
        requires draining { length self.old.draining ≤ 20000 }
        requires created { self.old.created < 2 ^ 63 }
        requires room { length log.old ≤ 65036 }
        ensures rows { log.new ≡ log.old ++ rows_of_scale want limit time self.old }
        ensures changed { self.new ≡ after_rows (rows_of_scale want limit time self.old) self.old }
        ensures logged { (s : Spec) (c : Trace) → IsMade s c → ArePodsOf self.old c → s.cc ≡ limit → log.new ≡ log.old ++ scale_rows s time c want }
        ensures made { (s : Spec) (c : Trace) → IsMade s c → ArePodsOf self.old c → s.cc ≡ limit → IsMade s (c ++ scale_rows s time c want) }
        ensures stands { (s : Spec) (c : Trace) → IsMade s c → ArePodsOf self.old c → s.cc ≡ limit → ArePodsOf self.new (c ++ scale_rows s time c want) }
    {
        let standing = self.standing();
        if standing < want {
            self.create(want - standing, limit, time, log);
        } else {
            self.drain(standing - want, time, log);
        }
    }

    /// A pod is said to be Ready, which a Starting one is from now on. Nothing else changes.
    #[tactic(auto, using(crate::proofs::Steps::came_without))]
    pub fn ready(&mut self, p: u64) -> PodAnswer
        ensures answer { row_of p result ≡ ready_row p self.old }
        ensures changed { self.new ≡ after_row (row_of p result) self.old }
        ensures act { (s : Spec) (c : Trace) → IsMade s c → ArePodsOf self.old c → act_row s c (act.Ready p) ≡ Some (row_of p result) }
        ensures stands { (s : Spec) (c : Trace) (t : ℕ) → IsMade s c → ArePodsOf self.old c → ArePodsOf self.new (c ++ entry t (row_of p result) ∷ []) }
    {
        row_laws();
        if self.starting.remove(p) {
            self.ready.insert(p);
            PodAnswer::Done
        } else if self.live(p) {
            PodAnswer::NotStarting
        } else {
            PodAnswer::NoPod
        }
    }

    /// Whether a live pod has this number.
    pub fn live(&self, p: u64) -> bool
        ensures value { result ≡ is_live p self.now }
        ensures trace { (s : Spec) (c : Trace) → IsMade s c → ArePodsOf self.now c → result ≡ contains p (live_pods c) }
    {
        row_laws();
        self.starting.contains(p) || self.ready.contains(p) || self.draining.contains(p)
    }

    /// A pod that drains is gone.
    pub fn removed(&mut self, p: u64)
        requires { contains p self.old.draining ≡ true }
        ensures changed { self.new ≡ after_row (row.Remove p) self.old }
        ensures stands { (s : Spec) (c : Trace) (t : ℕ) → IsMade s c → IsProper s c (row.Remove p) → ArePodsOf self.old c → ArePodsOf self.new (c ++ entry t (row.Remove p) ∷ []) }
    {
        row_laws();
        let _ = self.draining.remove(p);
    }

    /// A pod vanishes: true; false exactly where none with this number is live, and then nothing changes.
    #[tactic(auto, using(crate::proofs::Steps::came_without))]
    pub fn lost(&mut self, p: u64) -> bool
        ensures value { result ≡ is_live p self.old }
        ensures changed { self.new ≡ after_row (lost_row p result) self.old }
        ensures act { (s : Spec) (c : Trace) → IsMade s c → ArePodsOf self.old c → act_row s c (act.Lost p) ≡ Some (lost_row p result) }
        ensures stands { (s : Spec) (c : Trace) (t : ℕ) → IsMade s c → IsProper s c (lost_row p result) → ArePodsOf self.old c → ArePodsOf self.new (c ++ entry t (lost_row p result) ∷ []) }
    {
        row_laws();
        let starting = self.starting.remove(p);
        let ready = self.ready.remove(p);
        let draining = self.draining.remove(p);
        starting || ready || draining
    }

    /// How many pods are Ready.
    #[tactic(auto, unfolding(kn_trace::specs::Scale::count_ready))]
    pub fn count_ready(&self) -> u64
        ensures value { result ≡ length self.now.ready }
        ensures trace { (c : Trace) → ArePodsOf self.now c → result ≡ count_ready c }
    {
        self.ready.len()
    }

    /// How many pods are Starting.
    pub fn count_starting(&self) -> u64
        ensures { result ≡ length self.now.starting }
    {
        self.starting.len()
    }

    /// The least Starting pod that is not below this number; none exactly where there is none.
    #[tactic(auto, unfolding(kn_trace::specs::Trace::next_starting))]
    pub fn next_starting(&self, from: u64) -> Option<u64>
        ensures value { result ≡ find (λ p. nat_le from p) self.now.starting }
        ensures trace { (c : Trace) → ArePodsOf self.now c → result ≡ next_starting c from }
    {
        self.starting.next_from(from)
    }

    /// How many pods drain.
    pub fn count_draining(&self) -> u64
        ensures { result ≡ length self.now.draining }
    {
        self.draining.len()
    }

    /// Whether a pod of this number drains.
    pub fn is_draining(&self, p: u64) -> bool
        ensures { result ≡ contains p self.now.draining }
    {
        self.draining.contains(p)
    }

    /// How many pods were created, which is the number of the next one.
    pub fn count_created(&self) -> u64
        ensures { result ≡ self.now.created }
    {
        self.created
    }
}
