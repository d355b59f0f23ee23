//! Pods come, change and go.
ghost use Rattle.std.specs.Prelude.{◌≡◌, ℕ, ◌+◌, ◌<◌, ◌≤◌, ◌^◌, ◌||◌, true, [], ◌∷◌, ◌++◌, length};
ghost use Rattle.kn_event.specs.declared.entry.Row.TheVariants as row;
ghost use Rattle.kn_event.specs.Lists.{contains};
ghost use Rattle.kn_trace.specs.Trace.{Trace, entry};
ghost use Rattle.kn_record.specs.Admission.{is_at, is_ready_now, is_starting_now, placed_in, pods_in};
ghost use Rattle.kn_record.specs.Made.{IsRecordOf};
ghost use Rattle.kn_record.specs.Views.{pod_numbers};
ghost use Rattle.kn_throttle.specs.Kept.{pods_room};

use super::Throttle;
use kn_event::Spec;
use kn_record::append::{append_laws, order_laws};
use kn_record::{Place, Pod, Readiness};
use kn_trace::Cand;

impl Throttle {
    ghost use Rattle.kn_throttle.specs.State.{with_row};

    /// A new pod of this limit, which is Starting; 0 is no limit. Its number is how many were created before it.
    #[tactic(auto, unfolding(kn_record::specs::Admission::stepped))]
    pub fn create(&mut self, p: u64, limit: u64)
        requires number { p ≡ self.old.admission.created }
        requires few { p < 2 ^ 63 }
        requires room { length self.old.admission.pods < pods_room }
        requires limit { limit ≤ 1000 }
        ensures after { (time : ℕ) → self.new ≡ with_row time (row.Create p limit) self.old }
        ensures stands { (c : Trace) (time : ℕ) → IsRecordOf self.old.admission c → IsRecordOf self.new.admission (c ++ entry time (row.Create p limit) ∷ []) }
    {
        append_laws();
        order_laws();
        self.pods.push(Pod {
            number: p,
            limit,
            readiness: Readiness::Starting,
        });
        self.seats.add(p, limit);
        self.created += 1;
    }

    /// A Starting pod is Ready.
    #[tactic(auto, unfolding(kn_record::specs::Admission::stepped))]
    pub fn pod_ready(&mut self, p: u64)
        requires { contains p (pods_in is_starting_now self.old.admission.pods) ≡ true }
        ensures after { (time : ℕ) → self.new ≡ with_row time (row.Ready p) self.old }
        ensures stands { (c : Trace) (time : ℕ) → IsRecordOf self.old.admission c → IsRecordOf self.new.admission (c ++ entry time (row.Ready p) ∷ []) }
    {
        append_laws();
        order_laws();
        self.pods.set_ready(p);
        self.candidates.insert(Cand {
            pod: p,
            limit: self.seats.limit(p),
            running: self.seats.running(p),
        });
        let capacity = self.candidates.capacity(most_running(&self.spec));
        self.breaker.set_capacity(capacity);
    }

    /// A live pod has another limit; 0 is no limit. Who runs there goes on.
    #[tactic(auto, unfolding(kn_record::specs::Admission::stepped))]
    pub fn set_limit(&mut self, p: u64, n: u64)
        requires there { contains p (pod_numbers self.old.admission.pods) ≡ true }
        requires limit { n ≤ 1000 }
        ensures after { (time : ℕ) → self.new ≡ with_row time (row.Limit p n) self.old }
        ensures stands { (c : Trace) (time : ℕ) → IsRecordOf self.old.admission c → IsRecordOf self.new.admission (c ++ entry time (row.Limit p n) ∷ []) }
    {
        append_laws();
        order_laws();
        self.pods.set_limit(p, n);
        self.seats.set_limit(p, n);
        self.candidates.set_limit(p, n);
        let capacity = self.candidates.capacity(most_running(&self.spec));
        self.breaker.set_capacity(capacity);
        self.to_run = self.to_run.with(p);
    }

    /// A pod that is Starting or Ready drains.
    #[tactic(auto, unfolding(kn_record::specs::Admission::stepped))]
    pub fn drain(&mut self, p: u64)
        requires { (contains p (pods_in is_starting_now self.old.admission.pods) || contains p (pods_in is_ready_now self.old.admission.pods)) ≡ true }
        ensures after { (time : ℕ) → self.new ≡ with_row time (row.Drain p) self.old }
        ensures stands { (c : Trace) (time : ℕ) → IsRecordOf self.old.admission c → IsRecordOf self.new.admission (c ++ entry time (row.Drain p) ∷ []) }
    {
        append_laws();
        order_laws();
        self.pods.set_draining(p);
        self.seats.drain(p);
        self.candidates.remove(p);
        let capacity = self.candidates.capacity(most_running(&self.spec));
        self.breaker.set_capacity(capacity);
        self.to_leave = self.to_leave.with(p);
    }

    /// A request that is at a pod ends with it.
    #[tactic(auto, unfolding(kn_record::specs::Admission::stepped))]
    pub fn lose(&mut self, r: u64)
        requires { (p : ℕ) × (contains r (placed_in (is_at p) self.old.admission.live) ≡ true) }
        ensures after { (time : ℕ) → self.new ≡ with_row time (row.LostRequest r) self.old }
        ensures stands { (c : Trace) (time : ℕ) → IsRecordOf self.old.admission c → IsRecordOf self.new.admission (c ++ entry time (row.LostRequest r) ∷ []) }
    {
        append_laws();
        let others = self.has_company(r);
        self.end(r, others);
    }

    /// Whether others are at the pod of a request, who are lost next.
    fn has_company(&self, r: u64) -> bool {
        let Some(request) = self.table.get(r) else {
            return false;
        };
        match request.place {
            Place::Held => false,
            Place::Queued(p) => self.is_shared(p),
            Place::Running(p, _) => self.is_shared(p),
        }
    }

    /// Whether more than one request is at a pod.
    fn is_shared(&self, p: u64) -> bool
        requires { contains p (pod_numbers self.now.admission.pods) ≡ true }
    {
        self.seats.running(p).saturating_add(self.seats.queued(p)) > 1
    }

    /// A live pod without requests is lost: it is no longer live.
    #[tactic(auto, unfolding(kn_record::specs::Admission::stepped))]
    pub fn lose_pod(&mut self, p: u64)
        requires there { contains p (pod_numbers self.old.admission.pods) ≡ true }
        requires none { placed_in (is_at p) self.old.admission.live ≡ [] }
        ensures after { (time : ℕ) → self.new ≡ with_row time (row.LostPod p) self.old }
        ensures stands { (c : Trace) (time : ℕ) → IsRecordOf self.old.admission c → IsRecordOf self.new.admission (c ++ entry time (row.LostPod p) ∷ []) }
    {
        append_laws();
        self.take_away(p);
    }

    /// Takes a pod without requests away.
    pub(super) fn take_away(&mut self, p: u64)
        requires there { contains p (pod_numbers self.old.admission.pods) ≡ true }
        requires none { placed_in (is_at p) self.old.admission.live ≡ [] }
        ensures after { self.new ≡ with_row 0 (row.LostPod p) self.old }
        ensures fewer { length self.new.admission.pods + 1 ≡ length self.old.admission.pods }
    {
        order_laws();
        self.pods.remove(p);
        self.seats.drain(p);
        self.seats.remove(p);
        self.candidates.remove(p);
        let capacity = self.candidates.capacity(most_running(&self.spec));
        self.breaker.set_capacity(capacity);
        self.to_run = self.to_run.without(p);
        self.to_leave = self.to_leave.without(p);
    }
}

/// How many requests may run in all.
fn most_running(spec: &Spec) -> u64
    ensures { result ≡ spec.now.slots.max }
{
    spec.slots.max
}
