//! What the throttler counts, each answered at once: limits, and requests by where they are.
ghost use Rattle.std.specs.Prelude.{◌≡◌, length, true};
ghost use Rattle.kn_event.specs.Lists.{contains};
ghost use Rattle.kn_trace.specs.Trace.{Trace, held, limit_of, running_at};
ghost use Rattle.kn_record.specs.Admission.{is_held_place, placed_in, runs_at};
ghost use Rattle.kn_record.specs.Made.{IsRecordOf};
ghost use Rattle.kn_record.specs.Views.{pod_numbers};
ghost use Rattle.kn_throttle.specs.Gauges.{count_queued, count_queued_in, count_running, count_running_in, limit_in};

use super::Throttle;
use kn_record::append::append_laws;

impl Throttle {
    /// The limit of a live pod; 0 is no limit.
    pub fn limit(&self, p: u64) -> u64
        requires { contains p (pod_numbers self.now.admission.pods) ≡ true }
        ensures value { result ≡ limit_in p self.now.admission.pods }
        ensures limit { (c : Trace) → IsRecordOf self.now.admission c → result ≡ limit_of c p }
    {
        append_laws();
        self.seats.limit(p)
    }

    /// How many requests run at a live pod.
    pub fn running(&self, p: u64) -> u64
        requires { contains p (pod_numbers self.now.admission.pods) ≡ true }
        ensures value { result ≡ length (placed_in (runs_at p) self.now.admission.live) }
        ensures running { (c : Trace) → IsRecordOf self.now.admission c → result ≡ length (running_at c p) }
    {
        append_laws();
        self.seats.running(p)
    }

    /// How many requests are held.
    pub fn count_held(&self) -> u64
        ensures value { result ≡ length (placed_in is_held_place self.now.admission.live) }
        ensures held { (c : Trace) → IsRecordOf self.now.admission c → result ≡ length (held c) }
    {
        append_laws();
        self.breaker.waiting()
    }

    /// How many requests are queued, at all live pods together.
    pub fn count_queued(&self) -> u64
        ensures value { result ≡ count_queued_in self.now.admission.live self.now.admission.pods }
        ensures queued { (c : Trace) → IsRecordOf self.now.admission c → result ≡ count_queued c }
    {
        append_laws();
        self.seats.queued_at_all()
    }

    /// How many requests run, at all live pods together.
    pub fn count_running(&self) -> u64
        ensures value { result ≡ count_running_in self.now.admission.live self.now.admission.pods }
        ensures running { (c : Trace) → IsRecordOf self.now.admission c → result ≡ count_running c }
    {
        append_laws();
        self.table.len() - self.breaker.waiting() - self.seats.queued_at_all()
    }
}
