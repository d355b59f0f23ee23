//! A request comes.
ghost use Rattle.std.specs.Prelude.{◌≡◌, ℕ, ◌<◌, ◌≤◌, ◌^◌, [], ◌∷◌, ◌++◌, All, Some};
ghost use Rattle.kn_event.specs.declared.event.Act.TheVariants as act;
ghost use Rattle.kn_trace.specs.Trace.{Trace, entry};
ghost use Rattle.kn_trace.specs.Scale.{mode_of};
ghost use Rattle.kn_trace.specs.Events.{act_row};
ghost use Rattle.kn_record.specs.declared.admission.Request.{Request};
ghost use Rattle.kn_record.specs.Acting.{row_in};
ghost use Rattle.kn_record.specs.Made.{IsRecordOf};

use super::Throttle;
use kn_event::Mode;
use kn_record::append::{append_laws, order_laws};
use kn_record::{Place, Request};

/// How many requests may be live.
pub const LIVE_MOST: u64 = 20_000;

/// What becomes of a request that comes.
#[derive(Clone, Copy)]
pub enum Arrival {
    /// Refused: too many are live.
    Overload,
    /// Refused: the breaker is full, or the pod that is named.
    QueueFull(Option<u64>),
    /// Queued at this pod, past the activator.
    Direct(u64),
    /// Held in the activator.
    Admit,
}

impl Throttle {
    ghost use Rattle.kn_throttle.specs.Rows.{arrival_row};
    ghost use Rattle.kn_throttle.specs.State.{with_row};

    /// Takes the next request, in the mode in force. It is refused with 20,000 live ones. In serve mode with Ready pods it goes
    /// straight to the pod in turn, unless that one is full; else it is admitted, unless the breaker is full.
    #[inline(always)]
    pub fn arrive(&mut self, r: u64, time: u64, mode: Mode) -> Arrival
        requires number { r ≡ self.old.admission.arrivals }
        requires few { r < 2 ^ 54 }
        requires order { All (λ (q : Request). q.time ≤ time) self.old.admission.live }
        ensures value { (tag : ℕ) → row_in self.old.spec mode self.old.admission (act.Arrive tag) ≡ Some (arrival_row r tag result) }
        ensures after { (tag : ℕ) → self.new ≡ with_row time (arrival_row r tag result) self.old }
        ensures row { (c : Trace) (tag : ℕ) → IsRecordOf self.old.admission c → mode_of c ≡ mode → act_row self.old.spec c (act.Arrive tag) ≡ Some (arrival_row r tag result) }
        ensures stands { (c : Trace) (tag : ℕ) → IsRecordOf self.old.admission c → mode_of c ≡ mode → IsRecordOf self.new.admission (c ++ entry time (arrival_row r tag result) ∷ []) }
    {
        append_laws();
        self.enter(time, mode)
    }

    #[inline(always)]
    #[tactic(auto, unfolding(kn_record::specs::Admission::stepped, kn_record::specs::Acting::row_in))]
    fn enter(&mut self, time: u64, mode: Mode) -> Arrival
        requires few { self.old.admission.arrivals < 2 ^ 54 }
        requires order { All (λ (q : Request). q.time ≤ time) self.old.admission.live }
        ensures value { (tag : ℕ) → row_in self.old.spec mode self.old.admission (act.Arrive tag) ≡ Some (arrival_row self.old.admission.arrivals tag result) }
        ensures after { (tag : ℕ) → self.new ≡ with_row time (arrival_row self.old.admission.arrivals tag result) self.old }
    {
        order_laws();
        let request = self.arrivals;
        self.arrivals += 1;
        if self.table.len() >= LIVE_MOST {
            return Arrival::Overload;
        }
        if let Mode::Serve = mode {
            let ready = self.candidates.as_slice();
            if !ready.is_empty() {
                let pod = ready[(self.turn % ready.len() as u64) as usize].pod;
                self.turn += 1;
                if !self.seats.queue_at(pod, request) {
                    return Arrival::QueueFull(Some(pod));
                }
                self.to_run = self.to_run.with(pod);
                self.table.push(Request {
                    number: request,
                    time,
                    place: Place::Queued(pod),
                });
                return Arrival::Direct(pod);
            }
        }
        if !self.breaker.enter() {
            return Arrival::QueueFull(None);
        }
        self.table.push(Request {
            number: request,
            time,
            place: Place::Held,
        });
        Arrival::Admit
    }
}
