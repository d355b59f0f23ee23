//! Laws of what is due, over one event more.
ghost use Rattle.std.specs.Prelude.{◌≡◌, ◌⊎◌, ℕ, ◌+◌, ◌≤◌, ◌<◌, ◌++◌, ◌∷◌, [], Bool, true, List, length, map, slice_get, Some};
ghost use Rattle.std.specs.List.{filter};
ghost use Rattle.kn_event.specs.Revision.{AreInRange};
ghost use Rattle.kn_event.specs.declared.event.Act.TheVariants as act;
ghost use Rattle.kn_event.specs.declared.event.Event.{Event};
ghost use Rattle.kn_event.specs.declared.revision.Spec.{Spec};
ghost use Rattle.kn_event.specs.Lists.{contains};
ghost use Rattle.kn_trace.specs.Events.{react};
ghost use Rattle.kn_trace.specs.Trace.{Trace, arrivals, starting_pods, waiting};
ghost use Rattle.kn_laws.specs.ByAct.{IsArrival};
ghost use Rattle.kn_record.specs.Made.{IsMade};
ghost use Rattle.kn_agenda.specs.declared.job.Job.{Job};
ghost use Rattle.kn_agenda.specs.declared.item.Item.{Item};
ghost use Rattle.kn_agenda.specs.declared.item.Kind.{Kind};
ghost use Rattle.kn_agenda.specs.declared.item.Kind.TheVariants as kind;
ghost use Rattle.kn_agenda.specs.Workload.{IsWorkload, Workload};
ghost use Rattle.kn_agenda.specs.Course.{arrive_of, ended_at, expired_at, is_arrival, is_pass, readied_at};
ghost use Rattle.kn_agenda.specs.Due.{AreNext, IsAfter, IsDone, IsDue, IsDueAt, IsFront, IsNext, LeavesNothingDue, IsSchedule, begun_at, created_at, event_of, taken_at, ticks_of};
ghost use Rattle.kn_agenda.specs.Runs.{ComeByJobs, IsByNextJob, Runs, Shrinks, so_far};

use kn_laws::laws::{history_laws, trace_laws};
use kn_laws::parts::part_laws;
use kn_record::facts::fact_laws;
use kn_sizes::server::{need_laws, request_laws};
use kn_sizes::sizes::{growth_laws, size_laws};

/// An event that is no arrival brings nobody, and where arrivals are those of the jobs in turn, each request that was taken in
/// came at its job's time.
pub fn coming_laws()
    ensures nobody { (s : Spec) (c : Trace) (e : Event) → IsMade s c → (IsArrival e.act → ⊥) → arrivals (c ++ react s c e) ≡ arrivals c }
    ensures come { (s : Spec) (jobs : List Job) (c : Trace) (e : Event) → IsMade s c → IsByNextJob s jobs c e → ComeByJobs jobs c → ComeByJobs jobs (c ++ react s c e) }
{
    fact_laws();
    part_laws();
    request_laws();
}

/// What is due after an event, but for the next job and the next tick, was due before it, or is due at the event's time or later.
pub fn late_laws()
    ensures { (s : Spec) (w : Workload) (c : Trace) (e : Event) (ticks : ℕ) (k : Kind) (n t : ℕ) → (k ≡ kind.Arrives → ⊥) → (k ≡ kind.Ticks → ⊥) → IsDueAt w (c ++ react s c e) ticks k n t → IsDueAt w c ticks k n t ⊎ (e.time ≤ t) }
{
    fact_laws();
    part_laws();
}

/// By how much what is still to do by itself, the live requests and the starting pods, grows at an item's event: each finish, pod that
/// becomes ready and expiry is one less, an arrival brings a request and 500 pods at most, and a tick 500 pods.
pub fn shrink_laws()
    ensures { (w : Workload) (c : Trace) (ticks : ℕ) (x : Item) → AreInRange w.spec → IsMade w.spec c → IsDue w c ticks x → Shrinks w c x }
{
    fact_laws();
    part_laws();
    need_laws();
    growth_laws();
    size_laws();
}

/// Where events came next one after the other, the next one does too: it is not before the clock, and afterwards each request still
/// came at its job's time, no more came than there are jobs, nothing is due before its time, and fewer events are left.
pub fn next_laws()
    ensures order { (w : Workload) (es : List Event) (clock : ℕ) (x : Item) → Runs w es clock → IsNext w (so_far w es) (ticks_of es) x → clock ≤ x.time }
    ensures step { (w : Workload) (es : List Event) (clock : ℕ) (x : Item) → IsWorkload w → Runs w es clock → IsNext w (so_far w es) (ticks_of es) x → x.time ≤ w.until → Runs w (es ++ event_of w x ∷ []) x.time }
    ensures over { (w : Workload) (es : List Event) (x : Item) → IsNext w (so_far w es) (ticks_of es) x → w.until < x.time → LeavesNothingDue w es }
{
    trace_laws();
    request_laws();
    coming_laws();
    late_laws();
    shrink_laws();
}

/// There is one schedule of a workload at most: events of which each came next are the first of it. They are at most 71,886,900, since
/// each job arrives once, each request that runs finishes once, each pod is ready once, each request that waits gets one pass at
/// most, and ticks end with the workload.
pub fn schedule_laws()
    ensures front { (w : Workload) (es all : List Event) → AreNext w es → IsSchedule w all → IsFront es all }
    ensures one { (w : Workload) (es all : List Event) → IsSchedule w es → IsSchedule w all → es ≡ all }
    ensures many { (w : Workload) (es : List Event) → IsWorkload w → AreNext w es → length es ≤ 71886900 }
{
    fact_laws();
    part_laws();
    history_laws();
    size_laws();
    next_laws();
}

/// What a workload's events do to its requests and pods. Every job arrives once, in order and at its time, and nobody else does.
///
/// A request that has begun ends when its job's service is over, no sooner and no later; at the end of a schedule each has done so,
/// or would have ended after it. Who expires does so when its timeout is over, and who still waits at the end would have expired
/// after it. A pod is ready when it has booted, and one that still starts at the end would have done so after it. No request is
/// finished twice, no pod is made ready twice, and passes are no more than arrivals.
pub fn service_laws()
    ensures arrive { (w : Workload) (es : List Event) → IsWorkload w → IsSchedule w es → filter is_arrival es ≡ map arrive_of w.jobs }
    ensures serve { (w : Workload) (es : List Event) (r b : ℕ) → IsWorkload w → IsSchedule w es → begun_at (so_far w es) r ≡ Some b → (j : Job) × (slice_get w.jobs r ≡ Some j) × ((ended_at (so_far w es) r ≡ Some (b + j.service)) ⊎ (w.until < b + j.service)) }
    ensures done { (w : Workload) (es : List Event) (r b t : ℕ) → AreNext w es → begun_at (so_far w es) r ≡ Some b → ended_at (so_far w es) r ≡ Some t → IsDone w.jobs (so_far w es) r t }
    ensures expire { (w : Workload) (es : List Event) (r b t : ℕ) → AreNext w es → taken_at (so_far w es) r ≡ Some b → expired_at (so_far w es) r ≡ Some t → t ≡ b + w.spec.timeout_ms }
    ensures wait { (w : Workload) (es : List Event) (r b : ℕ) → IsSchedule w es → contains r (waiting (so_far w es)) ≡ true → taken_at (so_far w es) r ≡ Some b → w.until < b + w.spec.timeout_ms }
    ensures ready { (w : Workload) (es : List Event) (p t : ℕ) → AreNext w es → readied_at (so_far w es) p ≡ Some t → IsAfter w.boot (created_at (so_far w es) p) t }
    ensures boot { (w : Workload) (es : List Event) (p b : ℕ) → IsSchedule w es → contains p (starting_pods (so_far w es)) ≡ true → created_at (so_far w es) p ≡ Some b → w.until < b + w.boot }
    ensures finish_once { (w : Workload) (es before : List Event) (e : Event) (mid : List Event) (f : Event) (rest : List Event) (r : ℕ) (g h : Bool) → AreNext w es → es ≡ before ++ e ∷ mid ++ f ∷ rest → e.act ≡ act.Finish r g → f.act ≡ act.Finish r h → ⊥ }
    ensures ready_once { (w : Workload) (es before : List Event) (e : Event) (mid : List Event) (f : Event) (rest : List Event) (p : ℕ) → AreNext w es → es ≡ before ++ e ∷ mid ++ f ∷ rest → e.act ≡ act.Ready p → f.act ≡ act.Ready p → ⊥ }
    ensures pass { (w : Workload) (es : List Event) → AreNext w es → length (filter is_pass es) ≤ arrivals (so_far w es) }
{
    fact_laws();
    part_laws();
    history_laws();
    trace_laws();
    size_laws();
    growth_laws();
    need_laws();
    request_laws();
    coming_laws();
    next_laws();
}
