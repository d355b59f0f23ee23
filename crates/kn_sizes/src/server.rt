//! What a server needs of one request.
ghost use Rattle.std.specs.Prelude.{◌≡◌, ◌<◌, ◌≤◌, ◌⊎◌, ℕ, Bool, true, false, List, ◌++◌, Some};
ghost use Rattle.std.specs.List.{Any};
ghost use Rattle.kn_event.specs.declared.event.Act.TheVariants as act;
ghost use Rattle.kn_event.specs.declared.event.Event.{Event};
ghost use Rattle.kn_event.specs.declared.revision.Spec.{Spec};
ghost use Rattle.kn_event.specs.Lists.{contains};
ghost use Rattle.kn_trace.specs.Events.{added, need_of, react};
ghost use Rattle.kn_trace.specs.Outcome.{Outcome, outcome_of};
ghost use Rattle.kn_trace.specs.Trace.{Trace, arrivals, assigned, at_pod, created, ended, is_running, live_pods, next_starting, pod_of, proxied, starting_pods, waiting};
ghost use Rattle.kn_laws.specs.ByAct.{AreByAct};
ghost use Rattle.kn_record.specs.Made.{IsMade};
ghost use Rattle.kn_sizes.specs.Course.{HasFinished, IsToldByStand, IsUnfinished, MayEnd};
ghost use Rattle.kn_sizes.specs.Starting.{IsLeastFrom};
ghost use Rattle.kn_sizes.specs.Stays.{HoldsOnwards};
ghost use Rattle.kn_sizes.specs.Told.{IsTold};

use kn_laws::parts::part_laws;
use kn_record::facts::fact_laws;

/// Of any trace that events made, over one event more: an arrival's request is new, and then stands as the arrival was
/// told, with that outcome; a request's stand tells whether it waits or runs, and at which pod, and that pod lives; after
/// a cancel its request doesn't wait; a request that waits, runs, expired or was cancelled does so still, and one that
/// runs runs on, unless the event finishes it or loses its pod; a finish ends a running request; and each row of an act,
/// so a finish or a cancel, comes from an event that names what it is about.
pub fn request_laws()
    ensures told { (s : Spec) (c : Trace) (e : Event) (tag : ℕ) → IsMade s c → e.act ≡ act.Arrive tag → IsTold s c e }
    ensures stands { (s : Spec) (c : Trace) (r : ℕ) → IsMade s c → IsToldByStand c r }
    ensures homes { (s : Spec) (c : Trace) (p r : ℕ) → IsMade s c → contains r (at_pod c p) ≡ true → contains p (live_pods c) ≡ true }
    ensures cancelled { (s : Spec) (c : Trace) (e : Event) (r : ℕ) → IsMade s c → e.act ≡ act.Cancel r → contains r (waiting (c ++ react s c e)) ≡ false }
    ensures unfinished { (s : Spec) (c : Trace) (e : Event) (r : ℕ) → IsMade s c → IsUnfinished c r → IsUnfinished (c ++ react s c e) r ⊎ MayEnd r (pod_of c r) e.act }
    ensures runs { (s : Spec) (c : Trace) (e : Event) (r : ℕ) → IsMade s c → is_running c r ≡ true → (is_running (c ++ react s c e) r ≡ true) ⊎ MayEnd r (pod_of c r) e.act }
    ensures ends { (s : Spec) (c : Trace) (e : Event) (r : ℕ) (ok : Bool) → IsMade s c → e.act ≡ act.Finish r ok → is_running c r ≡ true → HasFinished (c ++ react s c e) r ok }
    ensures by_act { (s : Spec) (c : Trace) (e : Event) → AreByAct s c e }
{
    fact_laws();
    part_laws();
}

/// Of any trace that events made, over one event more and over any further ones: arrivals never fall, so who has come has
/// come for good; waiting is left for good; an outcome, a request's pod and its assignment stay, and so does whether it
/// came to its pod through the activator, until it ends; and a running request runs on until an event finishes it or
/// loses its pod.
pub fn lasting_laws()
    ensures arrivals { (s : Spec) (c : Trace) → HoldsOnwards s c (λ d. arrivals c ≤ arrivals d) }
    ensures known { (s : Spec) (c : Trace) (r : ℕ) → r < arrivals c → HoldsOnwards s c (λ d. r < arrivals d) }
    ensures waits { (s : Spec) (c : Trace) (r : ℕ) → IsMade s c → r < arrivals c → contains r (waiting c) ≡ false → HoldsOnwards s c (λ d. contains r (waiting d) ≡ false) }
    ensures outcome { (s : Spec) (c : Trace) (r : ℕ) (o : Outcome) → outcome_of c r ≡ Some o → HoldsOnwards s c (λ d. outcome_of d r ≡ Some o) }
    ensures pod { (s : Spec) (c : Trace) (r p : ℕ) → IsMade s c → pod_of c r ≡ Some p → HoldsOnwards s c (λ d. pod_of d r ≡ Some p) }
    ensures assigned { (s : Spec) (c : Trace) (r : ℕ) → assigned c r ≡ true → HoldsOnwards s c (λ d. assigned d r ≡ true) }
    ensures proxied { (s : Spec) (c : Trace) (r : ℕ) → proxied c r ≡ true → HoldsOnwards s c (λ d. ended d r ≡ false → proxied d r ≡ true) }
    ensures way { (s : Spec) (c : Trace) (r p : ℕ) → IsMade s c → pod_of c r ≡ Some p → ended c r ≡ false → HoldsOnwards s c (λ d. ended d r ≡ false → proxied d r ≡ proxied c r) }
    ensures runs { (s : Spec) (c : Trace) (es : List Event) (r : ℕ) → IsMade s c → is_running c r ≡ true → (is_running (c ++ added s c es) r ≡ true) ⊎ Any (λ (e : Event). MayEnd r (pod_of c r) e.act) es }
{
    fact_laws();
    part_laws();
}

/// How much room each act needs: none where it ends a live request, two for an arrival, and one for each other.
pub fn need_laws()
    ensures cancel { (c : Trace) (r : ℕ) → contains r (waiting c) ≡ true → need_of c (act.Cancel r) ≡ 0 }
    ensures finish { (c : Trace) (r : ℕ) (ok : Bool) → is_running c r ≡ true → need_of c (act.Finish r ok) ≡ 0 }
    ensures arrive { (c : Trace) (tag : ℕ) → need_of c (act.Arrive tag) ≡ 2 }
    ensures tick { (c : Trace) → need_of c act.Tick ≡ 1 }
    ensures ready { (c : Trace) (p : ℕ) → need_of c (act.Ready p) ≡ 1 }
    ensures pass { (c : Trace) → need_of c act.Pass ≡ 1 }
    ensures limit { (c : Trace) (p n : ℕ) → need_of c (act.Limit p n) ≡ 1 }
    ensures lost { (c : Trace) (p : ℕ) → need_of c (act.Lost p) ≡ 1 }
{}

/// The next Starting pod of a trace that events made is the least that is not below the number, and none exactly where
/// there is none. Pods that were created stay so, as each that starts was; and one that was created and doesn't start
/// never starts again.
pub fn starting_laws()
    ensures next { (s : Spec) (c : Trace) (from : ℕ) → IsMade s c → IsLeastFrom from (starting_pods c) (next_starting c from) }
    ensures created { (s : Spec) (c : Trace) (p : ℕ) → IsMade s c → contains p (starting_pods c) ≡ true → p < created c }
    ensures stay { (s : Spec) (c : Trace) → IsMade s c → HoldsOnwards s c (λ d. created c ≤ created d) }
    ensures gone { (s : Spec) (c : Trace) (p : ℕ) → IsMade s c → p < created c → contains p (starting_pods c) ≡ false → HoldsOnwards s c (λ d. contains p (starting_pods d) ≡ false) }
{
    fact_laws();
}
