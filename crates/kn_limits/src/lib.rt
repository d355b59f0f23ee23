//! How many requests run at a pod, its limit, and which pods live, over one event. No function here computes anything: each says
//! by its clauses what is proved of the definitions.
#![tactic(auto)]

ghost use Rattle.std.specs.Prelude.{◌≡◌, ◌≤◌, ◌++◌, ℕ, Bool, [], length, max, true};
ghost use Rattle.kn_event.specs.declared.event.Act.TheVariants as act;
ghost use Rattle.kn_event.specs.declared.event.Event.{Event};
ghost use Rattle.kn_event.specs.declared.event.Stand.TheVariants as stand;
ghost use Rattle.kn_event.specs.declared.revision.Kind.TheVariants as kind;
ghost use Rattle.kn_event.specs.declared.revision.Spec.{Spec};
ghost use Rattle.kn_event.specs.Lists.{contains};
ghost use Rattle.kn_trace.specs.Events.{react};
ghost use Rattle.kn_trace.specs.Trace.{Trace, draining, limit_of, live_pods, running_at, stand_of};
ghost use Rattle.kn_record.specs.Made.{IsMade};
ghost use Rattle.kn_limits.specs.Limits.{StaysPods};

use kn_laws::parts::part_laws;
use kn_record::append::{append_laws, order_laws};
use kn_record::facts::fact_laws;

/// Of any trace that events made, over one event more: at a pod with a limit after it no more run than before, or than the
/// limit; and on a fixed revision no event changes a limit but that of a pod whose limit it sets, and none but the loss of a
/// pod changes which pods live, where none drains. An event that loses no pod and finishes nobody who runs at a pod leaves
/// no less run there.
pub fn limit_laws()
    ensures runs { (s : Spec) (c : Trace) (e : Event) (p : ℕ) → IsMade s c → 1 ≤ limit_of (c ++ react s c e) p
        → length (running_at (c ++ react s c e) p) ≤ max (length (running_at c p)) (limit_of (c ++ react s c e) p) }
    ensures limits { (s : Spec) (c : Trace) (e : Event) (q pods : ℕ) → s.kind ≡ kind.Fixed pods → ((n : ℕ) → e.act ≡ act.Limit q n → ⊥)
        → limit_of (c ++ react s c e) q ≡ limit_of c q }
    ensures set { (s : Spec) (c : Trace) (e : Event) (q n pods : ℕ) → s.kind ≡ kind.Fixed pods → e.act ≡ act.Limit q n
        → contains q (live_pods c) ≡ true → limit_of (c ++ react s c e) q ≡ n }
    ensures pods { (s : Spec) (c : Trace) (e : Event) (pods : ℕ) → s.kind ≡ kind.Fixed pods → ((p : ℕ) → e.act ≡ act.Lost p → ⊥)
        → draining c ≡ [] → StaysPods c (c ++ react s c e) }
    ensures stay { (s : Spec) (c : Trace) (e : Event) (p : ℕ) → IsMade s c → ((q : ℕ) → e.act ≡ act.Lost q → ⊥)
        → ((r : ℕ) (ok : Bool) → e.act ≡ act.Finish r ok → stand_of c r ≡ stand.Running p → ⊥)
        → length (running_at c p) ≤ length (running_at (c ++ react s c e) p) }
{
    fact_laws();
    part_laws();
    append_laws();
    order_laws();
}
