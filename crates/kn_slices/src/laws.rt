//! What an event does to an activator, what an activator is at its opening, and what activators share.
ghost use Rattle.std.specs.Prelude.{ℕ};
ghost use Rattle.kn_event.specs.declared.event.Event.{Event};
ghost use Rattle.kn_event.specs.declared.revision.Spec.{Spec};
ghost use Rattle.kn_core.specs.State.{RevisionState};
ghost use Rattle.kn_slices.specs.Activators.{Goes, IsOpen};
ghost use Rattle.kn_slices.specs.Calls.{IsChangedBy, OpensWith};
ghost use Rattle.kn_slices.specs.Shares.{ShareLaws};

use kn_laws::laws::step_laws;
use kn_laws::parts::part_laws;
use kn_limits::limit_laws;
use kn_record::append::append_laws;

/// Whichever trace an activator stands for, an event that loses no pod changes of it what `Goes` says.
pub fn activator_laws()
    ensures { (pods : ℕ) (e : Event) (x y : RevisionState) → IsChangedBy pods e x y → Goes pods e x y }
{
    append_laws();
    limit_laws();
}

/// Whichever trace an activator stands for, at its opening it has its pods, each with its limit, and nobody runs.
pub fn opening_laws()
    ensures { (s : Spec) (pods start : ℕ) (x : RevisionState) → OpensWith s pods start x → IsOpen s pods x }
{
    append_laws();
    part_laws();
}

/// Activators by their traces alone, from their opening on, over whatever events, due changes and limits that are asked for: of
/// each pod no more requests run, over all of them, than the limit in force; and each trace is lawful and settled.
pub fn share_laws()
    ensures { ShareLaws }
{
    append_laws();
    limit_laws();
    part_laws();
    step_laws();
}
