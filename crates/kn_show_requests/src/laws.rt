//! What is so of the lines of every run. Nothing is computed here.
ghost use Rattle.std.specs.Prelude.{ℕ, List};
ghost use Rattle.kn_event.specs.declared.event.Event.{Event};
ghost use Rattle.kn_event.specs.declared.revision.Spec.{Spec};
ghost use Rattle.kn_show_requests.specs.Laws.{TellsOfEach};

use kn_laws::laws::{step_laws, trace_laws};
use kn_laws::parts::part_laws;
use kn_record::facts::fact_laws;

/// Each request of a run has exactly one line.
pub fn request_laws()
    ensures { (s : Spec) (start : ℕ) (es : List Event) → TellsOfEach s start es }
{
    fact_laws();
    part_laws();
    step_laws();
    trace_laws();
}
