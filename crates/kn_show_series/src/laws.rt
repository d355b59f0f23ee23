//! What the lines of a whole run are and come to, and what the proofs of the teller rest on. Nothing is computed here.
ghost use Rattle.std.specs.Prelude.{◌≡◌, ◌<◌, [], ℕ};
ghost use Rattle.kn_event.specs.declared.revision.Spec.{Spec};
ghost use Rattle.kn_trace.specs.Events.{opening};
ghost use Rattle.kn_laws.specs.History.{AreInOrder};
ghost use Rattle.kn_teller.specs.Run.{Run, now_of};
ghost use Rattle.kn_show_series.specs.Laws.{HasLines, SumUp};
ghost use Rattle.kn_show_series.specs.Steps.{WaitsFit, counts_of, counts_within};

use kn_core::Revision;
use kn_laws::laws::{history_laws, step_laws, trace_laws};
use kn_laws::parts::part_laws;
use kn_lives::laws::row_laws;
use kn_sizes::sizes::entry_laws;

/// All that the requests of a step had waited comes to less than what its count holds.
pub(crate) fn wait_laws(revision: &Revision)
    ensures { WaitsFit revision.now }
{
    history_laws();
    step_laws();
    part_laws();
    entry_laws();
    let _ = revision.events();
    let _ = revision.now();
}

/// No row of an opening is counted.
pub(crate) fn opening_laws()
    ensures { (s : Spec) (start step from k : ℕ) → counts_within step from k (opening s start) ≡ counts_of [] [] }
{
    part_laws();
}

/// What is written of a run whose events are in order is a line for each step that has one, of what had come by the end of
/// that step; and over all these lines each count comes to that of the whole run, as the last line of its report says it.
pub fn series_laws()
    ensures lines { (step : ℕ) (r : Run)
        → 0 < step → AreInOrder r.start r.events (now_of r) → HasLines step r }
    ensures sums { (step : ℕ) (r : Run)
        → 0 < step → AreInOrder r.start r.events (now_of r) → SumUp step r }
{
    trace_laws();
    history_laws();
    part_laws();
    row_laws();
}
