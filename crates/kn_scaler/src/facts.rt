//! Facts of traces from the crates below, in one place.
ghost use Rattle.kn_scaler.specs.Facts.{TraceFacts};

use kn_changes::laws::{change_laws, step_laws};
use kn_past::changes::entry_laws;
use kn_past::loads::{bound_laws, quiet_laws};
use kn_past::samples::later_laws;
use kn_window::sample_laws;

/// What one more entry says, and what is known of the seconds of a trace.
pub(crate) fn trace_facts()
    ensures { TraceFacts }
{
    sample_laws();
    entry_laws();
    later_laws();
    quiet_laws();
    bound_laws();
    change_laws();
    step_laws();
}
