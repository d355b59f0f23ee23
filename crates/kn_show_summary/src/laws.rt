//! What a summary has in common with a report. Nothing is computed here.
ghost use Rattle.kn_event.specs.declared.revision.Spec.{Spec};
ghost use Rattle.kn_trace.specs.Trace.{Trace};
ghost use Rattle.kn_show_summary.specs.Counted.{AgreesWithReport};

/// What a summary and the last line of a report both count is the same.
pub fn report_laws()
    ensures { (s : Spec) (c : Trace) → AgreesWithReport s c }
{}
