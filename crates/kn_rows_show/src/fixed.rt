//! Runs with pods that are given once.
ghost use Rattle.kn_rows_show.specs.Fixed.{NoEvents, NoneRan, OneRequest, OpeningCounts, PeaksAfterEvents, Ties, TwoRequests};

/// No event: it ends at its start, and nobody ran.
#[tactic(auto, unfolding(kn_trace::specs::Worked::whole_run, crate::specs::Sums::whole_summary))]
pub fn no_events()
    ensures { NoEvents }
{}

/// One request: each percentile is its wait.
#[tactic(auto, unfolding(kn_trace::specs::Worked::whole_run, crate::specs::Sums::whole_summary))]
pub fn one_request()
    ensures { OneRequest }
{}

/// Who was cancelled or expired is in no figure of waiting.
#[tactic(auto, unfolding(kn_trace::specs::Worked::whole_run, crate::specs::Sums::whole_summary))]
pub fn none_ran()
    ensures { NoneRan }
{}

/// Ten that waited 1 3 3 3 3 6 6 6 6 10.
#[tactic(auto, unfolding(kn_trace::specs::Worked::whole_run, crate::specs::Sums::whole_summary))]
pub fn ties()
    ensures { Ties }
{}

/// The median of two waits is the lesser.
#[tactic(auto, unfolding(kn_trace::specs::Worked::whole_run, crate::specs::Sums::whole_summary))]
pub fn two_requests()
    ensures { TwoRequests }
{}

/// The opening has a peak too, of pods that are never Ready.
#[tactic(auto, unfolding(kn_trace::specs::Worked::whole_run, crate::specs::Sums::whole_summary))]
pub fn opening_counts()
    ensures { OpeningCounts }
{}

/// Who is assigned at once is not held after the event.
#[tactic(auto, unfolding(kn_trace::specs::Worked::whole_run, crate::specs::Sums::whole_summary))]
pub fn peaks_after_events()
    ensures { PeaksAfterEvents }
{}
