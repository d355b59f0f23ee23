//! 290 requests that come at once to one pod, by both metrics. The arrivals are proved by induction over them; the checker
//! computes the decision.
ghost use Rattle.kn_rows_runs.specs.Counts.{ConcurrencyOfFinishedRequests, RpsCounts, RpsOfFinishedRequests, SameLoadByConcurrency};

use kn_laws::laws::trace_laws;

/// By requests per second they count 290 in their second, and ask for three pods at a target of 140. A configured percentage
/// of concurrency changes nothing: it is no part of such a revision's specification.
pub fn rps_counts()
    ensures { RpsCounts }
{
    trace_laws();
}

/// By concurrency the same load asks for five pods, at a target of 70.
pub fn same_load_by_concurrency()
    ensures { SameLoadByConcurrency }
{
    trace_laws();
}

/// Requests that end at once count all the same.
pub fn rps_of_finished_requests()
    ensures { RpsOfFinishedRequests }
{
    trace_laws();
}

/// By concurrency they are no load.
pub fn concurrency_of_finished_requests()
    ensures { ConcurrencyOfFinishedRequests }
{
    trace_laws();
}
