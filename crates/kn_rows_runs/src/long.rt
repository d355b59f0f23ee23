//! Runs of many events. The checker computes 75; the contracts over 20,001 are proved by induction over the events.
ghost use Rattle.kn_rows_runs.specs.Long.{BreakerRefuses9001, OverloadAt20000, ScaleUpAsKubectlPrints, SwitchesToServeMode};

use kn_laws::laws::trace_laws;

/// 75 requests at one pod without a limit ask for a second one.
pub fn scale_up_as_kubectl_prints()
    ensures { ScaleUpAsKubectlPrints }
{}

/// One pod without a limit, in serve mode, takes 20,000 requests; the next is refused.
#[tactic(auto, unfolding(kn_trace::specs::Worked::whole_run))]
pub fn overload_at_20000()
    ensures opening { SwitchesToServeMode }
    ensures arrivals { OverloadAt20000 }
{
    trace_laws();
}

/// Without a pod 11,000 of 20,001 requests are held, and the breaker refuses the rest.
pub fn breaker_refuses_9001()
    ensures { BreakerRefuses9001 }
{}
