//! Rows of the parts of a decision.
ghost use Rattle.std.specs.Prelude.{◌≡◌, true, false, [], ◌∷◌, Some, None, pos, negsuc};
ghost use Rattle.std.proofs.Common.{lit<};
ghost use Rattle.kn_event.specs.declared.entry.Phase.TheVariants.{Activating, Active, Inactive};
ghost use Rattle.kn_event.specs.declared.entry.Mode.TheVariants.{Proxy, Serve};
ghost use Rattle.kn_event.specs.declared.revision.Burst.TheVariants.{Capacity, Unlimited};
ghost use Rattle.kn_event.specs.Defaults.{milli, scaling_target};
ghost use Rattle.kn_scaling.specs.Average.{no_samples, samples_of, window_average};
ghost use Rattle.kn_scaling.specs.Demand.{desired_counts};
ghost use Rattle.kn_scaling.specs.Panic.{is_panicking, undelayed_count};
ghost use Rattle.kn_scaling.specs.Delay.{asked_at, delayed_count};
ghost use Rattle.kn_scaling.specs.Burst.{excess_burst, serving_mode};
ghost use Rattle.kn_scaling.specs.Zero.{bounded_count, zero_rule};
ghost use Rattle.kn_scaling.specs.Worked.{scaled, fraction, over_seconds, numbers_of, run_of, samples_at, over_at, calm_at, standing_at, answer};

/// Two samples and the seconds between them: three seconds apart they are one spell of a window of six.
#[tactic(auto, unfolding(crate::specs::Worked::whole_decision))]
pub fn window_gaps()
    ensures both { numbers_of (window_average (samples_at ((0, 1000) ∷ (3, 1000) ∷ [])) 6 5) ≡ Some (2000, 4000) }
    ensures second_alone { numbers_of (window_average (samples_at ((0, 1000) ∷ (3, 1000) ∷ [])) 6 9) ≡ Some (1000, 1000) }
    ensures neither { window_average (samples_at ((0, 1000) ∷ (3, 1000) ∷ [])) 6 10 ≡ None }
    ensures without_samples { window_average no_samples 6 5 ≡ None }
    ensures after_a_gap { numbers_of (window_average (samples_at ((0, 1000) ∷ (10, 2000) ∷ [])) 6 11) ≡ Some (2000, 1000) }
{}

/// A sample starts a spell where its neighbour lies the window's seconds before it, and not where it is nearer.
#[tactic(auto, unfolding(crate::specs::Worked::whole_decision))]
pub fn spell_edge()
    ensures apart { numbers_of (window_average (samples_at ((0, 1000) ∷ (6, 2000) ∷ [])) 6 7) ≡ Some (2000, 1000) }
    ensures not_apart { numbers_of (window_average (samples_at ((0, 1000) ∷ (5, 2000) ∷ [])) 6 6) ≡ Some (3000, 6000) }
    ensures started_before_the_window { numbers_of (window_average (samples_at ((0, 1000) ∷ (5, 2000) ∷ [])) 6 8) ≡ Some (2000, 4000) }
    ensures window_of_one_second { numbers_of (window_average (samples_at ((3, 100) ∷ (4, 200) ∷ [])) 1 5) ≡ Some (200, 1000) }
{}

/// A window that is longer than time so far, samples without load, and a run of a thousand million seconds.
#[tactic(auto, unfolding(crate::specs::Worked::whole_decision))]
pub fn window_length()
    ensures from_the_start { numbers_of (window_average (samples_at ((0, 100) ∷ (1, 100) ∷ [])) 60 2) ≡ Some (200, 2000) }
    ensures without_load { numbers_of (window_average (samples_at ((0, 1000) ∷ (1, 0) ∷ (2, 0) ∷ [])) 6 3) ≡ Some (1000, 3000) }
    ensures long_run { numbers_of (window_average (samples_of (run_of 0 1000000000 500 ∷ [])) 6 1000000000) ≡ Some (3000, 6000) }
    ensures ten_minutes { numbers_of (window_average (samples_of (run_of 0 4000000000 1000 ∷ [])) 600 4000000000) ≡ Some (600000, 600000) }
{}

/// At containerConcurrency 10 and 70 per cent the target is 7, and 21 requests ask for three pods.
#[tactic(auto, unfolding(crate::specs::Worked::whole_decision))]
pub fn counts_at_the_threshold()
    ensures { let average = over_seconds 21000 1 in
        desired_counts (scaled 10) 1 average average ≡ record { dspc = 3; dppc = 3; stable_count = 3; panic_count = 3; over = true } }
{}

/// With a target of 7 each request above 7 asks for a second pod, and twice the Ready pods are over at 200 per cent.
#[tactic(auto, unfolding(crate::specs::Worked::whole_decision))]
pub fn over_from_the_threshold()
    ensures at { desired_counts (scaled 10) 1 (over_seconds 7001 1) (over_seconds 14000 1)
        ≡ record { dspc = 2; dppc = 2; stable_count = 2; panic_count = 2; over = true } }
    ensures below { desired_counts (scaled 10) 1 (over_seconds 7000 1) (over_seconds 7000 1)
        ≡ record { dspc = 1; dppc = 1; stable_count = 1; panic_count = 1; over = false } }
    ensures at_two_pods { desired_counts (scaled 10) 2 (over_seconds 7001 1) (over_seconds 14000 1)
        ≡ record { dspc = 2; dppc = 2; stable_count = 2; panic_count = 2; over = false } }
    ensures without_pods { desired_counts (scaled 10) 0 (over_seconds 7001 1) (over_seconds 14000 1)
        ≡ record { dspc = 2; dppc = 2; stable_count = 2; panic_count = 2; over = true } }
    ensures without_pods_below { desired_counts (scaled 10) 0 (over_seconds 7000 1) (over_seconds 7000 1)
        ≡ record { dspc = 1; dppc = 1; stable_count = 1; panic_count = 1; over = false } }
{}

/// At a target of 1 and rates of 1.1 up and 2 down, two pods become 2.2 at most, and five 2.5 at least.
#[tactic(auto, unfolding(crate::specs::Worked::whole_decision))]
pub fn rate_bounds()
    ensures up { let average = over_seconds 5000 1 in
        desired_counts (record (scaled 1) { target = scaling_target 1000 100000; up = milli 1100 }) 2 average average
        ≡ record { dspc = 5; dppc = 5; stable_count = 3; panic_count = 3; over = true } }
    ensures down { let average = over_seconds 0 1 in
        desired_counts (record (scaled 1) { target = scaling_target 1000 100000; up = milli 1100 }) 5 average average
        ≡ record { dspc = 0; dppc = 0; stable_count = 2; panic_count = 2; over = false } }
{}

/// An activation scale of 4 raises each count from 1 to 3, but no 0, and it does so after the rates.
#[tactic(auto, unfolding(crate::specs::Worked::whole_decision))]
pub fn activation_scale()
    ensures raised_but_not_from_zero { desired_counts (record (scaled 1) { activation = 4 }) 1 (over_seconds 500 1) (fraction 0 1 (lit< tt))
        ≡ record { dspc = 1; dppc = 0; stable_count = 4; panic_count = 0; over = false } }
    ensures at_and_above { desired_counts (record (scaled 1) { activation = 4 }) 1 (over_seconds 2800 1) (over_seconds 2801 1)
        ≡ record { dspc = 4; dppc = 5; stable_count = 4; panic_count = 5; over = true } }
    ensures after_the_rates { desired_counts (record (scaled 1) { activation = 4; up = milli 1100 }) 1 (over_seconds 3500 1) (over_seconds 700 1)
        ≡ record { dspc = 5; dppc = 1; stable_count = 4; panic_count = 4; over = false } }
{}

/// A decision panics for one window after the last that was over, that moment included.
#[tactic(auto, unfolding(crate::specs::Worked::whole_decision))]
pub fn panic_window_edge()
    ensures at_once { undelayed_count (over_at 10000 1 4 ∷ []) ≡ 4 }
    ensures at_the_window { undelayed_count (calm_at 70000 1 1 ∷ over_at 10000 1 4 ∷ []) ≡ 4 }
    ensures still_panicking { is_panicking (calm_at 70000 1 1 ∷ over_at 10000 1 4 ∷ []) ≡ true }
    ensures after { undelayed_count (calm_at 70001 1 1 ∷ calm_at 70000 1 1 ∷ over_at 10000 1 4 ∷ []) ≡ 1 }
    ensures over_never { undelayed_count (calm_at 1000 3 7 ∷ []) ≡ 3 }
{}

/// The greatest count of a run stays while decisions panic, also where another one is over.
#[tactic(auto, unfolding(crate::specs::Worked::whole_decision))]
pub fn panic_keeps_the_greatest_count()
    ensures first { undelayed_count (over_at 0 1 5 ∷ []) ≡ 5 }
    ensures lower { undelayed_count (calm_at 50000 1 1 ∷ over_at 0 1 5 ∷ []) ≡ 5 }
    ensures over_again { undelayed_count (over_at 60000 2 2 ∷ calm_at 50000 1 1 ∷ over_at 0 1 5 ∷ []) ≡ 5 }
    ensures at_the_end { is_panicking (calm_at 120001 1 1 ∷ over_at 60000 2 2 ∷ calm_at 50000 1 1 ∷ over_at 0 1 5 ∷ []) ≡ false }
    ensures after { undelayed_count (calm_at 120001 1 1 ∷ over_at 60000 2 2 ∷ calm_at 50000 1 1 ∷ over_at 0 1 5 ∷ []) ≡ 1 }
    ensures by_a_stable_count { undelayed_count (calm_at 50000 1 1 ∷ over_at 0 5 1 ∷ []) ≡ 5 }
{}

/// Only a decision that doesn't panic breaks a run: a pause that is longer than the window doesn't.
#[tactic(auto, unfolding(crate::specs::Worked::whole_decision))]
pub fn panic_across_a_pause()
    ensures pause { undelayed_count (over_at 70000 2 2 ∷ over_at 0 1 5 ∷ []) ≡ 5 }
    ensures broken { undelayed_count (over_at 60002 2 2 ∷ calm_at 60001 1 1 ∷ over_at 0 9 9 ∷ []) ≡ 2 }
    ensures own_window { undelayed_count (record (calm_at 70000 1 1) { window_ms = 80000 } ∷ over_at 0 3 3 ∷ []) ≡ 3 }
{}

/// A count of ten seconds before is no longer asked for with a delay of ten.
#[tactic(auto, unfolding(crate::specs::Worked::whole_decision))]
pub fn delay_edge()
    ensures first { delayed_count 10 (asked_at 100 5 ∷ []) ≡ 5 }
    ensures nine_later { delayed_count 10 (asked_at 109 1 ∷ asked_at 100 5 ∷ []) ≡ 5 }
    ensures ten_later { delayed_count 10 (asked_at 110 1 ∷ asked_at 109 1 ∷ asked_at 100 5 ∷ []) ≡ 1 }
    ensures more { delayed_count 10 (asked_at 109 8 ∷ asked_at 100 5 ∷ []) ≡ 8 }
    ensures longer_than_the_list { delayed_count 3600 (asked_at 10 4 ∷ asked_at 5 9 ∷ asked_at 0 2 ∷ []) ≡ 9 }
    ensures without_delay { delayed_count 0 (asked_at 100 3 ∷ asked_at 100 5 ∷ []) ≡ 3 }
{}

/// The excess is exact and rounded down, but 0 and unlimited stand for themselves.
#[tactic(auto, unfolding(crate::specs::Worked::whole_decision))]
pub fn excess_values()
    ensures busy { excess_burst 1 (milli 100000) (Capacity (milli 211000)) (over_seconds 450000 6) ≡ negsuc 185 }
    ensures capacity_zero { excess_burst 3 (milli 1000) (Capacity (milli 0)) (fraction 9 1 (lit< tt)) ≡ pos 0 }
    ensures unlimited { excess_burst 3 (milli 1000) Unlimited (fraction 9 1 (lit< tt)) ≡ negsuc 0 }
    ensures rounded_down { excess_burst 0 (milli 1000) (Capacity (milli 500)) (fraction 0 1 (lit< tt)) ≡ negsuc 0 }
    ensures just_enough { excess_burst 1 (milli 1000) (Capacity (milli 500)) (fraction 1 2 (lit< tt)) ≡ pos 0 }
    ensures just_short { excess_burst 1 (milli 1000) (Capacity (milli 500)) (fraction 51 100 (lit< tt)) ≡ negsuc 0 }
    ensures largest { excess_burst 500 (milli 1000000000) (Capacity (milli 1000)) (fraction 0 1 (lit< tt)) ≡ pos 499999999 }
{}

/// Requests go straight to the pods where some are wanted, the excess isn't negative and no phase is activating.
#[tactic(auto, unfolding(crate::specs::Worked::whole_decision))]
pub fn serving_modes()
    ensures nothing_wanted { serving_mode 0 (pos 5) Active ≡ Proxy }
    ensures burst_too_large { serving_mode 1 (negsuc 0) Active ≡ Proxy }
    ensures no_pod_yet { serving_mode 1 (pos 5) Activating ≡ Proxy }
    ensures straight { serving_mode 1 (pos 0) Active ≡ Serve }
{}

/// The lower bound wins over max-scale, and 500 is the ceiling.
#[tactic(auto, unfolding(crate::specs::Worked::whole_decision))]
pub fn scale_bounds()
    ensures low_above_max { bounded_count (record (scaled 1) { initial = 2; max = 1 }) false 0 ≡ 2 }
    ensures max { bounded_count (record (scaled 1) { initial = 2; max = 1 }) true 5 ≡ 1 }
    ensures initial_above_min { bounded_count (record (scaled 1) { initial = 5; min = 3 }) false 4 ≡ 5 }
    ensures initial_once_reached { bounded_count (record (scaled 1) { initial = 5; min = 3 }) true 4 ≡ 4 }
    ensures min_above_initial { bounded_count (record (scaled 1) { initial = 3; min = 5 }) false 1 ≡ 5 }
    ensures min { bounded_count (record (scaled 1) { min = 3 }) true 1 ≡ 3 }
    ensures at_the_ceiling { bounded_count (scaled 1) true 500 ≡ 500 }
    ensures ceiling { bounded_count (scaled 1) true 501 ≡ 500 }
    ensures ceiling_below_max { bounded_count (record (scaled 1) { max = 1000000000 }) true 700 ≡ 500 }
    ensures nothing { bounded_count (scaled 1) true 0 ≡ 0 }
{}

/// The first two lines of the scale-to-zero rule: a count above 0, and scale to zero disabled.
#[tactic(auto, unfolding(crate::specs::Worked::whole_decision))]
pub fn some_pods_wanted()
    ensures without_a_ready_pod { zero_rule (scaled 1) 5000 0 4 (standing_at Inactive 0 Proxy 0) ≡ answer 4 true Activating }
    ensures with_one { zero_rule (scaled 1) 5000 1 4 (standing_at Activating 0 Proxy 0) ≡ answer 4 true Active }
    ensures never_to_zero { zero_rule (record (scaled 1) { to_zero = false }) 1000000 1 0 (standing_at Active 0 Serve 0) ≡ answer 1 true Active }
    ensures never_to_zero_inactive { zero_rule (record (scaled 1) { to_zero = false }) 1000000 0 0 (standing_at Inactive 0 Proxy 0) ≡ answer 1 true Activating }
    ensures never_to_zero_activating { zero_rule (record (scaled 1) { to_zero = false }) 1000000 0 0 (record (standing_at Activating 0 Proxy 0) { want = 7 }) ≡ answer 1 true Activating }
{}

/// Nothing is wanted any more: an activating revision stays, and an active one becomes inactive after a stable window.
#[tactic(auto, unfolding(crate::specs::Worked::whole_decision))]
pub fn going_to_zero()
    ensures activating { zero_rule (scaled 1) 1000000 0 0 (record (standing_at Activating 0 Proxy 0) { want = 7 }) ≡ answer 7 false Activating }
    ensures active { zero_rule (scaled 1) 60999 1 0 (standing_at Active 1000 Serve 1000) ≡ answer 1 true Active }
    ensures active_without_a_pod { zero_rule (scaled 1) 60999 0 0 (standing_at Active 1000 Serve 1000) ≡ answer 1 true Activating }
    ensures active_for_a_window { zero_rule (scaled 1) 61000 1 0 (standing_at Active 1000 Serve 1000) ≡ answer 0 false Inactive }
{}

/// The pods of an inactive revision go after the larger of grace and retention, or after retention where requests
/// went through the activator for grace.
#[tactic(auto, unfolding(crate::specs::Worked::whole_decision))]
pub fn going_after_grace()
    ensures within_grace { zero_rule (scaled 1) 37999 1 0 (standing_at Inactive 8000 Proxy 8000) ≡ answer 0 false Inactive }
    ensures after_grace { zero_rule (scaled 1) 38000 1 0 (standing_at Inactive 8000 Proxy 8000) ≡ answer 0 true Inactive }
    ensures within_retention { zero_rule (record (scaled 1) { retention_ms = 50000 }) 49999 1 0 (standing_at Inactive 0 Proxy 0) ≡ answer 0 false Inactive }
    ensures after_retention { zero_rule (record (scaled 1) { retention_ms = 50000 }) 50000 1 0 (standing_at Inactive 0 Serve 0) ≡ answer 0 true Inactive }
    ensures proxy_within_grace { zero_rule (record (scaled 1) { retention_ms = 5000 }) 29999 1 0 (standing_at Inactive 20000 Proxy 0) ≡ answer 0 false Inactive }
    ensures proxy_for_grace { zero_rule (record (scaled 1) { retention_ms = 5000 }) 30000 1 0 (standing_at Inactive 20000 Proxy 0) ≡ answer 0 true Inactive }
    ensures proxy_within_retention { zero_rule (record (scaled 1) { retention_ms = 15000 }) 34999 1 0 (standing_at Inactive 20000 Proxy 0) ≡ answer 0 false Inactive }
    ensures serve_for_grace { zero_rule (record (scaled 1) { retention_ms = 5000 }) 30000 1 0 (standing_at Inactive 20000 Serve 0) ≡ answer 0 false Inactive }
{}
