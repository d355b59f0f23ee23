//! Rows of whole decisions.
ghost use Rattle.std.specs.Prelude.{◌≡◌, true, false, [], ◌∷◌, Some, None, negsuc, pos};
ghost use Rattle.std.proofs.Common.{lit<};
ghost use Rattle.kn_event.specs.declared.entry.Phase.TheVariants.{Activating, Active, Inactive};
ghost use Rattle.kn_event.specs.declared.entry.Mode.TheVariants.{Proxy, Serve};
ghost use Rattle.kn_event.specs.declared.revision.Burst.TheVariants.{Capacity};
ghost use Rattle.kn_event.specs.Defaults.{milli};
ghost use Rattle.kn_scaling.specs.Average.{no_samples, samples_of};
ghost use Rattle.kn_scaling.specs.Decide.{decision_at, wake_decision_at, no_load, one_request};
ghost use Rattle.kn_scaling.specs.Worked.{scaled, fraction, run_of, over_seconds, samples_at, standing_at, first_past, decided_at, pods_of};

/// 75 requests for six seconds at one pod without a limit: a second pod is wanted, and a burst would not fit.
#[tactic(auto, unfolding(crate::specs::Worked::whole_decision))]
pub fn scale_up_as_kubectl_prints()
    ensures { decision_at (scaled 0) (first_past (samples_of (run_of 0 6 75000 ∷ []))) 6000 1 ≡ Some (record {
      decision = record {
        stable = over_seconds 450000 6;
        panic = over_seconds 450000 6;
        ready = 1;
        dspc = 2;
        dppc = 2;
        over = true;
        panicking = true;
        undelayed = 2;
        delayed = 2;
        excess = negsuc 185;
        bounded = 2;
        want = 2;
        applied = true;
        mode = Proxy;
      };
      phase = Active;
    }) }
{}

/// One request that runs for a thousand million seconds.
#[tactic(auto, unfolding(crate::specs::Worked::whole_decision))]
pub fn very_long_pause()
    ensures { decision_at (scaled 0) (first_past (samples_of (run_of 0 5 0 ∷ run_of 5 999999995 1000 ∷ []))) 1000000000000 1 ≡ Some (record {
      decision = record {
        stable = over_seconds 60000 60;
        panic = over_seconds 6000 6;
        ready = 1;
        dspc = 1;
        dppc = 1;
        over = false;
        panicking = false;
        undelayed = 1;
        delayed = 1;
        excess = negsuc 111;
        bounded = 1;
        want = 1;
        applied = true;
        mode = Proxy;
      };
      phase = Active;
    }) }
{}

/// An arrival while no pod is wanted counts as one request, which two pods are to bear.
#[tactic(auto, unfolding(crate::specs::Worked::whole_decision))]
pub fn scale_from_zero()
    ensures { let past = record (first_past no_samples) { standing = record (standing_at Inactive 0 Proxy 0) { want = 0 } } in
        wake_decision_at (record (scaled 1) { initial = 0 }) past 500 0 ≡ record {
          decision = record {
            stable = one_request;
            panic = one_request;
            ready = 0;
            dspc = 2;
            dppc = 2;
            over = true;
            panicking = true;
            undelayed = 2;
            delayed = 2;
            excess = negsuc 211;
            bounded = 2;
            want = 2;
            applied = true;
            mode = Proxy;
          };
          phase = Activating;
        } }
{}

/// The same with max-scale 1, and without a target burst capacity.
#[tactic(auto, unfolding(crate::specs::Worked::whole_decision))]
pub fn scale_from_zero_to_one()
    ensures { let past = record (first_past no_samples) { standing = record (standing_at Inactive 0 Proxy 0) { want = 0 } } in
        wake_decision_at (record (scaled 1) { initial = 0; max = 1; burst = Capacity (milli 0) }) past 500 0 ≡ record {
          decision = record {
            stable = one_request;
            panic = one_request;
            ready = 0;
            dspc = 2;
            dppc = 2;
            over = true;
            panicking = true;
            undelayed = 2;
            delayed = 2;
            excess = pos 0;
            bounded = 1;
            want = 1;
            applied = true;
            mode = Proxy;
          };
          phase = Activating;
        } }
{}

/// An idle pod: it serves for a stable window of six seconds, and then the revision becomes inactive and keeps it.
#[tactic(auto, unfolding(crate::specs::Worked::whole_decision))]
pub fn scale_to_zero_after_a_window()
    ensures serves { let past = record (first_past (samples_of (run_of 1 1 0 ∷ []))) { standing = standing_at Active 1000 Proxy 0 } in
        decision_at (record (scaled 1) { burst = Capacity (milli 0); stable_s = 6; panic_s = 1 }) past 2000 1 ≡ Some (record {
          decision = record {
            stable = over_seconds 0 1;
            panic = over_seconds 0 1;
            ready = 1;
            dspc = 0;
            dppc = 0;
            over = false;
            panicking = false;
            undelayed = 0;
            delayed = 0;
            excess = pos 0;
            bounded = 0;
            want = 1;
            applied = true;
            mode = Serve;
          };
          phase = Active;
        }) }
    ensures becomes_inactive { let past = record (first_past (samples_of (run_of 1 7 0 ∷ []))) { standing = standing_at Active 1000 Serve 2000 } in
        decision_at (record (scaled 1) { burst = Capacity (milli 0); stable_s = 6; panic_s = 1 }) past 8000 1 ≡ Some (record {
          decision = record {
            stable = over_seconds 0 6;
            panic = over_seconds 0 1;
            ready = 1;
            dspc = 0;
            dppc = 0;
            over = false;
            panicking = false;
            undelayed = 0;
            delayed = 0;
            excess = pos 0;
            bounded = 0;
            want = 0;
            applied = false;
            mode = Proxy;
          };
          phase = Inactive;
        }) }
{}

/// No sample in the stable window is no decision; none in the panic window alone is no load.
#[tactic(auto, unfolding(crate::specs::Worked::whole_decision))]
pub fn empty_windows()
    ensures no_sample { decision_at (scaled 1) (first_past no_samples) 30000 1 ≡ None }
    ensures too_early { decision_at (scaled 1) (first_past (samples_at ((0, 700) ∷ []))) 61000 1 ≡ None }
    ensures panic_alone { decision_at (scaled 1) (first_past (samples_at ((0, 700) ∷ []))) 60999 1 ≡ Some (record {
      decision = record {
        stable = over_seconds 700 1;
        panic = no_load;
        ready = 1;
        dspc = 1;
        dppc = 0;
        over = false;
        panicking = false;
        undelayed = 1;
        delayed = 1;
        excess = negsuc 209;
        bounded = 1;
        want = 1;
        applied = true;
        mode = Proxy;
      };
      phase = Active;
    }) }
{}

/// With a delay of ten seconds the five pods of second 100 are kept up to second 109. What the earlier decision asked
/// for counts, and not what it wanted. Undelayed, delayed, bounded, wanted:
#[tactic(auto, unfolding(crate::specs::Worked::whole_decision))]
pub fn delay_in_a_whole_decision()
    ensures nine_later { let past = record (first_past (samples_of (run_of 100 9 0 ∷ []))) { decisions = decided_at 100999 5 (fraction 3 1 (lit< tt)) (fraction 3 1 (lit< tt)) 5 ∷ [] } in
        pods_of (decision_at (record (scaled 1) { delay_s = 10 }) past 109999 5) ≡ Some (2, 5, 5, 5) }
    ensures ten_later { let past = record (first_past (samples_of (run_of 100 9 0 ∷ []))) { decisions = decided_at 100999 5 (fraction 3 1 (lit< tt)) (fraction 3 1 (lit< tt)) 5 ∷ [] } in
        pods_of (decision_at (record (scaled 1) { delay_s = 10 }) past 110000 5) ≡ Some (2, 2, 2, 2) }
{}

/// Panic goes by the counts of the earlier decision's own averages and Ready pods: its panic average of 7 asked for ten
/// pods at a target of 0.7, from one. Undelayed, delayed, bounded, wanted:
#[tactic(auto, unfolding(crate::specs::Worked::whole_decision))]
pub fn panic_in_a_whole_decision()
    ensures panicking { let past = record (first_past (samples_of (run_of 0 90 0 ∷ []))) { decisions = decided_at 60000 1 no_load (fraction 7 1 (lit< tt)) 10 ∷ [] } in
        pods_of (decision_at (scaled 1) past 90000 10) ≡ Some (10, 10, 10, 10) }
    ensures at_its_end { let past = record (first_past (samples_of (run_of 0 130 0 ∷ []))) { decisions = decided_at 60000 1 no_load (fraction 7 1 (lit< tt)) 10 ∷ [] } in
        pods_of (decision_at (scaled 1) past 120001 10) ≡ Some (5, 5, 5, 5) }
{}
