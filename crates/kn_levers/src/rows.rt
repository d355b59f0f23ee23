//! Worked rows: what a decision hangs on, computed by the checker. Their expected values are those of another program, a
//! search over pasts at the ends of all ranges.
ghost use Rattle.std.specs.Prelude.{◌≡◌, true, false};
ghost use Rattle.std.proofs.Common.{lit<};
ghost use Rattle.kn_event.specs.declared.entry.Phase.TheVariants.{Activating, Inactive};
ghost use Rattle.kn_event.specs.declared.entry.Mode.TheVariants.{Serve};
ghost use Rattle.kn_event.specs.Defaults.{milli};
ghost use Rattle.kn_scaling.specs.Worked.{fraction, scaled};
ghost use Rattle.kn_levers.specs.declared.lever.Setting.TheVariants as setting;
ghost use Rattle.kn_levers.specs.declared.lever.Why.TheVariants as why;
ghost use Rattle.kn_levers.specs.Levers.{change_of};
ghost use Rattle.kn_levers.specs.Worked.{calm, found};

/// No pod is asked for: of a revision that is active or waits for its first ready pod, with and without scale to zero.
#[tactic(auto, unfolding(crate::specs::Worked::whole_change))]
pub fn active_or_waiting()
    ensures activating { change_of (record (scaled 0) { stable_s = 12; max = 501 })
        (record found { phase = Activating; passed = 60000 }) calm
        ≡ record { setting = setting.Min 1; why = why.OrReady } }
    ensures active_below_6_s_min { change_of (record (scaled 0) { stable_s = 6; max = 2 })
        (record found { passed = 2000 }) calm ≡ record { setting = setting.Min 2; why = why.OnePod } }
    ensures goes_inactive { change_of (record (scaled 0) { stable_s = 6 }) (record found { passed = 6001 }) calm
        ≡ record { setting = setting.StableWindow 3600; why = why.Rule } }
    ensures goes_inactive_an_hour { change_of (scaled 0) (record found { passed = 3600001 }) calm
        ≡ record { setting = setting.ToZero false; why = why.Rule } }
    ensures to_zero_off { change_of (record (scaled 0) { stable_s = 3600; max = 20; to_zero = false })
        (record found { passed = 3600001 }) calm ≡ record { setting = setting.ToZero true; why = why.Rule } }
    ensures to_zero_off_active_min { change_of (record (scaled 0) { max = 501; to_zero = false })
        (record found { passed = 1999 }) calm ≡ record { setting = setting.Min 2; why = why.OnePod } }
    ensures active { change_of (record (scaled 0) { stable_s = 10; max = 1 }) (record found { passed = 6001 }) calm
        ≡ record { setting = setting.StableWindow 6; why = why.Rule } }
    ensures active_below_6_s_both_bounds { change_of (record (scaled 0) { stable_s = 10; max = 1 })
        (record found { passed = 1999 }) calm ≡ record { setting = setting.MinAndMax 2 2; why = why.OnePod } }
    ensures to_zero_off_active_both_bounds { change_of (record (scaled 0) { max = 1; to_zero = false })
        (record found { passed = 30000 }) calm ≡ record { setting = setting.MinAndMax 2 2; why = why.OnePod } }
{}

/// No pod is asked for: of an inactive revision, whose pods go or stay.
#[tactic(auto, unfolding(crate::specs::Worked::whole_change))]
pub fn inactive()
    ensures stays_by_retention { change_of (record (scaled 0) { grace_ms = 1; retention_ms = 3600000 })
        (record found { phase = Inactive; passed = 1; mode = Serve; mode_passed = 1 }) (record calm { applied = false })
        ≡ record { setting = setting.Retention 0; why = why.Rule } }
    ensures goes { change_of (record (scaled 0) { retention_ms = 1 }) (record found { phase = Inactive; passed = 6000 })
        calm ≡ record { setting = setting.Retention 3600000; why = why.Rule } }
    ensures stays_by_grace { change_of (record (scaled 0) { grace_ms = 3600000; retention_ms = 1 })
        (record found { phase = Inactive; passed = 5999; mode = Serve; mode_passed = 3600000 })
        (record calm { applied = false }) ≡ record { setting = setting.Grace; why = why.Rule } }
    ensures stays_by_both { change_of (record (scaled 0) { grace_ms = 3600000; retention_ms = 2000 })
        (record found { phase = Inactive; passed = 1999 }) (record calm { applied = false })
        ≡ record { setting = setting.GraceAndRetention; why = why.Rule } }
    ensures goes_an_hour { change_of (record (scaled 0) { retention_ms = 2000 })
        (record found { phase = Inactive; passed = 3600001 }) calm
        ≡ record { setting = setting.ToZero false; why = why.Rule } }
{}

/// A bound holds more than is asked for, or less.
#[tactic(auto, unfolding(crate::specs::Worked::whole_change))]
pub fn bounds_hold()
    ensures ceiling { change_of (record (scaled 0) { min = 7; max = 500; initial = 499 })
        (record found { reached = false }) (record calm { delayed = 826; bounded = 500 })
        ≡ record { setting = setting.Max 499; why = why.Ceiling } }
    ensures min_and_initial_of_500 { change_of (record (scaled 0) { min = 500; initial = 500 })
        (record found { reached = false }) (record calm { delayed = 20; bounded = 500 })
        ≡ record { setting = setting.MinAndInitial 499; why = why.Rule } }
    ensures max_scale { change_of (record (scaled 0) { stable_s = 7; max = 1; initial = 499 })
        (record found { phase = Inactive; passed = 1999; reached = false })
        (record calm { delayed = 1000; bounded = 1 }) ≡ record { setting = setting.Max 0; why = why.Rule } }
    ensures initial_scale { change_of (record (scaled 0) { max = 2; initial = 499 }) (record found { reached = false })
        (record calm { delayed = 1; bounded = 499 }) ≡ record { setting = setting.Initial 500; why = why.Rule } }
    ensures min_scale { change_of (record (scaled 0) { min = 3; initial = 0 }) found
        (record calm { delayed = 2; bounded = 3 }) ≡ record { setting = setting.Min 4; why = why.Rule } }
    ensures ceiling_both_bounds { change_of (record (scaled 0) { min = 500; max = 500 })
        (record found { reached = false }) (record calm { delayed = 600; bounded = 500 })
        ≡ record { setting = setting.MinAndMax 499 499; why = why.Ceiling } }
    ensures min_down { change_of (record (scaled 0) { min = 500; max = 500 }) (record found { reached = false })
        (record calm { delayed = 499; bounded = 500 }) ≡ record { setting = setting.Min 499; why = why.Rule } }
    ensures min_unreached { change_of (record (scaled 0) { min = 3; max = 3 }) (record found { reached = false })
        (record calm { bounded = 3 }) ≡ record { setting = setting.Initial 4; why = why.Rule } }
    ensures ceiling_all_bounds { change_of (record (scaled 0) { min = 500; max = 500; initial = 500 })
        (record found { reached = false }) (record calm { delayed = 600; bounded = 500 })
        ≡ record { setting = setting.Bounds 499; why = why.Ceiling } }
    ensures min_and_max_of_1 { change_of (record (scaled 0) { min = 1; max = 1; initial = 500; to_zero = false })
        (record found { passed = 60000 }) (record calm { bounded = 1 })
        ≡ record { setting = setting.MinAndMax 2 2; why = why.Rule } }
{}

/// What is asked for is wanted: the rule behind it.
#[tactic(auto, unfolding(crate::specs::Worked::whole_change))]
pub fn rules_hold()
    ensures down_rate_off { change_of (record (scaled 0) { up = milli 1000000000; min = 7; initial = 0 })
        (record found { recent = 2 })
        (record calm { ready = 501; dspc = 19; undelayed = 250; delayed = 250; bounded = 250 })
        ≡ record { setting = setting.DownRate (milli 1000000000); why = why.Rule } }
    ensures activation { change_of
        (record (scaled 0) { up = milli 1000000000; down = milli 1002; activation = 499; min = 2; initial = 0 }) found
        (record calm { ready = 499; dspc = 100; dppc = 100; undelayed = 499; delayed = 499; bounded = 499 })
        ≡ record { setting = setting.Activation 500; why = why.Rule } }
    ensures delay { change_of (record (scaled 0) { initial = 3 }) found
        (record calm { undelayed = 10; delayed = 20; bounded = 20 })
        ≡ record { setting = setting.Delay; why = why.Rule } }
    ensures up_rate { change_of
        (record (scaled 0) { up = milli 1500; down = milli 1500; activation = 3; initial = 500 }) found
        (record calm {
          ready = 4;
          dspc = 9;
          dppc = 19;
          over = true;
          panicking = true;
          undelayed = 6;
          delayed = 6;
          bounded = 6;
        }) ≡ record { setting = setting.UpRate; why = why.Rule } }
    ensures target { change_of
        (record (scaled 0) { up = milli 1000000000; down = milli 3000; activation = 7; min = 1; initial = 499 }) found
        (record calm {
          stable = fraction 60000 3000 (lit< tt);
          panic = fraction 20000 1000 (lit< tt);
          ready = 3;
          dspc = 20;
          dppc = 20;
          over = true;
          panicking = true;
          undelayed = 20;
          delayed = 20;
          bounded = 20;
        })
        ≡ record { setting = setting.Target; why = why.OrLoad } }
    ensures target_at_its_least_min { change_of (record (scaled 0) { up = milli 1001; down = milli 3000; initial = 0 })
        found
        (record calm {
          stable = fraction 3000 1000 (lit< tt);
          panic = fraction 3000 1000 (lit< tt);
          ready = 501;
          dspc = 300;
          dppc = 300;
          undelayed = 300;
          delayed = 300;
          bounded = 300;
        })
        ≡ record { setting = setting.Min 301; why = why.NoTarget } }
    ensures down_rate_to_the_most { change_of
        (record (scaled 0) { up = milli 2000; down = milli 1500; activation = 2; min = 2 })
        (record found { reached = false; over = true })
        (record calm { ready = 499; panicking = true; undelayed = 332; delayed = 332; bounded = 332 })
        ≡ record { setting = setting.DownRate (milli 1001); why = why.Rule } }
    ensures up_rate_reached_min { change_of (record (scaled 0) { up = milli 1500; min = 2 }) found
        (record calm { dspc = 2; dppc = 2; undelayed = 2; delayed = 2; bounded = 2 })
        ≡ record { setting = setting.Min 3; why = why.UpRateHolds } }
    ensures panic { change_of (record (scaled 0) { up = milli 2000; down = milli 1000000000; activation = 3 })
        (record found { reached = false })
        (record calm {
          ready = 3;
          dspc = 4;
          dppc = 9;
          over = true;
          panicking = true;
          undelayed = 6;
          delayed = 6;
          bounded = 6;
        }) ≡ record { setting = setting.Panic; why = why.Rule } }
    ensures down_rate_at_its_least_min { change_of (record (scaled 0) { up = milli 1500; down = milli 1002; max = 501 })
        (record found { reached = false; over = true })
        (record calm { ready = 4; panicking = true; undelayed = 3; delayed = 3; bounded = 3 })
        ≡ record { setting = setting.Min 4; why = why.DownRateHolds } }
{}

/// What is asked for is wanted: a bound stands in for max-scale, 500, or what panic asked for earlier.
#[tactic(auto, unfolding(crate::specs::Worked::whole_change))]
pub fn bounds_stand_in()
    ensures at_the_most_both_bounds { change_of
        (record (scaled 0) { up = milli 1500; activation = 500; min = 500; max = 500 })
        (record found { reached = false; over = true; recent = 20 })
        (record calm {
          ready = 2;
          dspc = 2;
          dppc = 2;
          panicking = true;
          undelayed = 500;
          delayed = 500;
          bounded = 500;
        }) ≡ record { setting = setting.MinAndMax 499 499; why = why.Ceiling } }
    ensures earlier_panic_max { change_of
        (record (scaled 0) { up = milli 2000; down = milli 1500; activation = 500; initial = 0 })
        (record found { over = true })
        (record calm { ready = 0; panicking = true; undelayed = 500; delayed = 500; bounded = 500 })
        ≡ record { setting = setting.Max 499; why = why.PanicKeeps } }
    ensures earlier_panic_min { change_of
        (record (scaled 0) {
          up = milli 1100;
          down = milli 3000;
          activation = 2;
          min = 3;
          max = 1000000000;
          initial = 500;
        }) (record found { over = true })
        (record calm { panicking = true; undelayed = 3; delayed = 3; bounded = 3 })
        ≡ record { setting = setting.Min 4; why = why.PanicKeeps } }
    ensures at_the_most_max { change_of (record (scaled 0) { up = milli 2000; activation = 500; min = 1 })
        (record found { over = true })
        (record calm {
          ready = 2;
          dspc = 20049;
          dppc = 30000;
          over = true;
          panicking = true;
          undelayed = 500;
          delayed = 500;
          bounded = 500;
        }) ≡ record { setting = setting.Max 499; why = why.Ceiling } }
    ensures at_the_most_all_bounds { change_of
        (record (scaled 0) { up = milli 1001; down = milli 1002; activation = 500; min = 500; initial = 500 })
        (record found { reached = false; over = true })
        (record calm {
          ready = 501;
          dspc = 30;
          dppc = 30;
          panicking = true;
          undelayed = 500;
          delayed = 500;
          bounded = 500;
        }) ≡ record { setting = setting.Bounds 499; why = why.Ceiling } }
    ensures at_the_most_initial { change_of
        (record (scaled 0) { up = milli 1100; down = milli 1100; min = 2; max = 2; initial = 2 })
        (record found { reached = false })
        (record calm {
          dspc = 300000;
          dppc = 600000;
          over = true;
          panicking = true;
          undelayed = 2;
          delayed = 2;
          bounded = 2;
        }) ≡ record { setting = setting.Initial 3; why = why.NoMore } }
    ensures earlier_panic_both_bounds { change_of
        (record (scaled 0) { up = milli 1100; down = milli 1000000000; activation = 7; min = 7; max = 7 })
        (record found { over = true })
        (record calm { ready = 500; panicking = true; undelayed = 7; delayed = 7; bounded = 7 })
        ≡ record { setting = setting.MinAndMax 8 0; why = why.PanicKeeps } }
    ensures earlier_panic_initial { change_of
        (record (scaled 0) { up = milli 1100; down = milli 3000; activation = 499; min = 499; max = 499; initial = 2 })
        (record found { reached = false; over = true })
        (record calm { panicking = true; undelayed = 499; delayed = 499; bounded = 499 })
        ≡ record { setting = setting.Initial 500; why = why.PanicKeeps } }
    ensures earlier_panic_all_bounds { change_of
        (record (scaled 0) {
          up = milli 1001;
          down = milli 1000000000;
          activation = 500;
          min = 500;
          max = 1000000000;
          initial = 500;
        }) (record found { reached = false; over = true })
        (record calm { ready = 2; panicking = true; undelayed = 500; delayed = 500; bounded = 500 })
        ≡ record { setting = setting.Bounds 499; why = why.PanicKeeps } }
{}

/// More was asked for within the delay, and a bound stands in for it.
#[tactic(auto, unfolding(crate::specs::Worked::whole_change))]
pub fn bounds_for_the_delay()
    ensures delay_both_bounds { change_of (record (scaled 0) { min = 500; max = 1000000000; initial = 500 }) found
        (record calm { undelayed = 14; delayed = 500; bounded = 500 })
        ≡ record { setting = setting.MinAndMax 499 499; why = why.MinAsks } }
    ensures delay_max { change_of (record (scaled 0) { initial = 500 }) (record found { reached = false })
        (record calm { undelayed = 2; delayed = 500; bounded = 500 })
        ≡ record { setting = setting.Max 499; why = why.InitialAsks } }
    ensures delay_min { change_of (record (scaled 0) { min = 7; max = 500; initial = 3 })
        (record found { reached = false }) (record calm { undelayed = 2; delayed = 7; bounded = 7 })
        ≡ record { setting = setting.Min 8; why = why.MinAsks } }
    ensures delay_all_bounds { change_of (record (scaled 0) { min = 500; initial = 500 })
        (record found { reached = false }) (record calm { delayed = 500; bounded = 500 })
        ≡ record { setting = setting.Bounds 499; why = why.MinAsks } }
    ensures delay_initial { change_of (record (scaled 0) { min = 7; max = 7 }) (record found { reached = false })
        (record calm { undelayed = 6; delayed = 7; bounded = 7 })
        ≡ record { setting = setting.Initial 8; why = why.MinAsks } }
{}
