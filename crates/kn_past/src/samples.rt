//! What stays of the seconds that are over, and of the averages over them.
ghost use Rattle.std.specs.Prelude.{◌≡◌, ℕ, ◌+◌, ◌*◌, ◌≤◌, ◌++◌, [], ◌∷◌};
ghost use Rattle.std.specs.Option.{IfSome};
ghost use Rattle.kn_event.specs.declared.entry.Entry.{Entry};
ghost use Rattle.kn_event.specs.declared.revision.Metric.{Metric};
ghost use Rattle.kn_scaling.specs.Average.{IsAverage, Samples, window_average};
ghost use Rattle.kn_trace.specs.Load.{count_in, load_in, samples};
ghost use Rattle.kn_trace.specs.Trace.{Trace};
ghost use Rattle.kn_past.specs.Seconds.{AgreeBelow, AreFrom, AreSmall, end_of_second};

/// An average reads the seconds below its own alone: samples that agree there have the same. Over at most an hour, of values
/// of a million requests at most, it is at most a million, over at most 3,600,000 milliseconds.
pub fn average_laws()
    ensures below { (f g : Samples) (n end : ℕ) → AgreeBelow end f g → window_average f n end ≡ window_average g n end }
    ensures small { (f : Samples) (n end : ℕ) → AreSmall f → n ≤ 3600 → IfSome (window_average f n end) IsAverage }
{}

/// Entries after the end of a second change neither its load, nor how many requests were taken in in it, nor whether it is
/// a sample and its value; so an average at a time not after them stays.
pub fn later_laws()
    ensures load { (c es : Trace) (s : ℕ) → AreFrom (end_of_second s) es → load_in (c ++ es) s ≡ load_in c s }
    ensures count { (c es : Trace) (s : ℕ) → AreFrom (end_of_second s) es → count_in (c ++ es) s ≡ count_in c s }
    ensures sample { (m : Metric) (c es : Trace) (s : ℕ) → AreFrom (end_of_second s) es → samples m (c ++ es) s ≡ samples m c s }
    ensures load_entry { (c : Trace) (e : Entry) (s : ℕ) → end_of_second s ≤ e.time → load_in (c ++ e ∷ []) s ≡ load_in c s }
    ensures count_entry { (c : Trace) (e : Entry) (s : ℕ) → end_of_second s ≤ e.time → count_in (c ++ e ∷ []) s ≡ count_in c s }
    ensures sample_entry { (m : Metric) (c : Trace) (e : Entry) (s : ℕ) → end_of_second s ≤ e.time → samples m (c ++ e ∷ []) s ≡ samples m c s }
    ensures average { (m : Metric) (c es : Trace) (n end : ℕ) → AreFrom (1000 * end) es → window_average (samples m (c ++ es)) n end ≡ window_average (samples m c) n end }
{}
