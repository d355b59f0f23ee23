//! What further entries change of what decisions look back on.
ghost use Rattle.std.specs.Prelude.{◌≡◌, true, false, ◌+◌, ◌++◌, ◌||◌, nat_le, [], ◌∷◌, length, map, take, unwrap_or};
ghost use Rattle.std.specs.List.{filter_map, list_any, range_with_len};
ghost use Rattle.std.specs.Option.{option_or, option_to_list};
ghost use Rattle.kn_event.specs.declared.entry.Entry.{Entry};
ghost use Rattle.kn_event.specs.declared.revision.Spec.{Spec};
ghost use Rattle.kn_trace.specs.Rows.{decision_by, mode_by, phase_by};
ghost use Rattle.kn_trace.specs.Scale.{count_ready, decided_by, initial_reached, mode_of, mode_since, phase_of, phase_since, start_of, times_of, wanted};
ghost use Rattle.kn_trace.specs.Trace.{Trace, each_row, is_empty, last_of, ready_pods};
ghost use Rattle.kn_past.specs.Changes.{leaves_pods, time_by, want_by};

/// By one more entry: phase, mode and wanted scale are those that its row says, or stay; since when, is its time or stays,
/// and the very first entry is the start; a decision is the last one of the past; the initial scale was reached before, or
/// as many pods as it are Ready now. A row that makes, readies, drains and takes no pod leaves the Ready ones.
pub fn entry_laws()
    ensures phase { (c : Trace) (e : Entry) → phase_of (c ++ e ∷ []) ≡ option_or (phase_by e.row) (phase_of c) }
    ensures mode { (c : Trace) (e : Entry) → mode_of (c ++ e ∷ []) ≡ unwrap_or (mode_by e.row) (mode_of c) }
    ensures wanted { (s : Spec) (c : Trace) (e : Entry) → wanted s (c ++ e ∷ []) ≡ unwrap_or (want_by e.row) (wanted s c) }
    ensures first { (e : Entry) → (start_of (e ∷ []) ≡ e.time) × (phase_since (e ∷ []) ≡ e.time) × (mode_since (e ∷ []) ≡ e.time) }
    ensures start { (c : Trace) (e : Entry) → is_empty c ≡ false → start_of (c ++ e ∷ []) ≡ start_of c }
    ensures phase_since { (c : Trace) (e : Entry) → is_empty c ≡ false → phase_since (c ++ e ∷ []) ≡ unwrap_or (time_by phase_by e) (phase_since c) }
    ensures mode_since { (c : Trace) (e : Entry) → is_empty c ≡ false → mode_since (c ++ e ∷ []) ≡ unwrap_or (time_by mode_by e) (mode_since c) }
    ensures decisions { (c : Trace) (e : Entry) → filter_map decided_by (c ++ e ∷ []) ≡ filter_map decided_by c ++ option_to_list (decided_by e) }
    ensures reached { (s : Spec) (c : Trace) (e : Entry) → initial_reached s (c ++ e ∷ []) ≡ (initial_reached s c || nat_le s.initial (count_ready (c ++ e ∷ []))) }
    ensures reached_now { (s : Spec) (c : Trace) → nat_le s.initial (count_ready c) ≡ true → initial_reached s c ≡ true }
    ensures ready { (c : Trace) (e : Entry) → leaves_pods e.row ≡ true → ready_pods (c ++ e ∷ []) ≡ ready_pods c }
    ensures count_ready { (c : Trace) (e : Entry) → leaves_pods e.row ≡ true → count_ready (c ++ e ∷ []) ≡ count_ready c }
    ensures reached_stays { (s : Spec) (c : Trace) (e : Entry) → leaves_pods e.row ≡ true → initial_reached s (c ++ e ∷ []) ≡ initial_reached s c }
{}

/// The same by a list of further entries: the last of them that says something of the kind decides.
pub fn list_laws()
    ensures phase { (c es : Trace) → phase_of (c ++ es) ≡ option_or (phase_of es) (phase_of c) }
    ensures mode { (c es : Trace) → mode_of (c ++ es) ≡ unwrap_or (last_of (each_row mode_by es)) (mode_of c) }
    ensures wanted { (s : Spec) (c es : Trace) → wanted s (c ++ es) ≡ unwrap_or (last_of (map (λ d. d.want) (each_row decision_by es))) (wanted s c) }
    ensures start { (c es : Trace) → is_empty c ≡ false → start_of (c ++ es) ≡ start_of c }
    ensures phase_since { (c es : Trace) → is_empty c ≡ false → phase_since (c ++ es) ≡ unwrap_or (last_of (times_of phase_by es)) (phase_since c) }
    ensures mode_since { (c es : Trace) → is_empty c ≡ false → mode_since (c ++ es) ≡ unwrap_or (last_of (times_of mode_by es)) (mode_since c) }
    ensures decisions { (c es : Trace) → filter_map decided_by (c ++ es) ≡ filter_map decided_by c ++ filter_map decided_by es }
    ensures reached { (s : Spec) (c es : Trace) → initial_reached s (c ++ es) ≡ (initial_reached s c || list_any (λ k. nat_le s.initial (count_ready (c ++ take k es))) (range_with_len 1 (length es))) }
{}
