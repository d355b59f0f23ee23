//! What one more entry changes, for bodies that keep a record in place of the trace.
ghost use Rattle.std.specs.Prelude.{◌≡◌, ◌≤◌, ◌⊎◌, ℕ, true, false, List, ◌++◌, ◌∷◌, [], None, Some};
ghost use Rattle.kn_event.specs.declared.entry.Entry.{Entry};
ghost use Rattle.kn_event.specs.declared.entry.Row.{Row};
ghost use Rattle.kn_event.specs.declared.entry.Row.TheVariants as row;
ghost use Rattle.kn_event.specs.declared.event.Act.{Act};
ghost use Rattle.kn_event.specs.declared.event.Act.TheVariants as act;
ghost use Rattle.kn_event.specs.declared.event.Event.{Event};
ghost use Rattle.kn_event.specs.declared.revision.Spec.{Spec};
ghost use Rattle.kn_event.specs.Lists.{contains};
ghost use Rattle.kn_trace.specs.Events.{act_row, expiries, losses, react};
ghost use Rattle.kn_trace.specs.Settling.{held_assignments, removals};
ghost use Rattle.kn_trace.specs.Trace.{Trace, entry, first_of, live_pods};
ghost use Rattle.kn_trace.specs.Scale.{mode_of};
ghost use Rattle.kn_record.specs.Acting.{row_in};
ghost use Rattle.kn_record.specs.Admission.{Admission, admission, is_at, is_held_place, next_in, nothing_yet, placed_in, queues_at, stepped};
ghost use Rattle.kn_record.specs.Made.{Holds, IsMade, IsProper, IsRecordOf};
ghost use Rattle.kn_record.specs.Order.{AreTimed, AreTimesInOrder, FitsRecord, IsInOrder};
ghost use Rattle.kn_record.specs.Views.{AreByPlace, AreViews, due_in, has_free_seat_in, pod_numbers};
ghost use Rattle.kn_record.specs.Walks.{ArePartsProper, BeginsWith, Leaves, leaving_in, losing, promoting, stepped_by};

/// The record of a trace that events made stands for it, goes on by one step at each row that is proper where it comes,
/// says which row an act has, and answers each view of the trace.
pub fn append_laws()
    ensures admission { (s : Spec) (c : Trace) (t : ℕ) (x : Row) → IsMade s c → IsProper s c x → admission (c ++ entry t x ∷ []) ≡ stepped t x (admission c) }
    ensures stands { (s : Spec) (c : Trace) → IsMade s c → IsRecordOf (admission c) c }
    ensures nothing { (s : Spec) → IsRecordOf nothing_yet [] }
    ensures append { (s : Spec) (a : Admission) (c : Trace) (t : ℕ) (x : Row) → IsRecordOf a c → IsProper s c x → IsRecordOf (stepped t x a) (c ++ entry t x ∷ []) }
    ensures act { (s : Spec) (a : Admission) (c : Trace) (t : ℕ) (did : Act) (x : Row) → IsRecordOf a c → act_row s c did ≡ Some x → IsRecordOf (stepped t x a) (c ++ entry t x ∷ []) }
    ensures row { (s : Spec) (a : Admission) (c : Trace) (did : Act) → IsRecordOf a c → act_row s c did ≡ row_in s (mode_of c) a did }
    ensures views { (s : Spec) (a : Admission) (c : Trace) → IsRecordOf a c → AreViews s a c }
    ensures by_place { (s : Spec) (c : Trace) → IsMade s c → AreByPlace c }
{}

/// The rows of an event one after the other, by what the record says comes next: expiries, then who is lost with a pod,
/// then at each pod in turn the runs of its queue, then assignments, then removals. And a whole list of proper rows at once,
/// as an event's are.
pub fn walk_laws()
    ensures expire { (s : Spec) (a : Admission) (c : Trace) (t r : ℕ) → IsRecordOf a c → first_of (due_in s.timeout_ms t a.live) ≡ Some r → BeginsWith (expiries s t) t (row.Expire r) a c }
    ensures expired { (s : Spec) (a : Admission) (c : Trace) (t : ℕ) → IsRecordOf a c → first_of (due_in s.timeout_ms t a.live) ≡ None → expiries s t c ≡ [] }
    ensures losses { (c : Trace) (t p : ℕ) → contains p (live_pods c) ≡ true → losses t c (act.Lost p) ≡ losing t p c }
    ensures lose { (s : Spec) (a : Admission) (c : Trace) (t p r : ℕ) → IsRecordOf a c → first_of (placed_in (is_at p) a.live) ≡ Some r → BeginsWith (losing t p) t (row.LostRequest r) a c }
    ensures lost { (a : Admission) (c : Trace) (t p : ℕ) → IsRecordOf a c → first_of (placed_in (is_at p) a.live) ≡ None → losing t p c ≡ [] }
    ensures promote { (s : Spec) (a : Admission) (c : Trace) (t p : ℕ) (ps : List ℕ) (r : ℕ) → IsRecordOf a c → first_of (placed_in (queues_at p) a.live) ≡ Some r → has_free_seat_in a p ≡ true → BeginsWith (promoting t (p ∷ ps)) t (row.Run r) a c }
    ensures promoted { (s : Spec) (a : Admission) (c : Trace) (t p : ℕ) (ps : List ℕ) → IsRecordOf a c → contains p (pod_numbers a.pods) ≡ true → (first_of (placed_in (queues_at p) a.live) ≡ None) ⊎ (has_free_seat_in a p ≡ false) → promoting t (p ∷ ps) c ≡ promoting t ps c }
    ensures assign { (s : Spec) (a : Admission) (c : Trace) (t r p : ℕ) → IsRecordOf a c → first_of (placed_in is_held_place a.live) ≡ Some r → next_in s a ≡ Some p → BeginsWith (held_assignments s t) t (row.Assign r p) a c }
    ensures assigned { (s : Spec) (a : Admission) (c : Trace) (t : ℕ) → IsRecordOf a c → (first_of (placed_in is_held_place a.live) ≡ None) ⊎ (next_in s a ≡ None) → held_assignments s t c ≡ [] }
    ensures remove { (s : Spec) (a : Admission) (c : Trace) (t p : ℕ) → IsRecordOf a c → first_of (leaving_in a) ≡ Some p → BeginsWith (removals t) t (row.Remove p) a c }
    ensures removed { (s : Spec) (a : Admission) (c : Trace) (t : ℕ) → IsRecordOf a c → first_of (leaving_in a) ≡ None → removals t c ≡ [] }
    ensures rows { (s : Spec) (a : Admission) (c es : Trace) → IsRecordOf a c → Holds (IsProper s) c es → IsRecordOf (stepped_by es a) (c ++ es) }
    ensures event { (s : Spec) (a : Admission) (c : Trace) (e : Event) → IsMade s c → IsRecordOf a c → IsRecordOf (stepped_by (react s c e) a) (c ++ react s c e) }
    ensures parts { (s : Spec) (c : Trace) (e : Event) → IsMade s c → ArePartsProper s c e }
{}

/// A loop that makes an event's rows one at a time, over the record alone: `Leaves` says how far it has come. It begins with
/// all of them left, each further row is the first that is left, and what is left may be said in other words; where nothing is
/// left the log has grown by all of them, and the record stands for the trace that they made.
pub fn loop_laws()
    ensures begin { (all : Trace → List Entry) (c : Trace) (a : Admission) (log : List Entry) → IsRecordOf a c → Leaves all all c a log log }
    ensures more { (all left : Trace → List Entry) (c : Trace) (a : Admission) (old log : List Entry) (t : ℕ) (x : Row) (l : Leaves all left c a old log) → BeginsWith left t x a l.here → Leaves all left c (stepped t x a) old (log ++ entry t x ∷ []) }
    ensures next { (all left next : Trace → List Entry) (c : Trace) (a : Admission) (old log : List Entry) (l : Leaves all left c a old log) → left l.here ≡ next l.here → Leaves all next c a old log }
    ensures logged { (all left : Trace → List Entry) (c : Trace) (a : Admission) (old log : List Entry) (l : Leaves all left c a old log) → left l.here ≡ [] → log ≡ old ++ all c }
    ensures stands { (all left : Trace → List Entry) (c : Trace) (a : Admission) (old log : List Entry) (l : Leaves all left c a old log) → left l.here ≡ [] → IsRecordOf a (c ++ all c) }
{}

/// The record of a trace that events made lists requests and pods by ascending numbers, all below those to come, and each
/// request at a pod that is listed. A row that is proper where it comes leaves the trace one that events make. So it is of the
/// record alone, from the empty one on, row by row.
pub fn order_laws()
    ensures order { (s : Spec) (a : Admission) (c : Trace) → IsMade s c → IsRecordOf a c → IsInOrder a }
    ensures row { (s : Spec) (c : Trace) (t : ℕ) (x : Row) → IsMade s c → IsProper s c x → IsMade s (c ++ entry t x ∷ []) }
    ensures nothing { IsInOrder nothing_yet }
    ensures step { (a : Admission) (t : ℕ) (x : Row) → IsInOrder a → FitsRecord a x → IsInOrder (stepped t x a) }
{}

/// Where the times of a trace never fall, its record lists the live requests by ascending times too, none later than the
/// clock. So it is of the record alone, from the empty one on, row by row at the clock or later.
pub fn time_laws()
    ensures timed { (a : Admission) (c : Trace) (start clock : ℕ) → IsRecordOf a c → AreTimesInOrder start c clock → AreTimed clock a }
    ensures nothing { (clock : ℕ) → AreTimed clock nothing_yet }
    ensures step { (a : Admission) (clock t : ℕ) (x : Row) → AreTimed clock a → clock ≤ t → AreTimed t (stepped t x a) }
{}
