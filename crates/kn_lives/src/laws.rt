//! What the events of a run say of its rows, one after the other. Nothing is computed here.
ghost use Rattle.std.specs.Prelude.{◌≡◌, ℕ, List, ◌++◌, [], length};
ghost use Rattle.kn_event.specs.declared.entry.Entry.{Entry};
ghost use Rattle.kn_event.specs.declared.entry.Row.{Row};
ghost use Rattle.kn_event.specs.declared.event.Event.{Event};
ghost use Rattle.kn_event.specs.declared.revision.Spec.{Spec};
ghost use Rattle.kn_trace.specs.Events.{trace_of};
ghost use Rattle.kn_trace.specs.Rows.{begun_by, ended_by};
ghost use Rattle.kn_trace.specs.Trace.{Trace, arrivals};
ghost use Rattle.kn_lives.specs.declared.lives.Life.{Life};
ghost use Rattle.kn_lives.specs.Lives.{AreKnown, AreLiveBy, AreLives, ComeInTurn, ComesNext, StayLives, by_row, tags};

use kn_laws::parts::part_laws;
use kn_record::facts::fact_laws;

/// Nobody lives after the opening. Further events change no tag of those who have come; each row of one more event comes where
/// it is proper, and who arrives with it has its tag. As many tags have come as requests.
pub fn lives_laws()
    ensures opened { (s : Spec) (start : ℕ) (l : List (ℕ × Life))
        → AreLives l [] [] → AreLives l [] (trace_of s start []) }
    ensures later { (s : Spec) (start : ℕ) (es more : List Event) → StayLives s start es more }
    ensures next { (s : Spec) (start : ℕ) (es : List Event) (e : Event) → ComeInTurn s start es e }
    ensures count { (s : Spec) (start : ℕ) (es : List Event) → arrivals (trace_of s start es) ≡ length (tags es) }
{
    fact_laws();
    part_laws();
}

/// Who begins to run with a row that comes next, or ends with it, is live, and so has a life in the pairs. Row by row over
/// rows in two parts.
pub fn row_laws()
    ensures begun { (s : Spec) (es : List Event) (tag : ℕ) (c : Trace) (x : Row)
        → ComesNext s es tag c x → AreLiveBy begun_by c x }
    ensures ended { (s : Spec) (es : List Event) (tag : ℕ) (c : Trace) (x : Row)
        → ComesNext s es tag c x → AreLiveBy ended_by c x }
    ensures known { (es : List Event) (c : Trace) (l : List (ℕ × Life)) → AreLives l es c → AreKnown l es c }
    ensures append { (f : Trace → Entry → List ℕ) (c xs ys : Trace)
        → by_row f c (xs ++ ys) ≡ by_row f c xs ++ by_row f (c ++ xs) ys }
{
    fact_laws();
}
