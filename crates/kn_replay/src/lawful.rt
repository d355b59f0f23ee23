//! The laws of the trace whose rows a replay writes.
ghost use Rattle.std.specs.Prelude.{◌≡◌, ℕ, List, Option, take};
ghost use Rattle.kn_event.specs.declared.event.Event.{Event};
ghost use Rattle.kn_trace.specs.Events.{trace_of};
ghost use Rattle.kn_trace.specs.Laws.{IsInert, IsLawful, IsSettled};
ghost use Rattle.kn_laws.specs.Losses.{LosesNothing};
ghost use Rattle.kn_core.specs.Refused.{LeavesByAnswer};
ghost use Rattle.kn_replay.specs.Report.{OnJournalOf, trace_of_journal};

use kn_event::spellings_are_read;
use kn_laws::laws::{loss_laws, trace_laws};

/// Of the journal that any bytes say: its trace is lawful, it is settled after each event, an event that would follow and
/// is refused is inert and leaves all else as it is, and a journal of version 1 loses no request and no pod.
pub fn journal_laws()
    ensures lawful { (bytes : Option (List ℕ)) → OnJournalOf bytes (λ j. IsLawful j.setup.spec (trace_of_journal j)) }
    ensures settled { (bytes : Option (List ℕ)) → OnJournalOf bytes (λ j. (n : ℕ) → IsSettled j.setup.spec (trace_of j.setup.spec j.start (take n j.events))) }
    ensures inert { (bytes : Option (List ℕ)) → OnJournalOf bytes (λ j. (n : ℕ) (e : Event) → IsInert j.setup.spec (trace_of j.setup.spec j.start (take n j.events)) e) }
    ensures beside { (bytes : Option (List ℕ)) → OnJournalOf bytes (λ j. (n : ℕ) (e : Event) → LeavesByAnswer j.setup.spec (trace_of j.setup.spec j.start (take n j.events)) e) }
    ensures no_loss { (bytes : Option (List ℕ)) → OnJournalOf bytes (λ j. j.version ≡ 1 → LosesNothing (trace_of_journal j)) }
{
    trace_laws();
    loss_laws();
    spellings_are_read();
}
