//! What was printed is read, and what was read is printed; what stands before the events is read by itself; and lines are apart.
ghost use Rattle.std.specs.Prelude.{◌≡◌, ℕ, List, Ok};
ghost use Rattle.kn_preamble.specs.declared.first.FirstLine.TheVariants.{Journal as JournalLine};
ghost use Rattle.kn_journal.specs.declared.journal.Journal.{Journal};
ghost use Rattle.kn_journal.specs.declared.journal.Opening.{Opening};
ghost use Rattle.kn_journal.specs.declared.journal.Setup.{Setup};
ghost use Rattle.kn_journal.specs.Journal.{IsJournal, good, journal_text, opening_part, start_part, verdict};
ghost use Rattle.kn_journal.specs.Parts.{IsWhole, part};
ghost use Rattle.kn_journal.specs.Setup.{setup_part};
ghost use Rattle.kn_journal.specs.Texts.{TextLaws};

use kn_event::spellings_are_read;

/// The text of a journal in range is read as that journal, and each journal that is read is in range: so the text of a
/// journal that was read is read as the same one.
pub fn journals_are_read()
    ensures read { (j : Journal) → IsJournal j → verdict (journal_text j) ≡ good j }
    ensures kept { (bytes : List ℕ) → (j : Journal) → verdict bytes ≡ good j → IsJournal j }
{
    spellings_are_read();
}

/// What stands before the events is read from lines of its own, whatever follows them.
pub fn openings_are_whole()
    ensures opening { (ls left : List (List ℕ)) (o : Opening) (n : ℕ) → opening_part JournalLine 0 ls ≡ Ok (part o n left) → IsWhole 0 (opening_part JournalLine 0) ls o n left }
    ensures setup { (m : ℕ) (ls left : List (List ℕ)) (s : Setup) (n : ℕ) → setup_part m ls ≡ Ok (part s n left) → IsWhole m (setup_part m) ls s n left }
    ensures start { (m : ℕ) (ls left : List (List ℕ)) (time n : ℕ) → start_part m ls ≡ Ok (part time n left) → IsWhole m (start_part m) ls time n left }
{}

/// Whole lines among bytes are read by themselves, and then the bytes that follow them.
pub fn text_laws()
    ensures laws { TextLaws }
{}
