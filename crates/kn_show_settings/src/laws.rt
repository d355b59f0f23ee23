//! What the settings of a setup are by. Nothing is computed here.
ghost use Rattle.std.specs.Prelude.{◌≡◌, ℕ, List, Ok};
ghost use Rattle.kn_journal.specs.declared.journal.Opening.{Opening};
ghost use Rattle.kn_journal.specs.declared.journal.Setup.{Setup};
ghost use Rattle.kn_journal.specs.Journal.{IsSetup};
ghost use Rattle.kn_journal.specs.Parts.{Part};
ghost use Rattle.kn_show_settings.specs.Laws.{IsByText};
ghost use Rattle.kn_show_settings.specs.Showing.{opening_of};

/// The ConfigMap and the Revision in the text of a setup that scales say just the specification that a replay of it runs
/// by, whether it was read from a journal or is one in range; and its target is that of the total and the utilisation
/// shown.
pub fn settings_laws()
    ensures read { (bytes : List ℕ) (p : Part Opening) → opening_of bytes ≡ Ok p → IsByText p.value.setup }
    ensures kept { (s : Setup) → IsSetup s → IsByText s }
{}
