//! The laws of text that waits to be written, for those who add to it. Nothing is computed here.
ghost use Rattle.kn_report.specs.AddingLaws.{AddingLaws};

/// What comes behind a text that waits, and what is written of both, all or some first bytes: by one call and another.
pub fn adding_laws()
    ensures laws { AddingLaws }
{}
