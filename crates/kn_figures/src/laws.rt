//! The laws of the kinds and of counts.
ghost use Rattle.kn_figures.specs.Laws.{HavePlaces, NamesRows, NeverFall};

/// A report writes each row with its kind's word; each kind stands at its place among all; and counts never fall.
pub fn figure_laws()
    ensures names { NamesRows }
    ensures places { HavePlaces }
    ensures counts { NeverFall }
{}
