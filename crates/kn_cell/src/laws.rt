//! A law of what is counted.
ghost use Rattle.kn_cell.specs.Counted.{NeverFall};

use kn_figures::laws::figure_laws;

/// Figures of a pass that has seen more have no smaller count of rows, and no fewer recorded events.
pub fn growth_laws()
    ensures { NeverFall }
{
    figure_laws();
}
