//! The parts of an event, as the proofs of the crates above build on them.
ghost use Rattle.kn_laws.specs.Facts.{PartFacts};

use kn_record::facts::fact_laws;

/// Which kinds of rows each part of an event adds, what such rows leave as it is, and that a draining pod of a settled
/// trace runs a request.
pub fn part_laws()
    ensures { PartFacts }
{
    fact_laws();
}
