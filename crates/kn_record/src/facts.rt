//! Facts about the definitions, by subject, which the proofs of the crates above build on.
ghost use Rattle.kn_record.specs.Facts.{Facts};

/// Lists of numbers; what a row says, and what one more entry changes; who is in a view; and proper rows, one after the
/// other.
pub fn fact_laws()
    ensures { Facts }
{}
