//! What the definitions say of themselves.
ghost use Rattle.kn_http.specs.Laws.{AreDetermined};

/// The same bytes begin with one body in chunks at most.
pub fn chunks_are_determined()
    ensures { AreDetermined }
{}
