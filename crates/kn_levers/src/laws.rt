//! What `change_of` promises: the decision comes out otherwise with what it names. No function here computes anything.
ghost use Rattle.kn_levers.specs.Laws.{EachChanges, EachInRange, EachIsRuled, LongerWindow, NeitherAlone, ShorterWindow};

/// With the settings that are named of a decision, at their values, which are in range, and all else and the past the same,
/// another count is wanted, or it is applied otherwise. The earlier decisions stay judged as they were, and the averages are
/// the same. What is compared is what the decision wants and whether it is applied.
pub fn lever_laws()
    ensures changes { EachChanges }
    ensures range { EachInRange }
    ensures ruled { EachIsRuled }
{}

/// Where the stable window is named, its averages may be those over the other window: over a longer one whichever they are,
/// over a shorter one those without load, as nothing was asked for over the longer. Where grace and retention are named, neither
/// alone changes the decision.
pub fn zero_laws()
    ensures longer_window { LongerWindow }
    ensures shorter_window { ShorterWindow }
    ensures neither_alone { NeitherAlone }
{}
