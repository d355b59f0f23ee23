//! What no report shows: the room that an act needs, the turns past the activator, and the counts of the last line.
ghost use Rattle.kn_rows_net.specs.Views.{RoomOfArrivals, RoomOfEnds, RoomOfQueuedEnds, RoomOfOthers, RoomOfQueuedOthers, TurnsOfRows, CountsEachKind, CountsNoLost};

/// An arrival needs room for two rows, refused or not. The finish of a running request and the cancel of a waiting one,
/// held or queued, need none; every other act needs one.
#[tactic(auto, unfolding(kn_trace::specs::Worked::whole_run, kn_trace::specs::Events::need_of))]
pub fn room_of_acts()
    ensures arrivals { RoomOfArrivals }
    ensures ends { RoomOfEnds }
    ensures queued_ends { RoomOfQueuedEnds }
    ensures others { RoomOfOthers }
    ensures queued_others { RoomOfQueuedOthers }
{}

/// A request that goes past the activator takes a turn, and so does one that its pod refuses; one that is refused as overload
/// or by a full breaker takes none.
#[tactic(auto, unfolding(kn_trace::specs::Worked::whole_run))]
pub fn turns_of_rows()
    ensures { TurnsOfRows }
{}

/// The last line counts each kind of entry by itself, and the others not at all. Lost requests stand there in a journal of
/// version 2 alone.
#[tactic(auto, unfolding(kn_trace::specs::Worked::whole_run))]
pub fn last_line_counts_each_kind()
    ensures each { CountsEachKind }
    ensures lost { CountsNoLost }
{}
