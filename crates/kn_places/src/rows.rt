//! What a row changes of live requests.
ghost use Rattle.std.specs.Prelude.{◌≡◌};
ghost use Rattle.kn_places.specs.Ends.{change_in, end_of};

use kn_event::{Row, Stand};
use kn_stats::Change;

/// The end of a request that stands there, and that the activator handed to its pod or not.
#[inline(always)]
fn end_of(stand: Stand, through: bool) -> Change
    ensures { result ≡ end_of stand through }
{
    match stand {
        Stand::Queued(p) | Stand::Running(p) => Change::EndedAt(p, through),
        Stand::Unknown | Stand::Held | Stand::Ended => Change::EndedHeld,
    }
}

/// What a row changes of live requests. Where a request ends with it, `stand` and `through` say where that stands before it,
/// and whether the activator handed it to its pod; of other rows they say nothing.
#[inline]
pub fn change_of(added: Row, stand: Stand, through: bool) -> Option<Change>
    ensures { result ≡ change_in added stand through }
{
    match added {
        Row::Admit(..) => Some(Change::Admitted),
        Row::Assign(_, p) => Some(Change::Assigned(p)),
        Row::Direct(_, p) => Some(Change::Directed(p)),
        Row::Finish(..) | Row::Expire(_) | Row::Cancel(_) | Row::LostRequest(_) => {
            Some(end_of(stand, through))
        }
        _ => None,
    }
}
