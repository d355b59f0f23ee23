//! How a request goes on, as a pass with the turn finds it.
ghost use Rattle.std.specs.Prelude.{◌≡◌};
ghost use Rattle.kn_sizes.specs.Told.{arrival_told};
ghost use Rattle.kn_cell.specs.Course.{ArrivalHasCourseAt, IsCourseOf};
ghost use Rattle.kn_cell.specs.Seats.{KeepsSeat};
ghost use Rattle.kn_cell.specs.Turns.{HasTurn, SeesAt};

use crate::steps::{Board, Place};
use crate::turn::{call_address_at, proxied_at, stand_at};
use kn_event::{Stand, Told};

/// Where a request runs.
#[derive(Clone, Copy)]
pub struct Run {
    pub pod: u64,
    /// Where a call reaches it: its address, or the number of addresses, at which there is nobody.
    pub address: u64,
    /// It came to the pod through the activator.
    pub proxied: bool,
}

/// How a request goes on.
#[derive(Clone, Copy)]
pub enum Course {
    /// It is held, or queued at a pod.
    Waits,
    Runs(Run),
    /// It has ended, or never came.
    Over,
}

/// The request that an arrival was told, and none where something else was told.
pub fn arrived(told: Told) -> Option<u64>
    ensures { result ≡ arrival_told told }
{
    match told {
        Told::Run(r, _)
        | Told::AtPod(r, _)
        | Told::Held(r)
        | Told::QueueFull(r)
        | Told::Overload(r) => Some(r),
        _ => None,
    }
}

/// How the request goes on after all that is seen. The pass is put down for it where it waits.
pub fn course_at(
    board: &Board,
    place: &mut Place,
    number: u64,
    asked: Option<u64>,
    r: u64,
) -> Course
    requires same { place.old.table_id ≡ board.now.table_id }
    requires turn { HasTurn place.old.me }
    ensures same { KeepsSeat place.old place.new }
    ensures value { SeesAt place.old.me.0 (λ c. IsCourseOf place.old.me.0.key.addresses c r result) }
{
    match stand_at(board, place, number, asked, r) {
        Stand::Held | Stand::Queued(_) => Course::Waits,
        Stand::Running(pod) => Course::Runs(Run {
            pod,
            address: call_address_at(board, place, pod),
            proxied: proxied_at(board, place, r),
        }),
        Stand::Ended | Stand::Unknown => Course::Over,
    }
}

/// The same of the request that an arrival was told. Who names nobody is over.
pub fn arrival_at(
    board: &Board,
    place: &mut Place,
    number: u64,
    asked: Option<u64>,
    told: Told,
) -> Course
    requires same { place.old.table_id ≡ board.now.table_id }
    requires turn { HasTurn place.old.me }
    ensures same { KeepsSeat place.old place.new }
    ensures value { ArrivalHasCourseAt place.old.me.0 told result }
{
    match arrived(told) {
        Some(r) => course_at(board, place, number, asked, r),
        None => Course::Over,
    }
}
