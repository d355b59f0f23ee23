//! The ticker of several revisions.
ghost use Rattle.std.specs.Prelude.{◌≡◌, length};
ghost use Rattle.kn_request.specs.Wide.{AreSetTo, ArePassesOf};
ghost use Rattle.kn_request.specs.Calls.{IsAsLong, TicksEach, TurnsEach};

use crate::ticks::{Left, tick_turn};
use kn_cell::{Pass, RevisionCell};
use kn_io::{Clock, PodLink};
use std::sync::Wait;

/// Sets each to this.
fn set_all(lasts: &mut [u64], start: u64)
    ensures { AreSetTo start lasts.old lasts.new }
{
    for v in 0..lasts.len() {
        lasts[v] = start;
    }
}

/// A turn of each revision at this time: a Tick where one is due, then the probes of its Starting pods.
fn turn_all<R: Wait, L: PodLink>(
    rt: &R,
    cells: &[RevisionCell],
    passes: &mut [Pass],
    lasts: &mut [u64],
    keepers: &mut [L],
    now: u64,
)
    requires cells { ArePassesOf cells.now passes.old }
    requires count { (length lasts.old ≡ length cells.now) × (length keepers.old ≡ length cells.now) }
    ensures turns { TurnsEach L.told L.Faulty now passes.old passes.new lasts.old lasts.new keepers.old keepers.new }
    ensures count { IsAsLong passes.new passes.old × IsAsLong lasts.new lasts.old × IsAsLong keepers.new keepers.old }
{
    for v in 0..cells.len() {
        let turn = tick_turn(
            rt,
            &cells[v],
            &mut passes[v],
            &mut keepers[v],
            now,
            lasts[v],
        );
        lasts[v] = turn.last;
    }
}

/// As `ticker`, over all cells: takes a turn of each at once, and further turns of each until no slot is at work. All turns of a
/// round are at one reading of the clock. Each revision has its own keeper, and its Ticks are 2,000 milliseconds apart.
/// What lies in `lasts` at first doesn't matter.
pub fn tick_all<R: Wait, L: PodLink, K: Clock>(
    rt: &R,
    cells: &[RevisionCell],
    passes: &mut [Pass],
    lasts: &mut [u64],
    keepers: &mut [L],
    clock: &K,
    left: &Left,
    start: u64,
)
    requires cells { ArePassesOf cells.now passes.old }
    requires count { (length lasts.old ≡ length cells.now) × (length keepers.old ≡ length cells.now) }
    ensures ticks { TicksEach L.told L.Faulty (K.reading clock.now) start passes.old passes.new keepers.old keepers.new }
    ensures count { IsAsLong passes.new passes.old × IsAsLong lasts.new lasts.old × IsAsLong keepers.new keepers.old }
{
    set_all(lasts, start);
    let now = clock.now_ms();
    turn_all(rt, cells, passes, lasts, keepers, now);
    for _ in rt.forever() {
        if left.is_zero() {
            return;
        }
        clock.nap();
        let now = clock.now_ms();
        turn_all(rt, cells, passes, lasts, keepers, now);
    }
    unreachable!()
}
