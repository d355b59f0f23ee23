//! A server that goes on.
ghost use Rattle.std.specs.Prelude.{◌≡◌, ◌+◌, ◌≤◌, length};
ghost use Rattle.kn_io.specs.Causes.{Rose};
ghost use Rattle.kn_cell.specs.Shown.{PassView};
ghost use Rattle.kn_core.specs.State.{RevisionState};
ghost use Rattle.kn_session.specs.Passes.{IsNewLasting};
ghost use Rattle.kn_serve.specs.Setup.{HasBrokenOff};
ghost use Rattle.kn_stay.specs.Staying.{StaysBy};

use crate::outside::StayOutside;
use crate::pods::named_pods;
use crate::serving::serve_printed;
use crate::setting::StaySetting;
use crate::stayed::Stayed;
use kn_door::{Close, Stop};
use kn_event::Memory;
use kn_io::{Caller, Clock, Gate, PodLink, Sink, Source};
use kn_journal::Status;
use kn_replay::status_of;
use kn_request::Slot;
use kn_scribe::{Scribe, rows_for};
use kn_serve::{open_logged, read_front, run_laws, start_of};
use kn_session::{Attendant, Lasting, Pace};
use std::sync::Wait;
use std::thread::Threads;

/// Serves until it is told to stop: the setup is read up to its last line, the revision opened, and what stands before the events
/// printed. Then each slot is served for as long as its pace goes on. Beside the slots are the ticker; the scribe, who prints each
/// row's line as it comes and closes the doors; and the page's attendant. At last the rows that are left are printed, and `end`.
/// There are at most 1,024 slots.
///
/// Where the setup is refused, or names more pods than there are addresses, or there is no memory to open it, nothing else was
/// touched. Behind the journal's opening it ends with `Memory` where nobody could be served, with `WriteFault`, or with `Ok`,
/// whatever became of single rounds.
pub fn stay_run<
    S: Source,
    C: Caller + Send,
    L: PodLink + Send,
    K: Clock + Sync,
    G: Gate + Sync,
    P: Pace<C> + Sync,
    D: Close + Sync,
    E: Close + Sync,
    T: Stop + Send,
    O: Sink + Send,
    W: Attendant + Send,
    R: Threads + Wait + Sync,
>(
    rt: &R,
    setting: &StaySetting<K, G, P, D, E>,
    setup: &mut S,
    slots: &mut [Slot<C, L>],
    keeper: &mut L,
    stop: &mut T,
    out: &mut O,
    page: &mut W,
) -> Stayed
    requires slots { length slots.old ≤ 1024 }
    requires room { setting.now.room ≤ 1000000 }
    requires page { (b : RevisionState) (p : PassView) → IsNewLasting b setting.now.room setting.now.addresses (2 + length slots.old) p → W.may page.old p }
    ensures course { StaysBy ⟦<() as StayOutside<C, L, K, O, P, W>>⟧.seen setting (S.left setup.old) slots keeper out page result }
    ensures read_fault { result ≡ Stayed.Ended Status.ReadFault → HasBrokenOff S.Faulty.faults S.given setup }
    ensures write_fault { result ≡ Stayed.Ended Status.WriteFault → Rose (O.Faulty.faults out.old) (O.Faulty.faults out.new) }
{
    run_laws(setting.clock);
    let read = match read_front(setting.alloc, setup) {
        Ok(read) => read,
        Err(error) => return Stayed::Ended(status_of(error)),
    };
    let pods = named_pods(&read.spec);
    if setting.addresses != 0 && setting.addresses < pods {
        return Stayed::TooManyPods(pods);
    }
    let start = start_of(setting.clock);
    let (revision, log) = match open_logged(setting.alloc, &read.spec, start) {
        Ok(opened) => opened,
        Err(Memory) => return Stayed::Ended(Status::Memory),
    };
    let mut rows = match rows_for(setting.alloc, setting.room) {
        Ok(rows) => rows,
        Err(Memory) => return Stayed::Ended(Status::Memory),
    };
    let mut scribe = Scribe::new(&mut rows, out, setting.clock, stop, setting.doors);
    let lasting = Lasting {
        alloc: setting.alloc,
        spec: &read.spec,
        clock: setting.clock,
        gate: setting.gate,
        room: setting.room,
        start,
        entries: log.entries(),
        addresses: setting.addresses,
    };
    let (pace, scribe) = (setting.pace, &mut scribe);
    let status = serve_printed(
        rt, &lasting, pace, &read, revision, slots, keeper, scribe, page,
    );
    Stayed::Ended(status)
}
