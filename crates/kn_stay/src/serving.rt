//! The slots are served while the scribe prints.
ghost use Rattle.std.specs.Prelude.{◌≡◌, ◌+◌, ◌≤◌, Ok, length, vec_capacity, []};
ghost use Rattle.kn_io.specs.Causes.{Rose};
ghost use Rattle.kn_cell.specs.Shown.{PassView};
ghost use Rattle.kn_journal.specs.Journal.{IsSetup};
ghost use Rattle.kn_session.specs.Passes.{IsNewLasting};
ghost use Rattle.kn_stay.specs.Opened.{IsOpenedFor};
ghost use Rattle.kn_stay.specs.Staying.{Goes};

use crate::outside::StayOutside;
use kn_core::Revision;
use kn_door::{Close, Stop};
use kn_event::Memory;
use kn_io::{Caller, Clock, Failed, Gate, PodLink, Sink};
use kn_journal::{Setup, Status};
use kn_outcomes::laws::outcome_laws;
use kn_print::{print_opening, print_rest, printed_laws};
use kn_request::Slot;
use kn_scribe::Scribe;
use kn_serve::run_laws;
use kn_session::{Attendant, Lasting, Pace, serve_lasting};
use std::sync::Wait;
use std::thread::Threads;

/// Prints what stands before the events, serves each slot for as long as its pace goes on, with the scribe and the page's attendant
/// beside the slots, and prints the rows that are left, and `end`.
pub fn serve_printed<
    C: Caller + Send,
    L: PodLink + Send,
    K: Clock + Sync,
    G: Gate + Sync,
    P: Pace<C> + Sync,
    D: Close + Sync,
    E: Close + Sync,
    T: Stop + Send,
    O: Sink + Send,
    W: Attendant + Send,
    R: Threads + Wait + Sync,
>(
    rt: &R,
    lasting: &Lasting<K, G>,
    pace: &P,
    setup: &Setup,
    revision: Revision,
    slots: &mut [Slot<C, L>],
    keeper: &mut L,
    scribe: &mut Scribe<O, K, T, D, E>,
    page: &mut W,
) -> Status
    requires slots { length slots.old ≤ 1024 }
    requires room { lasting.now.room ≤ 1000000 }
    requires opened { IsOpenedFor (K.reading lasting.now.clock.now) setup.now lasting.now revision }
    requires setup { IsSetup setup.now }
    requires rows { (scribe.old.rows.now.items ≡ []) × (lasting.now.room ≤ vec_capacity scribe.old.rows.now) }
    requires done { scribe.old.done ≡ Ok tt }
    requires page { (p : PassView) → IsNewLasting revision lasting.now.room lasting.now.addresses (2 + length slots.old) p → W.may page.old p }
    ensures goes { Goes ⟦<() as StayOutside<C, L, K, O, P, W>>⟧.seen lasting.now.clock.now pace.now lasting.now.room lasting.now.addresses (λ s. s ≡ setup.now)
        (record { slots = slots.old; slots' = slots.new; keeper = keeper.old; keeper' = keeper.new; page = page.old; page' = page.new })
        scribe.old.out.now scribe.new.out.now result }
    ensures out { scribe.new.out.ghost_name ≡ scribe.old.out.ghost_name }
    ensures write_fault { result ≡ Status.WriteFault → Rose (O.Faulty.faults scribe.old.out.now) (O.Faulty.faults scribe.new.out.now) }
{
    printed_laws();
    run_laws(lasting.clock);
    outcome_laws::<C, L, K, P>(lasting.clock, pace);
    match print_opening(setup, lasting.start, scribe.out) {
        Ok(()) => {}
        Err(Failed) => return Status::WriteFault,
    }
    let rest = match serve_lasting(rt, lasting, pace, revision, slots, keeper, scribe, page) {
        Ok((_, rest)) => rest,
        Err(Memory) => return Status::Memory,
    };
    match scribe.done {
        Ok(()) => {}
        Err(Failed) => return Status::WriteFault,
    }
    match print_rest(rest.items(), scribe.out) {
        Ok(()) => Status::Ok,
        Err(Failed) => Status::WriteFault,
    }
}
