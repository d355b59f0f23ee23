//! The top call of `kactd many`: its words, its opening, and a session over several revisions.
ghost use Rattle.std.specs.Prelude.{◌≡◌, [], All};
ghost use Rattle.kn_event.specs.Lists.{EachIs};
ghost use Rattle.kn_io.specs.Causes.{Rose};
ghost use Rattle.kn_serve.specs.Opening.{IsEmptyWork};
ghost use Rattle.kn_serve.specs.Setup.{HasBrokenOff};
ghost use Rattle.kn_serve.specs.Texts.{IsToldOn, status_text};
ghost use Rattle.kn_many.specs.ManyCourse.{CourseOfMany};

use crate::many::serve_all;
use crate::outside::OpensAll;
use crate::wide_opening::WideOpener;
use kn_io::{Caller, Clock, Gate, PodLink, Sink, Source};
use kn_journal::Status;
use kn_plan::wide_plan_of;
use kn_request::WideSlot;
use kn_serve::{refused, tell, unopened, wide_laws};
use std::alloc::Global;
use std::sync::Wait;
use std::thread::Threads;

/// What the words come to.
fn serve_words<
    W: WideOpener<C, L>,
    S: Source,
    C: Caller + Send,
    L: PodLink + Send,
    K: Clock + Sync,
    G: Gate + Sync,
    O: Sink,
    R: Threads + Wait + Sync,
>(
    rt: &R,
    alloc: Global,
    words: &[String],
    opener: &mut W,
    setups: &mut S,
    slots: &mut Vec<WideSlot<C, L>>,
    keepers: &mut Vec<L>,
    clock: &K,
    gate: &G,
    out: &mut O,
) -> Status
    requires slots { slots.old.items ≡ [] }
    requires keepers { keepers.old.items ≡ [] }
    ensures course { CourseOfMany ⟦<W as OpensAll<S, C, L, K, O>>⟧.seen words opener setups slots keepers clock out result }
    ensures works { EachIs (λ s. All IsEmptyWork s.works.items) slots.new.items }
    ensures read_fault { result ≡ Status.ReadFault → HasBrokenOff S.Faulty.faults S.given setups }
    ensures write_fault { result ≡ Status.WriteFault → Rose (O.Faulty.faults out.old) (O.Faulty.faults out.new) }
{
    wide_laws();
    let plan = match wide_plan_of(alloc, words) {
        Ok(plan) => plan,
        Err(error) => return refused(error),
    };
    match opener.open(alloc, &plan, slots, keepers) {
        Ok(()) => {}
        Err(error) => return unopened(error),
    }
    serve_all(rt, alloc, &plan, setups, slots, keepers, clock, gate, out)
}

/// `kactd many`: reads the words behind that one, opens what they ask for, and serves a session over several revisions (`serve_many`).
///
/// Words that ask for nothing are `Usage`; then come a fault of the opener and want of memory at opening. After these nothing
/// but the opener was touched.
pub fn kactd_many_run<
    W: WideOpener<C, L>,
    S: Source,
    C: Caller + Send,
    L: PodLink + Send,
    K: Clock + Sync,
    G: Gate + Sync,
    O: Sink,
    E: Sink,
    R: Threads + Wait + Sync,
>(
    rt: &R,
    alloc: Global,
    words: &[String],
    opener: &mut W,
    setups: &mut S,
    slots: &mut Vec<WideSlot<C, L>>,
    keepers: &mut Vec<L>,
    clock: &K,
    gate: &G,
    out: &mut O,
    err: &mut E,
) -> Status
    requires slots { slots.old.items ≡ [] }
    requires keepers { keepers.old.items ≡ [] }
    ensures course { CourseOfMany ⟦<W as OpensAll<S, C, L, K, O>>⟧.seen words opener setups slots keepers clock out result }
    ensures works { EachIs (λ s. All IsEmptyWork s.works.items) slots.new.items }
    ensures read_fault { result ≡ Status.ReadFault → HasBrokenOff S.Faulty.faults S.given setups }
    ensures write_fault { result ≡ Status.WriteFault → Rose (O.Faulty.faults out.old) (O.Faulty.faults out.new) }
    ensures told { IsToldOn E.held E.Faulty.faults (status_text result) err }
{
    let status = serve_words(
        rt, alloc, words, opener, setups, slots, keepers, clock, gate, out,
    );
    tell(status, err)
}
