//! The top call of `kactd`: its words, its opening, and a session.
ghost use Rattle.std.specs.Prelude.{◌≡◌, [], None};
ghost use Rattle.kn_event.specs.Lists.{EachIs};
ghost use Rattle.kn_io.specs.Causes.{Rose};
ghost use Rattle.kn_serve.specs.Course.{CourseOf};
ghost use Rattle.kn_serve.specs.Opening.{IsEmptyWork};
ghost use Rattle.kn_serve.specs.Setup.{HasBrokenOff};
ghost use Rattle.kn_serve.specs.Shut.{status_of_opening, status_of_plan};
ghost use Rattle.kn_serve.specs.Texts.{IsToldOn, status_text};

use crate::open_error::OpenError;
use crate::opening::Opener;
use crate::outside::Opens;
use crate::run::serve;
use crate::telling::tell;
use kn_io::{Caller, Clock, Gate, PodLink, Sink, Source};
use kn_journal::Status;
use kn_plan::{PlanError, plan_of};
use kn_request::Slot;
use std::alloc::Global;
use std::sync::Wait;
use std::thread::Threads;

/// How it ends where the words give no plan.
pub fn refused(error: PlanError) -> Status
    ensures { result ≡ status_of_plan error }
{
    match error {
        PlanError::Usage => Status::Usage,
        PlanError::Memory => Status::Memory,
    }
}

/// How it ends where nothing was opened.
pub fn unopened(error: OpenError) -> Status
    ensures { result ≡ status_of_opening error }
{
    match error {
        OpenError::Failed => Status::ListenFault,
        OpenError::Memory => Status::Memory,
    }
}

/// What the words come to.
fn serve_words<
    W: Opener<C, L>,
    S: Source,
    C: Caller + Send,
    L: PodLink + Send,
    K: Clock + Sync,
    G: Gate + Sync,
    O: Sink,
    R: Threads + Wait + Sync,
>(
    rt: &R,
    alloc: Global,
    words: &[String],
    opener: &mut W,
    setup: &mut S,
    slots: &mut Vec<Slot<C, L>>,
    keeper: &mut Option<L>,
    clock: &K,
    gate: &G,
    out: &mut O,
) -> Status
    requires slots { slots.old.items ≡ [] }
    requires keeper { keeper.old ≡ None }
    ensures course { CourseOf ⟦<W as Opens<S, C, L, K, O>>⟧.seen words opener setup slots keeper clock out result }
    ensures works { EachIs (λ s. IsEmptyWork s.work) slots.new.items }
    ensures read_fault { result ≡ Status.ReadFault → HasBrokenOff S.Faulty.faults S.given setup }
    ensures write_fault { result ≡ Status.WriteFault → Rose (O.Faulty.faults out.old) (O.Faulty.faults out.new) }
{
    let plan = match plan_of(alloc, words) {
        Ok(plan) => plan,
        Err(error) => return refused(error),
    };
    match opener.open(alloc, &plan, slots, keeper) {
        Ok(()) => {}
        Err(error) => return unopened(error),
    }
    match keeper {
        Some(keeper) => serve(rt, alloc, &plan, setup, slots, keeper, clock, gate, out),
        None => unreachable!(),
    }
}

/// `kactd`: reads its words, opens what they ask for, and serves a session (`serve_run`).
///
/// Words that ask for nothing are `Usage`; then come a fault of the opener and want of memory at opening. After these nothing
/// but the opener was touched.
pub fn kactd_run<
    W: Opener<C, L>,
    S: Source,
    C: Caller + Send,
    L: PodLink + Send,
    K: Clock + Sync,
    G: Gate + Sync,
    O: Sink,
    E: Sink,
    R: Threads + Wait + Sync,
>(
    rt: &R,
    alloc: Global,
    words: &[String],
    opener: &mut W,
    setup: &mut S,
    slots: &mut Vec<Slot<C, L>>,
    keeper: &mut Option<L>,
    clock: &K,
    gate: &G,
    out: &mut O,
    err: &mut E,
) -> Status
    requires slots { slots.old.items ≡ [] }
    requires keeper { keeper.old ≡ None }
    ensures course { CourseOf ⟦<W as Opens<S, C, L, K, O>>⟧.seen words opener setup slots keeper clock out result }
    ensures works { EachIs (λ s. IsEmptyWork s.work) slots.new.items }
    ensures read_fault { result ≡ Status.ReadFault → HasBrokenOff S.Faulty.faults S.given setup }
    ensures write_fault { result ≡ Status.WriteFault → Rose (O.Faulty.faults out.old) (O.Faulty.faults out.new) }
    ensures told { IsToldOn E.held E.Faulty.faults (status_text result) err }
{
    let status = serve_words(
        rt, alloc, words, opener, setup, slots, keeper, clock, gate, out,
    );
    tell(status, err)
}
