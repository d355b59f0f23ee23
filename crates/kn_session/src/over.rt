//! A session over a cell, from its first pass to the last row.
ghost use Rattle.std.specs.Prelude.{◌≡◌, ◌≤◌, ◌+◌, ◌^◌, [], length, None};
ghost use Rattle.kn_event.specs.Lists.{EachIs};
ghost use Rattle.kn_cell.specs.Lists.{Each};
ghost use Rattle.kn_cell.specs.Shown.{PassView};
ghost use Rattle.kn_request.specs.Terms.{watched};
ghost use Rattle.kn_session.specs.Attending.{ClosesAll, first_of};
ghost use Rattle.kn_session.specs.Lasting.{AreLasted, KeeperLasted, Lasted};
ghost use Rattle.kn_session.specs.Lists.{EachInPlace, EachDone};
ghost use Rattle.kn_session.specs.Passes.{HasLone, IsEmptied, IsFirst, IsLone, IsNewOf, IsUnmarked, kind_of};
ghost use Rattle.kn_session.specs.Rounds.{IsPaced};

use crate::attendant::Attendant;
use crate::attending::serve_beside;
use crate::laws::session_laws;
use crate::pace::Pace;
use crate::passes::{hand_out, take_back};
use crate::shared::{Common, Shared};
use crate::sided::Sided;
use kn_cell::{History, Pass, RevisionCell};
use kn_core::Revision;
use kn_io::{Caller, Clock, Gate, PodLink};
use kn_request::{Left, Slot};
use std::sync::Wait;
use std::thread::Threads;

/// Takes all passes back in, and closes the cell. The first pass and those that it took in before recorded nothing.
fn close_session<C, L>(
    cell: RevisionCell,
    first: Pass,
    slots: &mut [Slot<C, L>],
    ticks: Pass,
) -> (Revision, History)
    requires cell { first.cell ≡ cell }
    requires first { (first.number ≡ 0) × (first.mine ≡ []) × Each (λ o. o.mine ≡ []) first.others }
    requires passes { EachInPlace (λ i s. HasLone cell (2 + i) s.work.pass) slots.old }
    requires ticks { IsLone cell 1 ticks }
    requires all { 1 + first.free + first.back + 1 + length slots.old ≡ first.passes }
    ensures closes { ClosesAll first ticks slots.old result.0 result.1 }
    ensures slots { EachDone (λ i s t. IsEmptied s t) slots.old slots.new }
{
    let mut pass = first;
    take_back(&cell, &mut pass, slots);
    cell.join(&mut pass, ticks);
    cell.close(pass)
}

/// Serves the slots over a cell that was just opened for three passes more than there are slots: the scribe's, which
/// is the first, the ticker's, the slots' and the page's. Answers the revision as it is then, and the rows that are
/// left.
pub fn serve_over<
    C: Caller + Send,
    L: PodLink + Send,
    K: Clock + Sync,
    G: Gate + Sync,
    P: Pace<C> + Sync,
    S: Attendant + Send,
    W: Attendant + Send,
    R: Threads + Wait + Sync,
>(
    rt: &R,
    common: &Common<K, G, P>,
    cell: RevisionCell,
    first: Pass,
    slots: &mut [Slot<C, L>],
    keeper: &mut L,
    scribe: &mut S,
    page: &mut W,
) -> (Revision, History)
    requires slots { length slots.old ≤ 1024 }
    requires apart { common.now.apart ≤ 10 ^ 12 }
    requires first { first ≡ first_of cell (kind_of first) (3 + length slots.old) }
    requires scribe { (p : PassView) → IsFirst (kind_of first) p → S.may scribe.old p }
    requires page { (p : PassView) → IsNewOf (kind_of first) (2 + length slots.old) p → W.may page.old p }
    ensures lasts { Lasted (kind_of first) (length slots.old) result.0 result.1
        (AreLasted ⟦<Slot<C, L> as Sided>⟧.at (watched (K.reading common.now.clock.now) P.Watch.leaves)
        (IsPaced (P.begins common.now.pace.now) (P.ends common.now.pace.now)) common.now.spec.now common.now.apart slots)
        (KeeperLasted L.told L.Faulty.faults (K.reading common.now.clock.now) common.now.start keeper)
        (EachIs (λ t. IsUnmarked t.work) slots.new) (S.attends scribe.old scribe.new) (W.attends page.old page.new) }
    ensures empty { EachIs (λ t. t.work.pass ≡ None) slots.new }
{
    session_laws();
    let count = slots.len() as u64;
    let mut first = first;
    let mut ticks = cell.split(&mut first);
    hand_out(&cell, &mut first, slots);
    let mut pages = cell.split(&mut first);
    let left = Left::new(count);
    let shared = Shared {
        cell: &cell,
        common,
        left: &left,
    };
    serve_beside(
        rt, &shared, slots, keeper, &mut ticks, scribe, &mut first, page, &mut pages,
    );
    cell.join(&mut first, pages);
    close_session(cell, first, slots, ticks)
}
