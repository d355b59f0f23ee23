//! A whole session that goes on.
ghost use Rattle.std.specs.Prelude.{◌≡◌, ◌≢◌, ◌≤◌, ◌+◌, ◌^◌, length, None, IfOk, OnErr};
ghost use Rattle.kn_event.specs.Lists.{EachIs};
ghost use Rattle.kn_cell.specs.Books.{IsOpenedBy};
ghost use Rattle.kn_cell.specs.Shown.{PassView};
ghost use Rattle.kn_request.specs.Terms.{watched};
ghost use Rattle.kn_session.specs.Lasting.{AreLasted, KeeperLasted, Lasted};
ghost use Rattle.kn_session.specs.Passes.{IsNewLasting, IsScribes, IsUnmarked, lasting_kind};
ghost use Rattle.kn_session.specs.Rounds.{IsPaced};
ghost use Rattle.kn_session.specs.Session.{MayBegin};

use crate::attendant::Attendant;
use crate::over::serve_over;
use crate::pace::Pace;
use crate::shared::Common;
use crate::sided::Sided;
use kn_cell::{History, RevisionCell};
use kn_core::Revision;
use kn_event::{Entry, Memory, Spec};
use kn_io::{Caller, Clock, Gate, PodLink};
use kn_request::Slot;
use std::alloc::Global;
use std::sync::Wait;
use std::thread::Threads;

/// What the slots, the ticker and the attendants of a session that goes on share.
#[derive(Drop)]
pub struct Lasting<'a, K, G> {
    pub alloc: Global,
    pub spec: &'a Spec,
    pub clock: &'a K,
    pub gate: &'a G,
    /// How many rows that are not yet taken out and live requests there is room for together, at most 1,000,000.
    pub room: u64,
    /// The time in milliseconds at which the ticker's first tick is 2,000 ms off.
    pub start: u64,
    /// The entries that the revision opened with, which are asked for where there are addresses.
    pub entries: &'a [Entry],
    /// How many addresses the pods have, or 0: then a pod's number is its address.
    pub addresses: u64,
}

/// Serves each slot over a revision with no live request for as long as its pace goes on. Beside the slots are the
/// ticker, the scribe, who may take rows out, and the page, each in a thread of its own where one can be made. Else the
/// slots come first. The tag of round j of slot i is i * 10^12 + j.
///
/// Answers the revision as it is then, and the rows that the scribe didn't take out; or `Memory`, and then nothing was
/// done at all. Whether a round of a slot ended in a fault, or in want of memory, is in its work.
pub fn serve_lasting<
    C: Caller + Send,
    L: PodLink + Send,
    K: Clock + Sync,
    G: Gate + Sync,
    P: Pace<C> + Sync,
    S: Attendant + Send,
    W: Attendant + Send,
    R: Threads + Wait + Sync,
>(
    rt: &R,
    setting: &Lasting<K, G>,
    pace: &P,
    revision: Revision,
    slots: &mut [Slot<C, L>],
    keeper: &mut L,
    scribe: &mut S,
    page: &mut W,
) -> Result<(Revision, History), Memory>
    requires slots { length slots.old ≤ 1024 }
    requires room { setting.now.room ≤ 1000000 }
    requires revision { MayBegin revision }
    requires opened { setting.now.addresses ≢ 0 → IsOpenedBy revision setting.now.entries.now }
    requires scribe { (p : PassView) → IsScribes revision setting.now.room setting.now.addresses p
        → S.may scribe.old p }
    requires page { (p : PassView) → IsNewLasting revision setting.now.room setting.now.addresses (2 + length slots.old) p
        → W.may page.old p }
    ensures lasts { IfOk result (λ r. Lasted
        (lasting_kind revision setting.now.room setting.now.addresses) (length slots.old) r.0 r.1
        (AreLasted ⟦<Slot<C, L> as Sided>⟧.at (watched (K.reading setting.now.clock.now) P.Watch.leaves)
        (IsPaced (P.begins pace.now) (P.ends pace.now)) setting.now.spec.now (10 ^ 12) slots)
        (KeeperLasted L.told L.Faulty.faults (K.reading setting.now.clock.now) setting.now.start keeper)
        (EachIs (λ t. IsUnmarked t.work) slots.new) (S.attends scribe.old scribe.new) (W.attends page.old page.new)) }
    ensures empty { IfOk result (λ r. EachIs (λ t. t.work.pass ≡ None) slots.new) }
    ensures nothing { OnErr result ((slots.new ≡ slots.old) × (keeper.new ≡ keeper.old)
        × (scribe.new ≡ scribe.old) × (page.new ≡ page.old)) }
{
    let (cell, first) = RevisionCell::lasting(
        setting.alloc,
        revision,
        setting.entries,
        setting.room,
        slots.len() as u64 + 3,
        setting.addresses,
    )?;
    let common = Common {
        alloc: setting.alloc,
        spec: setting.spec,
        clock: setting.clock,
        gate: setting.gate,
        start: setting.start,
        pace,
        apart: 1_000_000_000_000,
    };
    Ok(serve_over(rt, &common, cell, first, slots, keeper, scribe, page))
}
