//! The autoscaler of a revision, where that scales.
ghost use Rattle.std.specs.Prelude.{◌≡◌, ℕ, ◌≤◌, ◌^◌, drop, length, false, IfNone, IfOk, IfSome};
ghost use Rattle.kn_event.specs.declared.revision.Spec.{Spec as SpecValue};
ghost use Rattle.kn_trace.specs.Events.{opening};
ghost use Rattle.kn_trace.specs.Scale.{mode_of};
ghost use Rattle.kn_trace.specs.Trace.{Trace};
ghost use Rattle.kn_event.specs.declared.event.Stand.TheVariants as stand;
ghost use Rattle.kn_throttle.specs.Rows.{dispatch_row};
ghost use Rattle.kn_core.specs.Firsts.{own_row};
ghost use Rattle.kn_core.specs.Scaling.{AreNextInSome, IsAtZero, IsNextInSome, IsWokenBy, KeepsScaler, RulesTick, RulesWake, TakesReady, TakesRow, TakesRows, WakesNone, is_waiting_for_pod};
ghost use Rattle.kn_core.specs.State.{IsFixed, IsMeasuredAt, IsMeasuredBy, IsScalerOf, IsScalerOfSome};

use crate::first::OwnRow;
use kn_event::{Entry, EntryLog, Kind, Memory, Mode, Row, Spec, Stand};
use kn_scaler::{Ruled, Scaler};
use kn_throttle::Dispatch;
use std::alloc::Global;

/// The autoscaler of a revision that opens, if that scales.
pub(crate) fn open(alloc: Global, spec: &Spec, start: u64) -> Result<Option<Scaler>, Memory>
    ensures stands { IfOk result (λ o. IsScalerOf spec.now o (opening spec.now start)) }
    ensures measured { IfOk result (λ o. IsMeasuredAt start o) }
{
    match spec.kind {
        Kind::Fixed(_) => Ok(None),
        Kind::Kpa => {
            let scaler = Scaler::new(alloc, spec, start)?;
            Ok(Some(scaler))
        }
    }
}

/// Before the rows of an event, the seconds that are over count.
#[inline(always)]
pub(crate) fn advance(scaler: &mut Option<Scaler>, time: u64, ready: bool)
    requires some { IsScalerOfSome scaler.old }
    requires order { IsMeasuredBy time scaler.old }
    requires range { time ≤ 2 ^ 42 }
    ensures stands { KeepsScaler ready scaler.old scaler.new }
    ensures measured { IsMeasuredAt time scaler.new }
{
    match scaler {
        None => {}
        Some(scaler) => scaler.advance(time, ready),
    }
}

/// One more row, of any kind but those of the scale. Where a request ends with it, `at` and `through` say where that stands
/// before it, and whether the activator handed it to its pod.
#[inline(always)]
pub(crate) fn row(scaler: &mut Option<Scaler>, added: Row, at: Stand, through: bool)
    requires { IsNextInSome scaler.old added at through }
    ensures stands { TakesRow added at through scaler.old scaler.new }
    ensures measured { (t : ℕ) → IsMeasuredAt t scaler.old → IsMeasuredAt t scaler.new }
{
    match scaler {
        None => {}
        Some(scaler) => scaler.row(added, at, through),
    }
}

/// The own row of an arrival or a finish; of each kind apart, so that no row needs memory of its own. `at` and `through` as of
/// `row`.
#[inline]
pub(crate) fn own(scaler: &mut Option<Scaler>, own: OwnRow, at: Stand, through: bool)
    requires { IsNextInSome scaler.old (own_row own) at through }
    ensures stands { TakesRow (own_row own) at through scaler.old scaler.new }
    ensures measured { (t : ℕ) → IsMeasuredAt t scaler.old → IsMeasuredAt t scaler.new }
{
    match own {
        OwnRow::Admit(r, tag) => row(scaler, Row::Admit(r, tag), at, through),
        OwnRow::Direct(r, p) => row(scaler, Row::Direct(r, p), at, through),
        OwnRow::QueueFull(r) => row(scaler, Row::QueueFull(r, None), at, through),
        OwnRow::PodFull(r, p) => row(scaler, Row::QueueFull(r, Some(p)), at, through),
        OwnRow::Overload(r) => row(scaler, Row::Overload(r), at, through),
        OwnRow::Finish(r, ok) => row(scaler, Row::Finish(r, ok), at, through),
        OwnRow::NotRunning(r) => row(scaler, Row::NotRunning(r), at, through),
    }
}

/// The row with which a request is dispatched.
#[inline(always)]
pub(crate) fn dispatched(scaler: &mut Option<Scaler>, dispatch: Dispatch)
    requires { IsNextInSome scaler.old (dispatch_row dispatch) stand.Held false }
    ensures stands { TakesRow (dispatch_row dispatch) stand.Held false scaler.old scaler.new }
    ensures measured { (t : ℕ) → IsMeasuredAt t scaler.old → IsMeasuredAt t scaler.new }
{
    match dispatch {
        Dispatch::Run(r) => row(scaler, Row::Run(r), Stand::Held, false),
        Dispatch::Assign(r, p) => row(scaler, Row::Assign(r, p), Stand::Held, false),
    }
}

/// Whether no pod is wanted of a revision that scales.
#[inline]
pub(crate) fn wants_none(scaler: &Option<Scaler>) -> bool
    ensures { result ≡ false → (t : ℕ) → WakesNone t scaler.now }
{
    match scaler {
        None => false,
        Some(scaler) => scaler.want() == 0,
    }
}

/// The rows of a settling, which stand behind the first ones.
pub(crate) fn rows_behind(scaler: &mut Option<Scaler>, log: &EntryLog, first: usize)
    requires next { AreNextInSome scaler.old (drop first log.now) }
    requires first { first ≤ length log.now }
    ensures stands { TakesRows (drop first log.now) scaler.old scaler.new }
    ensures measured { (t : ℕ) → IsMeasuredAt t scaler.old → IsMeasuredAt t scaler.new }
{
    rows(scaler, &log.entries()[first..]);
}

/// The rows of a settling.
fn rows(scaler: &mut Option<Scaler>, added: &[Entry])
    requires { AreNextInSome scaler.old added.now }
    ensures stands { TakesRows added.now scaler.old scaler.new }
    ensures measured { (t : ℕ) → IsMeasuredAt t scaler.old → IsMeasuredAt t scaler.new }
{
    match scaler {
        None => {}
        Some(scaler) => scaler.rows(added),
    }
}

/// How requests reach the pods.
pub(crate) fn mode(scaler: &Option<Scaler>) -> Mode
    ensures { (s : SpecValue) (c : Trace) → IsScalerOf s scaler.now c → result ≡ mode_of c }
{
    match scaler {
        None => Mode::Proxy,
        Some(scaler) => scaler.mode(),
    }
}

/// A pod is Ready, and so many are now. Answers whether the revision waited for its first one, and is active from now on.
pub(crate) fn pod_ready(scaler: &mut Option<Scaler>, time: u64, ready: u64) -> bool
    requires { IsMeasuredAt time scaler.old }
    ensures answer { (s : SpecValue) (c : Trace) → IsScalerOf s scaler.old c → result ≡ is_waiting_for_pod c }
    ensures stands { TakesReady time ready scaler.old scaler.new }
    ensures measured { IsMeasuredAt time scaler.new }
{
    match scaler {
        None => false,
        Some(scaler) => scaler.pod_ready(time, ready),
    }
}

/// The decision of a tick, with so many Ready pods, or that there is no data for one; none where the revision doesn't scale.
pub(crate) fn tick(scaler: &mut Option<Scaler>, time: u64, ready: u64) -> Option<Option<Ruled>>
    requires now { IsMeasuredAt time scaler.old }
    requires ready { ready ≤ 500 }
    ensures none { IfNone result ((s : SpecValue) (c : Trace) → IsScalerOf s scaler.old c → IsFixed s.kind) }
    ensures unchanged { IfNone result (scaler.new ≡ scaler.old) }
    ensures some { IfSome result (λ r. RulesTick time ready scaler.old scaler.new r) }
    ensures measured { IsMeasuredAt time scaler.new }
{
    match scaler {
        None => None,
        Some(scaler) => Some(scaler.tick(time, ready)),
    }
}

/// The decision where a request was admitted, with so many Ready pods; none where some pod is wanted, or the revision doesn't
/// scale.
pub(crate) fn wake(scaler: &mut Option<Scaler>, time: u64, ready: u64) -> Option<Ruled>
    requires now { IsMeasuredAt time scaler.old }
    requires ready { ready ≤ 500 }
    ensures none { IfNone result (WakesNone time scaler.old) }
    ensures unchanged { IfNone result (scaler.new ≡ scaler.old) }
    ensures some { IfSome result (λ x. RulesWake time ready scaler.old scaler.new x) }
    ensures measured { IsMeasuredAt time scaler.new }
{
    match scaler {
        None => None,
        Some(scaler) => wake_scaler(scaler, time, ready),
    }
}

fn wake_scaler(scaler: &mut Scaler, time: u64, ready: u64) -> Option<Ruled>
    requires now { time ≡ scaler.old.stats.time }
    requires ready { ready ≤ 500 }
    ensures none { IfNone result (IsAtZero false scaler.old) }
    ensures unchanged { IfNone result (scaler.new ≡ scaler.old) }
    ensures some { IfSome result (λ x. IsWokenBy time ready scaler.old scaler.new x) }
    ensures measured { scaler.new.stats.time ≡ time }
{
    let want = scaler.want();
    if want == 0 {
        Some(scaler.wake(time, ready))
    } else {
        None
    }
}
