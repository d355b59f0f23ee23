//! Rows of an event that come one after the other.
ghost use Rattle.std.specs.Prelude.{◌≡◌, ℕ, ◌≤◌, drop, length};
ghost use Rattle.kn_record.specs.Views.{others};
ghost use Rattle.kn_throttle.specs.State.{with_row};
ghost use Rattle.kn_core.specs.Changes.{AddsNobody, after_removals};
ghost use Rattle.kn_core.specs.Following.{CanFollow, CanTake, after_scale};

use kn_event::{Entry, EntryLog, Row};
use kn_pods::Pods;
use kn_record::append::time_laws;
use kn_throttle::Throttle;

/// Takes away the pods that the entries behind the first ones remove.
pub(crate) fn remove_behind(pods: &mut Pods, log: &EntryLog, first: usize)
    requires { first ≤ length log.now }
    ensures { pods.new ≡ after_removals (drop first log.now) pods.old }
{
    if pods.count_draining() > 0 {
        remove_all(pods, &log.entries()[first..]);
    }
}

/// Takes away the pods that these entries remove.
fn remove_all(pods: &mut Pods, entries: &[Entry])
    ensures { pods.new ≡ after_removals entries.now pods.old }
{
    for e in entries {
        if let Row::Remove(p) = e.row {
            remove(pods, p);
        }
    }
}

/// Takes a pod away, if it drains.
fn remove(pods: &mut Pods, p: u64)
    ensures { pods.new ≡ record pods.old { draining = others p pods.old.draining } }
{
    if pods.is_draining(p) {
        pods.removed(p);
    }
}

/// Creates and drains the pods that the entries behind the first ones do.
pub(crate) fn follow_behind(throttle: &mut Throttle, log: &EntryLog, first: usize)
    requires first { first ≤ length log.now }
    requires can { ∥ CanFollow throttle.old.admission (drop first log.now) ∥₁ }
    ensures all { throttle.new ≡ after_scale (drop first log.now) throttle.old }
    ensures nobody { (t : ℕ) → AddsNobody t throttle.old throttle.new }
{
    follow(throttle, &log.entries()[first..]);
}

/// Creates and drains the pods that these entries do.
fn follow(throttle: &mut Throttle, entries: &[Entry])
    requires { ∥ CanFollow throttle.old.admission entries.now ∥₁ }
    ensures all { throttle.new ≡ after_scale entries.now throttle.old }
    ensures nobody { (t : ℕ) → AddsNobody t throttle.old throttle.new }
{
    for e in entries {
        follow_one(throttle, e.row);
    }
}

/// Creates a pod, or drains one.
fn follow_one(throttle: &mut Throttle, row: Row)
    requires { ∥ CanTake throttle.old.admission row ∥₁ }
    ensures after { (t : ℕ) → throttle.new ≡ with_row t row throttle.old }
    ensures nobody { (t : ℕ) → AddsNobody t throttle.old throttle.new }
{
    time_laws();
    match row {
        Row::Create(p, limit) => throttle.create(p, limit),
        Row::Drain(p) => throttle.drain(p),
        _ => {}
    }
}
