//! What is counted over the activators.
ghost use Rattle.std.specs.Prelude.{◌≡◌, ◌<◌, ◌≤◌, ◌+◌, ◌-◌, ◌&&◌, length, max, nat_le, nat_lt};
ghost use Rattle.kn_event.specs.Lists.{EachIs};
ghost use Rattle.kn_slices.specs.Activators.{HasPod, limit_at, running_at};
ghost use Rattle.kn_slices.specs.Slices.{cut_of, force_after, hold, raise_of, runs, slice_of, unset_at};

use crate::change::Change;
use kn_core::Revision;

/// The slice of activator i of n.
pub fn slice(limit: u64, i: u64, n: u64) -> u64
    requires { i < n }
    ensures { result ≡ slice_of limit i n }
{
    if i < limit % n {
        limit / n + 1
    } else {
        limit / n
    }
}

/// What the activators hold of a pod.
pub(crate) fn hold(parts: &[Revision], p: u64) -> u64
    requires pod { EachIs (HasPod p) parts.now }
    requires few { hold (limit_at p) (running_at p) parts.now ≤ 1000 }
    ensures { result ≡ hold (limit_at p) (running_at p) parts.now }
{
    let mut total = 0;
    for part in parts {
        let most = part.pod_limit(p).max(part.running(p));
        total += most;
    }
    total
}

/// How many run at a pod.
pub(crate) fn runs(parts: &[Revision], p: u64) -> u64
    requires pod { EachIs (HasPod p) parts.now }
    requires few { runs (running_at p) parts.now ≤ 1000 }
    ensures { result ≡ runs (running_at p) parts.now }
{
    let mut total = 0;
    for part in parts {
        total += part.running(p);
    }
    total
}

/// For how many activators a pod's limit isn't their slice.
pub(crate) fn unset_at(parts: &[Revision], p: u64, wanted: u64) -> u64
    requires pod { EachIs (HasPod p) parts.now }
    requires few { length parts.now ≤ 16 }
    ensures { result ≡ unset_at (limit_at p) (length parts.now) wanted parts.now }
{
    let n = parts.len() as u64;
    let mut total = 0;
    for i in 0..parts.len() {
        if parts[i].pod_limit(p) != slice(wanted, i as u64, n) {
            total += 1;
        }
    }
    total
}

/// The first possible cut at a pod.
pub(crate) fn cut_of(parts: &[Revision], p: u64, wanted: u64) -> Option<Change>
    requires pod { EachIs (HasPod p) parts.now }
    requires few { length parts.now ≤ 16 }
    ensures { result ≡ cut_of limit_at (length parts.now) parts.now p wanted }
{
    let n = parts.len() as u64;
    for i in 0..parts.len() {
        let limit = slice(wanted, i as u64, n);
        if limit < parts[i].pod_limit(p) {
            return Some(Change {
                activator: i as u64,
                pod: p,
                limit,
            });
        }
    }
    None
}

/// Whether what is held would be within what is wanted.
fn has_room(held: u64, limit: u64, running: u64, next: u64, wanted: u64) -> bool
    requires few { (held ≤ 1000) × (next ≤ 1000) }
    requires part { max limit running ≤ held }
    ensures { result ≡ (nat_lt limit next && nat_le (held - max limit running + max next running) wanted) }
{
    limit < next && held - limit.max(running) + next.max(running) <= wanted
}

/// The first possible raise at a pod.
pub(crate) fn raise_of(parts: &[Revision], p: u64, wanted: u64) -> Option<Change>
    requires pod { EachIs (HasPod p) parts.now }
    requires few { length parts.now ≤ 16 }
    requires wanted { wanted ≤ 1000 }
    requires held { hold (limit_at p) (running_at p) parts.now ≤ 1000 }
    ensures { result ≡ raise_of limit_at running_at (length parts.now) parts.now p wanted }
{
    let n = parts.len() as u64;
    let held = hold(parts, p);
    for i in 0..parts.len() {
        let next = slice(wanted, i as u64, n);
        let limit = parts[i].pod_limit(p);
        let running = parts[i].running(p);
        if has_room(held, limit, running, next, wanted) {
            return Some(Change {
                activator: i as u64,
                pod: p,
                limit: next,
            });
        }
    }
    None
}

/// The limit in force of a pod after a call. Where it is the wanted one, it stays so whatever is held.
pub(crate) fn force_after(parts: &[Revision], p: u64, wanted: u64, force: u64) -> u64
    requires pod { EachIs (HasPod p) parts.now }
    requires few { hold (limit_at p) (running_at p) parts.now ≤ 1000 }
    ensures { result ≡ force_after (hold (limit_at p) (running_at p) parts.now) wanted force }
{
    if force == wanted || hold(parts, p) <= wanted {
        wanted
    } else {
        force
    }
}
