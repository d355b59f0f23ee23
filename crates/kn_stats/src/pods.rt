//! The pods, in the order of their numbers. One is looked for first where the hint says, and else by a binary search.
ghost use Rattle.std.specs.Prelude.{◌≡◌, ◌≤◌, ◌<◌, length, vec_capacity, insert, MatchResult};
ghost use Rattle.kn_stats.specs.Pods.{CanEnd, IsSmallPod, IsSorted, found, pod_after, put, without_pod};
ghost use Rattle.kn_stats.specs.Places.{IsAt, IsGap};

use crate::Change;
use crate::tally::PodTally;
use kn_event::PlaceHints;

/// Where the pod stands, or would be put in.
#[inline(always)]
fn place_of(pods: &[PodTally], hints: &PlaceHints, p: u64) -> Result<usize, usize>
    requires { IsSorted pods.now }
    ensures { MatchResult result (λ i. IsAt p pods.now i) (λ i. IsGap p pods.now i) }
{
    let guess = hints.get(p);
    if guess < pods.len() && pods[guess].number == p {
        return Ok(guess);
    }
    search(pods, p)
}

/// The same, wherever it stands.
#[inline(never)]
fn search(pods: &[PodTally], p: u64) -> Result<usize, usize>
    requires { IsSorted pods.now }
    ensures { MatchResult result (λ i. IsAt p pods.now i) (λ i. IsGap p pods.now i) }
{
    pods.binary_search_by_key(&p, |pod| pod.number)
}

/// What is kept of the pod; nothing where it isn't there.
pub(crate) fn found(pods: &[PodTally], hints: &PlaceHints, p: u64) -> PodTally
    requires { IsSorted pods.now }
    ensures { result ≡ found p pods.now }
{
    match place_of(pods, hints, p) {
        Ok(i) => pods[i],
        Err(_) => PodTally::idle(p),
    }
}

/// A change that names the pod, which is put in where it isn't there.
#[inline(always)]
pub(crate) fn update(
    pods: &mut Vec<PodTally>,
    hints: &mut PlaceHints,
    p: u64,
    c: Change,
    second: u64,
    left: u64,
)
    requires sorted { IsSorted pods.old.items }
    requires small { IsSmallPod second left (found p pods.old.items) }
    requires left { left ≤ 1000 }
    requires ends { CanEnd c (found p pods.old.items) }
    requires room { length (put p (λ q. q) pods.old.items) ≤ vec_capacity pods.old }
    ensures put { pods.new.items ≡ put p (pod_after second left c) pods.old.items }
    ensures capacity { vec_capacity pods.old ≤ vec_capacity pods.new }
{
    match place_of(pods, hints, p) {
        Ok(i) => pods[i].change(c, second, left),
        Err(i) => {
            let mut pod = PodTally::idle(p);
            pod.change(c, second, left);
            insert(pods, i, pod);
            hint_from(pods, i, hints);
        }
    }
}

/// Puts a pod in, where there is room for it.
#[inline(never)]
fn insert(pods: &mut Vec<PodTally>, i: usize, pod: PodTally)
    requires inside { i ≤ length pods.old.items }
    requires room { length pods.old.items < vec_capacity pods.old }
    ensures items { pods.new.items ≡ insert pods.old.items i pod }
    ensures capacity { vec_capacity pods.old ≤ vec_capacity pods.new }
{
    pods.insert(i, pod).unwrap();
}

/// Forgets the pod.
pub(crate) fn remove(pods: &mut Vec<PodTally>, hints: &mut PlaceHints, p: u64)
    requires { IsSorted pods.old.items }
    ensures without { pods.new.items ≡ without_pod p pods.old.items }
    ensures capacity { vec_capacity pods.old ≤ vec_capacity pods.new }
{
    if let Ok(i) = place_of(pods, hints, p) {
        let _ = pods.remove(i);
        hint_from(pods, i, hints);
    }
}

/// The pods from this place on stand where they stand now.
#[inline(never)]
fn hint_from(pods: &[PodTally], place: usize, hints: &mut PlaceHints) {
    for i in place..pods.len() {
        hints.set(pods[i].number, i);
    }
}
