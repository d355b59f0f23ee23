//! The live pods.
ghost use Rattle.std.specs.Prelude.{◌≡◌, ◌==◌, ◌≢◌, ◌<◌, [], ◌∷◌, ◌++◌, not, filter, length, IfOk, IfSome, IfNone};
ghost use Rattle.std.specs.List.{All, HoldsAt};
ghost use Rattle.kn_record.specs.declared.admission.Pod.{Pod};
ghost use Rattle.kn_record.specs.Admission.{drained, is_draining_now, readied, with_limit, with_readiness};
ghost use Rattle.kn_record.specs.Views.{is_pod_where, pod_numbered};
ghost use Rattle.kn_throttle.specs.Pods.{AreAscending};

use kn_event::{Memory, PlaceHints};
use kn_record::{Pod, Readiness};
use std::alloc::Global;
use std::marker::Model;

/// Room for 20,500 pods, taken once. Contracts see the list of them, which callers keep in the order of their numbers.
#[derive(Drop)]
pub struct Pods {
    pods: Vec<Pod>,
    hints: PlaceHints,
}

impl Model for Pods {
    ghost use Rattle.std.specs.Prelude.{List, ◌≤◌, vec_capacity};
    ghost use Rattle.kn_record.specs.declared.admission.Pod.{Pod};

    ghost Value = { List Pod };

    ghost view = { λ t. t.pods.items };

    ghost invariant = { λ t. 20500 ≤ vec_capacity t.pods };
}

impl Pods {
    pub fn new(alloc: Global) -> Result<Pods, Memory>
        ensures { IfOk result (λ pods. pods ≡ []) }
    {
        let Ok(pods) = Vec::with_capacity(alloc, 20_500) else {
            return Err(Memory);
        };
        let hints = PlaceHints::new(alloc)?;
        Ok(Pods { pods, hints })
    }

    pub fn as_slice(&self) -> &[Pod]
        ensures { result.now ≡ self.now }
    {
        &self.pods
    }

    pub fn push(&mut self, pod: Pod)
        requires { length self.old < 20500 }
        ensures { self.new ≡ self.old ++ pod ∷ [] }
    {
        self.hints.set(pod.number, self.pods.len());
        self.pods.push_reserved(pod);
    }

    pub fn set_limit(&mut self, p: u64, n: u64)
        requires { AreAscending self.old }
        ensures { self.new ≡ with_limit p n self.old }
    {
        if let Some(i) = place_of(&self.pods, &self.hints, p) {
            self.pods[i].limit = n;
        }
    }

    /// Pod `p` is Ready. A draining one stays so.
    pub fn set_ready(&mut self, p: u64)
        requires { AreAscending self.old }
        ensures { self.new ≡ with_readiness p readied self.old }
    {
        if let Some(i) = place_of(&self.pods, &self.hints, p) {
            let pod = &mut self.pods[i];
            pod.readiness = readied(pod.readiness);
        }
    }

    pub fn set_draining(&mut self, p: u64)
        requires { AreAscending self.old }
        ensures { self.new ≡ with_readiness p drained self.old }
    {
        if let Some(i) = place_of(&self.pods, &self.hints, p) {
            self.pods[i].readiness = Readiness::Draining;
        }
    }

    pub fn remove(&mut self, p: u64)
        requires { AreAscending self.old }
        ensures { self.new ≡ filter (λ (q : Pod). not (p == q.number)) self.old }
    {
        if let Some(i) = place_of(&self.pods, &self.hints, p) {
            let _ = self.pods.remove(i);
            hint_from(&self.pods, i, &mut self.hints);
        }
    }

    /// Whether pod `p` is there and drains.
    pub fn is_draining(&self, p: u64) -> bool
        requires { AreAscending self.now }
        ensures { result ≡ is_pod_where (λ (q : Pod). is_draining_now q.readiness) (pod_numbered p self.now) }
    {
        match place_of(&self.pods, &self.hints, p) {
            None => false,
            Some(i) => is_draining(self.pods[i].readiness),
        }
    }
}

fn readied(readiness: Readiness) -> Readiness
    ensures { result ≡ readied readiness }
{
    match readiness {
        Readiness::Draining => Readiness::Draining,
        _ => Readiness::Ready,
    }
}

/// Whether it drains.
pub fn is_draining(readiness: Readiness) -> bool
    ensures { result ≡ is_draining_now readiness }
{
    matches!(readiness, Readiness::Draining)
}

/// Where pod `p` stands: where the hint says, or else where a search finds it.
fn place_of(pods: &[Pod], hints: &PlaceHints, p: u64) -> Option<usize>
    requires { AreAscending pods.now }
    ensures inside { IfSome result (λ i. i < length pods.now) }
    ensures there { IfSome result (HoldsAt (λ (q : Pod). q.number ≡ p) pods.now) }
    ensures none { IfNone result (All (λ (q : Pod). q.number ≢ p) pods.now) }
{
    let guess = hints.get(p);
    if guess < pods.len() && pods[guess].number == p {
        return Some(guess);
    }
    pods.binary_search_by_key(&p, |q| q.number).ok()
}

/// The pods from this place on stand where they stand now.
fn hint_from(pods: &[Pod], place: usize, hints: &mut PlaceHints) {
    for i in place..pods.len() {
        hints.set(pods[i].number, i);
    }
}
