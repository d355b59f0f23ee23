ghost use Rattle.std.specs.Prelude.{◌≡◌, ◌+◌, ◌*◌, ◌<◌, ◌==◌, ℕ, length, map, position, IfSome, IfNone};
ghost use Rattle.std.specs.List.{HoldsAt, count_by, list_any, position_or_len};
ghost use Rattle.kn_trace.specs.declared.candidate.Cand.{Cand as CandValue};
ghost use Rattle.std.specs.Option.{is_some};
ghost use Rattle.kn_trace.specs.Choice.{has_seat, generator_at, random_word, chosen_pod};
ghost use Rattle.kn_policy.specs.Marks.{AreAscending, IsPlaceOf, marks_of};
ghost use Rattle.kn_policy.specs.Policy.{drawn_by, place_past};

use crate::marks::{first_free, place_by};
use kn_trace::Cand;
use kn_trace::choice::{choice_of_two, first_available, round_robin};
use rand_core::SeedableRng;
use rand_core::utils::NextWord;
use rand_pcg::Pcg32;
use std::marker::Model;

/// The policy of a containerConcurrency: 0 takes the random choice of two, 1 to 3 the first available, 4 and more round
/// robin.
///
/// Contracts see the containerConcurrency, the place where round robin goes on, and the generator of random words. The
/// place moves at each pick, whichever policy it is, and the generator at those of the random choice. Picks are not counted,
/// so there may be any number of them.
#[derive(Drop)]
pub struct Policy {
    cc: u64,
    place: u64,
    generator: Pcg32,
}

impl Model for Policy {
    ghost use Rattle.kn_policy.specs.Policy.{State};

    ghost Value = { State };

    ghost view = { λ p. record { cc = p.cc; place = p.place; generator = p.generator } };
}

impl Policy {
    ghost use Rattle.kn_policy.specs.Policy.{policy_at, picked};

    /// A policy that has picked no pod yet.
    #[tactic(auto, unfolding(crate::specs::Policy::policy_at, kn_trace::specs::Choice::generator_at))]
    pub fn new(cc: u64, seed: u64) -> Policy
        ensures { result ≡ policy_at cc seed 0 0 }
    {
        Policy {
            cc,
            place: 0,
            generator: Pcg32::seed_from_u64(seed),
        }
    }

    /// The pod that the next held request goes to, of all Ready pods in the order of their numbers: after any number of
    /// picks with any seed, the one that the policy names.
    ///
    /// There is none exactly where no pod has a free seat. Then nothing changes: no word is drawn, and the place stays.
    pub fn pick(&mut self, ready: &[Cand]) -> Option<u64>
        ensures chosen { (seed picks : ℕ) → (self.old.cc ≡ 0 → self.old.generator ≡ generator_at seed (2 * picks))
            → result ≡ chosen_pod self.old.cc seed self.old.place picks ready.now }
        ensures found { is_some result ≡ list_any has_seat ready.now }
        ensures picked { IfSome result (λ p. self.new ≡ picked p ready.now self.old) }
        ensures unchanged { IfNone result (self.new ≡ self.old) }
    {
        if !has_free_seat(ready) {
            return None;
        }
        let (first_word, second_word) = draw(self.cc, &mut self.generator);
        let pod = pod_by(self.cc, self.place, first_word, second_word, ready)?;
        self.place = place_past(pod, ready);
        Some(pod)
    }

    /// What `pick` answers and does, of pods in order that are marked, without a walk over them: each has a mark, which is 1
    /// where it has a free seat and else 0, and so many have one.
    pub fn pick_marked(&mut self, ready: &[Cand], marks: &[u8], free: usize) -> Option<u64>
        requires order { AreAscending ready.now }
        requires marks { marks.now ≡ marks_of ready.now }
        requires free { free ≡ count_by has_seat ready.now }
        ensures chosen { (seed picks : ℕ) → (self.old.cc ≡ 0 → self.old.generator ≡ generator_at seed (2 * picks))
            → result ≡ chosen_pod self.old.cc seed self.old.place picks ready.now }
        ensures found { is_some result ≡ list_any has_seat ready.now }
        ensures picked { IfSome result (λ p. self.new ≡ picked p ready.now self.old) }
        ensures unchanged { IfNone result (self.new ≡ self.old) }
    {
        let first = first_free(ready, marks, 0);
        match self.pick_place(ready, marks, free, first) {
            Some(place) => Some(ready[place].pod),
            None => None,
        }
    }

    /// As `pick_marked`, where the first pod with a free seat is known: it stands at this place, and behind all where none has
    /// one. Answers the place of the pod.
    #[inline(always)]
    pub fn pick_place(
        &mut self,
        ready: &[Cand],
        marks: &[u8],
        free: usize,
        first: usize,
    ) -> Option<usize>
        requires order { AreAscending ready.now }
        requires marks { marks.now ≡ marks_of ready.now }
        requires free { free ≡ count_by has_seat ready.now }
        requires first { first ≡ position_or_len has_seat ready.now }
        ensures chosen { (seed picks : ℕ) → (self.old.cc ≡ 0 → self.old.generator ≡ generator_at seed (2 * picks))
            → IsPlaceOf (chosen_pod self.old.cc seed self.old.place picks ready.now) ready.now result }
        ensures found { is_some result ≡ list_any has_seat ready.now }
        ensures inside { IfSome result (λ i. i < length ready.now) }
        ensures picked { IfSome result (HoldsAt (λ (k : CandValue). self.new ≡ picked k.pod ready.now self.old) ready.now) }
        ensures unchanged { IfNone result (self.new ≡ self.old) }
    {
        if free == 0 {
            return None;
        }
        let words = draw(self.cc, &mut self.generator);
        let place = place_by(self.cc, self.place, words, ready, marks, free, first)?;
        self.place = place as u64 + 1;
        Some(place)
    }
}

/// The two words of a pick, which only the random choice draws; the others look at neither.
#[inline]
fn draw(cc: u64, generator: &mut Pcg32) -> (u32, u32)
    ensures words { (seed picks : ℕ) → cc ≡ 0 → generator.old ≡ generator_at seed (2 * picks)
        → (result.0 ≡ random_word seed (2 * picks)) × (result.1 ≡ random_word seed (2 * picks + 1)) }
    ensures drawn { generator.new ≡ drawn_by cc generator.old }
{
    if cc > 0 {
        return (0, 0);
    }
    let first_word = generator.next_word();
    let second_word = generator.next_word();
    (first_word, second_word)
}

#[tactic(auto, using(crate::proofs::Found::first_found))]
fn has_free_seat(ready: &[Cand]) -> bool
    ensures { result ≡ list_any has_seat ready.now }
{
    first_available(ready).is_some()
}

/// The pod that the policy takes by its place and the next two random words.
#[tactic(auto, using(crate::proofs::Found::first_found, crate::proofs::Found::round_found, crate::proofs::Found::two_found), unfolding(kn_trace::specs::Choice::chosen_pod, kn_trace::specs::Choice::random_choice))]
fn pod_by(cc: u64, place: u64, first_word: u32, second_word: u32, ready: &[Cand]) -> Option<u64>
    ensures chosen { (seed picks : ℕ) → (cc ≡ 0 → first_word ≡ random_word seed (2 * picks)) → (cc ≡ 0 → second_word ≡ random_word seed (2 * picks + 1))
        → result ≡ chosen_pod cc seed place picks ready.now }
    ensures found { is_some result ≡ list_any has_seat ready.now }
{
    match cc {
        0 => choice_of_two(ready, first_word, second_word),
        1..=3 => first_available(ready),
        _ => round_robin(place, ready),
    }
}

fn position_of(pod: u64, ready: &[Cand]) -> Option<usize>
    ensures { result ≡ position (λ q. q == pod) (map (λ q. q.pod) ready.now) }
{
    ready.iter().map(|cand| cand.pod).position(|p| p == pod)
}

/// One past the position of the pod.
#[tactic(auto, using(crate::proofs::Places::position_else_length))]
fn place_past(pod: u64, ready: &[Cand]) -> u64
    ensures { result ≡ place_past pod ready.now }
{
    position_of(pod, ready).unwrap_or(ready.len()) as u64 + 1
}
