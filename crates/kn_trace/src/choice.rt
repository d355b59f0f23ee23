//! The load-balancing policies over all Ready pods, in order, as plain walks. None of these functions takes memory.
ghost use Rattle.std.specs.Prelude.{◌≡◌, ◌<◌, ◌≤◌, ◌^◌, length, slice_get};
ghost use Rattle.std.specs.List.{filter};
ghost use Rattle.kn_trace.specs.Choice.{has_seat, first_available, round_robin, other_position, less_busy, choice_of_two};

use crate::candidate::Cand;

fn has_seat(cand: &Cand) -> bool
    ensures { result ≡ has_seat cand.now }
{
    cand.limit == 0 || cand.running < cand.limit
}

/// The first pod with a free seat.
#[tactic(auto, unfolding(crate::specs::Choice::first_available))]
pub fn first_available(cands: &[Cand]) -> Option<u64>
    ensures { result ≡ first_available cands.now }
{
    cands
        .iter()
        .find(|cand| has_seat(cand))
        .map(|cand| cand.pod)
}

/// The first pod with a free seat from the place on, once round. A place past the end is read as 0.
#[tactic(auto, using(crate::proofs::Choosing::round_robin_here, crate::proofs::Choosing::round_robin_round), unfolding(crate::specs::Choice::round_robin))]
pub fn round_robin(place: u64, cands: &[Cand]) -> Option<u64>
    ensures { result ≡ round_robin place cands.now }
{
    if place < cands.len() as u64 {
        let place = place as usize;
        match first_available(&cands[place..]) {
            Some(pod) => Some(pod),
            None => first_available(&cands[..place]),
        }
    } else {
        first_available(cands)
    }
}

fn count_free(cands: &[Cand]) -> usize
    ensures { result ≡ length (filter has_seat cands.now) }
{
    cands.iter().filter(|cand| has_seat(cand)).count()
}

/// The candidate at this position among those with a free seat.
fn free_at(cands: &[Cand], position: usize) -> Option<Cand>
    ensures { result ≡ slice_get (filter has_seat cands.now) position }
{
    let mut left = position;
    for cand in cands {
        if has_seat(cand) {
            if left == 0 {
                return Some(*cand);
            }
            left -= 1;
        }
    }
    None
}

fn other_position(i: u64, j: u64) -> u64
    requires { j < 2 ^ 63 }
    ensures { result ≡ other_position i j }
{
    if i <= j { j + 1 } else { j }
}

fn less_busy(first: &Cand, second: &Cand) -> u64
    ensures { result ≡ less_busy first.now second.now }
{
    if second.running < first.running {
        second.pod
    } else {
        first.pod
    }
}

/// Of two or more pods with a free seat, one of two that the words name.
#[tactic(auto, using(crate::proofs::Choosing::chosen_of_two))]
fn one_of_two(cands: &[Cand], free: usize, first_word: u32, second_word: u32) -> Option<u64>
    requires many { 2 ≤ free }
    requires all { free ≡ length (filter has_seat cands.now) }
    ensures { result ≡ choice_of_two (filter has_seat cands.now) first_word second_word }
{
    let count = free as u64;
    let i = u64::from(first_word) % count;
    let j = other_position(i, u64::from(second_word) % (count - 1));
    match free_at(cands, i as usize) {
        None => None,
        Some(first) => match free_at(cands, j as usize) {
            None => None,
            Some(second) => Some(less_busy(&first, &second)),
        },
    }
}

/// Of the pods with a free seat, one of two that the words name: none where there is none, the only one where there is
/// one.
#[tactic(auto, using(crate::proofs::Choosing::chosen_of_few))]
pub fn choice_of_two(cands: &[Cand], first_word: u32, second_word: u32) -> Option<u64>
    ensures { result ≡ choice_of_two (filter has_seat cands.now) first_word second_word }
{
    let free = count_free(cands);
    if free < 2 {
        first_available(cands)
    } else {
        one_of_two(cands, free, first_word, second_word)
    }
}
