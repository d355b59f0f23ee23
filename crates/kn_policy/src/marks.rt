//! Which place each policy takes, of Ready pods with marks.
ghost use Rattle.std.specs.Prelude.{◌≡◌, ◌+◌, ◌*◌, ◌<◌, ◌≤◌, ◌^◌, ℕ, true, length, slice_index, IfSome, Some};
ghost use Rattle.std.specs.List.{All, count_by, filter, list_any, position_or_len, sum};
ghost use Rattle.std.specs.Option.{is_some};
ghost use Rattle.kn_trace.specs.Choice.{choice_of_two, chosen_pod, first_available, has_seat, other_position, random_word, round_robin};
ghost use Rattle.kn_policy.specs.Marks.{IsPlaceOf, IsPlaceOfMark, marks_of};

use crate::nth::nth_marked;
use kn_trace::Cand;
use memchr::memchr;

/// Where the first pod with a free seat stands, before which none is passed that stands before this place; how many pods
/// there are, where none has one.
pub fn first_free(ready: &[Cand], marks: &[u8], from: usize) -> usize
    requires marks { marks.now ≡ marks_of ready.now }
    requires from { from ≤ position_or_len has_seat ready.now }
    ensures { result ≡ position_or_len has_seat ready.now }
{
    match memchr(1, &marks[from..]) {
        Some(i) => from + i,
        None => ready.len(),
    }
}

/// The place that the policy takes by the place where round robin goes on and the next two random words, of pods of which
/// so many have a free seat, the first of them at this place.
#[inline]
pub fn place_by(
    cc: u64,
    place: u64,
    words: (u32, u32),
    ready: &[Cand],
    marks: &[u8],
    free: usize,
    first: usize,
) -> Option<usize>
    requires marks { marks.now ≡ marks_of ready.now }
    requires free { free ≡ count_by has_seat ready.now }
    requires some { 0 < free }
    requires first { first ≡ position_or_len has_seat ready.now }
    ensures chosen { (seed picks : ℕ) → (cc ≡ 0 → words.0 ≡ random_word seed (2 * picks)) → (cc ≡ 0 → words.1 ≡ random_word seed (2 * picks + 1))
        → IsPlaceOf (chosen_pod cc seed place picks ready.now) ready.now result }
    ensures found { is_some result ≡ list_any has_seat ready.now }
    ensures inside { IfSome result (λ i. i < length ready.now) }
{
    match cc {
        0 => place_of_two(ready, marks, free, words),
        1..=3 => Some(first),
        _ => Some(round_place(place, ready, marks, free, first)),
    }
}

/// The place of the first one with a free seat from this place on, once round. A place past the end is read as 0.
#[inline(always)]
fn round_place(place: u64, ready: &[Cand], marks: &[u8], free: usize, first: usize) -> usize
    requires marks { marks.now ≡ marks_of ready.now }
    requires free { free ≡ count_by has_seat ready.now }
    requires some { 0 < free }
    requires first { first ≡ position_or_len has_seat ready.now }
    ensures { IsPlaceOf (round_robin place ready.now) ready.now (Some result) }
{
    if place >= ready.len() as u64 {
        return first;
    }
    // (where many are busy it is often the only one, and then none is looked for)
    if free == 1 {
        return first;
    }
    let place = place as usize;
    match first_place(&ready[place..], &marks[place..]) {
        Some(i) => place + i,
        None => first,
    }
}

/// The place of the first pod with a free seat, which mostly is the first.
#[inline(always)]
fn first_place(ready: &[Cand], marks: &[u8]) -> Option<usize>
    requires { marks.now ≡ marks_of ready.now }
    ensures { IsPlaceOf (first_available ready.now) ready.now result }
{
    if begins_marked(marks) {
        return Some(0);
    }
    memchr(1, marks)
}

#[inline(always)]
fn begins_marked(marks: &[u8]) -> bool
    ensures { result ≡ true → (0 < length marks.now) × (slice_index marks.now 0 ≡ 1) }
{
    !marks.is_empty() && marks[0] == 1
}

/// Of the pods with a free seat, so many, the place of one of two that the words name.
fn place_of_two(ready: &[Cand], marks: &[u8], free: usize, words: (u32, u32)) -> Option<usize>
    requires marks { marks.now ≡ marks_of ready.now }
    requires free { free ≡ count_by has_seat ready.now }
    ensures { IsPlaceOf (choice_of_two (filter has_seat ready.now) words.0 words.1) ready.now result }
{
    if free < 2 {
        return first_place(ready, marks);
    }
    let count = free as u64;
    let i = u64::from(words.0) % count;
    let j = other_position(i, u64::from(words.1) % (count - 1)) as usize;
    let first = place_among_free(marks, free, i as usize)?;
    let second = place_among_free(marks, free, j)?;
    if ready[second].running < ready[first].running {
        Some(second)
    } else {
        Some(first)
    }
}

/// The place of the 1 that `n` others stand before, of marks of which so many are 1: the same number where all are.
fn place_among_free(marks: &[u8], free: usize, n: usize) -> Option<usize>
    requires marks { All (λ m. m ≤ 1) marks.now }
    requires free { free ≡ sum marks.now }
    requires inside { n < free }
    ensures { IsPlaceOfMark n marks.now result }
{
    if free == marks.len() {
        Some(n)
    } else {
        nth_marked(marks, n)
    }
}

fn other_position(i: u64, j: u64) -> u64
    requires { j < 2 ^ 63 }
    ensures { result ≡ other_position i j }
{
    if i <= j { j + 1 } else { j }
}
