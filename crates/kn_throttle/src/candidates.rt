//! The Ready pods as a load-balancing policy sees them.
ghost use Rattle.std.specs.Prelude.{◌≡◌, ◌==◌, ◌≢◌, ◌+◌, ◌<◌, ◌≤◌, ◌^◌, [], true, nat_lt, not, length, filter, slice_set, IfOk, IfSome, IfNone};
ghost use Rattle.std.specs.List.{All, HoldsAt, count_by, insert, list_any, position_or_len};
ghost use Rattle.kn_trace.specs.declared.candidate.Cand.{Cand};
ghost use Rattle.kn_trace.specs.Choice.{has_seat};
ghost use Rattle.kn_policy.specs.Marks.{AreAscending, mark_of, marks_of};
ghost use Rattle.kn_throttle.specs.Candidates.{begun, capacity_of, ended, limited, unlimited_of, with_changed};

use kn_event::{Memory, PlaceHints};
use kn_policy::{choice_laws, first_free};
use kn_trace::Cand;
use std::alloc::Global;
use std::marker::Model;

/// Room for 20,500 candidates, taken once. Contracts see the list of them, which callers keep in the order of their pods'
/// numbers. Each has a mark, which says whether it has a free seat, and what they add up to is kept, and a place before which
/// none has one, so that no pick and no change walks over all.
pub struct Candidates {
    cands: Vec<Cand>,
    hints: PlaceHints,
    marks: Vec<u8>,
    free: usize,
    low: usize,
    limits: u128,
    unlimited: usize,
}

impl Drop for Candidates {
    fn drop(self) {
        let Candidates {
            cands: _,
            hints: _,
            marks: _,
            free: _,
            low: _,
            limits: _,
            unlimited: _,
        } = self;
    }
}

impl Model for Candidates {
    ghost use Rattle.std.specs.Prelude.{List, ◌≤◌, length, vec_capacity};
    ghost use Rattle.kn_trace.specs.declared.candidate.Cand.{Cand};
    ghost use Rattle.std.specs.List.{position_or_len};
    ghost use Rattle.kn_trace.specs.Choice.{has_seat};
    ghost use Rattle.kn_throttle.specs.Candidates.{AreCounted};

    ghost Value = { List Cand };

    ghost view = { λ t. t.cands.items };

    ghost invariant = { λ t. record {
      reserved : 20500 ≤ vec_capacity t.cands;
      marks_reserved : 20500 ≤ vec_capacity t.marks;
      few : length t.cands.items ≤ 20500;
      counted : AreCounted t.cands.items t.marks.items t.free t.limits t.unlimited;
      low : t.low ≤ position_or_len has_seat t.cands.items;
    } };
}

impl Candidates {
    pub fn new(alloc: Global) -> Result<Candidates, Memory>
        ensures { IfOk result (λ cands. cands ≡ []) }
    {
        let Ok(cands) = Vec::with_capacity(alloc, 20_500) else {
            return Err(Memory);
        };
        let Ok(marks) = Vec::with_capacity(alloc, 20_500) else {
            return Err(Memory);
        };
        let hints = PlaceHints::new(alloc)?;
        Ok(Candidates {
            cands,
            hints,
            marks,
            free: 0,
            low: 0,
            limits: 0,
            unlimited: 0,
        })
    }

    pub fn as_slice(&self) -> &[Cand]
        ensures { result.now ≡ self.now }
    {
        &self.cands
    }

    /// The mark of each: 1 where it has a free seat, and else 0.
    pub fn marks(&self) -> &[u8]
        ensures { result.now ≡ marks_of self.now }
    {
        &self.marks
    }

    /// How many have a free seat.
    pub fn free(&self) -> usize
        ensures { result ≡ count_by has_seat self.now }
    {
        self.free
    }

    /// Where the first one with a free seat stands; behind all where none has one.
    #[inline]
    pub fn first_free(&mut self) -> usize
        ensures first { result ≡ position_or_len has_seat self.old }
        ensures unchanged { self.new ≡ self.old }
    {
        if self.is_free_at(self.low) {
            return self.low;
        }
        self.low = self.search_free();
        self.low
    }

    /// Whether one with a free seat stands at this place.
    #[inline(always)]
    fn is_free_at(&self, place: usize) -> bool
        ensures inside { result ≡ true → place < length self.now }
        ensures free { result ≡ true → HoldsAt (λ (k : Cand). has_seat k ≡ true) self.now place }
    {
        if place < self.marks.len() {
            return self.marks[place] == 1;
        }
        false
    }

    #[inline(never)]
    fn search_free(&self) -> usize
        ensures { result ≡ position_or_len has_seat self.now }
    {
        first_free(&self.cands, &self.marks, self.low)
    }

    /// One more request runs at the pod at this place. Answers the pod.
    #[inline]
    pub fn begin_at(&mut self, place: usize) -> u64
        requires order { AreAscending self.old }
        requires inside { place < length self.old }
        requires fits { All (λ (k : Cand). k.running < 2 ^ 63) self.old }
        ensures pod { HoldsAt (λ (k : Cand). k.pod ≡ result) self.old place }
        ensures begun { self.new ≡ with_changed result begun self.old }
    {
        let mut cand = self.cands[place];
        cand.running += 1;
        self.replace(place, cand);
        cand.pod
    }

    /// One more request runs at pod `p`.
    #[inline]
    pub fn begin(&mut self, p: u64)
        requires order { AreAscending self.old }
        requires fits { All (λ (k : Cand). k.running < 2 ^ 63) self.old }
        ensures { self.new ≡ with_changed p begun self.old }
    {
        if let Some(i) = place_of(&self.cands, &self.hints, p) {
            let mut cand = self.cands[i];
            cand.running += 1;
            self.replace(i, cand);
        }
    }

    /// One less runs at pod `p`.
    #[inline(always)]
    pub fn end(&mut self, p: u64)
        requires { AreAscending self.old }
        ensures { self.new ≡ with_changed p ended self.old }
    {
        if let Some(i) = place_of(&self.cands, &self.hints, p) {
            let mut cand = self.cands[i];
            cand.running = cand.running.saturating_sub(1);
            self.replace(i, cand);
        }
    }

    /// The limit of pod `p` changes.
    pub fn set_limit(&mut self, p: u64, n: u64)
        requires { AreAscending self.old }
        ensures { self.new ≡ with_changed p (limited n) self.old }
    {
        if let Some(i) = place_of(&self.cands, &self.hints, p) {
            let was = self.cands[i];
            let cand = Cand { limit: n, ..was };
            let mark = mark_of(&cand);
            self.limits = self.limits + n as u128 - was.limit as u128;
            self.unlimited = self.unlimited + unlimited(&cand) - unlimited(&was);
            self.free = self.free + mark as usize - mark_of(&was) as usize;
            self.marks[i] = mark;
            self.low = self.low.min(i);
            self.cands[i] = cand;
        }
    }

    /// Another one of the same limit at this place.
    #[inline(always)]
    fn replace(&mut self, i: usize, cand: Cand)
        requires inside { i < length self.old }
        requires limit { HoldsAt (λ (k : Cand). k.limit ≡ cand.limit) self.old i }
        ensures { self.new ≡ slice_set self.old i cand }
    {
        let mark = mark_of(&cand);
        self.free = self.free + mark as usize - self.marks[i] as usize;
        self.marks[i] = mark;
        self.low = self.low.min(i);
        self.cands[i] = cand;
    }

    /// Puts one more in, before the first one of a greater number.
    pub fn insert(&mut self, cand: Cand)
        requires order { AreAscending self.old }
        requires room { length self.old < 20500 }
        ensures { self.new ≡ insert self.old (position_or_len (λ (k : Cand). nat_lt cand.pod k.pod) self.old) cand }
    {
        let place = place_behind(&self.cands, cand.pod);
        let mark = mark_of(&cand);
        self.limits += cand.limit as u128;
        self.unlimited += unlimited(&cand);
        self.free += mark as usize;
        self.low = self.low.min(place);
        let _ = self.marks.insert(place, mark);
        let _ = self.cands.insert(place, cand);
        hint_from(&self.cands, place, &mut self.hints);
    }

    /// Takes the one of pod `p` out.
    pub fn remove(&mut self, p: u64)
        requires { AreAscending self.old }
        ensures { self.new ≡ filter (λ (k : Cand). not (k.pod == p)) self.old }
    {
        if let Some(i) = place_of(&self.cands, &self.hints, p) {
            let cand = self.cands.remove(i);
            let mark = self.marks.remove(i);
            self.limits -= cand.limit as u128;
            self.unlimited -= unlimited(&cand);
            self.free -= mark as usize;
            self.low = self.low.min(i);
            hint_from(&self.cands, i, &mut self.hints);
        }
    }

    /// Whether one has a free seat.
    pub fn has_free_seat(&self) -> bool
        ensures { result ≡ list_any has_seat self.now }
    {
        choice_laws();
        self.free > 0
    }

    /// The smaller of this maximum and the sum of the limits, where one without a limit counts as the maximum.
    pub fn capacity(&self, most: u64) -> u64
        ensures value { result ≡ capacity_of most self.now }
        ensures most { result ≤ most }
    {
        if self.unlimited > 0 {
            return most;
        }
        self.limits.min(most as u128) as u64
    }
}

/// 1 where it has a free seat, and else 0.
#[inline(always)]
fn mark_of(cand: &Cand) -> u8
    ensures { result ≡ mark_of cand.now }
{
    if cand.limit == 0 || cand.running < cand.limit {
        1
    } else {
        0
    }
}

/// Where the candidate of pod `p` stands: where the hint says, or else where a search finds it.
#[inline]
fn place_of(cands: &[Cand], hints: &PlaceHints, p: u64) -> Option<usize>
    requires { AreAscending cands.now }
    ensures inside { IfSome result (λ i. i < length cands.now) }
    ensures there { IfSome result (HoldsAt (λ (k : Cand). k.pod ≡ p) cands.now) }
    ensures none { IfNone result (All (λ (k : Cand). k.pod ≢ p) cands.now) }
{
    let guess = hints.get(p);
    if guess < cands.len() && cands[guess].pod == p {
        return Some(guess);
    }
    search(cands, p)
}

#[inline(never)]
fn search(cands: &[Cand], p: u64) -> Option<usize>
    requires { AreAscending cands.now }
    ensures inside { IfSome result (λ i. i < length cands.now) }
    ensures there { IfSome result (HoldsAt (λ (k : Cand). k.pod ≡ p) cands.now) }
    ensures none { IfNone result (All (λ (k : Cand). k.pod ≢ p) cands.now) }
{
    cands.binary_search_by_key(&p, |cand| cand.pod).ok()
}

/// The candidates from this place on stand where they stand now.
fn hint_from(cands: &[Cand], place: usize, hints: &mut PlaceHints) {
    for i in place..cands.len() {
        hints.set(cands[i].pod, i);
    }
}

/// The place of the first one of a greater number, or how many there are.
fn place_behind(cands: &[Cand], p: u64) -> usize
    requires { AreAscending cands.now }
    ensures place { result ≡ position_or_len (λ (k : Cand). nat_lt p k.pod) cands.now }
    ensures inside { result ≤ length cands.now }
{
    cands.partition_point(|k| k.pod <= p)
}

/// 1 where it has no limit, and else 0.
fn unlimited(cand: &Cand) -> usize
    ensures { result ≡ unlimited_of cand.now }
{
    if cand.limit == 0 { 1 } else { 0 }
}
