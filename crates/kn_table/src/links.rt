//! The slots of each pod's requests, one after the other.
ghost use Rattle.std.specs.Prelude.{◌≡◌, ◌<◌, ◌≤◌, ◌+◌, ◌%◌, ℕ, List, IfOk, [], length, slice_index_or};
ghost use Rattle.kn_record.specs.Admission.{is_at};
ghost use Rattle.kn_table.specs.declared.slot.Slot.{Slot};
ghost use Rattle.kn_table.specs.Links.{AreLinked, Comes, IsIn, Puts, is_in};
ghost use Rattle.kn_table.specs.Slots.{first_placed};

use crate::slot::{PlaceKind, Slot};
use kn_event::Memory;
use kn_record::Place;
use std::alloc::Global;
use std::marker::Model;

/// How many chains there are.
const CHAINS: u64 = 1024;

/// A chain of slots for the pods whose numbers are the same modulo 1,024, in the order of the slots: where its first
/// stands, how many slots reach as far as its last, and behind each slot the next one. A request that ended stays in
/// its chain until its slot is swept out.
///
/// Where a slot comes into a chain that reaches beyond it, which is where a request that was held runs behind younger
/// ones, they are whole no longer, and not used until they are made anew.
#[derive(Drop)]
pub struct Links {
    firsts: [u16; 1024],
    ends: [u16; 1024],
    nexts: Vec<u16>,
    whole: bool,
}

impl Model for Links {
    ghost use Rattle.std.specs.Prelude.{◌≡◌, vec_len};
    ghost use Rattle.kn_table.specs.Links.{Chains};

    ghost Value = { Chains };

    ghost view = { λ l. record { firsts = l.firsts; ends = l.ends; nexts = l.nexts.items; whole = l.whole } };

    ghost invariant = { λ l. record { full : vec_len l.nexts ≡ 40000 } };
}

/// The chain of a pod.
#[inline]
fn chain_of(p: u64) -> usize
    ensures { result ≡ p % 1024 }
{
    (p % CHAINS) as usize
}

/// Whether a request is in a chain.
fn is_in(slot: &Slot, chain: usize) -> bool
    ensures { result ≡ is_in chain slot.now }
{
    match slot.request.place {
        Place::Held => false,
        Place::Queued(p) => chain_of(p) == chain,
        Place::Running(p, _) => chain_of(p) == chain,
    }
}

/// The same place for each chain: 0.
fn no_places() -> [u16; 1024]
    ensures { (b : ℕ) → b < 1024 → slice_index_or result b 0 ≡ 0 }
{
    [0; 1024]
}

impl Links {
    /// Chains without slots.
    pub fn new(alloc: Global) -> Result<Links, Memory>
        ensures { IfOk result (λ links. AreLinked links []) }
    {
        match vec![in alloc; 0u16; 40_000] {
            Ok(nexts) => Ok(Links {
                firsts: no_places(),
                ends: no_places(),
                nexts,
                whole: true,
            }),
            Err(_) => Err(Memory),
        }
    }

    /// The slot at this place comes into the chain of a pod.
    #[inline]
    pub fn link(&mut self, place: usize, p: u64)
        requires { place < 40000 }
        ensures { (xs ys : List Slot) → AreLinked self.old xs → Puts (p % 1024) place xs ys → AreLinked self.new ys }
    {
        let chain = chain_of(p);
        let end = self.ends[chain] as usize;
        if end > place {
            self.whole = false;
            return;
        }
        if end == 0 {
            self.firsts[chain] = place as u16;
        } else {
            self.nexts[end - 1] = place as u16;
        }
        self.ends[chain] = place as u16 + 1;
    }

    /// The slot at this place comes into the chain of its request's pod, if that is at one.
    #[inline]
    pub fn link_at(&mut self, at: usize, place: Place)
        requires { at < 40000 }
        ensures { (xs ys : List Slot) → AreLinked self.old xs → Comes place at xs ys → AreLinked self.new ys }
    {
        match place {
            Place::Held => {}
            Place::Queued(p) => self.link(at, p),
            Place::Running(p, _) => self.link(at, p),
        }
    }

    /// All chains anew, of these slots.
    pub fn link_all(&mut self, slots: &[Slot])
        requires { length slots.now ≤ 40000 }
        ensures { AreLinked self.new slots.now }
    {
        self.ends = no_places();
        self.whole = true;
        for at in 0..slots.len() {
            self.link_at(at, slots[at].request.place);
        }
    }

    /// A place before which no slot is in the chain of a pod.
    fn first(&self, p: u64, slots: &[Slot]) -> usize
        requires { AreLinked self.now slots.now }
        ensures { result ≤ first_placed (is_at p) slots.now }
    {
        let chain = chain_of(p);
        if !self.whole {
            return 0;
        }
        if self.ends[chain] == 0 {
            return slots.len();
        }
        self.firsts[chain] as usize
    }

    /// A place behind this one, between which and this one no slot is in the chain.
    fn behind(&self, chain: usize, place: usize, slots: &[Slot]) -> usize
        requires linked { AreLinked self.now slots.now }
        requires inside { place < length slots.now }
        requires chain { chain < 1024 }
        requires few { length slots.now ≤ 40000 }
        ensures later { place < result }
        ensures within { result ≤ length slots.now }
        ensures none { (j : ℕ) → IsIn chain slots.now j → place < j → result ≤ j }
    {
        if !self.whole || !is_in(&slots[place], chain) {
            return place + 1;
        }
        if self.ends[chain] as usize == place + 1 {
            return slots.len();
        }
        let next = self.nexts[place] as usize;
        next.max(place + 1)
    }

    /// Where the first live request at a pod stands, at this place or later; the end where there is none.
    pub fn next_at(&self, p: u64, from: usize, slots: &[Slot]) -> usize
        requires linked { AreLinked self.now slots.now }
        requires from { from ≤ first_placed (is_at p) slots.now }
        requires few { length slots.now ≤ 40000 }
        ensures { result ≡ first_placed (is_at p) slots.now }
    {
        let chain = chain_of(p);
        let mut place = from;
        while place < slots.len() {
            if slots[place].is_placed(PlaceKind::At(p)) {
                return place;
            }
            place = self.behind(chain, place, slots);
        }
        slots.len()
    }

    /// Where the first live request at a pod stands; the end where there is none.
    pub fn first_at(&self, p: u64, slots: &[Slot]) -> usize
        requires linked { AreLinked self.now slots.now }
        requires few { length slots.now ≤ 40000 }
        ensures { result ≡ first_placed (is_at p) slots.now }
    {
        let from = self.first(p, slots);
        self.next_at(p, from, slots)
    }
}
