ghost use Rattle.std.specs.Prelude.{◌≡◌, ◌+◌, ◌<◌, ◌≤◌, [], ◌∷◌, ◌++◌, length, true, false, nat_le, slice_get, IfOk, IfNone, IfSome, if◌then◌else◌};
ghost use Rattle.std.specs.Bool.{OnFalse};
ghost use Rattle.std.specs.List.{All, find};
ghost use Rattle.std.specs.Option.{option_to_list};
ghost use Rattle.kn_event.specs.Lists.{contains, is_some_of};
ghost use Rattle.kn_record.specs.Views.{others};
ghost use Rattle.kn_pods.specs.Numbers.{IsPlaceOf, inserted};

use kn_event::Memory;
use std::alloc::Global;
use std::marker::Model;

/// Numbers in ascending order, each once, in room that is taken once. A number is found by a binary search.
#[derive(Drop)]
pub(crate) struct Numbers {
    items: Vec<u64>,
}

impl Model for Numbers {
    ghost use Rattle.std.specs.Prelude.{vec_capacity};
    ghost use Rattle.kn_record.specs.Order.{Ascend};
    ghost use Rattle.kn_pods.specs.Numbers.{NumbersState};

    ghost Value = { NumbersState };

    ghost view = { λ n. record { items = n.items.items; room = vec_capacity n.items } };

    ghost invariant = { λ n. Ascend n.items.items };
}

impl Numbers {
    /// None, and room for so many at least.
    pub(crate) fn new(alloc: Global, room: usize) -> Result<Numbers, Memory>
        ensures items { IfOk result (λ numbers. numbers.items ≡ []) }
        ensures room { IfOk result (λ numbers. room ≤ numbers.room) }
    {
        match Vec::with_capacity(alloc, room) {
            Ok(items) => Ok(Numbers { items }),
            Err(_) => Err(Memory),
        }
    }

    pub(crate) fn len(&self) -> u64
        ensures { result ≡ length self.now.items }
    {
        self.items.len() as u64
    }

    /// Where the first number stands that is not below this one.
    fn place_of(&self, p: u64) -> usize
        ensures { IsPlaceOf p self.now.items result }
    {
        self.items.partition_point(|q| *q < p)
    }

    /// The least number that is not below this one.
    pub(crate) fn next_from(&self, from: u64) -> Option<u64>
        ensures { result ≡ find (λ q. nat_le from q) self.now.items }
    {
        self.items.get(self.place_of(from)).copied()
    }

    /// Whether this number stands there.
    fn is_at(&self, p: u64, place: usize) -> bool
        ensures { result ≡ is_some_of p (slice_get self.now.items place) }
    {
        match self.items.get(place) {
            None => false,
            Some(q) => *q == p,
        }
    }

    pub(crate) fn contains(&self, p: u64) -> bool
        ensures { result ≡ contains p self.now.items }
    {
        self.is_at(p, self.place_of(p))
    }

    /// Adds a number that is above all others.
    pub(crate) fn push(&mut self, p: u64)
        requires last { All (λ q. q < p) self.old.items }
        requires room { length self.old.items < self.old.room }
        ensures { self.new ≡ record self.old { items = self.old.items ++ p ∷ [] } }
    {
        self.items.push_reserved(p);
    }

    /// Adds a number in its place, unless it is there.
    pub(crate) fn insert(&mut self, p: u64)
        requires { length self.old.items < self.old.room }
        ensures inserted { self.new ≡ record self.old { items = inserted p self.old.items } }
        ensures counted { length self.new.items ≤ length self.old.items + 1 }
    {
        let place = self.place_of(p);
        if !self.is_at(p, place) {
            let _ = self.items.insert(place, p);
        }
    }

    /// Takes a number out, if it is there.
    pub(crate) fn remove(&mut self, p: u64) -> bool
        ensures there { result ≡ contains p self.old.items }
        ensures removed { self.new ≡ record self.old { items = others p self.old.items } }
        ensures counted { length self.new.items + (if result then 1 else 0) ≡ length self.old.items }
        ensures kept { OnFalse result (self.new ≡ self.old) }
    {
        let place = self.place_of(p);
        if !self.is_at(p, place) {
            return false;
        }
        let _ = self.items.remove(place);
        true
    }

    /// Takes out the greatest.
    pub(crate) fn pop(&mut self) -> Option<u64>
        ensures popped { self.old.items ≡ self.new.items ++ option_to_list result }
        ensures there { IfSome result (λ p. contains p self.old.items ≡ true) }
        ensures without { IfSome result (λ p. self.new.items ≡ others p self.old.items) }
        ensures none { IfNone result (self.old.items ≡ []) }
        ensures room { self.new.room ≡ self.old.room }
    {
        self.items.pop()
    }
}
