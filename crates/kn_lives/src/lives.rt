ghost use Rattle.std.specs.Prelude.{◌≡◌, ◌==◌, ◌+◌, ◌<◌, ◌∷◌, ◌++◌, [], ℕ, All, IfOk, IsSome, None, Some, if◌then◌else◌, length, unwrap_or};
ghost use Rattle.std.specs.Map.{set_value};
ghost use Rattle.kn_trace.specs.Rows.{ended_by};
ghost use Rattle.kn_lives.specs.declared.lives.Life.{Life};
ghost use Rattle.kn_lives.specs.Lives.{AddsRow, AreLives, life_at, tag_by};

use crate::hints::Hints;
use crate::slots::{ROOM, Slot, make_room, place_of};
use kn_event::{Act, Entry, Memory, Row};
use kn_record::facts::fact_laws;
use std::alloc::Global;
use std::marker::Model;

/// What a live request came with, and what has come of it. Times are in milliseconds.
#[derive(Clone, Copy)]
pub struct Life {
    /// The caller's tag.
    pub tag: u64,
    /// When it arrived.
    pub arrived: u64,
    /// Whether it went past the activator.
    pub direct: bool,
    /// When it began to run.
    pub begun: Option<u64>,
    /// The pod that it was sent to.
    pub pod: Option<u64>,
}

/// The live requests of a run by their numbers, at most 20,000. It takes its memory once. Contracts see pairs.
///
/// A request that ended leaves its slot with a mark. All these are taken out once no slot is left, which happens after at
/// least 20,000 ends.
pub struct Lives {
    slots: Vec<Slot>,
    hints: Hints,
}

impl Drop for Lives {
    fn drop(self) {
        let Lives { slots: _, hints: _ } = self;
    }
}

impl Model for Lives {
    ghost use Rattle.std.specs.Prelude.{◌≤◌, ℕ, List, length, vec_capacity};
    ghost use Rattle.kn_lives.specs.declared.lives.Life.{Life};
    ghost use Rattle.kn_lives.specs.Slots.{AreAscending, live_of};

    ghost Value = { List (ℕ × Life) };

    ghost view = { λ l. live_of l.slots.items };

    ghost invariant = { λ l. record {
      order : AreAscending l.slots.items;
      short : length l.slots.items ≤ 40000;
      room : 40000 ≤ vec_capacity l.slots;
    } };
}

/// The tag that an arrival has; 0 of any other act.
pub fn arrival_tag(act: &Act) -> u64
    ensures { result ≡ unwrap_or (tag_by act.now) 0 }
{
    match *act {
        Act::Arrive(tag) => tag,
        _ => 0,
    }
}

/// The request that ends with a row.
fn ended_by(row: &Row) -> Option<u64>
    ensures { result ≡ ended_by row.now }
{
    match *row {
        Row::Finish(r, _) | Row::Expire(r) | Row::Cancel(r) | Row::LostRequest(r) => Some(r),
        _ => None,
    }
}

impl Lives {
    /// Nobody's. It takes all the memory that it will ever have.
    pub fn new(alloc: Global) -> Result<Lives, Memory>
        ensures { IfOk result (λ l. AreLives l [] []) }
    {
        let hints = Hints::new(alloc)?;
        match Vec::with_capacity(alloc, ROOM) {
            Ok(slots) => Ok(Lives { slots, hints }),
            Err(_) => Err(Memory),
        }
    }

    /// What is known of a live request.
    #[inline(always)]
    pub fn get(&self, r: u64) -> Option<Life>
        ensures { result ≡ life_at self.now r }
    {
        match place_of(&self.slots, self.hints.get(r), r) {
            Some(place) => Some(self.slots[place].life),
            None => None,
        }
    }

    /// A number below which no live request has one.
    pub fn least(&self) -> u64
        ensures { (q : ℕ) → q < result → life_at self.now q ≡ None }
    {
        match self.slots.first() {
            Some(slot) => slot.number,
            None => 0,
        }
    }

    /// A number above which none has one.
    pub fn greatest(&self) -> u64
        ensures { (q : ℕ) → result < q → life_at self.now q ≡ None }
    {
        match self.slots.last() {
            Some(slot) => slot.number,
            None => 0,
        }
    }

    /// Goes on by one row. The tag is that of the event, which who arrives with the row has.
    #[inline(always)]
    pub fn add(&mut self, tag: u64, e: &Entry)
        ensures { AddsRow tag e.now self.old self.new }
    {
        fact_laws();
        match e.row {
            Row::Admit(r, _) => self.take_in(
                r,
                Life {
                    tag,
                    arrived: e.time,
                    direct: false,
                    begun: None,
                    pod: None,
                },
            ),
            Row::Direct(r, p) => self.take_in(
                r,
                Life {
                    tag,
                    arrived: e.time,
                    direct: true,
                    begun: None,
                    pod: Some(p),
                },
            ),
            Row::Assign(r, p) => self.assign(r, p, e.time),
            Row::Run(r) => self.run(r, e.time),
            _ => self.end_by(&e.row),
        }
    }

    /// Takes in a request of a number above all.
    #[inline(always)]
    fn take_in(&mut self, r: u64, life: Life)
        ensures { All (λ (x : ℕ × Life). x.0 < r) self.old → length self.old < 20000
            → self.new ≡ self.old ++ (r, life) ∷ [] }
    {
        if make_room(&mut self.slots, &mut self.hints, r) {
            self.hints.set(r, self.slots.len());
            self.slots.push_reserved(Slot {
                number: r,
                life,
                has_ended: false,
            });
        }
    }

    /// The live request runs from now on, at the pod that it is assigned to.
    #[inline(always)]
    fn assign(&mut self, r: u64, p: u64, time: u64)
        ensures { (x : Life) → life_at self.old r ≡ Some x
            → self.new ≡ set_value (λ q. r == q) self.old (record x { begun = Some time; pod = Some p }) }
    {
        if let Some(place) = place_of(&self.slots, self.hints.get(r), r) {
            let life = &mut self.slots[place].life;
            life.begun = Some(time);
            life.pod = Some(p);
        }
    }

    /// The live request runs from now on, at the pod that it was sent to.
    #[inline(always)]
    fn run(&mut self, r: u64, time: u64)
        ensures { (x : Life) → life_at self.old r ≡ Some x
            → self.new ≡ set_value (λ q. r == q) self.old (record x { begun = Some time }) }
    {
        if let Some(place) = place_of(&self.slots, self.hints.get(r), r) {
            self.slots[place].life.begun = Some(time);
        }
    }

    /// Forgets who ends with a row.
    #[inline(always)]
    fn end_by(&mut self, row: &Row)
        ensures none { ended_by row.now ≡ None → self.new ≡ self.old }
        ensures gone { (r q : ℕ) → ended_by row.now ≡ Some r
            → life_at self.new q ≡ if r == q then None else life_at self.old q }
        ensures fewer { (r : ℕ) → ended_by row.now ≡ Some r → IsSome (life_at self.old r)
            → length self.new + 1 ≡ length self.old }
    {
        if let Some(r) = ended_by(row) {
            self.end(r);
        }
    }

    /// Forgets a request.
    #[inline(always)]
    fn end(&mut self, r: u64)
        ensures gone { (q : ℕ) → life_at self.new q ≡ if r == q then None else life_at self.old q }
        ensures fewer { IsSome (life_at self.old r) → length self.new + 1 ≡ length self.old }
    {
        if let Some(place) = place_of(&self.slots, self.hints.get(r), r) {
            self.slots[place].has_ended = true;
        }
    }
}
