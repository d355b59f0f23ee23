//! Rows counted by their kinds.
ghost use Rattle.std.specs.Prelude.{◌≡◌, ◌++◌, [], ◌∷◌, ◌-◌, ◌^◌, min};
ghost use Rattle.kn_trace.specs.Rows.{decision_by};
ghost use Rattle.kn_trace.specs.Trace.{Trace};

use crate::kind::Kind;
use kn_event::{Decision, Entry, Row};

/// How many rows there were of each kind, and the last decision.
#[derive(Clone, Copy)]
pub struct Tally {
    /// By the places of their kinds.
    counts: [u64; Kind::COUNT],
    decision: Option<Decision>,
}

/// The decision that the row says.
#[inline(always)]
fn decided_by(row: &Row) -> Option<Decision>
    ensures { result ≡ decision_by row.now }
{
    match *row {
        Row::Decided(decision) => Some(decision),
        _ => None,
    }
}

impl Tally {
    ghost use Rattle.kn_figures.specs.Tallies.{IsTallyOf, count_in, count_of, last_decision};

    /// No row yet.
    pub fn new() -> Tally
        ensures { IsTallyOf result [] }
    {
        Tally {
            counts: [0; Kind::COUNT],
            decision: None,
        }
    }

    /// Counts one entry more.
    #[inline(always)]
    fn note(&mut self, entry: &Entry)
        ensures { (c : Trace) → IsTallyOf self.old c → IsTallyOf self.new (c ++ entry.now ∷ []) }
    {
        let place = Kind::of(&entry.row).place();
        self.counts[place] = self.counts[place].saturating_add(1);
        match decided_by(&entry.row) {
            Some(decision) => self.decision = Some(decision),
            None => {}
        }
    }

    /// Counts the entries.
    pub fn apply(&mut self, entries: &[Entry])
        ensures { (c : Trace) → IsTallyOf self.old c → IsTallyOf self.new (c ++ entries.now) }
    {
        for entry in entries {
            self.note(entry);
        }
    }

    /// How many rows of the kind there were, or 2^64 - 1 where there were more.
    pub fn count(&self, kind: Kind) -> u64
        ensures value { result ≡ count_in self.now kind }
        ensures trace { (c : Trace) → IsTallyOf self.now c → result ≡ min (count_of kind c) (2 ^ 64 - 1) }
    {
        self.counts[kind.place()]
    }

    /// The last decision, if there was one.
    pub fn last_decision(&self) -> Option<Decision>
        ensures { (c : Trace) → IsTallyOf self.now c → result ≡ last_decision c }
    {
        self.decision
    }
}
