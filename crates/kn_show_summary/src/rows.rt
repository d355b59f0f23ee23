//! What is kept row by row: counts, waits, and who lives.
ghost use Rattle.std.specs.Prelude.{◌≡◌, ◌+◌, ◌-◌, ◌<◌, ◌≤◌, ◌^◌, [], length, IfOk, OnOk, Some};
ghost use Rattle.kn_event.specs.Revision.{AreInRange};
ghost use Rattle.kn_trace.specs.Rows.{begun_by};
ghost use Rattle.kn_lives.specs.declared.lives.Life.{Life as LifeValue};
ghost use Rattle.kn_lives.specs.Lives.{life_at};
ghost use Rattle.kn_waits.specs.Waits.{AddsWait};
ghost use Rattle.kn_show_summary.specs.Rows.{AreRowsOf, CountsAll, CountsBegun, GoesOnBy, GoesOnUpTo};

use crate::counts::Counts;
use kn_begun::begin_laws;
use kn_event::{Entry, EntryLog, Memory, Row, Spec};
use kn_lives::Lives;
use kn_lives::laws::{lives_laws, row_laws};
use kn_record::facts::fact_laws;
use kn_waits::Waits;
use std::alloc::Global;
use std::marker::Model;

/// Counts of rows, waits, and who lives.
pub struct Rows {
    pub counts: Counts,
    pub waits: Waits,
    lives: Lives,
}

impl Drop for Rows {
    fn drop(self) {
        let Rows {
            counts: _,
            waits: _,
            lives: _,
        } = self;
    }
}

impl Model for Rows {
    ghost use Rattle.kn_show_summary.specs.Rows.{RowsState};

    ghost Value = { RowsState };

    ghost view = { λ x. record { counts = x.counts; waits = x.waits; lives = x.lives } };
}

/// The request that begins to run with a row.
fn begun_by(row: &Row) -> Option<u64>
    ensures { result ≡ begun_by row.now }
{
    match *row {
        Row::Assign(r, _) | Row::Run(r) => Some(r),
        _ => None,
    }
}

/// How long a live request has waited at this time; 0 of any other.
fn waited(lives: &Lives, r: u64, time: u64) -> u64
    ensures { (x : LifeValue) → life_at lives.now r ≡ Some x → result ≡ time - x.arrived }
{
    match lives.get(r) {
        Some(life) => time.saturating_sub(life.arrived),
        None => 0,
    }
}

/// Counts a wait. One at the limit or beyond would be counted as the longest below it, but there is none.
fn count_wait(waits: &mut Waits, wait: u64)
    ensures limit { length waits.new.counters ≡ length waits.old.counters }
    ensures waits { wait < length waits.old.counters → AddsWait wait waits.old waits.new }
{
    let longest = waits.limit() - 1;
    waits.add(wait.min(longest));
}

/// Counts how long a request had waited that begins to run with an entry.
fn count_begun(kept: &mut Waits, lives: &Lives, e: &Entry)
    ensures limit { length kept.new.counters ≡ length kept.old.counters }
    ensures waits { CountsBegun e.now lives.now kept.old kept.new }
{
    fact_laws();
    begin_laws();
    row_laws();
    match begun_by(&e.row) {
        Some(r) => {
            let wait = waited(lives, r, e.time);
            count_wait(kept, wait)
        }
        None => {}
    }
}

impl Rows {
    /// No row yet, of a run of this specification.
    pub fn new(alloc: Global, spec: &Spec) -> Result<Rows, Memory>
        ensures rows { IfOk result (λ x. x.counts.rows ≡ 0) }
        ensures kept { IfOk result (λ x. AreRowsOf x spec.now [] []) }
        ensures ranges { OnOk result (AreInRange spec.now) }
    {
        begin_laws();
        let waits = Waits::new(alloc, spec.timeout_ms)?;
        let lives = Lives::new(alloc)?;
        Ok(Rows {
            counts: Counts::new(spec),
            waits,
            lives,
        })
    }

    /// One row more. The tag is that of the event.
    fn add(&mut self, tag: u64, e: &Entry)
        requires { self.old.counts.rows < 2 ^ 127 }
        ensures rows { self.new.counts.rows ≡ self.old.counts.rows + 1 }
        ensures admitted { self.old.counts.counted.admitted ≤ self.new.counts.counted.admitted }
        ensures kept { GoesOnBy tag e.now self.old self.new }
    {
        fact_laws();
        self.counts.add(&e.row);
        count_begun(&mut self.waits, &self.lives, e);
        self.lives.add(tag, e);
    }

    /// The rows of an event with this tag.
    pub fn add_all(&mut self, tag: u64, log: &EntryLog)
        requires { self.old.counts.rows ≤ 2 ^ 126 }
        ensures rows { self.new.counts.rows ≡ self.old.counts.rows + length log.now }
        ensures few { length log.now < 2 ^ 64 }
        ensures admitted { self.old.counts.counted.admitted ≤ self.new.counts.counted.admitted }
        ensures kept { GoesOnUpTo log.now tag log.now self.old self.new }
    {
        fact_laws();
        begin_laws();
        lives_laws();
        for e in log.entries() {
            self.add(tag, e);
        }
    }

    /// The rows of the opening, with which nobody comes.
    pub fn add_opening(&mut self, log: &EntryLog)
        requires { self.old.counts.rows ≤ 2 ^ 126 }
        ensures rows { self.new.counts.rows ≡ self.old.counts.rows + length log.now }
        ensures few { length log.now < 2 ^ 64 }
        ensures admitted { self.old.counts.counted.admitted ≤ self.new.counts.counted.admitted }
        ensures waits { self.new.waits ≡ self.old.waits }
        ensures lives { self.new.lives ≡ self.old.lives }
        ensures counted { CountsAll log.now self.old.counts self.new.counts }
    {
        fact_laws();
        for e in log.entries() {
            self.counts.add(&e.row);
        }
    }

    /// How many requests were admitted.
    pub fn admitted(&self) -> u128
        ensures { result ≡ self.now.counts.counted.admitted }
    {
        self.counts.admitted()
    }
}
