//! The revision and the cell that the words of a line ask for.
ghost use Rattle.std.specs.Prelude.{◌≡◌, ◌≤◌, [], IfOk};
ghost use Rattle.kn_event.specs.Ranges.{AreSlots};
ghost use Rattle.kn_cell.specs.Books.{IsOpenedBy};
ghost use Rattle.kn_tests_cell.specs.Numbers.{IsFirst, IsFor};

use crate::words::number_of;
use kn_cell::{Pass, RevisionCell};
use kn_core::Revision;
use kn_event::{Burst, Entry, EntryLog, Kind, Memory, Milli, Slots, Spec};
use std::alloc::Global;

/// What a line asks for, with its numbers cut to what there may be.
#[derive(Clone, Copy)]
pub struct Plan {
    /// How many requests may run at a pod at once; 0 is no limit.
    pub limit: u64,
    pub slots: Slots,
    /// How many pods start.
    pub pods: u64,
    /// It scales, without any burst capacity, from one pod on.
    pub scales: bool,
    /// How many rows there is room for.
    pub room: u64,
    pub passes: u64,
    /// Rows may be taken out.
    pub lasts: bool,
    /// How many addresses the pods have, or 0.
    pub addresses: u64,
    ghost seats: { limit ≤ 1000 },
    ghost breaker: { AreSlots slots },
    ghost few_pods: { pods ≤ 500 },
    ghost rows: { room ≤ 1000000 },
    ghost threads: { (1 ≤ passes) × (passes ≤ 1000) },
}

/// The number behind the key, of those from `least` to `most`.
fn within(line: &str, key: &str, other: u64, least: u64, most: u64) -> u64
    requires { least ≤ most }
    ensures { (least ≤ result) × (result ≤ most) }
{
    number_of(line, key, other).min(most).max(least)
}

impl Plan {
    /// What is not said is as in a setup of one pod with one seat. A request may wait for 300 seconds.
    pub fn of(line: &str) -> Plan {
        let slots = Slots {
            depth: within(line, "depth=", 10, 1, 10_000),
            max: within(line, "max=", 1, 1, 1000),
            seed: 0,
        };
        Plan {
            limit: within(line, "limit=", 1, 0, 1000),
            slots,
            pods: within(line, "pods=", 1, 0, 500),
            scales: line.contains("scales"),
            room: within(line, "room=", 100, 0, 1_000_000),
            passes: within(line, "passes=", 1, 1, 1000),
            lasts: line.contains("lasts"),
            addresses: number_of(line, "addresses=", 0),
        }
    }
}

/// The specification that is asked for.
pub fn spec_of(alloc: Global, plan: &Plan) -> Result<Spec, Memory> {
    match Spec::fixed(alloc, plan.limit, plan.pods, 300, plan.slots) {
        Ok(mut spec) => {
            if plan.scales {
                spec.kind = Kind::Kpa;
                spec.burst = Burst::Capacity(Milli(0));
            }
            Ok(spec)
        }
        Err(Memory) => Err(Memory),
    }
}

/// A new revision, with the entries that it opened with in the log.
pub fn revision_of(alloc: Global, plan: &Plan, log: &mut EntryLog) -> Result<Revision, Memory>
    requires { log.old ≡ [] }
    ensures { IfOk result (λ r. IsOpenedBy r log.new) }
{
    match spec_of(alloc, plan) {
        Ok(spec) => Revision::new(alloc, spec, 0, log),
        Err(Memory) => Err(Memory),
    }
}

fn open_over(
    alloc: Global,
    plan: &Plan,
    revision: Revision,
    entries: &[Entry],
) -> Result<(RevisionCell, Pass), Memory>
    requires { IsOpenedBy revision entries.now }
    ensures { IfOk result (λ r. IsFirst r.0 plan.now.passes r.1 × IsFor plan.now.lasts plan.now.room r.1) }
{
    if revision.live() > 0 {
        drop(revision);
        return Err(Memory);
    }
    if plan.lasts {
        return RevisionCell::lasting(
            alloc,
            revision,
            entries,
            plan.room,
            plan.passes,
            plan.addresses,
        );
    }
    RevisionCell::new(alloc, revision, plan.room, plan.passes)
}

/// A new cell, and the first of its passes.
pub fn open(alloc: Global, plan: &Plan) -> Result<(RevisionCell, Pass), Memory>
    ensures { IfOk result (λ r. IsFirst r.0 plan.now.passes r.1 × IsFor plan.now.lasts plan.now.room r.1) }
{
    let mut log = EntryLog::new(alloc)?;
    match revision_of(alloc, plan, &mut log) {
        Ok(revision) => open_over(alloc, plan, revision, log.entries()),
        Err(Memory) => Err(Memory),
    }
}
