//! How a group opens.
ghost use Rattle.std.specs.Prelude.{◌≡◌, ◌≤◌, ◌<◌, ◌^◌, [], length, replicate, IfOk};
ghost use Rattle.kn_event.specs.FixedSpec.{fixed_spec};
ghost use Rattle.kn_event.specs.Ranges.{AreSlots};
ghost use Rattle.kn_trace.specs.Events.{opening};
ghost use Rattle.kn_core.specs.State.{RevisionState};
ghost use Rattle.kn_slices.specs.Activators.{AreFresh, IsFresh};
ghost use Rattle.kn_slices.specs.Calls.{CanOpen, HoldsRules, IsAtOpening};
ghost use Rattle.kn_slices.specs.Traces.{part_at};

use super::Group;
use crate::laws::opening_laws;
use crate::parts::slice;
use kn_core::Revision;
use kn_event::{Entry, EntryLog, Memory, Row, Slots, Spec};
use kn_laws::laws::history_laws;
use kn_record::append::append_laws;
use std::alloc::Global;

/// One activator whose pods have this limit.
fn open_part(
    alloc: Global,
    limit: u64,
    pods: u64,
    timeout_s: u64,
    slots: Slots,
    start: u64,
    log: &mut EntryLog,
) -> Result<Revision, Memory>
    requires least { 1 ≤ limit }
    requires most { limit ≤ 1000 }
    requires pods { pods ≤ 500 }
    requires waits_least { 1 ≤ timeout_s }
    requires waits_most { timeout_s ≤ 3600 }
    requires slots { AreSlots slots }
    requires start { start ≤ 2 ^ 42 }
    ensures { IfOk result (λ x. IsFresh (fixed_spec limit pods timeout_s slots) pods start x) }
{
    opening_laws();
    log.clear();
    let spec = Spec::fixed(alloc, limit, pods, timeout_s, slots)?;
    let part = Revision::new(alloc, spec, start, log)?;
    Ok(part)
}

/// Each of the activators, whose pods have this limit in all.
fn open_parts(
    alloc: Global,
    n: u64,
    limit: u64,
    pods: u64,
    timeout_s: u64,
    slots: Slots,
    start: u64,
) -> Result<Vec<Revision>, Memory>
    requires { CanOpen n limit pods timeout_s slots start }
    ensures { IfOk result (λ parts. AreFresh n limit pods timeout_s slots start parts.items) }
{
    let mut log = EntryLog::new(alloc)?;
    let Ok(mut parts) = Vec::with_capacity(alloc, n as usize) else {
        return Err(Memory);
    };
    for i in 0..n {
        let part = open_part(
            alloc,
            slice(limit, i, n),
            pods,
            timeout_s,
            slots,
            start,
            &mut log,
        )?;
        parts.push_reserved(part);
    }
    Ok(parts)
}

/// The same number for each of so many pods.
fn for_each_pod(alloc: Global, pods: u64, value: u64) -> Result<Vec<u64>, Memory>
    requires { pods ≤ 500 }
    ensures { IfOk result (λ v. v.items ≡ replicate pods value) }
{
    match vec![in alloc; value; pods as usize] {
        Ok(v) => Ok(v),
        Err(_) => Err(Memory),
    }
}

impl Group {
    /// Opens n activators at the start, each with its slice of the pods' limit, and takes all memory that the group will ever
    /// have. Depth, maximum and seed are each activator's own.
    pub fn new(
        alloc: Global,
        n: u64,
        limit: u64,
        pods: u64,
        timeout_s: u64,
        slots: Slots,
        start: u64,
    ) -> Result<Group, Memory>
        requires some { 1 ≤ n }
        requires opens { CanOpen n limit pods timeout_s slots start }
        ensures opening { IfOk result (λ g. IsAtOpening n limit pods timeout_s slots start g) }
        ensures rules { IfOk result (λ g. HoldsRules g) }
    {
        append_laws();
        history_laws();
        let parts = open_parts(alloc, n, limit, pods, timeout_s, slots, start)?;
        let wanted = for_each_pod(alloc, pods, limit)?;
        let force = for_each_pod(alloc, pods, limit)?;
        let marks = for_each_pod(alloc, pods, 0)?;
        let Ok(listed) = Vec::with_capacity(alloc, pods as usize) else {
            return Err(Memory);
        };
        let Ok(marked) = Vec::with_capacity(alloc, pods as usize) else {
            return Err(Memory);
        };
        Ok(Group {
            limit,
            start,
            parts,
            wanted,
            force,
            marks,
            listed,
            marked,
        })
    }

    /// The log becomes the opening of an activator: the entries of its pods, each with the activator's slice.
    pub fn opening(&self, i: u64, log: &mut EntryLog)
        requires part { i < length self.now.parts }
        requires empty { log.old ≡ [] }
        ensures { (d : RevisionState) → log.new ≡ opening (part_at self.now i d).spec self.now.start }
    {
        let limit = slice(self.limit, i, self.parts.len() as u64);
        for p in 0..self.wanted.len() {
            log.put(Entry {
                time: self.start,
                row: Row::Create(p as u64, limit),
            });
        }
    }
}
