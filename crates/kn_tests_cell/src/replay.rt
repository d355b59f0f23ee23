//! What many threads were told, told again to one.
use crate::answers::Answer;
use crate::calls::may_come;
use crate::plan::{Plan, revision_of};
use kn_cell::Past;
use kn_core::Revision;
use kn_event::{EntryLog, Event, Memory, Told};
use std::alloc::{AllocError, Global};

/// What a revision is told of the event, if it may come.
fn step(revision: &mut Revision, log: &mut EntryLog, event: &Event) -> Option<Told> {
    if event.time < revision.now() || event.time > 1 << 42 || revision.events() >= 1 << 54 {
        return None;
    }
    if !may_come(&event.act) {
        return None;
    }
    log.clear();
    Some(revision.step(event, log))
}

/// Whether both read the same.
fn are_same(alloc: Global, one: Told, other: Told) -> Result<bool, AllocError> {
    let one = format!(in alloc; "{}", Answer::Told(one))?;
    let other = format!(in alloc; "{}", Answer::Told(other))?;
    Ok(one.as_str() == other.as_str())
}

/// To how many events, one after the other, the revision says what was told.
fn count_same(alloc: Global, revision: &mut Revision, log: &mut EntryLog, rows: &[Past]) -> u64 {
    let mut count = 0u64;
    for row in rows {
        match step(revision, log, &row.event) {
            Some(told) if are_same(alloc, told, row.told).unwrap_or(false) => {}
            _ => return count,
        }
        count = count.saturating_add(1);
    }
    count
}

/// To how many events a new revision says the same on one thread.
pub fn replay(alloc: Global, plan: &Plan, rows: &[Past]) -> Result<u64, Memory> {
    let mut log = EntryLog::new(alloc)?;
    match revision_of(alloc, plan, &mut log) {
        Ok(mut revision) => {
            let count = count_same(alloc, &mut revision, &mut log, rows);
            drop(revision);
            Ok(count)
        }
        Err(Memory) => Err(Memory),
    }
}
