//! What a group makes of one activator's event.
ghost use Rattle.std.specs.Prelude.{◌≡◌, ◌⊎◌, ℕ, [], length, Some};
ghost use Rattle.kn_trace.specs.Events.{told_of};
ghost use Rattle.kn_trace.specs.Trace.{Trace};
ghost use Rattle.kn_core.specs.State.{StandsFor};
ghost use Rattle.kn_slices.specs.Activators.{IsGroupOf, IsOff, IsPlain, SparesPod, StaysLow, Takes};
ghost use Rattle.kn_slices.specs.Calls.{AddsToTrace, AreForcesAfter, CanCome, CanStep, HasOthersInForce, HoldsRules, IsGroupAct, IsToldAt, IsToldBy, KeepsUnset, KeepsWanted, StepsGroup, StepsPart};
ghost use Rattle.kn_slices.specs.Traces.{IsCalm};

use super::Group;
use crate::laws::activator_laws;
use crate::listing::refresh;
use kn_core::Revision;
use kn_event::{Act, EntryLog, Event, Stand, Told};
use kn_laws::laws::history_laws;
use kn_record::append::append_laws;

/// The pod of which less may be held after an event, where any is listed: that whose limit it sets, or at which it
/// finishes a request.
#[inline(always)]
fn changed_pod(part: &Revision, e: &Event, listed: &[u64]) -> Option<u64>
    ensures { (q : ℕ) → (result ≡ Some q → ⊥) → IsOff q listed.now ⊎ SparesPod q e.now part.now }
{
    if listed.is_empty() {
        return None;
    }
    match e.act {
        Act::Limit(p, _) => Some(p),
        Act::Finish(r, _) => match part.stand(r) {
            Stand::Running(p) => Some(p),
            _ => None,
        },
        _ => None,
    }
}

/// An event of one activator, and what a group sees of it.
fn step_part(part: &mut Revision, e: &Event, log: &mut EntryLog) -> Told
    requires can { CanStep part.old e.now }
    requires empty { log.old ≡ [] }
    ensures steps { StepsPart part.old part.new e.now log.new }
    ensures told { (c : Trace) → StandsFor part.old c → result ≡ told_of part.old.spec c e.now }
{
    activator_laws();
    let _live = part.live();
    part.step(e, log)
}

/// The same, and nothing is told.
#[inline(always)]
fn take_part(part: &mut Revision, e: &Event, log: &mut EntryLog)
    requires can { CanStep part.old e.now }
    requires empty { log.old ≡ [] }
    ensures { StepsPart part.old part.new e.now log.new }
{
    activator_laws();
    let _live = part.live();
    part.take(e, log);
}

/// An event of one activator, which leaves what is held within what is in force. Of the pods that aren't listed the wanted limit is
/// in force, and stays so.
fn step_in(
    parts: &mut [Revision],
    wanted: &[u64],
    force: &mut [u64],
    i: u64,
    e: &Event,
    log: &mut EntryLog,
    listed: &[u64],
) -> Told
    requires group { IsGroupOf parts.old wanted.now force.old }
    requires can { CanCome parts.old i e.now }
    requires empty { log.old ≡ [] }
    requires act { IsGroupAct e.now.act }
    requires others { HasOthersInForce wanted.now force.old listed.now }
    requires low { StaysLow parts.old wanted.now force.old i e.now }
    ensures group { IsGroupOf parts.new wanted.now force.new }
    ensures takes { Takes (length wanted.now) i e.now parts.old parts.new }
    ensures adds { AddsToTrace parts.old parts.new i e.now log.new }
    ensures force { AreForcesAfter parts.new wanted.now force.old force.new }
    ensures told { IsToldAt parts.old i e.now result }
{
    let at = i as usize;
    let changed = changed_pod(&parts[at], e, listed);
    let told = step_part(&mut parts[at], e, log);
    refresh(parts, wanted, force, changed);
    told
}

/// The same, and nothing is told.
#[inline(always)]
pub(super) fn take(
    parts: &mut [Revision],
    wanted: &[u64],
    force: &mut [u64],
    i: u64,
    e: &Event,
    log: &mut EntryLog,
    listed: &[u64],
)
    requires group { IsGroupOf parts.old wanted.now force.old }
    requires can { CanCome parts.old i e.now }
    requires empty { log.old ≡ [] }
    requires act { IsGroupAct e.now.act }
    requires others { HasOthersInForce wanted.now force.old listed.now }
    requires low { StaysLow parts.old wanted.now force.old i e.now }
    ensures group { IsGroupOf parts.new wanted.now force.new }
    ensures takes { Takes (length wanted.now) i e.now parts.old parts.new }
    ensures adds { AddsToTrace parts.old parts.new i e.now log.new }
    ensures force { AreForcesAfter parts.new wanted.now force.old force.new }
{
    let at = i as usize;
    let changed = changed_pod(&parts[at], e, listed);
    take_part(&mut parts[at], e, log);
    refresh(parts, wanted, force, changed);
}

impl Group {
    /// An event of one activator: the log becomes what it adds to that activator's trace, and the answer is what it is told. It is
    /// neither a limit, nor a tick, nor a loss.
    pub fn step(&mut self, i: u64, e: &Event, log: &mut EntryLog) -> Told
        requires can { CanCome self.old.parts i e.now }
        requires empty { log.old ≡ [] }
        requires act { IsPlain e.now.act }
        ensures steps { StepsGroup self.old self.new i e.now log.new }
        ensures told { IsToldBy self.old i e.now result }
        ensures keeps { KeepsWanted self.old self.new }
        ensures unset { KeepsUnset self.old self.new }
        ensures rules { HoldsRules self.new }
    {
        append_laws();
        history_laws();
        step_in(
            &mut self.parts,
            &self.wanted,
            &mut self.force,
            i,
            e,
            log,
            &self.listed,
        )
    }

    /// Takes an event of one activator as `step` does, and answers nothing. Where no limit was still to change, none is.
    #[inline(always)]
    pub fn take(&mut self, i: u64, e: &Event, log: &mut EntryLog)
        requires can { CanCome self.old.parts i e.now }
        requires empty { log.old ≡ [] }
        requires act { IsPlain e.now.act }
        ensures steps { StepsGroup self.old self.new i e.now log.new }
        ensures keeps { KeepsWanted self.old self.new }
        ensures unset { KeepsUnset self.old self.new }
        ensures calm { IsCalm self.old → IsCalm self.new }
        ensures rules { HoldsRules self.new }
    {
        append_laws();
        history_laws();
        take(
            &mut self.parts,
            &self.wanted,
            &mut self.force,
            i,
            e,
            log,
            &self.listed,
        );
    }
}
