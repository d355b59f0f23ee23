//! A group of activators.
ghost use Rattle.std.specs.Prelude.{◌≡◌, ◌<◌, ◌≤◌, ℕ, List, IfSome, length, slice_index_or, true};
ghost use Rattle.kn_trace.specs.Trace.{Trace};
ghost use Rattle.kn_core.specs.State.{RevisionState};
ghost use Rattle.kn_slices.specs.Activators.{AreInForce, Ascends, running_at};
ghost use Rattle.kn_slices.specs.Slices.{runs};
ghost use Rattle.kn_slices.specs.Traces.{AreTraces, IsCalm, due_among, due_of, part_at, running_by};

mod asking;
mod opening;
mod taking;

use crate::change::Change;
use crate::listing::are_settled;
use crate::parts::runs;
use kn_core::Revision;
use kn_record::append::append_laws;
use std::marker::Model;

/// Activators that share the pods of one revision, each a fixed revision with a slice of each pod's limit. No activator sees
/// another's requests.
///
/// Contracts see the activators, and of each pod the wanted limit and the limit in force; they speak of all lists of traces for
/// which the activators stand. Only `new` takes memory.
#[derive(Drop)]
pub struct Group {
    limit: u64,
    start: u64,
    parts: Vec<Revision>,
    wanted: Vec<u64>,
    force: Vec<u64>,
    marks: Vec<u64>,
    // the pods that may be open, in order: of all others each activator's limit is its slice, and the wanted limit is in force
    listed: Vec<u64>,
    // .. and those that have a mark: of all others each activator's limit is its slice
    marked: Vec<u64>,
}

impl Model for Group {
    ghost use Rattle.std.specs.Prelude.{vec_capacity};
    ghost use Rattle.kn_slices.specs.Activators.{IsKept};
    ghost use Rattle.kn_slices.specs.Traces.{GroupState};

    ghost Value = { GroupState };

    ghost view = { λ g. record { limit = g.limit; start = g.start; parts = g.parts.items; wanted = g.wanted.items; force = g.force.items } };

    ghost invariant = { λ g. IsKept g.limit g.start g.parts.items g.wanted.items g.force.items g.marks.items g.listed.items
        g.marked.items (vec_capacity g.listed) (vec_capacity g.marked) };
}

impl Group {
    /// The limit in force of a pod.
    pub fn in_force(&self, p: u64) -> u64
        requires { p < length self.now.wanted }
        ensures { result ≡ slice_index_or self.now.force p 0 }
    {
        self.force[p as usize]
    }

    /// The limits in force of all pods, lent.
    pub fn forces(&self) -> &[u64]
        ensures value { result.now ≡ self.now.force }
        ensures many { length self.now.force ≡ length self.now.wanted }
    {
        &self.force
    }

    /// The pods that may be open, in order, lent: of all others the wanted limit is in force.
    pub fn open_pods(&self) -> &[u64]
        ensures inside { (k : ℕ) → k < length result.now → slice_index_or result.now k 0 < length self.now.wanted }
        ensures order { Ascends result.now }
        ensures others { AreInForce self.now.wanted self.now.force result.now }
    {
        &self.listed
    }

    /// Whether it is known that no limit is still to change.
    #[inline(always)]
    fn is_settled(&self) -> bool
        ensures { result ≡ true → IsCalm self.now }
    {
        append_laws();
        // Any part that is read brings what is kept of all.
        let _pods = self.wanted.len();
        self.listed.is_empty()
    }

    /// Looks whether a limit is still to change, where it isn't known that none is.
    #[inline(always)]
    fn look(&mut self)
        ensures { self.new ≡ self.old }
    {
        // While a pod is listed for its mark, that limit is still to change: no look at the others.
        if !self.listed.is_empty()
            && self.marked.is_empty()
            && are_settled(&self.wanted, &self.force, &self.marks, &self.listed)
        {
            self.listed.clear();
        }
    }

    /// Whether no limit is still to change: then each activator's limit is its slice, the wanted limits are in force, and no change
    /// is due. Looks at the pods only where a limit was asked for or changed since it said so last. False says nothing.
    #[inline(always)]
    pub fn settle(&mut self) -> bool
        ensures calm { result ≡ true → IsCalm self.new }
        ensures same { self.new ≡ self.old }
    {
        self.look();
        self.is_settled()
    }

    /// How many requests run at a pod over all activators: no more than the limit in force.
    pub fn running(&self, p: u64) -> u64
        requires { p < length self.now.wanted }
        ensures sum { result ≡ runs (running_at p) self.now.parts }
        ensures traces { (cs : List Trace) → AreTraces self.now.parts cs → result ≡ runs (running_by p) cs }
        ensures within { result ≤ slice_index_or self.now.force p 0 }
    {
        append_laws();
        runs(&self.parts, p)
    }

    /// The time of an activator's last event, or the start, in milliseconds.
    pub fn now(&self, i: u64) -> u64
        requires { i < length self.now.parts }
        ensures { (d : RevisionState) → result ≡ (part_at self.now i d).clock }
    {
        self.parts[i as usize].now()
    }

    /// How many events an activator took.
    pub fn events(&self, i: u64) -> u64
        requires { i < length self.now.parts }
        ensures { (d : RevisionState) → result ≡ (part_at self.now i d).events }
    {
        self.parts[i as usize].events()
    }

    /// The due change: the first possible cut, by pods and then by activators, and where there is none the first possible raise.
    /// None exactly where no change is due.
    pub fn plan(&self) -> Option<Change>
        ensures due { result ≡ due_of self.now }
        ensures range { IfSome result (λ x. (x.activator < length self.now.parts) × (x.pod < length self.now.wanted)) }
        ensures traces { (cs : List Trace) → AreTraces self.now.parts cs → result ≡ due_among cs self.now.wanted }
    {
        append_laws();
        // Any part that is read brings what is kept of all.
        let _pods = self.wanted.len();
        match self.first_cut() {
            None => self.first_raise(),
            Some(cut) => Some(cut),
        }
    }
}
