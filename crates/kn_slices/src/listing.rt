//! The pods that may be open, and what is done at those only.
ghost use Rattle.std.specs.Prelude.{◌≡◌, ◌<◌, ◌≤◌, ℕ, length, slice_index_or, slice_set, true, vec_capacity};
ghost use Rattle.kn_event.specs.Lists.{EachIs};
ghost use Rattle.kn_slices.specs.Activators.{AreClosed, AreListed, AreMarked, AreOpen, HasPod, HoldMarks, IsOff, limit_at, running_at};
ghost use Rattle.kn_slices.specs.Calls.{AreForcesAfter, AreForcesBut};
ghost use Rattle.kn_slices.specs.Slices.{cut_of, first_from, hold, raise_of};

use crate::change::Change;
use crate::parts::{cut_of, force_after, raise_of};
use kn_core::Revision;

/// The limits in force after a call, where those of all pods but this one stay.
pub(crate) fn refresh(parts: &[Revision], wanted: &[u64], force: &mut [u64], changed: Option<u64>)
    requires others { AreForcesBut changed parts.now wanted.now force.old }
    requires pods { (p : ℕ) → p < length wanted.now → EachIs (HasPod p) parts.now }
    requires many { length force.old ≡ length wanted.now }
    requires few { (p : ℕ) → p < length wanted.now → hold (limit_at p) (running_at p) parts.now ≤ 1000 }
    ensures { AreForcesAfter parts.now wanted.now force.old force.new }
{
    let Some(p) = changed else {
        return;
    };
    if p < wanted.len() as u64 {
        let at = p as usize;
        force[at] = force_after(parts, p, wanted[at], force[at]);
    }
}

/// The first possible cut, where no pod has a mark that isn't listed.
pub(crate) fn first_cut(
    parts: &[Revision],
    wanted: &[u64],
    marks: &[u64],
    listed: &[u64],
) -> Option<Change>
    requires listed { AreListed (length wanted.now) listed.now }
    requires marked { AreMarked parts.now wanted.now marks.now }
    requires others { (p : ℕ) → p < length wanted.now → IsOff p listed.now → slice_index_or marks.now p 0 ≡ 0 }
    requires pods { (p : ℕ) → p < length wanted.now → EachIs (HasPod p) parts.now }
    requires few { length parts.now ≤ 16 }
    ensures { result ≡ first_from (cut_of limit_at (length parts.now) parts.now) 0 wanted.now }
{
    for k in 0..listed.len() {
        let p = listed[k];
        let at = p as usize;
        if marks[at] == 0 {
            continue;
        }
        if let Some(change) = cut_of(parts, p, wanted[at]) {
            return Some(change);
        }
    }
    None
}

/// The first possible raise, where no pod has a mark that isn't listed.
pub(crate) fn first_raise(
    parts: &[Revision],
    wanted: &[u64],
    marks: &[u64],
    listed: &[u64],
) -> Option<Change>
    requires listed { AreListed (length wanted.now) listed.now }
    requires marked { AreMarked parts.now wanted.now marks.now }
    requires others { (p : ℕ) → p < length wanted.now → IsOff p listed.now → slice_index_or marks.now p 0 ≡ 0 }
    requires pods { (p : ℕ) → p < length wanted.now → EachIs (HasPod p) parts.now }
    requires few { length parts.now ≤ 16 }
    requires wanted { (p : ℕ) → p < length wanted.now → slice_index_or wanted.now p 0 ≤ 1000 }
    requires held { (p : ℕ) → p < length wanted.now → hold (limit_at p) (running_at p) parts.now ≤ 1000 }
    ensures { result ≡ first_from (raise_of limit_at running_at (length parts.now) parts.now) 0 wanted.now }
{
    for k in 0..listed.len() {
        let p = listed[k];
        let at = p as usize;
        if marks[at] == 0 {
            continue;
        }
        if let Some(change) = raise_of(parts, p, wanted[at]) {
            return Some(change);
        }
    }
    None
}

/// The list becomes the pods that have a mark or whose wanted limit isn't in force, in order.
pub(crate) fn list_open(wanted: &[u64], force: &[u64], marks: &[u64], listed: &mut Vec<u64>)
    requires forces { length force.now ≡ length wanted.now }
    requires marks { length marks.now ≡ length wanted.now }
    requires room { length wanted.now ≤ vec_capacity listed.old }
    ensures known { AreOpen wanted.now force.now marks.now listed.new.items }
    ensures room { length wanted.now ≤ vec_capacity listed.new }
{
    listed.clear();
    for p in 0..wanted.len() {
        if marks[p] != 0 || force[p] != wanted[p] {
            listed.push_reserved(p as u64);
        }
    }
}

/// The list becomes the pods that have a mark, in order.
fn list_marked(marks: &[u64], marked: &mut Vec<u64>)
    requires room { length marks.now ≤ vec_capacity marked.old }
    ensures { HoldMarks (length marks.now) marks.now marked.new.items (vec_capacity marked.new) }
{
    marked.clear();
    for p in 0..marks.len() {
        if marks[p] != 0 {
            marked.push_reserved(p as u64);
        }
    }
}

/// A pod's mark becomes this. The list is made anew only where the pod comes into it, or leaves it.
pub(crate) fn set_mark(marks: &mut [u64], p: u64, mark: u64, marked: &mut Vec<u64>)
    requires pod { p < length marks.old }
    requires known { HoldMarks (length marks.old) marks.old marked.old.items (vec_capacity marked.old) }
    ensures marks { marks.new ≡ slice_set marks.old p mark }
    ensures known { HoldMarks (length marks.old) marks.new marked.new.items (vec_capacity marked.new) }
{
    let at = p as usize;
    let had = marks[at] != 0;
    marks[at] = mark;
    if had != (mark != 0) {
        list_marked(marks, marked);
    }
}

/// Whether no activator's limit at these pods isn't its slice, by the marks, and the wanted limits are in force there.
pub(crate) fn are_settled(wanted: &[u64], force: &[u64], marks: &[u64], listed: &[u64]) -> bool
    requires forces { length force.now ≡ length wanted.now }
    requires marks { length marks.now ≡ length wanted.now }
    requires listed { AreListed (length wanted.now) listed.now }
    ensures { result ≡ true → AreClosed wanted.now force.now marks.now listed.now }
{
    for k in 0..listed.len() {
        let p = listed[k] as usize;
        if marks[p] != 0 || force[p] != wanted[p] {
            return false;
        }
    }
    true
}
