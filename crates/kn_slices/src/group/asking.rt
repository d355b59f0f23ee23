//! How a group comes to another limit.
ghost use Rattle.std.specs.Prelude.{◌≡◌, ◌<◌, ◌≤◌, ◌-◌, [], length, slice_index_or, slice_set, vec_capacity};
ghost use Rattle.kn_slices.specs.Activators.{HoldMarks, limit_at, running_at};
ghost use Rattle.kn_slices.specs.Calls.{CanMakeDue, ForceAsked, HoldsRules, KeepsLoad, KeepsWanted, MakesDue, MayUnset};
ghost use Rattle.kn_slices.specs.Slices.{cut_of, first_from, raise_of};
ghost use Rattle.kn_slices.specs.Traces.{IsSameGroup};

use super::Group;
use super::taking::take;
use crate::change::Change;
use crate::listing::{first_cut, first_raise, list_open, set_mark};
use crate::parts::{force_after, unset_at};
use kn_event::{Act, EntryLog, Event};
use kn_laws::laws::history_laws;
use kn_record::append::append_laws;

/// For one activator less a pod's limit isn't its slice.
fn unmark(marks: &mut [u64], p: u64, marked: &mut Vec<u64>)
    requires pod { p < length marks.old }
    requires some { 1 ≤ slice_index_or marks.old p 0 }
    requires known { HoldMarks (length marks.old) marks.old marked.old.items (vec_capacity marked.old) }
    ensures marks { marks.new ≡ slice_set marks.old p (slice_index_or marks.old p 0 - 1) }
    ensures known { HoldMarks (length marks.old) marks.new marked.new.items (vec_capacity marked.new) }
{
    let left = marks[p as usize] - 1;
    set_mark(marks, p, left, marked);
}

impl Group {
    /// The first possible cut.
    pub(super) fn first_cut(&self) -> Option<Change>
        ensures { result ≡ first_from (cut_of limit_at (length self.now.parts) self.now.parts) 0 self.now.wanted }
    {
        // Any part that is read brings what is kept of all.
        let _pods = self.wanted.len();
        first_cut(&self.parts, &self.wanted, &self.marks, &self.marked)
    }

    /// The first possible raise.
    pub(super) fn first_raise(&self) -> Option<Change>
        ensures { result ≡ first_from (raise_of limit_at running_at (length self.now.parts) self.now.parts) 0 self.now.wanted }
    {
        // Any part that is read brings what is kept of all.
        let _pods = self.wanted.len();
        first_raise(&self.parts, &self.wanted, &self.marks, &self.marked)
    }

    /// A new limit of a pod is wanted, at least one for each activator and at most 1,000. No activator's limit changes by it.
    pub fn ask(&mut self, p: u64, limit: u64)
        requires pod { p < length self.old.wanted }
        requires least { length self.old.parts ≤ limit }
        requires most { limit ≤ 1000 }
        ensures parts { self.new.parts ≡ self.old.parts }
        ensures same { IsSameGroup self.old self.new }
        ensures wanted { self.new.wanted ≡ slice_set self.old.wanted p limit }
        ensures force { ForceAsked p limit self.old self.new }
        ensures unset { MayUnset self.old self.new }
        ensures rules { HoldsRules self.new }
    {
        append_laws();
        history_laws();
        let at = p as usize;
        let most = self.force[at].max(limit);
        self.force[at] = force_after(&self.parts, p, limit, most);
        let unset = unset_at(&self.parts, p, limit);
        set_mark(&mut self.marks, p, unset, &mut self.marked);
        self.wanted[at] = limit;
        list_open(&self.wanted, &self.force, &self.marks, &mut self.listed);
    }

    /// Makes the due change, as an event of its activator: that pod's limit is set there.
    pub fn change(&mut self, time: u64, log: &mut EntryLog)
        requires can { CanMakeDue self.old time }
        requires empty { log.old ≡ [] }
        ensures makes { MakesDue self.old self.new time log.new }
        ensures keeps { KeepsWanted self.old self.new }
        ensures load { KeepsLoad self.old self.new }
        ensures rules { HoldsRules self.new }
    {
        append_laws();
        history_laws();
        match self.plan() {
            None => unreachable!(),
            Some(change) => {
                let e = Event {
                    time,
                    act: Act::Limit(change.pod, change.limit),
                };
                take(
                    &mut self.parts,
                    &self.wanted,
                    &mut self.force,
                    change.activator,
                    &e,
                    log,
                    &self.listed,
                );
                unmark(&mut self.marks, change.pod, &mut self.marked);
            }
        }
    }
}
