//! How the slots get a pass of each revision, and how these come back.
ghost use Rattle.std.specs.Prelude.{◌≡◌, ◌<◌, ◌-◌, length};
ghost use Rattle.kn_event.specs.Lists.{EachIs};
ghost use Rattle.kn_session.specs.Lists.{EachDone};
ghost use Rattle.kn_session.specs.WidePasses.{EachGave, EachGiven, EachMayGive, EachOf, EachTakenOut, EachTook, EachTookAll, HasSame, IsGivenBy, MayGive, gave};
ghost use Rattle.kn_request.specs.Wide.{ArePassesOf, passes_in};

use crate::passes::take_work;
use kn_cell::{Pass, RevisionCell};
use kn_request::{WideSlot, Work};

/// Puts a new pass into a work, in which nothing is noted then.
fn hand_work(cell: &RevisionCell, pass: &mut Pass, work: &mut Work)
    requires may { MayGive 1 cell.now pass.old }
    ensures pass { pass.new ≡ gave 1 pass.old }
    ensures given { IsGivenBy pass.old (pass.old.passes - pass.old.free) work.new }
{
    let given = cell.split(pass);
    work.pass = Some(given);
    work.fault = false;
    work.memory = false;
}

/// Puts a new pass of each cell into the works of a slot.
fn hand_works(cells: &[RevisionCell], firsts: &mut [Pass], works: &mut [Work])
    requires may { EachMayGive 1 cells.now firsts.old }
    requires count { length works.old ≡ length cells.now }
    ensures firsts { EachGave 1 firsts.old firsts.new }
    ensures works { EachGiven firsts.old 0 works.new }
{
    for v in 0..cells.len() {
        hand_work(&cells[v], &mut firsts[v], &mut works[v]);
    }
}

/// Puts a new pass of each cell into the works of each slot.
pub fn hand_all<C, L>(cells: &[RevisionCell], firsts: &mut [Pass], slots: &mut [WideSlot<C, L>])
    requires may { EachMayGive (length slots.old) cells.now firsts.old }
    requires count { EachIs (λ s. length s.works.items ≡ length cells.now) slots.old }
    ensures firsts { EachGave (length slots.old) firsts.old firsts.new }
    ensures slots { EachDone (λ i s t. EachGiven firsts.old i t.works.items × HasSame s t) slots.old slots.new }
{
    for i in 0..slots.len() {
        hand_works(cells, firsts, &mut slots[i].works);
    }
}

/// Takes the passes of a slot's works in.
fn take_works(cells: &[RevisionCell], firsts: &mut [Pass], works: &mut [Work])
    requires cells { ArePassesOf cells.now firsts.old }
    requires count { length works.old ≡ length cells.now }
    requires found { EachOf cells.now (passes_in works.old) }
    ensures firsts { EachTook (passes_in works.old) firsts.old firsts.new }
    ensures works { EachTakenOut works.old works.new }
    ensures cells { ArePassesOf cells.now firsts.new }
{
    for v in 0..cells.len() {
        take_work(&cells[v], &mut firsts[v], &mut works[v]);
    }
}

/// Takes the passes of all slots in, each into the first one of its revision.
pub fn take_all<C, L>(cells: &[RevisionCell], firsts: &mut [Pass], slots: &mut [WideSlot<C, L>])
    requires cells { ArePassesOf cells.now firsts.old }
    requires count { EachIs (λ s. length s.works.items ≡ length cells.now) slots.old }
    requires found { EachIs (λ s. EachOf cells.now (passes_in s.works.items)) slots.old }
    ensures firsts { EachTookAll slots.old firsts.old firsts.new }
    ensures slots { EachDone (λ i s t. EachTakenOut s.works.items t.works.items × HasSame s t) slots.old slots.new }
    ensures cells { ArePassesOf cells.now firsts.new }
{
    for i in 0..slots.len() {
        take_works(cells, firsts, &mut slots[i].works);
    }
}
