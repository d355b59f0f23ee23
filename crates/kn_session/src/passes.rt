//! How the slots get their passes, and how these come back.
ghost use Rattle.std.specs.Prelude.{◌≡◌, ◌≤◌, ◌<◌, ◌-◌, length, Some};
ghost use Rattle.kn_event.specs.Lists.{EachIs};
ghost use Rattle.kn_cell.specs.Shown.{PassView};
ghost use Rattle.kn_session.specs.Lists.{EachDone};
ghost use Rattle.kn_session.specs.Passes.{HasPass, IsBlank, IsEmptied, IsGiven, IsGivenOf, IsNewOf, found_in, joined_all, kind_of, where_some};
ghost use Rattle.kn_session.specs.WidePasses.{IsTakenOut};

use kn_cell::{Pass, RevisionCell};
use kn_request::{Slot, Work};

/// Hands a pass to each slot.
pub fn hand_out<C, L>(cell: &RevisionCell, pass: &mut Pass, slots: &mut [Slot<C, L>])
    requires cell { pass.old.cell ≡ cell.now }
    requires free { length slots.old ≤ pass.old.free }
    requires low { pass.old.free ≤ pass.old.passes }
    requires blank { IsBlank pass.old }
    ensures pass { pass.new ≡ record pass.old { free = pass.old.free - length slots.old } }
    ensures slots { EachDone (IsGivenOf cell.now pass.old) slots.old slots.new }
{
    for i in 0..slots.len() {
        hand_pass(cell, pass, &mut slots[i]);
    }
}

fn hand_pass<C, L>(cell: &RevisionCell, pass: &mut Pass, slot: &mut Slot<C, L>)
    requires cell { pass.old.cell ≡ cell.now }
    requires free { 0 < pass.old.free }
    requires blank { IsBlank pass.old }
    ensures pass { pass.new ≡ record pass.old { free = pass.old.free - 1 } }
    ensures given { IsGiven cell.now (IsNewOf (kind_of pass.old) (pass.old.passes - pass.old.free)) slot.old slot.new }
{
    slot.work.pass = Some(cell.split(pass));
}

/// Takes the passes of all slots back in.
pub fn take_back<C, L>(cell: &RevisionCell, pass: &mut Pass, slots: &mut [Slot<C, L>])
    requires cell { pass.old.cell ≡ cell.now }
    requires passes { EachIs (λ s. HasPass cell.now s.work.pass) slots.old }
    ensures pass { pass.new ≡ joined_all pass.old (found_in slots.old) }
    ensures slots { EachDone (λ i s t. IsEmptied s t) slots.old slots.new }
{
    for i in 0..slots.len() {
        take_pass(cell, pass, &mut slots[i]);
    }
}

fn take_pass<C, L>(cell: &RevisionCell, pass: &mut Pass, slot: &mut Slot<C, L>)
    requires cell { pass.old.cell ≡ cell.now }
    requires found { HasPass cell.now slot.old.work.pass }
    ensures pass { pass.new ≡ where_some slot.old.work.pass pass.old }
    ensures emptied { IsEmptied slot.old slot.new }
    ensures cell { pass.new.cell ≡ pass.old.cell }
{
    take_work(cell, pass, &mut slot.work);
}

/// Takes the pass of a work in, where there is one.
pub fn take_work(cell: &RevisionCell, pass: &mut Pass, work: &mut Work)
    requires cell { pass.old.cell ≡ cell.now }
    requires found { (p : PassView) → work.old.pass ≡ Some p → p.cell ≡ cell.now }
    ensures pass { pass.new ≡ where_some work.old.pass pass.old }
    ensures work { IsTakenOut work.old work.new }
    ensures cell { pass.new.cell ≡ pass.old.cell }
{
    match work.pass.take() {
        None => {}
        Some(other) => cell.join(pass, other),
    }
}
