//! The rule of the table, and the names of its steps.
ghost use Rattle.kn_cell.specs.Rule.{IsKept, Takes, Records, Gives, Confirms, Rings, first_view};
ghost use Rattle.kn_cell.specs.Splitting.{less_one, newcomer, with_other, spent_view};

use crate::desk::Desk;
use crate::view::{Key, View};
use atomic_table::{Join, Play, Split, TableRule};

pub struct Order;

impl TableRule<Desk, View, Key> for Order {
    ghost holds = { IsKept };

    ghost first = { first_view };
}

/// Takes the turn, or misses it.
pub struct Take;

impl Play<Desk, View> for Take {
    ghost then = { Takes };
}

/// Counts a row.
pub struct Record;

impl Play<Desk, View> for Record {
    ghost then = { Records };
}

/// Changes nothing.
pub struct Confirm;

impl Play<Desk, View> for Confirm {
    ghost then = { Confirms };
}

/// Rings a bell.
pub struct Ring;

impl Play<Desk, View> for Ring {
    ghost then = { Rings };
}

/// Gives the turn back.
pub struct Give;

impl Play<Desk, View> for Give {
    ghost then = { Gives };
}

/// A new pass gets the next number.
pub struct Cut;

impl Split<View> for Cut {
    ghost left = { less_one };

    ghost right = { newcomer };
}

/// A pass takes in another.
pub struct Glue;

impl Join<View> for Glue {
    ghost both = { with_other };

    ghost spent = { spent_view };
}
