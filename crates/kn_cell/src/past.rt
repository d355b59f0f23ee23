//! A history, and why an event was not recorded.
use kn_event::{Event, Told};
use std::marker::Model;

/// A row of a history: who brought the event, and what it was told.
#[derive(Clone, Copy)]
pub struct Past {
    pub pass: u64,
    pub event: Event,
    pub told: Told,
}

/// The room is too small for the event, beside the rows and the live requests that there are.
#[derive(Clone, Copy)]
pub struct Full {
    pub room: u64,
    pub used: u64,
    pub live: u64,
}

#[derive(Clone, Copy)]
pub enum TryError {
    Busy,
    Full(Full),
}

/// Contracts see it as its rows.
#[derive(Drop)]
pub struct History {
    rows: Vec<Past>,
}

impl Model for History {
    ghost use Rattle.std.specs.Prelude.{List};
    ghost use Rattle.kn_cell.specs.declared.past.Past.{Past};

    ghost Value = { List Past };

    ghost view = { λ h. h.rows.items };
}

impl History {
    ghost use Rattle.std.specs.Prelude.{◌≡◌};

    pub fn new(rows: Vec<Past>) -> History
        ensures { result ≡ rows.items }
    {
        History { rows }
    }

    pub fn items(&self) -> &[Past]
        ensures { result.now ≡ self.now }
    {
        self.rows.as_slice()
    }
}
