//! The rows of a report, and their counts.
ghost use Rattle.std.specs.Prelude.{◌≡◌, []};
ghost use Rattle.kn_trace.specs.Report.{totals};
ghost use Rattle.kn_teller.specs.Run.{trace};
ghost use Rattle.kn_replay.specs.Report.{row_by_row};

use crate::first::{add_many, put_first};
use kn_core::Revision;
use kn_event::{EntryLog, Event, Line, Memory, Spec};
use kn_io::{Failed, Sink};
use kn_report::laws::adding_laws;
use kn_report::{Tally, Waiting, add_rows};
use kn_teller::{Form, Teller, take_first};
use std::alloc::Global;

/// Tells of each event its rows, and of the end how many there were of each kind.
#[derive(Drop)]
pub struct Rows {
    tally: Tally,
}

impl Teller for Rows {
    ghost manner = { λ _. row_by_row };

    ghost awaits = { λ t _. t.tally.totals ≡ totals [] };

    ghost knows = { λ t r. t.tally.totals ≡ totals (trace r) };

    ghost load = { λ t. t.tally.rows };

    fn open<O: Sink>(
        &mut self,
        _revision: &Revision,
        log: &EntryLog,
        line: &mut Line,
        waiting: &mut Waiting,
        out: &mut O,
    ) -> Result<(), Failed> {
        add_rows(log, &mut self.tally, line, waiting, out)
    }

    #[inline(always)]
    fn tell<O: Sink>(
        &mut self,
        _e: &Event,
        _revision: &Revision,
        log: &EntryLog,
        line: &mut Line,
        waiting: &mut Waiting,
        out: &mut O,
    ) -> Result<(), Failed> {
        add_rows(log, &mut self.tally, line, waiting, out)
    }

    #[inline(always)]
    fn take<O: Sink>(
        &mut self,
        e: &Event,
        revision: &mut Revision,
        log: &mut EntryLog,
        line: &mut Line,
        waiting: &mut Waiting,
        out: &mut O,
    ) -> Result<(), Failed> {
        adding_laws();
        let first = take_first(revision, e, log);
        if !waiting.has_room() {
            match waiting.flush(out) {
                Ok(()) => {}
                Err(Failed) => return Err(Failed),
            }
        }
        put_first(first, e.time, &mut self.tally, waiting);
        if log.entries().is_empty() {
            return Ok(());
        }
        add_many(log, &mut self.tally, line, waiting, out)
    }

    fn end<O: Sink>(
        &mut self,
        version: u64,
        events: u64,
        line: &mut Line,
        waiting: &mut Waiting,
        out: &mut O,
    ) -> Result<(), Failed> {
        self.tally.last_line(version, events, line);
        waiting.add(line.bytes(), out)
    }
}

/// A report: all rows, and the last line.
pub struct Report;

impl Form<Rows> for Report {
    ghost writes = { λ _. row_by_row };

    fn make(&self, _alloc: Global, _spec: &Spec, _start: u64) -> Result<Rows, Memory> {
        Ok(Rows {
            tally: Tally::new(),
        })
    }
}
