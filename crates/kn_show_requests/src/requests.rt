//! Writes the lines of a run.
ghost use Rattle.std.specs.Prelude.{◌≡◌, ◌++◌, [], OnErr, OnOk, option_map};
ghost use Rattle.kn_io.specs.Causes.{HasCause};
ghost use Rattle.kn_io.specs.Prefix.{AppendsPrefix};
ghost use Rattle.kn_report.specs.Waiting.{Adds};
ghost use Rattle.kn_teller.specs.Run.{trace};
ghost use Rattle.kn_lives.specs.Lives.{AreLives, life_at};
ghost use Rattle.kn_show_requests.specs.Adding.{AddsLives, AddsRowLines, CutsLives, CutsRowLines, KeepsLives};
ghost use Rattle.kn_show_requests.specs.Requests.{ended, live_told, requests, told_by};
ghost use Rattle.kn_show_requests.specs.Texts.{line_where};

use crate::told::{Outcome, Told};
use kn_core::Revision;
use kn_event::{Entry, EntryLog, Event, Line, Memory, Row, Spec};
use kn_io::{Failed, Sink};
use kn_lives::laws::{lives_laws, row_laws};
use kn_lives::{Lives, arrival_tag};
use kn_record::facts::fact_laws;
use kn_report::Waiting;
use kn_report::laws::adding_laws;
use kn_teller::{Form, Teller};
use std::alloc::Global;
use std::marker::Model;

/// The header.
const HEADER: &[u8] = b"request,tag,arrived,way,outcome,ended,pod,waited,ran\n";

/// Writes a line for each request. Contracts see what is known of the live ones.
pub struct Requests {
    lives: Lives,
}

impl Drop for Requests {
    fn drop(self) {
        let Requests { lives: _ } = self;
    }
}

impl Model for Requests {
    ghost use Rattle.std.specs.Prelude.{ℕ, List};
    ghost use Rattle.kn_lives.specs.declared.lives.Life.{Life};

    ghost Value = { List (ℕ × Life) };

    ghost view = { λ t. t.lives };
}

/// What is told of a request that ends at this time.
#[inline(always)]
fn ended(lives: &Lives, r: u64, time: u64, outcome: Outcome) -> Option<Told>
    ensures { result ≡ option_map (λ x. ended r x time outcome) (life_at lives.now r) }
{
    match lives.get(r) {
        Some(life) => Some(Told::ended(r, &life, time, outcome)),
        None => None,
    }
}

/// What is told of the request that is refused or ends with a row.
#[inline(always)]
fn told_by(lives: &Lives, tag: u64, e: &Entry) -> Option<Told>
    ensures { result ≡ told_by (λ _. tag) (life_at lives.now) e.now.time e.now.row }
{
    match e.row {
        Row::QueueFull(r, pod) => Some(Told::refused(r, tag, e.time, Outcome::QueueFull, pod)),
        Row::Overload(r) => Some(Told::refused(r, tag, e.time, Outcome::Overload, None)),
        Row::Finish(r, true) => ended(lives, r, e.time, Outcome::Ok),
        Row::Finish(r, false) => ended(lives, r, e.time, Outcome::Failed),
        Row::Expire(r) => ended(lives, r, e.time, Outcome::Expired),
        Row::Cancel(r) => ended(lives, r, e.time, Outcome::Cancelled),
        Row::LostRequest(r) => ended(lives, r, e.time, Outcome::Lost),
        _ => None,
    }
}

/// Adds the line of what is told behind what waits, where something is.
#[inline(always)]
fn add_line<O: Sink>(
    told: Option<Told>,
    line: &mut Line,
    waiting: &mut Waiting,
    out: &mut O,
) -> Result<(), Failed>
    ensures ok { OnOk result (Adds (O.held out.old) (O.held out.new) waiting.old waiting.new (line_where told)) }
    ensures err { OnErr result (AppendsPrefix (O.held out.old) (O.held out.new) (waiting.old ++ line_where told)) }
    ensures cause { HasCause (O.Faulty.faults out.old) (O.Faulty.faults out.new) result }
{
    match told {
        Some(told) => {
            told.set_line(line);
            waiting.add(line.bytes(), out)
        }
        None => Ok(()),
    }
}

/// Adds the line of each request that is refused or ends with a row behind what waits, row by row.
#[inline(always)]
fn add_rows<O: Sink>(
    lives: &mut Lives,
    tag: u64,
    log: &EntryLog,
    line: &mut Line,
    waiting: &mut Waiting,
    out: &mut O,
) -> Result<(), Failed>
    ensures ok { AddsRowLines O.Sink.own out.old out.new waiting.old waiting.new tag lives.old log.now result }
    ensures err { CutsRowLines O.Sink.own out.old out.new waiting.old tag lives.old log.now result }
    ensures lives { KeepsLives tag lives.old lives.new log.now result }
    ensures cause { HasCause (O.Faulty.faults out.old) (O.Faulty.faults out.new) result }
{
    adding_laws();
    row_laws();
    for e in log.entries() {
        match add_line(told_by(lives, tag, e), line, waiting, out) {
            Ok(()) => {}
            Err(Failed) => return Err(Failed),
        }
        lives.add(tag, e);
    }
    Ok(())
}

/// What is told of a request where it is live.
fn live(lives: &Lives, r: u64) -> Option<Told>
    ensures { result ≡ option_map (live_told r) (life_at lives.now r) }
{
    match lives.get(r) {
        Some(life) => Some(Told::live(r, &life)),
        None => None,
    }
}

/// Adds a line for each live request below a number behind what waits.
fn add_live<O: Sink>(
    lives: &Lives,
    below: u64,
    line: &mut Line,
    waiting: &mut Waiting,
    out: &mut O,
) -> Result<(), Failed>
    ensures ok { AddsLives O.Sink.own out.old out.new waiting.old waiting.new lives.now below result }
    ensures err { CutsLives O.Sink.own out.old out.new waiting.old lives.now below result }
    ensures cause { HasCause (O.Faulty.faults out.old) (O.Faulty.faults out.new) result }
{
    adding_laws();
    let end = below.min(lives.greatest().saturating_add(1));
    let first = end.min(lives.least());
    for r in first..end {
        match add_line(live(lives, r), line, waiting, out) {
            Ok(()) => {}
            Err(Failed) => return Err(Failed),
        }
    }
    Ok(())
}

impl Teller for Requests {
    ghost manner = { λ t. requests };

    ghost awaits = { λ t r. AreLives t [] [] };

    ghost knows = { λ t r. AreLives t r.events (trace r) };

    ghost load = { λ t. 0 };

    fn open<O: Sink>(
        &mut self,
        _revision: &Revision,
        _log: &EntryLog,
        _line: &mut Line,
        waiting: &mut Waiting,
        out: &mut O,
    ) -> Result<(), Failed> {
        lives_laws();
        waiting.add(HEADER, out)
    }

    fn tell<O: Sink>(
        &mut self,
        e: &Event,
        _revision: &Revision,
        log: &EntryLog,
        line: &mut Line,
        waiting: &mut Waiting,
        out: &mut O,
    ) -> Result<(), Failed> {
        lives_laws();
        add_rows(
            &mut self.lives,
            arrival_tag(&e.act),
            log,
            line,
            waiting,
            out,
        )
    }

    fn end<O: Sink>(
        &mut self,
        _version: u64,
        events: u64,
        line: &mut Line,
        waiting: &mut Waiting,
        out: &mut O,
    ) -> Result<(), Failed> {
        fact_laws();
        lives_laws();
        add_live(&self.lives, events, line, waiting, out)
    }
}

/// Asks for a line for each request.
#[derive(Clone, Copy)]
pub struct RequestsForm;

impl Form<Requests> for RequestsForm {
    ghost writes = { λ f. requests };

    fn make(&self, alloc: Global, _spec: &Spec, _start: u64) -> Result<Requests, Memory> {
        match Lives::new(alloc) {
            Ok(lives) => Ok(Requests { lives }),
            Err(Memory) => Err(Memory),
        }
    }
}
