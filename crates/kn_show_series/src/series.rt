//! The teller of the series, and the form that makes it.
ghost use Rattle.std.specs.Prelude.{◌≡◌, ◌+◌, ◌<◌, ◌≤◌, ◌^◌, ◌↔◌, IfSome, IsSome};
ghost use Rattle.kn_trace.specs.Rows.{begun_by};
ghost use Rattle.kn_show_series.specs.Counting.{size_of};
ghost use Rattle.kn_show_series.specs.State.{CountsRows, IsWaitOf};
ghost use Rattle.kn_show_series.specs.Steps.{pods_of};

use crate::current::OpenStep;
use crate::gauges::Gauges;
use crate::laws::{opening_laws, wait_laws};
use kn_core::Revision;
use kn_event::{Entry, EntryLog, Event, Kind, Line, Memory, Row, Spec};
use kn_io::{Failed, Sink};
use kn_laws::laws::history_laws;
use kn_laws::parts::part_laws;
use kn_lives::laws::{lives_laws, row_laws};
use kn_lives::{Lives, arrival_tag};
use kn_report::Waiting;
use kn_teller::{Form, Teller};
use std::alloc::Global;
use std::marker::Model;

/// The first line.
const HEADER: &[u8] =
    b"time,ready,starting,draining,wanted,held,queued,running,arrived,refused,ended,failed,expired,decisions,ran,waited,longest,held-peak\n";

/// The longest step: a day, in milliseconds.
const STEP_MOST: u64 = 86_400_000;

/// Writes a line for each step in which something happens, and for the next. It keeps what is known of the open step.
pub struct Series {
    step: u64,
    pods: u64,
    lives: Lives,
    current: OpenStep,
}

impl Drop for Series {
    fn drop(self) {
        let Series {
            step: _,
            pods: _,
            lives: _,
            current: _,
        } = self;
    }
}

impl Model for Series {
    ghost use Rattle.std.specs.Prelude.{◌<◌};
    ghost use Rattle.kn_show_series.specs.State.{SeriesState};

    ghost Value = { SeriesState };

    ghost view = { λ s. record { step = s.step; pods = s.pods; lives = s.lives; current = s.current } };

    ghost invariant = { λ s. 0 < s.step };
}

impl Series {
    /// Counts the rows of an event, each by the trace before it.
    fn count(&mut self, e: &Event, log: &EntryLog)
        requires few { size_of self.old.current.counts ≤ 2 ^ 126 }
        ensures counts { CountsRows e.now log.now self.old self.new }
        ensures few { size_of self.new.current.counts < size_of self.old.current.counts + 2 ^ 64 }
        ensures step { self.new.step ≡ self.old.step }
        ensures pods { self.new.pods ≡ self.old.pods }
    {
        lives_laws();
        row_laws();
        let tag = arrival_tag(&e.act);
        for entry in log.entries() {
            let wait = waited(&self.lives, entry);
            self.current.add(&entry.row, wait);
            self.lives.add(tag, entry);
        }
    }
}

/// How long the request had waited that begins to run with this row; 0 where none does.
fn waited(lives: &Lives, e: &Entry) -> u64
    ensures { IsWaitOf lives.now e.now result }
{
    row_laws();
    let Some(r) = begun(&e.row) else {
        return 0;
    };
    match lives.get(r) {
        Some(life) => e.time.saturating_sub(life.arrived),
        None => 0,
    }
}

/// The request that begins to run with a row.
fn begun(row: &Row) -> Option<u64>
    ensures { result ≡ begun_by row.now }
{
    match *row {
        Row::Assign(r, _) => Some(r),
        Row::Run(r) => Some(r),
        _ => None,
    }
}

impl Teller for Series {
    ghost use Rattle.kn_show_series.specs.Counting.{size_of};
    ghost use Rattle.kn_show_series.specs.Series.{series};
    ghost use Rattle.kn_show_series.specs.State.{IsSeriesOf, IsUnopened};

    ghost manner = { λ s. series s.step };

    ghost awaits = { λ s r. IsUnopened s r };

    ghost knows = { λ s r. IsSeriesOf s r };

    ghost load = { λ s. size_of s.current.counts };

    fn open<O: Sink>(
        &mut self,
        revision: &Revision,
        _log: &EntryLog,
        _line: &mut Line,
        waiting: &mut Waiting,
        out: &mut O,
    ) -> Result<(), Failed> {
        history_laws();
        lives_laws();
        opening_laws();
        match waiting.add(HEADER, out) {
            Ok(()) => {}
            Err(Failed) => return Err(Failed),
        }
        self.current.measure(Gauges::of(revision, self.pods));
        Ok(())
    }

    fn tell<O: Sink>(
        &mut self,
        e: &Event,
        revision: &Revision,
        log: &EntryLog,
        line: &mut Line,
        waiting: &mut Waiting,
        out: &mut O,
    ) -> Result<(), Failed> {
        part_laws();
        row_laws();
        wait_laws(revision);
        match self.current.pass(self.step, e.time, line, waiting, out) {
            Ok(()) => {}
            Err(Failed) => return Err(Failed),
        }
        self.count(e, log);
        self.current.measure(Gauges::of(revision, self.pods));
        Ok(())
    }

    fn end<O: Sink>(
        &mut self,
        _version: u64,
        _events: u64,
        line: &mut Line,
        waiting: &mut Waiting,
        out: &mut O,
    ) -> Result<(), Failed> {
        self.current.write(line, waiting, out)
    }
}

/// The series with steps of this many milliseconds, 1 to 86,400,000.
#[derive(Clone, Copy)]
pub struct SeriesForm {
    pub step: u64,
    pub ghost some: { 1 ≤ step },
    pub ghost most: { step ≤ 86400000 },
}

impl SeriesForm {
    /// None exactly where the step is out of range.
    pub fn new(step: u64) -> Option<SeriesForm>
        ensures some { IsSome result ↔ ((1 ≤ step) × (step ≤ 86400000)) }
        ensures step { IfSome result (λ f. f.step ≡ step) }
    {
        if step == 0 || step > STEP_MOST {
            return None;
        }
        Some(SeriesForm { step })
    }
}

impl Form<Series> for SeriesForm {
    ghost use Rattle.kn_show_series.specs.Series.{series};

    ghost writes = { λ f. series f.step };

    fn make(&self, alloc: Global, spec: &Spec, start: u64) -> Result<Series, Memory> {
        let lives = Lives::new(alloc)?;
        Ok(Series {
            step: self.step,
            pods: fixed_pods(spec.kind),
            lives,
            current: OpenStep::first(start),
        })
    }
}

/// How many pods the setup of a fixed revision gives it.
fn fixed_pods(kind: Kind) -> u64
    ensures { result ≡ pods_of kind }
{
    match kind {
        Kind::Fixed(pods) => pods,
        Kind::Kpa => 0,
    }
}
