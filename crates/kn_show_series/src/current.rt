//! The step that is open.
ghost use Rattle.std.specs.Prelude.{◌≡◌, ◌+◌, ◌<◌, ◌≤◌, ◌^◌, ◌++◌, OnErr, OnOk};
ghost use Rattle.kn_io.specs.Causes.{HasCause};
ghost use Rattle.kn_io.specs.Prefix.{AppendsPrefix};
ghost use Rattle.kn_report.specs.Waiting.{Adds};
ghost use Rattle.kn_show_series.specs.Counting.{size_of};
ghost use Rattle.kn_show_series.specs.Open.{begun_at, measured, open_text, told_text, with_entry};
ghost use Rattle.kn_show_series.specs.Passing.{AddsOverSteps, CutsOverSteps, EntersStep};
ghost use Rattle.kn_show_series.specs.State.{IsFirst};
ghost use Rattle.kn_show_series.specs.Steps.{is_shown};

use crate::counts::{Counts, put_field};
use crate::gauges::Gauges;
use kn_event::{Line, Row};
use kn_io::{Failed, Sink};
use kn_report::Waiting;
use kn_report::laws::adding_laws;

/// What is known of a step so far.
#[derive(Clone, Copy)]
pub(crate) struct OpenStep {
    /// The time that it begins at.
    pub(crate) from: u64,
    pub(crate) gauges: Gauges,
    pub(crate) counts: Counts,
    /// The most requests held as it began, and after each of its events.
    pub(crate) held_peak: u64,
    /// Whether it has a row that makes a line.
    pub(crate) filled: bool,
    /// Whether the step before it has one.
    pub(crate) follows_filled: bool,
}

impl OpenStep {
    /// The first step, as nothing has come yet. It has a line whatever comes.
    pub(crate) fn first(start: u64) -> OpenStep
        ensures { IsFirst start result }
    {
        OpenStep {
            from: start,
            gauges: Gauges::zero(),
            counts: Counts::zero(),
            held_peak: 0,
            filled: true,
            follows_filled: false,
        }
    }

    /// A later step that begins at this time, as nothing has come in it.
    pub(crate) fn later(&self, from: u64, follows_filled: bool) -> OpenStep
        ensures { result ≡ begun_at from follows_filled self.now.gauges }
    {
        OpenStep {
            from,
            gauges: self.gauges,
            counts: Counts::zero(),
            held_peak: self.gauges.held,
            filled: false,
            follows_filled,
        }
    }

    /// Counts a row. The wait is that of the request that begins to run with it.
    pub(crate) fn add(&mut self, row: &Row, wait: u64)
        requires { size_of self.old.counts < 2 ^ 127 }
        ensures step { self.new ≡ with_entry row.now wait self.old }
        ensures few { size_of self.new.counts ≤ size_of self.old.counts + 2 }
    {
        self.counts.add(row, wait);
        self.filled = self.filled || is_shown(row);
    }

    /// Takes what is counted after an event.
    pub(crate) fn measure(&mut self, gauges: Gauges)
        ensures { self.new ≡ measured gauges self.old }
    {
        self.gauges = gauges;
        self.held_peak = self.held_peak.max(gauges.held);
    }

    /// Sets the line to that of the step.
    #[tactic(auto, using(crate::proofs::Pieces::four_pieces), unfolding(crate::specs::Fields::line_text))]
    fn set_line(&self, line: &mut Line)
        ensures { line.new ≡ open_text self.now }
    {
        line.clear();
        line.put_integer(self.from);
        self.gauges.put(line);
        self.counts.put(line);
        put_field(line, u128::from(self.held_peak));
        line.put(b"\n");
    }

    /// Adds its line behind what waits.
    pub(crate) fn write<O: Sink>(
        &self,
        line: &mut Line,
        waiting: &mut Waiting,
        out: &mut O,
    ) -> Result<(), Failed>
        ensures ok { OnOk result (Adds (O.held out.old) (O.held out.new) waiting.old waiting.new (open_text self.now)) }
        ensures err { OnErr result (AppendsPrefix (O.held out.old) (O.held out.new) (waiting.old ++ open_text self.now)) }
        ensures cause { HasCause (O.Faulty.faults out.old) (O.Faulty.faults out.new) result }
    {
        self.set_line(line);
        waiting.add(line.bytes(), out)
    }

    /// Adds its line behind what waits, where it has one.
    pub(crate) fn write_told<O: Sink>(
        &self,
        line: &mut Line,
        waiting: &mut Waiting,
        out: &mut O,
    ) -> Result<(), Failed>
        ensures ok { OnOk result (Adds (O.held out.old) (O.held out.new) waiting.old waiting.new (told_text self.now)) }
        ensures err { OnErr result (AppendsPrefix (O.held out.old) (O.held out.new) (waiting.old ++ told_text self.now)) }
        ensures cause { HasCause (O.Faulty.faults out.old) (O.Faulty.faults out.new) result }
    {
        if self.filled || self.follows_filled {
            return self.write(line, waiting, out);
        }
        Ok(())
    }

    /// Goes on to the step of this time, behind the lines of the steps that are over then.
    pub(crate) fn pass<O: Sink>(
        &mut self,
        step: u64,
        time: u64,
        line: &mut Line,
        waiting: &mut Waiting,
        out: &mut O,
    ) -> Result<(), Failed>
        requires { 0 < step }
        ensures ok { AddsOverSteps O.Sink.own out.old out.new waiting.old waiting.new step time self.old result }
        ensures err { CutsOverSteps O.Sink.own out.old out.new waiting.old step time self.old result }
        ensures step { EntersStep step time self.old self.new result }
        ensures few { OnOk result (size_of self.new.counts ≤ size_of self.old.counts) }
        ensures cause { HasCause (O.Faulty.faults out.old) (O.Faulty.faults out.new) result }
    {
        adding_laws();
        let over = time.saturating_sub(self.from);
        if over < step {
            return Ok(());
        }
        match self.write_told(line, waiting, out) {
            Ok(()) => {}
            Err(Failed) => return Err(Failed),
        }
        *self = self.later(self.from + step, self.filled);
        if over - step < step {
            return Ok(());
        }
        match self.write_told(line, waiting, out) {
            Ok(()) => {}
            Err(Failed) => return Err(Failed),
        }
        *self = self.later(time - over % step, false);
        Ok(())
    }
}

/// Whether it makes a line: it is no tick without a sample.
fn is_shown(row: &Row) -> bool
    ensures { result ≡ is_shown row.now }
{
    !matches!(*row, Row::NoData)
}
