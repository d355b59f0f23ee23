//! What is kept of the rows so far.
ghost use Rattle.std.specs.Prelude.{◌≡◌, None, unwrap_or};
ghost use Rattle.std.specs.Option.{option_or};
ghost use Rattle.kn_trace.specs.Rows.{phase_by};
ghost use Rattle.kn_past.specs.Changes.{time_by};
ghost use Rattle.kn_show_reasons.specs.Adding.{KnowsNext};
ghost use Rattle.kn_show_reasons.specs.State.{SeesPhase};

use kn_event::{Entry, EntryLog, Phase, Row};
use kn_lives::Lives;
use kn_past::changes::entry_laws;

/// The live requests, the phase and since when it is, in milliseconds, and how many pods were ready after the last
/// event.
pub(crate) struct Seen {
    pub(crate) lives: Lives,
    pub(crate) phase: Option<Phase>,
    pub(crate) since: u64,
    pub(crate) ready: u64,
}

impl Drop for Seen {
    fn drop(self) {
        let Seen {
            lives: _,
            phase: _,
            since: _,
            ready: _,
        } = self;
    }
}

/// The phase that begins with a row.
fn phase_by(row: &Row) -> Option<Phase>
    ensures { result ≡ phase_by row.now }
{
    match *row {
        Row::Phase(phase) => Some(phase),
        _ => None,
    }
}

impl Seen {
    /// Notes the phase that begins with a row.
    fn note(&mut self, e: &Entry)
        ensures phase { self.new.phase ≡ option_or (phase_by e.now.row) self.old.phase }
        ensures since { self.new.since ≡ unwrap_or (time_by phase_by e.now) self.old.since }
        ensures lives { self.new.lives ≡ self.old.lives }
        ensures ready { self.new.ready ≡ self.old.ready }
    {
        if let Some(phase) = phase_by(&e.row) {
            self.phase = Some(phase);
            self.since = e.time;
        }
    }

    /// Notes the phase that the rows of an opening begin.
    pub(crate) fn open(&mut self, log: &EntryLog)
        ensures sees { self.old.phase ≡ None → SeesPhase self.new log.now }
        ensures lives { self.new.lives ≡ self.old.lives }
    {
        entry_laws();
        for e in log.entries() {
            self.note(e);
        }
    }

    /// Goes on by one row. The tag is that of the event, which who arrives with the row has.
    pub(crate) fn add(&mut self, tag: u64, e: &Entry)
        ensures knows { KnowsNext tag self.old self.new e.now }
        ensures ready { self.new.ready ≡ self.old.ready }
    {
        entry_laws();
        self.note(e);
        self.lives.add(tag, e);
    }
}
