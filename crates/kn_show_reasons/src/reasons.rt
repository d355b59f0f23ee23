//! The teller of reasons.
ghost use Rattle.kn_io.specs.Causes.{HasCause};
ghost use Rattle.kn_reason.specs.Texts.{sentence_text, sentences_text};
ghost use Rattle.kn_show_reasons.specs.Adding.{AddsBehind, AddsDecision, AddsEachRow, CutsBehind, CutsDecision, CutsEachRow, KnowsEachRow, seen_text};
ghost use Rattle.kn_show_reasons.specs.Notices.{notice_where};
ghost use Rattle.kn_show_reasons.specs.Reasons.{reasons};
ghost use Rattle.kn_show_reasons.specs.State.{AreReasonsOf, IsUnopened};

use crate::notice::Notice;
use crate::seen::Seen;
use crate::sentences::sentences_of;
use kn_core::Revision;
use kn_event::{Decision, Entry, EntryLog, Event, Line, Memory, Row, Spec};
use kn_io::{Failed, Sink};
use kn_laws::parts::part_laws;
use kn_lives::laws::{lives_laws, row_laws};
use kn_lives::{Lives, arrival_tag};
use kn_past::changes::entry_laws;
use kn_reason::Reason;
use kn_report::Waiting;
use kn_report::laws::adding_laws;
use kn_teller::{Form, Teller};
use std::alloc::Global;
use std::marker::Model;

/// Writes each decision in words, and why requests were refused or given up. It keeps what the lines of a row need of
/// the rows before it.
pub struct Reasons {
    spec: Spec,
    seen: Seen,
}

impl Drop for Reasons {
    fn drop(self) {
        let Reasons { spec: _, seen: _ } = self;
    }
}

impl Model for Reasons {
    ghost use Rattle.kn_show_reasons.specs.State.{ReasonsState};

    ghost Value = { ReasonsState };

    ghost view = { λ t. record { spec = t.spec; seen = t.seen } };
}

/// Adds the line of a sentence behind what waits, where it stands.
fn add_sentence<O: Sink>(
    sentence: Option<Reason>,
    time: u64,
    line: &mut Line,
    waiting: &mut Waiting,
    out: &mut O,
) -> Result<(), Failed>
    ensures ok { AddsBehind O.Sink.own out.old out.new waiting.old waiting.new (sentence_text time sentence) result }
    ensures err { CutsBehind O.Sink.own out.old out.new waiting.old (sentence_text time sentence) result }
    ensures cause { HasCause (O.Faulty.faults out.old) (O.Faulty.faults out.new) result }
{
    match sentence {
        Some(reason) => {
            reason.set_line(time, line);
            waiting.add(line.bytes(), out)
        }
        None => Ok(()),
    }
}

/// Adds those of several.
fn add_sentences<O: Sink>(
    sentences: &[Option<Reason>],
    time: u64,
    line: &mut Line,
    waiting: &mut Waiting,
    out: &mut O,
) -> Result<(), Failed>
    ensures ok { AddsBehind O.Sink.own out.old out.new waiting.old waiting.new (sentences_text time sentences.now) result }
    ensures err { CutsBehind O.Sink.own out.old out.new waiting.old (sentences_text time sentences.now) result }
    ensures cause { HasCause (O.Faulty.faults out.old) (O.Faulty.faults out.new) result }
{
    adding_laws();
    for sentence in sentences {
        match add_sentence(*sentence, time, line, waiting, out) {
            Ok(()) => {}
            Err(Failed) => return Err(Failed),
        }
    }
    Ok(())
}

/// Adds the line of a notice behind what waits, where there is one.
fn add_notice<O: Sink>(
    notice: Option<Notice>,
    time: u64,
    line: &mut Line,
    waiting: &mut Waiting,
    out: &mut O,
) -> Result<(), Failed>
    ensures ok { AddsBehind O.Sink.own out.old out.new waiting.old waiting.new (notice_where time notice) result }
    ensures err { CutsBehind O.Sink.own out.old out.new waiting.old (notice_where time notice) result }
    ensures cause { HasCause (O.Faulty.faults out.old) (O.Faulty.faults out.new) result }
{
    match notice {
        Some(notice) => {
            notice.set_line(time, line);
            waiting.add(line.bytes(), out)
        }
        None => Ok(()),
    }
}

/// Adds the lines of a decision behind what waits, in the phase that was seen before it. No other row pays for the room that
/// its sentences take.
#[inline(never)]
fn add_decision<O: Sink>(
    spec: &Spec,
    seen: &Seen,
    time: u64,
    d: &Decision,
    line: &mut Line,
    waiting: &mut Waiting,
    out: &mut O,
) -> Result<(), Failed>
    ensures ok { AddsDecision O.Sink.own out.old out.new waiting.old waiting.new spec.now seen.now time d.now result }
    ensures err { CutsDecision O.Sink.own out.old out.new waiting.old spec.now seen.now time d.now result }
    ensures cause { HasCause (O.Faulty.faults out.old) (O.Faulty.faults out.new) result }
{
    let sentences = sentences_of(spec, time, seen.phase, seen.since, d);
    add_sentences(&sentences, time, line, waiting, out)
}

/// Adds the lines of a row behind what waits, by what was seen before it.
fn add_row<O: Sink>(
    spec: &Spec,
    seen: &Seen,
    e: &Entry,
    line: &mut Line,
    waiting: &mut Waiting,
    out: &mut O,
) -> Result<(), Failed>
    ensures ok { AddsBehind O.Sink.own out.old out.new waiting.old waiting.new (seen_text spec.now seen.now e.now) result }
    ensures err { CutsBehind O.Sink.own out.old out.new waiting.old (seen_text spec.now seen.now e.now) result }
    ensures cause { HasCause (O.Faulty.faults out.old) (O.Faulty.faults out.new) result }
{
    match &e.row {
        Row::Decided(d) => add_decision(spec, seen, e.time, d, line, waiting, out),
        _ => {
            let notice = Notice::of(spec, &seen.lives, seen.ready, e);
            add_notice(notice, e.time, line, waiting, out)
        }
    }
}

/// Adds the lines of each row behind what waits, row by row.
fn add_rows<O: Sink>(
    spec: &Spec,
    seen: &mut Seen,
    tag: u64,
    log: &EntryLog,
    line: &mut Line,
    waiting: &mut Waiting,
    out: &mut O,
) -> Result<(), Failed>
    ensures ok { AddsEachRow O.Sink.own out.old out.new waiting.old waiting.new spec.now tag seen.old log.now result }
    ensures err { CutsEachRow O.Sink.own out.old out.new waiting.old spec.now tag seen.old log.now result }
    ensures knows { KnowsEachRow spec.now tag seen.old seen.new log.now result }
    ensures cause { HasCause (O.Faulty.faults out.old) (O.Faulty.faults out.new) result }
{
    adding_laws();
    row_laws();
    for e in log.entries() {
        match add_row(spec, seen, e, line, waiting, out) {
            Ok(()) => {}
            Err(Failed) => return Err(Failed),
        }
        seen.add(tag, e);
    }
    Ok(())
}

impl Teller for Reasons {
    ghost manner = { λ t. reasons };

    ghost awaits = { λ t r. IsUnopened t r };

    ghost knows = { λ t r. AreReasonsOf t r };

    ghost load = { λ t. 0 };

    fn open<O: Sink>(
        &mut self,
        revision: &Revision,
        log: &EntryLog,
        _line: &mut Line,
        _waiting: &mut Waiting,
        _out: &mut O,
    ) -> Result<(), Failed> {
        lives_laws();
        self.seen.open(log);
        self.seen.ready = revision.count_ready();
        Ok(())
    }

    fn tell<O: Sink>(
        &mut self,
        e: &Event,
        revision: &Revision,
        log: &EntryLog,
        line: &mut Line,
        waiting: &mut Waiting,
        out: &mut O,
    ) -> Result<(), Failed> {
        lives_laws();
        part_laws();
        entry_laws();
        let tag = arrival_tag(&e.act);
        match add_rows(&self.spec, &mut self.seen, tag, log, line, waiting, out) {
            Ok(()) => {}
            Err(Failed) => return Err(Failed),
        }
        self.seen.ready = revision.count_ready();
        Ok(())
    }

    fn end<O: Sink>(
        &mut self,
        _version: u64,
        _events: u64,
        _line: &mut Line,
        _waiting: &mut Waiting,
        _out: &mut O,
    ) -> Result<(), Failed> {
        Ok(())
    }
}

/// Asks for the reasons.
#[derive(Clone, Copy)]
pub struct ReasonsForm;

impl Form<Reasons> for ReasonsForm {
    ghost writes = { λ f. reasons };

    fn make(&self, alloc: Global, spec: &Spec, _start: u64) -> Result<Reasons, Memory> {
        let lives = Lives::new(alloc)?;
        let spec = spec.copy(alloc)?;
        Ok(Reasons {
            spec,
            seen: Seen {
                lives,
                phase: None,
                since: 0,
                ready: 0,
            },
        })
    }
}
