//! A block with a setup, whose acts before the journal are done with what the setup gives: `parts`, `zero`,
//! `decisions`, and `back`, which writes the journal's opening without its events; else with the revision.
ghost use Rattle.std.specs.Prelude.{◌≤◌};
ghost use Rattle.kn_journal.specs.Journal.{IsSetup, time_most};

use crate::parts::Parts;
use crate::subject::act_all;
use crate::words::{add, word};
use crate::{decisions, revisions};
use kn_io::{MemSink, MemSource};
use kn_journal::{Events, Journal, JournalReader, Setup, write_journal};
use std::alloc::Global;

/// A reader of a journal, and where its bytes come from.
pub struct Reading {
    pub reader: JournalReader,
    pub source: MemSource,
}

impl Drop for Reading {
    fn drop(self) {
        let Reading {
            reader: _,
            source: _,
        } = self;
    }
}

/// A block under way.
#[derive(Drop)]
pub struct Trial<'a> {
    pub alloc: Global,
    pub acts: &'a str,
    pub reading: &'a mut Reading,
    pub out: &'a mut String,
}

/// The bytes of a journal, of which this stands behind the first words.
fn bytes_of(alloc: Global, rest: &str) -> Option<Vec<u8>> {
    let mut bytes = Vec::from_slice(alloc, b"kact journal ").ok()?;
    bytes.extend_from_slice(rest.as_bytes()).ok()?;
    Some(bytes)
}

fn reading_of(alloc: Global, bytes: Vec<u8>) -> Option<Reading> {
    let source = MemSource::in_pieces(bytes, 7, Vec::new(alloc));
    match JournalReader::new(alloc) {
        Ok(reader) => Some(Reading { reader, source }),
        Err(_) => None,
    }
}

/// Writes the opening of a journal to the sink.
fn write(alloc: Global, version: u64, setup: &Setup, start: u64, sink: &mut MemSink)
    requires setup { IsSetup setup.now }
    requires start { start ≤ time_most }
    requires least { 1 ≤ version }
    requires most { version ≤ 2 }
{
    let Ok(spec) = setup.spec.copy(alloc) else {
        return;
    };
    if let Ok(text) = setup.text.copy(alloc) {
        let journal = Journal {
            version,
            setup: Setup { spec, text },
            start,
            events: Events::new(Vec::new(alloc)),
        };
        let _ = write_journal(&journal, sink);
        drop(journal);
    }
}

fn back(alloc: Global, version: u64, setup: &Setup, start: u64, out: &mut String)
    requires setup { IsSetup setup.now }
    requires start { start ≤ time_most }
    requires least { 1 ≤ version }
    requires most { version ≤ 2 }
{
    if let Ok(mut sink) = MemSink::new(alloc, 4_096, Vec::new(alloc)) {
        write(alloc, version, setup, start, &mut sink);
        add(out, str::from_utf8(sink.held()).unwrap_or("?"));
    }
}

fn answer_by(trial: &mut Trial<'_>, version: u64, setup: &Setup, start: u64)
    requires setup { IsSetup setup.now }
    requires start { start ≤ time_most }
{
    let (alloc, acts) = (trial.alloc, trial.acts);
    match word(acts, 0) {
        "parts" => act_all(&mut Parts(&setup.spec), acts, trial.out),
        "zero" => decisions::scale_to_zero(&setup.spec, acts, trial.out),
        "decisions" => decisions::decide(alloc, &setup.spec, acts, trial.out),
        "back" => back(alloc, version.clamp(1, 2), setup, start, trial.out),
        _ => revisions::open(trial, &setup.spec, start),
    }
}

/// Reads the start behind a setup.
fn answer_at(trial: &mut Trial<'_>, setup: &Setup)
    requires setup { IsSetup setup.now }
{
    let reading = &mut *trial.reading;
    let version = reading.reader.version();
    match reading.reader.start(&mut reading.source) {
        Ok(start) => answer_by(trial, version, setup, start),
        Err(_) => add(trial.out, "refused\n"),
    }
}

fn answer_in(trial: &mut Trial<'_>) {
    let reading = &mut *trial.reading;
    match reading.reader.setup(trial.alloc, &mut reading.source) {
        Ok(setup) => answer_at(trial, &setup),
        Err(_) => add(trial.out, "refused\n"),
    }
}

fn read(alloc: Global, acts: &str, journal: &str, out: &mut String) {
    let Some(bytes) = bytes_of(alloc, journal) else {
        return;
    };
    if let Some(mut reading) = reading_of(alloc, bytes) {
        answer_in(&mut Trial {
            alloc,
            acts,
            reading: &mut reading,
            out,
        });
    }
}

/// Adds what a journal comes to, of which its rows are also asked for as an event begins with them.
fn replay(alloc: Global, journal: &str, out: &mut String) {
    let mut first = String::new(alloc);
    read(alloc, "first", journal, &mut first);
    read(alloc, "", journal, out);
    if !out.as_str().starts_with(first.as_str()) {
        add(out, "other rows come first\n");
    }
}

pub fn answer(alloc: Global, acts: &str, journal: &str, out: &mut String) {
    if acts.is_empty() || acts.starts_with('#') {
        replay(alloc, journal, out);
    } else {
        read(alloc, acts, journal, out);
    }
}
