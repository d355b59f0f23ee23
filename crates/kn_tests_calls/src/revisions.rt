//! A revision, whose journal's events are taken. Without acts it comes to the rows, a line `told`, what each event is
//! told, where each request stands and how many events and live requests there are, and the pods that start; with
//! `first` to the rows alone, as an event begins with them.
//!
//! With `many` each act is `COUNT TIME WORD NUMBER STEP`, so many events at a time, whose numbers rise by a step, and
//! maybe further events in turn, each of a word, a number and a step; it comes to what the last one is told, and a
//! digest of all rows and of what each is told. Or an act is `stand REQUEST`, or `live`.
ghost use Rattle.std.specs.Prelude.{◌≡◌, ◌≤◌, []};
ghost use Rattle.kn_journal.specs.Journal.{time_most};

use crate::history::Tale;
use crate::journals::Trial;
use crate::subject::{Subject, act_all};
use crate::words::{add, add_number, add_numbers, number, word};
use kn_core::Revision;
use kn_event::{EntryLog, Spec, Stand};

/// The word for where a request stands, and the pod.
fn stand_words(stand: Stand) -> (&'static str, Option<u64>) {
    match stand {
        Stand::Unknown => ("unknown", None),
        Stand::Held => ("held", None),
        Stand::Queued(pod) => ("queued", Some(pod)),
        Stand::Running(pod) => ("running", Some(pod)),
        Stand::Ended => ("ended", None),
    }
}

fn add_stand(revision: &Revision, request: u64, out: &mut String) {
    let (word, pod) = stand_words(revision.stand(request));
    add(out, word);
    add_numbers(out, &[pod]);
    if revision.proxied(request) {
        add(out, " proxied");
    }
}

/// Where each request stands, and the number after the last one.
fn add_stands(revision: &Revision, out: &mut String) {
    for request in 0..=revision.arrivals() {
        add_number(out, "", request);
        add(out, " ");
        add_stand(revision, request, out);
        add(out, "\n");
    }
}

/// The pods that start. There are at most 500.
fn add_starting(revision: &Revision, out: &mut String) {
    let mut from = 0;
    for _ in 0..500 {
        let Some(pod) = revision.next_starting(from) else {
            break;
        };
        add_number(out, " ", pod);
        from = pod + 1;
    }
}

/// What the calls that read a revision answer at the end.
fn add_end(revision: &Revision, out: &mut String) {
    add_stands(revision, out);
    add_number(out, "", revision.events());
    add_number(out, " events until ", revision.now());
    add_number(out, ", ", revision.live());
    add(out, " live, starting:");
    add_starting(revision, out);
    add(out, "\n");
}

/// A revision to which many events come.
#[derive(Drop)]
struct Many<'a> {
    tale: &'a mut Tale,
    revision: &'a mut Revision,
    log: &'a mut EntryLog,
}

impl Subject for Many<'_> {
    fn act(&mut self, line: &str, out: &mut String) {
        match word(line, 0) {
            "stand" => add_stand(self.revision, number(line, 1), out),
            "live" => add_number(out, "", self.revision.live()),
            _ => self.tale.repeat(self.revision, self.log, line, out),
        }
    }
}

fn run(trial: &mut Trial<'_>, revision: &mut Revision, log: &mut EntryLog) {
    let subject = word(trial.acts, 0);
    let mut tale = Tale::new(trial.alloc, subject == "first");
    tale.add_rows(log.entries());
    tale.take_all(trial.reading, revision, log);
    let tale = &mut tale;
    match subject {
        "many" => act_all(
            &mut Many {
                tale,
                revision,
                log,
            },
            trial.acts,
            trial.out,
        ),
        "first" => tale.add_to(trial.out),
        _ => {
            tale.add_to(trial.out);
            add_end(revision, trial.out);
        }
    }
}

fn open_with(trial: &mut Trial<'_>, spec: &Spec, start: u64, log: &mut EntryLog)
    requires start { start ≤ time_most }
    requires empty { log.old ≡ [] }
{
    let Ok(spec) = spec.copy(trial.alloc) else {
        return;
    };
    if let Ok(mut revision) = Revision::new(trial.alloc, spec, start, log) {
        run(trial, &mut revision, log);
    }
}

pub fn open(trial: &mut Trial<'_>, spec: &Spec, start: u64)
    requires start { start ≤ time_most }
{
    if let Ok(mut log) = EntryLog::new(trial.alloc) {
        open_with(trial, spec, start, &mut log);
    }
}
