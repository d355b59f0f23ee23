//! The forms of `kact_show`.
ghost use Rattle.std.specs.Prelude.{◌≡◌, ◌⊎◌, ◌↔◌, ◌≤◌, ℕ, None, Some, map, string_bytes};
ghost use Rattle.kn_event.specs.Numbers.{number_of};
ghost use Rattle.kn_io.specs.Causes.{Rose};
ghost use Rattle.kn_follow.specs.Calls.{FailsSource};
ghost use Rattle.kn_follow.specs.Endings.{IsRefusal, IsReplayed, LeavesBehind};
ghost use Rattle.kn_show.specs.Commands.{CutsAsked, LeavesAsked, ShowsAsked, command_of, series_of, word_of};
ghost use Rattle.kn_show.specs.Texts.{TellsStatus};

use crate::texts::tell;
use kn_event::read_number;
use kn_follow::follow_journal;
use kn_io::{Sink, Source};
use kn_journal::Status;
use kn_show_reasons::{Reasons, ReasonsForm};
use kn_show_requests::{Requests, RequestsForm};
use kn_show_series::{Series, SeriesForm};
use kn_show_settings::show_settings;
use kn_show_summary::{Summary, SummaryForm};
use std::alloc::Global;

/// What `kact_show` is asked for.
enum Command {
    /// Each decision and each refusal in words.
    Reasons,
    /// A line of CSV for each request.
    Requests,
    /// Counts, waiting times, what the pods cost.
    Summary,
    /// A line of CSV for each step of so many milliseconds.
    Series(u64),
    /// The settings in force, and where each comes from.
    Settings,
}

/// The step of `series`.
fn series_of(step: &[u8]) -> Option<Command>
    ensures value { result ≡ series_of (number_of step.now) }
    ensures range { (n : ℕ) → result ≡ Some (Command.Series n) → (1 ≤ n) × (n ≤ 86400000) }
{
    let step = read_number(step)?;
    if 1 <= step && step <= 86_400_000 {
        Some(Command::Series(step))
    } else {
        None
    }
}

/// What one word asks for.
fn word_of(word: &str) -> Option<Command>
    ensures value { result ≡ word_of word.now }
    ensures range { (n : ℕ) → result ≡ Some (Command.Series n) → (1 ≤ n) × (n ≤ 86400000) }
{
    if word == "reasons" {
        Some(Command::Reasons)
    } else if word == "requests" {
        Some(Command::Requests)
    } else if word == "summary" {
        Some(Command::Summary)
    } else if word == "settings" {
        Some(Command::Settings)
    } else {
        None
    }
}

/// What the words ask for.
#[tactic(auto, unfolding(crate::specs::Commands::command_of))]
fn command_of(words: &[String]) -> Option<Command>
    ensures value { result ≡ command_of (map string_bytes words.now) }
    ensures range { (n : ℕ) → result ≡ Some (Command.Series n) → (1 ≤ n) × (n ≤ 86400000) }
{
    match words {
        [word] => word_of(word.as_str()),
        [word, step] => if word.as_str() == "series" {
            series_of(step.as_bytes())
        } else {
            None
        },
        _ => None,
    }
}

/// Reads a journal and writes what the words after the program's name ask for, and tells of a status other than `Ok` on `err`.
///
/// `reasons`, `requests` and `series` write as the journal is read, and their closing lines where every line is good; `summary` writes
/// then alone. At the first line that is refused all of the events before it was written. Where the input failed, the lines that ended
/// before that are good, and all of their events was written. Where writing failed, some first bytes were. All memory is taken
/// before the first of them. `settings` reads a journal up to its setup, and writes what that settles.
pub fn show_run<S: Source, O: Sink, E: Sink>(
    alloc: Global,
    words: &[String],
    input: &mut S,
    out: &mut O,
    err: &mut E,
) -> Status
    ensures usage { (result ≡ Status.Usage) ↔ (command_of (map string_bytes words.now) ≡ None) }
    ensures unread { result ≡ Status.Usage → input.new ≡ input.old }
    ensures unwritten { (result ≡ Status.Usage) ⊎ (result ≡ Status.Memory) → out.new ≡ out.old }
    ensures only { (result ≡ Status.Usage) ⊎ IsReplayed result }

    // The text of the run that the bytes are, or of their setup, and the first refused line with its cause.
    ensures shows { ShowsAsked words.now S.Source.own O.Sink.own input.old input.new out.old out.new result }
    ensures ended { LeavesAsked words.now S.Source.own input.old input.new result }
    // The lines taken are those up to the refused one, and behind it at most 65,536 bytes were read ahead.
    ensures rest { IsRefusal result → LeavesBehind result (S.left input.old) (S.left input.new) }
    // Where writing failed, all of the events that were taken was written, but the last event's and 65,536 bytes at most.
    ensures cut { CutsAsked words.now S.Source.own O.Sink.own input.old input.new out.old out.new result }

    // A fault comes only where its count rose, or 2^56 bytes were read.
    ensures read_fault { result ≡ Status.ReadFault → FailsSource S.Source.own S.Faulty input.old input.new }
    ensures write_fault { result ≡ Status.WriteFault → Rose (O.Faulty.faults out.old) (O.Faulty.faults out.new) }
    ensures told { TellsStatus E.Sink.own E.Faulty err.old err.new result }
{
    match command_of(words) {
        None => tell(Status::Usage, err),
        Some(Command::Reasons) => tell(
            follow_journal::<Reasons, ReasonsForm, S, O>(alloc, &ReasonsForm, input, out),
            err,
        ),
        Some(Command::Requests) => tell(
            follow_journal::<Requests, RequestsForm, S, O>(alloc, &RequestsForm, input, out),
            err,
        ),
        Some(Command::Summary) => tell(
            follow_journal::<Summary, SummaryForm, S, O>(alloc, &SummaryForm, input, out),
            err,
        ),
        Some(Command::Series(step)) => tell(
            follow_journal::<Series, SeriesForm, S, O>(alloc, &SeriesForm { step }, input, out),
            err,
        ),
        Some(Command::Settings) => tell(show_settings(alloc, input, out), err),
    }
}
