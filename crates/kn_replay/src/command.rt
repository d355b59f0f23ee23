//! The commands of `kact`: it replays a journal, or one of a bundle, generates one, writes the one of a workload's schedule, or replays several activators.
ghost use Rattle.std.specs.Prelude.{◌≡◌, ◌⊎◌, ◌↔◌, ◌+◌, ◌-◌, ◌≤◌, ℕ, None, Some, map, string_bytes, take};
ghost use Rattle.kn_event.specs.Numbers.{number_of};
ghost use Rattle.kn_io.specs.Causes.{Rose};
ghost use Rattle.kn_event.specs.declared.event.Event.{Event};
ghost use Rattle.kn_trace.specs.Events.{trace_of};
ghost use Rattle.kn_trace.specs.Laws.{IsInert, IsLawful, IsSettled};
ghost use Rattle.kn_laws.specs.Losses.{LosesNothing};
ghost use Rattle.kn_core.specs.Refused.{LeavesByAnswer};
ghost use Rattle.kn_journal.specs.Reading.{most_taken};
ghost use Rattle.kn_journal.specs.Status.{WritesNone};
ghost use Rattle.kn_replay.specs.Report.{OnJournalOf, trace_of_journal};
ghost use Rattle.kn_replay.specs.Bundled.{ReplaysBundle, TakesMemoryFirst};
ghost use Rattle.kn_replay.specs.Replaying.{EndsThere, IsRefusal, IsReplayed, LeavesBehind, LeavesCut, Replays, Tells};
ghost use Rattle.kn_replay.specs.Texts.{status_text};
ghost use Rattle.kn_replay.specs.Commands.{command_of, generate_of, replay_of};
ghost use Rattle.kn_replay.specs.Generating.{Generates};
ghost use Rattle.kn_replay.specs.Grouped.{ReplaysGroup};
ghost use Rattle.kn_replay.specs.Simulating.{Simulates};

use crate::bundle::replay_bundle;
use crate::generate::generate;
use crate::journal::replay_journal;
use crate::lawful::journal_laws;
use crate::simulate::simulate_input;
use crate::slices::replay_group;
use crate::texts::put_status;
use kn_event::{Line, read_number};
use kn_io::{Sink, Source, put_all};
use kn_journal::Status;
use std::alloc::Global;

/// What `kact` is asked for.
enum Command {
    /// A journal is replayed.
    Replay,
    /// The journal of this number, from 0, of a bundle is replayed.
    Bundle(u64),
    /// The journal of this seed and so many events is stepped through.
    Generate(u64, u64),
    /// A workload's schedule is written as a journal.
    Simulate,
    /// An input of several activators is replayed.
    Slices,
}

/// The seed and the count of `generate`.
fn generate_of(seed: &[u8], count: &[u8]) -> Option<Command>
    ensures value { result ≡ generate_of (number_of seed.now) (number_of count.now) }
    ensures range { (s n : ℕ) → result ≡ Some (Command.Generate s n) → n ≤ 1000000 }
{
    let seed = read_number(seed)?;
    let count = read_number(count)?;
    if 5 <= count && count <= 1_000_000 {
        Some(Command::Generate(seed, count))
    } else {
        None
    }
}

/// The journal of a bundle whose number this is.
fn replay_of(number: &[u8]) -> Option<Command>
    ensures value { result ≡ replay_of (number_of number.now) }
    ensures other { (s n : ℕ) → result ≡ Some (Command.Generate s n) → n ≤ 1000000 }
{
    match read_number(number) {
        Some(k) => if k <= 15 {
            Some(Command::Bundle(k))
        } else {
            None
        },
        None => None,
    }
}

/// What the words ask for.
#[tactic(auto, unfolding(crate::specs::Commands::command_of))]
fn command_of(words: &[String]) -> Option<Command>
    ensures value { result ≡ command_of (map string_bytes words.now) }
    ensures range { (s n : ℕ) → result ≡ Some (Command.Generate s n) → n ≤ 1000000 }
{
    match words {
        [word] => if word.as_str() == "replay" {
            Some(Command::Replay)
        } else if word.as_str() == "simulate" {
            Some(Command::Simulate)
        } else if word.as_str() == "slices" {
            Some(Command::Slices)
        } else {
            None
        },
        [word, number] => if word.as_str() == "replay" {
            replay_of(number.as_bytes())
        } else {
            None
        },
        [word, seed, count] => if word.as_str() == "generate" {
            generate_of(seed.as_bytes(), count.as_bytes())
        } else {
            None
        },
        _ => None,
    }
}

/// Tells of a status, and answers it.
pub fn tell<E: Sink>(status: Status, err: &mut E) -> Status
    ensures same { result ≡ status }
    ensures told { Tells (status_text result) (E.held err.old) (E.held err.new) (E.Faulty.faults err.old) (E.Faulty.faults err.new) }
{
    let mut line = Line::new();
    put_status(&status, &mut line);
    let _ = put_all(err, line.bytes());
    status
}

/// Runs the command that the words after the program's name give, and tells of a status other than `Ok` on `err`.
///
/// `replay` reads a journal and writes its report: a line for each entry, and a last line that counts them where every
/// line is good. At the first line that is refused the rows of all events before it were written. Where the input failed,
/// the lines that ended before that are good, and the rows of their events were written. Where writing failed, some first
/// bytes of the report were. All memory is taken before the first of them.
///
/// `replay K` reads a bundle, which is journals one after the other, each with its first line, and writes the report of journal K,
/// from 0 to 15. Every line is judged, up to the end of the input, and lines are counted through all journals. Where there is no
/// journal K, it is `NoEnd`. Memory is taken for each setup, so that it may be lacking behind the report.
///
/// `simulate` reads a workload to its end, and then writes the journal of its schedule, which reads as that journal. Nothing is
/// written of a workload that is refused, and some first bytes of the journal where writing failed.
///
/// `slices` reads what happens to several activators that share a revision's pods, and writes the rows of each, behind its number.
#[tactic(none)]
pub fn run<S: Source, O: Sink, E: Sink>(
    alloc: Global,
    words: &[String],
    input: &mut S,
    out: &mut O,
    err: &mut E,
) -> Status
    ensures usage { (result ≡ Status.Usage) ↔ (command_of (map string_bytes words.now) ≡ None) }
    ensures unread { result ≡ Status.Usage → input.new ≡ input.old }
    ensures unwritten { result ≡ Status.Usage → out.new ≡ out.old }

    // The report of the bytes, and the first refused line with its cause.
    ensures report { command_of (map string_bytes words.now) ≡ Some Command.Replay → Replays (S.left input.old) (S.left input.new) (S.given input.new - S.given input.old) (O.held out.old) (O.held out.new) result }
    ensures only { (result ≡ Status.Usage) ⊎ IsReplayed result }
    ensures ended { command_of (map string_bytes words.now) ≡ Some Command.Replay → result ≡ Status.Ok → EndsThere (S.left input.old) (S.left input.new) }
    // The lines taken are those up to the refused one, and behind it at most 65,536 bytes were read ahead.
    ensures rest { command_of (map string_bytes words.now) ≡ Some Command.Replay → IsRefusal result → LeavesBehind result (S.left input.old) (S.left input.new) }
    // Where writing failed, all rows of the events that were taken were written, but the last event's and 65,536 bytes at most.
    ensures cut { command_of (map string_bytes words.now) ≡ Some Command.Replay → result ≡ Status.WriteFault → LeavesCut (S.left input.old) (S.left input.new) (O.held out.old) (O.held out.new) }

    // The last line of the generated journal.
    ensures generates { (seed count : ℕ) → command_of (map string_bytes words.now) ≡ Some (Command.Generate seed count) → Generates seed count (O.held out.old) (O.held out.new) result }
    ensures untouched { (seed count : ℕ) → command_of (map string_bytes words.now) ≡ Some (Command.Generate seed count) → input.new ≡ input.old }
    ensures memory { TakesMemoryFirst (command_of (map string_bytes words.now)) → result ≡ Status.Memory → out.new ≡ out.old }

    // The report of journal k of a bundle, and the first refused line of all with its cause. Where memory was lacking, while a
    // setup was read or opened, it is that of the whole journals before it.
    ensures bundle { (k : ℕ) → command_of (map string_bytes words.now) ≡ Some (Command.Bundle k) → ReplaysBundle k (S.left input.old) (S.left input.new) (S.given input.new - S.given input.old) (O.held out.old) (O.held out.new) result }
    ensures read_out { (k : ℕ) → command_of (map string_bytes words.now) ≡ Some (Command.Bundle k) → result ≡ Status.Ok → EndsThere (S.left input.old) (S.left input.new) }

    // The journal of a good workload's schedule; the first cause of one that is refused, and then nothing is written.
    ensures simulates { command_of (map string_bytes words.now) ≡ Some Command.Simulate → Simulates (S.left input.old) (O.held out.old) (O.held out.new) result }
    ensures unsaid { command_of (map string_bytes words.now) ≡ Some Command.Simulate → WritesNone result → out.new ≡ out.old }

    // The rows of activators that share pods, and the first refused line with its cause.
    ensures slices { command_of (map string_bytes words.now) ≡ Some Command.Slices → ReplaysGroup (S.left input.old) (S.left input.new) (S.given input.new - S.given input.old) (O.held out.old) (O.held out.new) result }

    // A fault comes only where its count rose, or 2^56 bytes were read.
    ensures read_fault { result ≡ Status.ReadFault → Rose (S.Faulty.faults input.old) (S.Faulty.faults input.new) ⊎ (S.given input.old + most_taken ≤ S.given input.new) }
    ensures write_fault { result ≡ Status.WriteFault → Rose (O.Faulty.faults out.old) (O.Faulty.faults out.new) }

    // The laws of the trace whose rows are written: over all of it, after each event, and for any event that would follow.
    ensures lawful { OnJournalOf (S.left input.old) (λ j. IsLawful j.setup.spec (trace_of_journal j)) }
    ensures settled { OnJournalOf (S.left input.old) (λ j. (n : ℕ) → IsSettled j.setup.spec (trace_of j.setup.spec j.start (take n j.events))) }
    ensures no_loss { OnJournalOf (S.left input.old) (λ j. j.version ≡ 1 → LosesNothing (trace_of_journal j)) }
    ensures inert { OnJournalOf (S.left input.old) (λ j. (n : ℕ) (e : Event) → IsInert j.setup.spec (trace_of j.setup.spec j.start (take n j.events)) e) }
    // One that is told a refusal moves no counter but its own, and leaves pods and scale as they were.
    ensures beside { OnJournalOf (S.left input.old) (λ j. (n : ℕ) (e : Event) → LeavesByAnswer j.setup.spec (trace_of j.setup.spec j.start (take n j.events)) e) }

    ensures told { Tells (status_text result) (E.held err.old) (E.held err.new) (E.Faulty.faults err.old) (E.Faulty.faults err.new) }
{
    journal_laws();
    match command_of(words) {
        None => tell(Status::Usage, err),
        Some(Command::Replay) => tell(replay_journal(alloc, input, out), err),
        Some(Command::Bundle(k)) => tell(replay_bundle(alloc, k, input, out), err),
        Some(Command::Generate(seed, count)) => tell(generate(alloc, seed, count, out), err),
        Some(Command::Simulate) => tell(simulate_input(alloc, input, out), err),
        Some(Command::Slices) => tell(replay_group(alloc, input, out), err),
    }
}
