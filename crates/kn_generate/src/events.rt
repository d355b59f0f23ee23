//! The events of a generated journal.
ghost use Rattle.std.specs.Prelude.{◌≡◌, ◌+◌, ◌*◌, ◌^◌, ◌<◌, ◌≤◌, IfOk};
ghost use Rattle.kn_event.specs.EventLine.{IsInJournalRange};
ghost use Rattle.kn_generate.specs.Generated.{act_by, generated_event, generated_spec, is_arrival};

use kn_event::{Act, Event, Memory, Slots, Spec};
use rand_core::SeedableRng;
use rand_core::utils::NextWord;
use rand_pcg::Pcg32;
use std::alloc::Global;
use std::marker::Model;

/// So many pods are readied by the first events.
const PODS: u64 = 5;

/// The revision of every generated journal: five pods of limit 4, a breaker of depth 100 and maximum 20, a timeout of two
/// seconds, and seed 0 for its own choices.
pub fn generated_spec(alloc: Global) -> Result<Spec, Memory>
    ensures { IfOk result (λ spec. spec ≡ generated_spec) }
{
    Spec::fixed(
        alloc,
        4,
        PODS,
        2,
        Slots {
            depth: 100,
            max: 20,
            seed: 0,
        },
    )
}

/// Whether an event of this word is an arrival.
fn is_arrival(word: u64) -> bool
    ensures { result ≡ is_arrival word }
{
    word / 4 % 8 < 5
}

/// The act of event `i`, behind so many arrivals, by its word.
fn act_by(i: u64, arrivals: u64, word: u64) -> Act
    ensures act { result ≡ act_by i arrivals word }
    ensures range { IsInJournalRange result }
{
    let rest = word / 32;
    match word / 4 % 8 {
        0..=4 => Act::Arrive(i),
        5 | 6 => Act::Finish(arrivals.saturating_sub(1).saturating_sub(rest % 32), true),
        _ => Act::Limit(rest % PODS, 1 + rest / 8 % 4),
    }
}

/// The events of the journal that a seed generates, one after the other.
///
/// Contracts see the seed, how many events were made, and the time of the last one.
#[derive(Drop)]
pub struct Events {
    seed: u64,
    made: u64,
    time: u64,
    arrivals: u64,
    generator: Pcg32,
}

impl Model for Events {
    ghost use Rattle.kn_generate.specs.Making.{IsBehind, Made};

    ghost Value = { Made };

    ghost view = { λ e. record { seed = e.seed; made = e.made; time = e.time } };

    ghost invariant = { λ e. IsBehind e.seed e.made e.time e.arrivals e.generator };
}

impl Events {
    /// No event yet.
    #[tactic(auto, unfolding(kn_trace::specs::Choice::generator_at, crate::specs::Generated::words_before))]
    pub fn new(seed: u64) -> Events
        ensures seed { result.seed ≡ seed }
        ensures made { result.made ≡ 0 }
        ensures time { result.time ≡ 0 }
    {
        Events {
            seed,
            made: 0,
            time: 0,
            arrivals: 0,
            generator: Pcg32::seed_from_u64(seed),
        }
    }

    /// The next event.
    pub fn next(&mut self) -> Event
        requires { self.old.made < 2 ^ 32 }
        ensures event { result ≡ generated_event self.old.seed self.old.made }
        ensures seed { self.new.seed ≡ self.old.seed }
        ensures made { self.new.made ≡ self.old.made + 1 }
        ensures time { self.new.time ≡ result.time }
        ensures order { self.old.time ≤ result.time }
        ensures soon { result.time ≤ 3 * self.new.made }
        ensures range { IsInJournalRange result.act }
    {
        let i = self.made;
        self.made += 1;
        if i < PODS {
            return Event {
                time: self.time,
                act: Act::Ready(i),
            };
        }
        let word = u64::from(self.generator.next_word());
        let act = act_by(i, self.arrivals, word);
        self.time += word % 4;
        self.arrivals += u64::from(is_arrival(word));
        Event {
            time: self.time,
            act,
        }
    }
}
