//! Decisions of the revision that a setup gives: `zero SINCE`, the scale-to-zero rule, with `ready TIME`, `take TIME
//! READY COUNT MODE` and `standing`; `decisions`, the whole of them, with `close COUNT LOAD ARRIVED` and `skip COUNT`
//! of seconds, `ready TIME READY`, `tick` and `poke` with so many milliseconds after the open second's begin and so
//! many Ready pods, `phase`, `mode` and `want`.
ghost use Rattle.std.specs.Prelude.{◌≡◌, ◌≤◌};
ghost use Rattle.kn_event.specs.declared.revision.Kind.TheVariants as kind;

use crate::parts::mode_word;
use crate::subject::{Subject, act_all};
use crate::words::{add, add_entry, add_flag, add_number, either, number, word};
use kn_decider::Decider;
use kn_event::{Decision, Entry, Kind, Mode, Phase, Row, Spec};
use kn_stats::{Closed, Run};
use kn_zero::Zero;
use std::alloc::Global;

fn phase_word(phase: Phase) -> &'static str {
    match phase {
        Phase::Activating => "activating",
        Phase::Active => "active",
        Phase::Inactive => "inactive",
    }
}

fn take_zero(zero: &mut Zero, line: &str, out: &mut String) {
    let time = number(line, 1);
    let answer = zero.take(time, number(line, 2), number(line, 3));
    let mode = if word(line, 4) == "proxy" {
        Mode::Proxy
    } else {
        Mode::Serve
    };
    zero.mode_is(time, mode);
    add_number(out, "", answer.want);
    add(out, either(answer.applied, " applied ", " kept "));
    add(out, phase_word(answer.phase));
}

fn add_standing(zero: &Zero, out: &mut String) {
    let standing = zero.standing();
    add(out, phase_word(standing.phase));
    add_number(out, " since ", standing.phase_since);
    add(out, ", ");
    add(out, mode_word(standing.mode));
    add_number(out, " since ", standing.mode_since);
    add_number(out, ", wanted ", standing.want);
}

impl Subject for Zero {
    fn act(&mut self, line: &str, out: &mut String) {
        match word(line, 0) {
            "ready" => add_flag(out, "", self.pod_is_ready(number(line, 1))),
            "take" => take_zero(self, line, out),
            _ => add_standing(self, out),
        }
    }
}

/// A Decider, and the second that is open.
pub struct Decisions {
    decider: Decider,
    second: u64,
    ghost closed: { decider.stable.end ≤ second },
    ghost decided: { decider.delay.last ≤ second },
}

impl Drop for Decisions {
    fn drop(self) {
        let Decisions {
            decider: _,
            second: _,
        } = self;
    }
}

impl Decisions {
    /// So many seconds pass that are no samples.
    fn skip(&mut self, count: u64, out: &mut String) {
        self.second = self.second.saturating_add(count);
        add_number(out, "second ", self.second);
    }

    /// So many seconds close as samples with this load, and so many arrivals in the first.
    fn close(&mut self, count: u64, load: u64, arrived: u64, out: &mut String) {
        let fits = self.second < 1 << 41 && 0 < count && count < 1 << 41;
        if fits && load <= 20_000_000 && arrived <= 1_000_000 {
            let run = Run {
                second: self.second,
                count,
                load,
                sampled: true,
                arrived,
            };
            self.second += count;
            self.decider.closed(&Closed {
                first: Some(run),
                rest: None,
            });
            add_number(out, "second ", self.second);
        }
    }

    /// A tick, or a request that wakes it.
    fn decide(&mut self, pokes: bool, after: u64, ready: u64, out: &mut String) {
        if self.second >= 1 << 41 {
            return;
        }
        let time = 1000 * self.second + after.min(999);
        let decision = if pokes {
            Some(self.decider.poke(time, ready.min(500)))
        } else {
            self.decider.tick(time, ready.min(500))
        };
        match decision {
            Some(decision) => add_entry(
                out,
                &Entry {
                    time,
                    row: Row::Decided(decision),
                },
            ),
            None => add(out, "none"),
        }
    }
}

impl Subject for Decisions {
    fn act(&mut self, line: &str, out: &mut String) {
        let (first, second) = (number(line, 1), number(line, 2));
        match word(line, 0) {
            "close" => self.close(first, second, number(line, 3), out),
            "skip" => self.skip(first, out),
            "tick" => self.decide(false, first, second, out),
            "poke" => self.decide(true, first, second, out),
            "ready" => add_flag(out, "", self.decider.pod_ready(first, second)),
            "phase" => add(out, phase_word(self.decider.phase())),
            "mode" => add(out, mode_word(self.decider.mode())),
            _ => add_number(out, "", self.decider.want()),
        }
    }
}

/// The rule of a scaled revision, from a time on.
pub fn scale_to_zero(spec: &Spec, acts: &str, out: &mut String) {
    if let Kind::Kpa = spec.kind {
        let mut zero = Zero::new(spec, number(acts, 1));
        act_all(&mut zero, acts, out);
    }
}

fn decide_scaled(alloc: Global, spec: &Spec, acts: &str, out: &mut String)
    requires { spec.now.kind ≡ kind.Kpa }
{
    if let Ok(decider) = Decider::new(alloc, spec, 0) {
        let mut decisions = Decisions { decider, second: 0 };
        act_all(&mut decisions, acts, out);
    }
}

/// The decisions of a scaled revision.
pub fn decide(alloc: Global, spec: &Spec, acts: &str, out: &mut String) {
    if let Kind::Kpa = spec.kind {
        decide_scaled(alloc, spec, acts, out);
    }
}
