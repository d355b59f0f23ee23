//! Calls that look back on nothing, by a setup: `counts READY STABLE PANIC` with averages as two numbers each, `excess
//! READY TOTAL BURST AVERAGE`, where total and capacity are thousandths and a capacity may be `unlimited`, `mode WANT
//! EXCESS PHASE`, and `bounds COUNT` with `reached` behind it where the initial scale was.
ghost use Rattle.kn_event.specs.Ranges.{IsBurst};
ghost use Rattle.kn_scaling.specs.Average.{IsAverage};

use crate::subject::Subject;
use crate::words::{add, add_number, add_numbers, either, number, word};
use kn_burst::{excess, mode};
use kn_event::{Burst, Frac, Milli, Mode, Phase, Spec};
use kn_formula::counts;
use kn_zero::bounds;
use std::fmt::Write;

/// The average at a place; 0 where there is none.
fn average(line: &str, place: usize) -> Frac
    ensures { IsAverage result }
{
    let den = number(line, place.saturating_add(1)).clamp(1, 3_600_000);
    let num = number(line, place).min(1_000_000 * den);
    Frac {
        num: num as u128,
        den: den as u128,
    }
}

/// A target burst capacity in thousandths, or none.
fn burst(word: &str) -> Burst
    ensures { IsBurst result }
{
    if word == "unlimited" {
        Burst::Unlimited
    } else {
        Burst::Capacity(Milli(word.parse().unwrap_or(0).min(1_000_000_000)))
    }
}

pub fn phase_of(word: &str) -> Phase {
    match word {
        "activating" => Phase::Activating,
        "active" => Phase::Active,
        _ => Phase::Inactive,
    }
}

pub fn mode_word(mode: Mode) -> &'static str {
    match mode {
        Mode::Proxy => "proxy",
        Mode::Serve => "serve",
    }
}

fn add_counts(spec: &Spec, line: &str, out: &mut String) {
    let counts = counts(
        spec,
        number(line, 1).min(500),
        average(line, 2),
        average(line, 4),
    );
    add(out, either(counts.over, "over", "calm"));
    add_numbers(
        out,
        &[
            Some(counts.dspc),
            Some(counts.dppc),
            Some(counts.stable_count),
            Some(counts.panic_count),
        ],
    );
}

fn add_excess(line: &str, out: &mut String) {
    let ready = number(line, 1).min(500);
    let total = Milli(number(line, 2).min(1_000_000_000));
    let excess = excess(ready, total, burst(word(line, 3)), average(line, 4));
    let _ = write!(out, "{excess}");
}

/// The settings that calls go by.
#[derive(Clone, Copy)]
pub struct Parts<'a>(pub &'a Spec);

impl Subject for Parts<'_> {
    fn act(&mut self, line: &str, out: &mut String) {
        match word(line, 0) {
            "counts" => add_counts(self.0, line, out),
            "excess" => add_excess(line, out),
            "mode" => {
                let excess = word(line, 2).parse().unwrap_or(0);
                let mode = mode(number(line, 1), excess, phase_of(word(line, 3)));
                add(out, mode_word(mode));
            }
            _ => {
                let reached = word(line, 2) == "reached";
                add_number(out, "", bounds(self.0, reached, number(line, 1)));
            }
        }
    }
}
