//! The text of all metrics.
ghost use Rattle.std.specs.Prelude.{◌≡◌, ◌+◌, ◌≤◌, ◌++◌, length};
ghost use Rattle.kn_page.specs.Exposition.{decision_lines, journal_lines, kind_line, last_lines, live_pod_lines, metrics_text, optional_lines, outer_lines, pod_lines, request_lines, row_lines, state_line};

use crate::lines::{put_average, put_family, put_labelled, put_single};
use crate::metric::Metric;
use crate::sheet::Sheet;
use kn_event::Decision;
use kn_figures::{Figures, Kind};

/// What is shown beside the figures of the revision.
#[derive(Clone, Copy)]
pub struct Outer {
    /// Connections that wait for a slot.
    pub waiting: u64,
    /// Slots that have a connection.
    pub at_work: u64,
}

/// The rows of one kind.
fn put_kind(sheet: &mut Sheet, figures: &Figures, kind: Kind)
    requires { length sheet.old ≤ 7500 }
    ensures value { sheet.new ≡ sheet.old ++ kind_line figures.now kind }
    ensures short { length sheet.new ≤ length sheet.old + 99 }
{
    let count = figures.tally.count(kind);
    put_labelled(sheet, Metric::Rows, b"kind", kind.name(), count);
}

/// The rows, a sample for each kind.
#[tactic(auto, using(std::proofs::Common::append_assoc), unfolding(crate::specs::Exposition::row_lines))]
fn put_rows(sheet: &mut Sheet, figures: &Figures)
    requires { length sheet.old ≡ 0 }
    ensures value { sheet.new ≡ sheet.old ++ row_lines figures.now }
    ensures short { length sheet.new ≤ 2565 }
{
    put_family(sheet, Metric::Rows);
    for kind in Kind::all() {
        put_kind(sheet, figures, kind);
    }
}

/// The journal's rows.
#[tactic(auto, using(std::proofs::Common::append_assoc), unfolding(crate::specs::Exposition::journal_lines))]
fn put_journal(sheet: &mut Sheet, figures: &Figures)
    requires { length sheet.old ≤ 2565 }
    ensures value { sheet.new ≡ sheet.old ++ journal_lines figures.now }
    ensures short { length sheet.new ≤ length sheet.old + 526 }
{
    put_single(sheet, Metric::Recorded, figures.recorded);
    put_single(sheet, Metric::Unprinted, figures.unprinted);
}

/// What is in a state, of which a family has several.
fn put_state(sheet: &mut Sheet, metric: Metric, state: &[u8], n: u64)
    requires { length sheet.old + length state.now ≤ 7500 }
    ensures value { sheet.new ≡ sheet.old ++ state_line metric state.now n }
    ensures short { length sheet.new ≤ length sheet.old + length state.now + 84 }
{
    put_labelled(sheet, metric, b"state", state, n);
}

/// The live pods by their states.
#[tactic(auto, using(std::proofs::Common::append_assoc), unfolding(crate::specs::Exposition::live_pod_lines))]
fn put_live_pods(sheet: &mut Sheet, figures: &Figures)
    requires { length sheet.old ≤ 4000 }
    ensures value { sheet.new ≡ sheet.old ++ live_pod_lines figures.now }
    ensures short { length sheet.new ≤ length sheet.old + 462 }
{
    put_family(sheet, Metric::Pods);
    put_state(sheet, Metric::Pods, b"ready", figures.ready);
    put_state(sheet, Metric::Pods, b"starting", figures.starting);
    put_state(sheet, Metric::Pods, b"draining", figures.draining);
}

/// The pods that are wanted, where the revision scales.
#[tactic(auto, using(crate::proofs::Pieces::nothing))]
fn put_optional(sheet: &mut Sheet, metric: Metric, n: Option<u64>)
    requires { length sheet.old ≤ 4500 }
    ensures value { sheet.new ≡ sheet.old ++ optional_lines metric n }
    ensures short { length sheet.new ≤ length sheet.old + 263 }
{
    match n {
        None => {}
        Some(n) => put_single(sheet, metric, n),
    }
}

/// The requests by their states.
#[tactic(auto, using(std::proofs::Common::append_assoc), unfolding(crate::specs::Exposition::request_lines))]
fn put_requests(sheet: &mut Sheet, figures: &Figures)
    requires { length sheet.old ≤ 4500 }
    ensures value { sheet.new ≡ sheet.old ++ request_lines figures.now }
    ensures short { length sheet.new ≤ length sheet.old + 459 }
{
    put_family(sheet, Metric::Requests);
    put_state(sheet, Metric::Requests, b"held", figures.held);
    put_state(sheet, Metric::Requests, b"queued", figures.queued);
    put_state(sheet, Metric::Requests, b"running", figures.running);
}

/// What is beside the revision.
#[tactic(auto, using(std::proofs::Common::append_assoc), unfolding(crate::specs::Exposition::outer_lines))]
fn put_outer(sheet: &mut Sheet, outer: &Outer)
    requires { length sheet.old ≤ 5000 }
    ensures value { sheet.new ≡ sheet.old ++ outer_lines outer.now }
    ensures short { length sheet.new ≤ length sheet.old + 526 }
{
    put_single(sheet, Metric::Waiting, outer.waiting);
    put_single(sheet, Metric::AtWork, outer.at_work);
}

/// The last decision, where there was one.
#[tactic(auto, using(std::proofs::Common::append_assoc, crate::proofs::Pieces::nothing), unfolding(crate::specs::Exposition::decision_lines))]
fn put_decision(sheet: &mut Sheet, decision: &Option<Decision>)
    requires { length sheet.old ≤ 5500 }
    ensures value { sheet.new ≡ sheet.old ++ decision_lines decision.now }
    ensures short { length sheet.new ≤ length sheet.old + 797 }
{
    match decision {
        None => {}
        Some(decision) => {
            put_average(sheet, Metric::Stable, &decision.stable);
            put_average(sheet, Metric::Panic, &decision.panic);
            put_single(sheet, Metric::Want, decision.want);
        }
    }
}

/// The pods, and how many are wanted.
#[tactic(auto, using(std::proofs::Common::append_assoc), unfolding(crate::specs::Exposition::pod_lines))]
fn put_pods(sheet: &mut Sheet, figures: &Figures)
    requires { length sheet.old ≤ 4000 }
    ensures value { sheet.new ≡ sheet.old ++ pod_lines figures.now }
    ensures short { length sheet.new ≤ length sheet.old + 725 }
{
    put_live_pods(sheet, figures);
    put_optional(sheet, Metric::Wanted, figures.wanted);
}

/// What follows the pods.
#[tactic(auto, using(std::proofs::Common::append_assoc), unfolding(crate::specs::Exposition::last_lines))]
fn put_last(sheet: &mut Sheet, figures: &Figures, decision: &Option<Decision>, outer: &Outer)
    requires { length sheet.old ≤ 4500 }
    ensures value { sheet.new ≡ sheet.old ++ last_lines figures.now decision.now outer.now }
    ensures short { length sheet.new ≤ length sheet.old + 1782 }
{
    put_requests(sheet, figures);
    put_outer(sheet, outer);
    put_decision(sheet, decision);
}

/// Sets the sheet to all metrics, at most 5,600 bytes, whatever it held before.
#[tactic(auto, using(std::proofs::Common::append_assoc), unfolding(crate::specs::Exposition::metrics_text))]
pub fn write_metrics(
    sheet: &mut Sheet,
    figures: &Figures,
    decision: &Option<Decision>,
    outer: &Outer,
)
    ensures value { sheet.new ≡ metrics_text figures.now decision.now outer.now }
    ensures short { length sheet.new ≤ 5600 }
{
    sheet.clear();
    put_rows(sheet, figures);
    put_journal(sheet, figures);
    put_pods(sheet, figures);
    put_last(sheet, figures, decision, outer);
}
