//! Sequences of calls of which each needs what those before it made: `seats`, where one runs at a pod of limit 1 and
//! ten are queued; `stats`, what one request takes of three seconds and of a pod, and what two take; and `table`, where
//! two wait and the first is assigned.
ghost use Rattle.std.specs.Prelude.{◌≡◌, []};
ghost use Rattle.kn_event.specs.declared.revision.Metric.TheVariants as metric;
ghost use Rattle.kn_stats.specs.Stands.{opened};

use crate::words::{add, add_flag, add_number, add_option};
use kn_event::Metric;
use kn_record::{Place, Request};
use kn_seats::Seats;
use kn_stats::{Change, Closed, PodArea, Stats};
use kn_table::Table;
use std::alloc::Global;

pub fn seats(alloc: Global, out: &mut String) {
    if let Ok(mut seats) = Seats::new(alloc, 2, 20) {
        queue_ten(&mut seats, out);
    }
}

fn queue_ten(seats: &mut Seats, out: &mut String)
    requires { seats.old ≡ record { pods = []; pod_room = 2; request_room = 20 } }
{
    seats.add(0, 1);
    add_flag(out, "seats: reserve ", seats.reserve_seat(0));
    add_flag(out, " ", seats.reserve_seat(0));
    add_flag(out, ", queue ", seats.queue_at(0, 5));
    add_option(out, ", promote ", seats.promote(0));
    let freed = seats.give_back(0);
    add_flag(out, ", next ", freed.next);
    add_flag(out, " draining ", freed.draining);
    add_option(out, ", promote ", seats.promote(0));
    if !seats.queue_at(0, 99) {
        return;
    }
    seats.unqueue(0, 99);
    for r in 6..16 {
        if !seats.queue_at(0, r) {
            return;
        }
    }
    add_flag(out, ", ten queued, the next ", seats.queue_at(0, 16));
    add(out, "\n");
}

fn add_closed(out: &mut String, closed: Closed) {
    for run in &[closed.first, closed.rest] {
        if let Some(run) = run {
            add_number(out, " second ", run.second);
            add_number(out, " load ", run.load);
        }
    }
    add(out, ";");
}

fn add_area(out: &mut String, area: PodArea) {
    add_number(out, " area ", area.area);
    add_number(out, " proxied ", area.proxied);
}

/// A request is admitted at 500 and goes to pod 0 at 700, and in one case another straight to it at 900.
fn measure(stats: &mut Stats, two: bool, out: &mut String)
    requires { stats.old ≡ opened metric.Concurrency 0 }
{
    add(out, "stats:");
    add_closed(out, stats.advance(500, true));
    stats.change(Change::Admitted);
    add_closed(out, stats.advance(700, true));
    stats.change(Change::Assigned(0));
    add_closed(out, stats.advance(900, true));
    add_area(out, stats.pod_area(0));
    if two {
        stats.change(Change::Directed(0));
        add_closed(out, stats.advance(950, true));
        add_area(out, stats.pod_area(0));
        add_closed(out, stats.advance(1100, true));
        add_area(out, stats.pod_area(0));
    } else {
        add_closed(out, stats.advance(2500, true));
        stats.change(Change::EndedAt(0, true));
        stats.pod_leaves(0);
        add_closed(out, stats.advance(3000, true));
    }
    add(out, "\n");
}

fn measured(alloc: Global, two: bool, out: &mut String) {
    if let Ok(mut stats) = Stats::new(alloc, 0, Metric::Concurrency) {
        measure(&mut stats, two, out);
    }
}

pub fn stats(alloc: Global, out: &mut String) {
    measured(alloc, false, out);
    measured(alloc, true, out);
}

fn request(number: u64, place: Place) -> Request
    ensures { result ≡ record { number = number; time = number; place = place } }
{
    Request {
        number,
        time: number,
        place,
    }
}

fn assign_first(table: &mut Table, out: &mut String)
    requires { table.old ≡ [] }
{
    table.push(request(0, Place::Queued(7)));
    table.push(request(3, Place::Held));
    if let Some(first) = table.first_waiting() {
        add_number(out, "table: waits ", first.number);
    }
    if let Some(r) = table.first_held() {
        table.assign(r, 8);
        add_number(out, ", held ", r);
    }
    add_option(out, ", then ", table.first_held());
    add_option(out, ", at 7 ", table.first_at(7));
    add_option(out, ", at 8 ", table.first_at(8));
    add(out, "\n");
}

pub fn table(alloc: Global, out: &mut String) {
    if let Ok(mut table) = Table::new(alloc) {
        assign_first(&mut table, out);
    }
}
