//! The rows that an event begins with, in a report.
ghost use Rattle.std.specs.Prelude.{◌≡◌, ◌+◌, ◌<◌, ◌≤◌, ◌^◌, ◌++◌, length, IfNone, IfSome, MatchOption, OnErr, OnOk};
ghost use Rattle.kn_io.specs.Causes.{HasCause};
ghost use Rattle.kn_io.specs.Prefix.{AppendsPrefix};
ghost use Rattle.kn_report.specs.Frequent.{PutsRow};
ghost use Rattle.kn_report.specs.Waiting.{Adds};
ghost use Rattle.kn_throttle.specs.Rows.{dispatch_row};
ghost use Rattle.kn_trace.specs.Report.{rows_text, totals};
ghost use Rattle.kn_trace.specs.Trace.{Trace};
ghost use Rattle.kn_core.specs.declared.first.FirstRows.TheVariants as rows;
ghost use Rattle.kn_core.specs.Firsts.{first_rows, own_row};

use kn_core::{FirstRows, OwnRow};
use kn_event::{EntryLog, Line};
use kn_io::{Failed, Sink};
use kn_report::{
    Tally, Waiting, add_rows, put_admit, put_assign, put_direct, put_finish, put_not_running,
    put_overload, put_pod_full, put_queue_full, put_run,
};
use kn_throttle::Dispatch;

/// Puts an act's own row behind what waits, and counts it. Each kind is handed on as numbers: the row needs no memory.
#[inline(always)]
fn put_own(own: OwnRow, time: u64, tally: &mut Tally, waiting: &mut Waiting)
    requires room { length waiting.old + 128 ≤ 16384 }
    requires few { tally.old.rows < 2 ^ 127 }
    ensures { PutsRow time (own_row own) tally.old tally.new waiting.old waiting.new }
{
    match own {
        OwnRow::Admit(r, tag) => put_admit(time, r, tag, tally, waiting),
        OwnRow::Direct(r, p) => put_direct(time, r, p, tally, waiting),
        OwnRow::Finish(r, ok) => put_finish(time, r, ok, tally, waiting),
        OwnRow::QueueFull(r) => put_queue_full(time, r, tally, waiting),
        OwnRow::PodFull(r, p) => put_pod_full(time, r, p, tally, waiting),
        OwnRow::Overload(r) => put_overload(time, r, tally, waiting),
        OwnRow::NotRunning(r) => put_not_running(time, r, tally, waiting),
    }
}

/// Puts the row with which a request is dispatched behind what waits, and counts it.
#[inline(always)]
fn put_dispatch(dispatch: Dispatch, time: u64, tally: &mut Tally, waiting: &mut Waiting)
    requires room { length waiting.old + 128 ≤ 16384 }
    requires few { tally.old.rows < 2 ^ 127 }
    ensures { PutsRow time (dispatch_row dispatch) tally.old tally.new waiting.old waiting.new }
{
    match dispatch {
        Dispatch::Run(r) => put_run(time, r, tally, waiting),
        Dispatch::Assign(r, p) => put_assign(time, r, p, tally, waiting),
    }
}

/// The own row, and with which a request is dispatched behind it, if one is. None where the log has all rows.
#[inline]
fn parts_of(first: FirstRows) -> Option<(OwnRow, Option<Dispatch>)>
    ensures none { IfNone result (first ≡ rows.Nothing) }
    ensures some { IfSome result (λ p. MatchOption p.1 (first ≡ rows.Own p.0) (λ d. first ≡ rows.Both p.0 d)) }
{
    match first {
        FirstRows::Nothing => None,
        FirstRows::Own(own) => Some((own, None)),
        FirstRows::Both(own, dispatch) => Some((own, Some(dispatch))),
    }
}

/// Puts the rows that an event begins with behind what waits, and counts them.
#[inline(always)]
pub fn put_first(first: FirstRows, time: u64, tally: &mut Tally, waiting: &mut Waiting)
    requires room { length waiting.old + 256 ≤ 16384 }
    requires few { tally.old.rows ≤ 2 ^ 126 }
    ensures text { waiting.new ≡ waiting.old ++ rows_text (first_rows time first) }
    ensures rows { tally.new.rows ≡ tally.old.rows + length (first_rows time first) }
    ensures few { tally.new.rows ≤ tally.old.rows + 2 }
    ensures totals { (c : Trace) → tally.old.totals ≡ totals c → tally.new.totals ≡ totals (c ++ first_rows time first) }
{
    let Some((own, next)) = parts_of(first) else {
        return;
    };
    put_own(own, time, tally, waiting);
    match next {
        None => {}
        Some(dispatch) => put_dispatch(dispatch, time, tally, waiting),
    }
}

/// Adds a row for each entry behind what waits, and counts them.
#[inline(never)]
pub fn add_many<O: Sink>(
    log: &EntryLog,
    tally: &mut Tally,
    line: &mut Line,
    waiting: &mut Waiting,
    out: &mut O,
) -> Result<(), Failed>
    requires few { tally.old.rows ≤ 2 ^ 126 + 2 }
    ensures ok { OnOk result (Adds (O.held out.old) (O.held out.new) waiting.old waiting.new (rows_text log.now)) }
    ensures err { OnErr result (AppendsPrefix (O.held out.old) (O.held out.new) (waiting.old ++ rows_text log.now)) }
    ensures cause { HasCause (O.Faulty.faults out.old) (O.Faulty.faults out.new) result }
    ensures count { OnOk result (tally.new.rows ≡ tally.old.rows + length log.now) }
    ensures totals { (c : Trace) → tally.old.totals ≡ totals c → OnOk result (tally.new.totals ≡ totals (c ++ log.now)) }
{
    add_rows(log, tally, line, waiting, out)
}
