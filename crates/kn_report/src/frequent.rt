//! Rows of the kinds that an event may begin with, each put and counted where there is room for it.
ghost use Rattle.std.specs.Prelude.{◌+◌, ◌<◌, ◌≤◌, ◌^◌, None, Some, length};
ghost use Rattle.kn_report.specs.Frequent.{PutsRow};

use crate::tally::Tally;
use crate::waiting::Waiting;
use kn_event::Row;

/// Puts an `admit` row behind what waits, and counts it.
#[inline(always)]
pub fn put_admit(time: u64, request: u64, tag: u64, tally: &mut Tally, waiting: &mut Waiting)
    requires room { length waiting.old + 128 ≤ 16384 }
    requires few { tally.old.rows < 2 ^ 127 }
    ensures { PutsRow time (Row.Admit request tag) tally.old tally.new waiting.old waiting.new }
{
    tally.count_admit();
    waiting.put_admit(time, request, tag);
}

/// Puts a `direct` row behind what waits, and counts it.
#[inline(always)]
pub fn put_direct(time: u64, request: u64, pod: u64, tally: &mut Tally, waiting: &mut Waiting)
    requires room { length waiting.old + 128 ≤ 16384 }
    requires few { tally.old.rows < 2 ^ 127 }
    ensures { PutsRow time (Row.Direct request pod) tally.old tally.new waiting.old waiting.new }
{
    tally.count_direct();
    waiting.put_direct(time, request, pod);
}

/// Puts an `assign` row behind what waits, and counts it.
#[inline(always)]
pub fn put_assign(time: u64, request: u64, pod: u64, tally: &mut Tally, waiting: &mut Waiting)
    requires room { length waiting.old + 128 ≤ 16384 }
    requires few { tally.old.rows < 2 ^ 127 }
    ensures { PutsRow time (Row.Assign request pod) tally.old tally.new waiting.old waiting.new }
{
    tally.count_assign();
    waiting.put_assign(time, request, pod);
}

/// Puts a `run` row behind what waits, and counts it.
#[inline(always)]
pub fn put_run(time: u64, request: u64, tally: &mut Tally, waiting: &mut Waiting)
    requires room { length waiting.old + 128 ≤ 16384 }
    requires few { tally.old.rows < 2 ^ 127 }
    ensures { PutsRow time (Row.Run request) tally.old tally.new waiting.old waiting.new }
{
    tally.count_run();
    waiting.put_run(time, request);
}

/// Puts a `finish` row behind what waits, and counts it.
#[inline(always)]
pub fn put_finish(time: u64, request: u64, ok: bool, tally: &mut Tally, waiting: &mut Waiting)
    requires room { length waiting.old + 128 ≤ 16384 }
    requires few { tally.old.rows < 2 ^ 127 }
    ensures { PutsRow time (Row.Finish request ok) tally.old tally.new waiting.old waiting.new }
{
    tally.count_finish(ok);
    waiting.put_finish(time, request, ok);
}

/// Puts a `queue-full` row of a full breaker behind what waits, and counts it.
#[inline(never)]
pub fn put_queue_full(time: u64, request: u64, tally: &mut Tally, waiting: &mut Waiting)
    requires room { length waiting.old + 128 ≤ 16384 }
    requires few { tally.old.rows < 2 ^ 127 }
    ensures { PutsRow time (Row.QueueFull request None) tally.old tally.new waiting.old waiting.new }
{
    tally.add(&Row::QueueFull(request, None));
    waiting.put_queue_full(time, request, None);
}

/// Puts a `queue-full` row of a full pod behind what waits, and counts it.
#[inline(never)]
pub fn put_pod_full(time: u64, request: u64, pod: u64, tally: &mut Tally, waiting: &mut Waiting)
    requires room { length waiting.old + 128 ≤ 16384 }
    requires few { tally.old.rows < 2 ^ 127 }
    ensures { PutsRow time (Row.QueueFull request (Some pod)) tally.old tally.new waiting.old waiting.new }
{
    tally.add(&Row::QueueFull(request, Some(pod)));
    waiting.put_queue_full(time, request, Some(pod));
}

/// Puts an `overload` row behind what waits, and counts it.
#[inline(never)]
pub fn put_overload(time: u64, request: u64, tally: &mut Tally, waiting: &mut Waiting)
    requires room { length waiting.old + 128 ≤ 16384 }
    requires few { tally.old.rows < 2 ^ 127 }
    ensures { PutsRow time (Row.Overload request) tally.old tally.new waiting.old waiting.new }
{
    tally.add(&Row::Overload(request));
    waiting.put_overload(time, request);
}

/// Puts a `not-running` row behind what waits, and counts it.
#[inline(never)]
pub fn put_not_running(time: u64, request: u64, tally: &mut Tally, waiting: &mut Waiting)
    requires room { length waiting.old + 128 ≤ 16384 }
    requires few { tally.old.rows < 2 ^ 127 }
    ensures { PutsRow time (Row.NotRunning request) tally.old tally.new waiting.old waiting.new }
{
    tally.add(&Row::NotRunning(request));
    waiting.put_not_running(time, request);
}
