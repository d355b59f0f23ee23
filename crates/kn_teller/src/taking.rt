//! A revision that takes one more event of a run, by way of a log.
ghost use Rattle.std.specs.Prelude.{◌≡◌, ◌<◌, ◌≤◌, ◌^◌, ◌++◌, length};
ghost use Rattle.kn_trace.specs.Events.{react};
ghost use Rattle.kn_core.specs.Firsts.{first_rows};
ghost use Rattle.kn_core.specs.Steps.{IsWithinRange};
ghost use Rattle.kn_teller.specs.Run.{IsRunOf, Run, Takes, trace};

use kn_core::{FirstRows, Revision};
use kn_event::{EntryLog, Event};
use kn_laws::laws::trace_laws;

/// Has the revision take one more event. The log then has its entries, and no others.
#[inline(never)]
pub fn take_by_log(revision: &mut Revision, e: &Event, log: &mut EntryLog)
    requires order { revision.old.clock ≤ e.now.time }
    requires times { e.now.time ≤ 2 ^ 42 }
    requires count { revision.old.events < 2 ^ 54 }
    requires limit { IsWithinRange e.now.act }
    ensures takes { Takes revision.old e.now revision.new }
    ensures logged { (r : Run) → IsRunOf r revision.old → log.new ≡ react r.spec (trace r) e.now }
{
    trace_laws();
    log.clear();
    revision.take(e, log);
}

/// Has the revision take one more event, and answers the rows that it begins with. Those, and then the log's, are its entries.
#[inline(always)]
pub fn take_first(revision: &mut Revision, e: &Event, log: &mut EntryLog) -> FirstRows
    requires order { revision.old.clock ≤ e.now.time }
    requires times { e.now.time ≤ 2 ^ 42 }
    requires count { revision.old.events < 2 ^ 54 }
    requires limit { IsWithinRange e.now.act }
    ensures takes { Takes revision.old e.now revision.new }
    ensures logged { (r : Run) → IsRunOf r revision.old → first_rows e.now.time result ++ log.new ≡ react r.spec (trace r) e.now }
    ensures few { length log.new < 2 ^ 63 }
{
    trace_laws();
    log.clear();
    revision.take_first(e, log)
}
