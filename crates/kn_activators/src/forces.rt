//! Lines on limits in force that became others.
ghost use Rattle.std.specs.Prelude.{◌≡◌, ◌++◌, length, OnErr, OnOk};
ghost use Rattle.kn_io.specs.Causes.{HasCause};
ghost use Rattle.kn_io.specs.Prefix.{AppendsPrefix};
ghost use Rattle.kn_report.specs.Waiting.{Adds};
ghost use Rattle.kn_activators.specs.Sharing.{force_change, force_line, force_lines};

use kn_event::Line;
use kn_io::{Failed, Sink};
use kn_report::Waiting;
use kn_report::laws::adding_laws;

/// Sets the line to what is said of a pod's limit in force.
fn set_force(line: &mut Line, time: u64, p: u64, force: u64)
    ensures { line.new ≡ force_line time p force }
{
    line.clear();
    line.put(b"- ");
    line.put_integer(time);
    line.put(b" in-force ");
    line.put_integer(p);
    line.put(b" ");
    line.put_integer(force);
    line.put(b"\n");
}

/// Adds a line behind what waits where a pod's limit in force isn't the one before.
fn add_force<O: Sink>(
    before: u64,
    force: u64,
    time: u64,
    p: u64,
    line: &mut Line,
    waiting: &mut Waiting,
    out: &mut O,
) -> Result<(), Failed>
    ensures ok { OnOk result (Adds (O.held out.old) (O.held out.new) waiting.old waiting.new (force_change time p before force)) }
    ensures err { OnErr result (AppendsPrefix (O.held out.old) (O.held out.new) (waiting.old ++ force_change time p before force)) }
    ensures cause { HasCause (O.Faulty.faults out.old) (O.Faulty.faults out.new) result }
{
    if before == force {
        return Ok(());
    }
    set_force(line, time, p, force);
    waiting.add(line.bytes(), out)
}

/// Adds a line behind what waits for each pod whose limit in force isn't the one before.
pub fn add_forces<O: Sink>(
    before: &[u64],
    forces: &[u64],
    time: u64,
    line: &mut Line,
    waiting: &mut Waiting,
    out: &mut O,
) -> Result<(), Failed>
    requires { length forces.now ≡ length before.now }
    ensures ok { OnOk result (Adds (O.held out.old) (O.held out.new) waiting.old waiting.new (force_lines time 0 before.now forces.now)) }
    ensures err { OnErr result (AppendsPrefix (O.held out.old) (O.held out.new) (waiting.old ++ force_lines time 0 before.now forces.now)) }
    ensures cause { HasCause (O.Faulty.faults out.old) (O.Faulty.faults out.new) result }
{
    adding_laws();
    for p in 0..before.len() {
        match add_force(before[p], forces[p], time, p as u64, line, waiting, out) {
            Ok(()) => {}
            Err(Failed) => return Err(Failed),
        }
    }
    Ok(())
}
