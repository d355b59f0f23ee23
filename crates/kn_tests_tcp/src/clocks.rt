//! The machine's clock: `clock STEADY DAY|STEADY DAY, STEADY DAY` is made at the first of these times and read at the others. Each is the milliseconds of the
//! clock that nobody sets, and those of the time of day; `-` is one that can't be read.

use crate::sockets::Sockets;
use crate::world::World;
use kn_io::{Clock, MachineClock};
use std::io;

/// Shows what the clock says.
pub fn show<T>(
    rt: &HostRuntime,
    threads: &T,
    sockets: &Sockets,
    first: &str,
    others: &str,
) -> io::Result<()> {
    let world = World::new(threads, sockets, None);
    world.set(first);
    let clock = MachineClock::new(&world);
    for times in others.split(", ") {
        world.set(times);
        println!(rt; "  {times}: {}", clock.now_ms())?;
    }
    Ok(())
}
