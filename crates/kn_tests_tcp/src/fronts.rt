//! A front whose clock is set by hand: `front COUNT IDLE READ ROOM|ACTS`, with so many callers, where connections may be silent and requests may take so
//! many milliseconds, and so many connections may wait. Beside what clients and callers do (stage): `door 0 hands` the next client to a caller, `door 0
//! misses` its client, which has left, `door 0 looks` for one that waits each so many milliseconds; `closes`; `refuses`, nobody can come in; `waiting 3` and
//! `served 3`, so many connections wait in front, and so many callers have one; `clock 250` is set, `clock -`, it can't be read; `pause 100`, so many
//! milliseconds of the machine's clock. At last the door is closed, and the front is run to its end, and once more.

use crate::answers::Answer;
use crate::shown::{Shown, show_acts};
use crate::sockets::Sockets;
use crate::stage::Stage;
use crate::words::{Act, cut, number};
use crate::world::World;
use kn_door::{Close, Door, Watch};
use kn_front::{Front, FrontCaller, Limits, TcpDoor};
use kn_io::Caller;
use std::net::{Net, TcpListener, TcpStream};
use std::sync::Wait;
use std::thread::Threads;
use std::time::{Clock, Duration};
use std::{io, thread};

/// A time at which nobody is waited for any more.
const END: &str = "1000000000";

/// A front with its clients and callers.
#[derive(Drop)]
struct Hall<'a, T> {
    threads: &'a T,
    world: &'a World<'a, T>,
    door: &'a TcpDoor,
    stage: Stage<FrontCaller<&'a World<'a, T>>>,
}

/// What comes of a door and one of the callers that come through it.
fn door_does<R: Wait, K: Clock>(
    rt: &R,
    door: &TcpDoor,
    caller: &mut FrontCaller<K>,
    what: &str,
) -> Answer {
    match what {
        "hands" => Answer::Is(door.next(rt, caller)),
        "misses" => Answer::Is(door.has_left(caller)),
        _ => Answer::Count(often_ms(door, caller)),
    }
}

/// How often a caller looks whose client waits.
fn often_ms<C: Caller, W: Watch<C>>(door: &W, _caller: &C) -> u64 {
    door.often_ms()
}

impl<T: Net<Listener = TcpListener, Stream = TcpStream> + Threads + Wait + Clock + Sync> Shown
    for Hall<'_, T> {
    fn act(&mut self, rt: &HostRuntime, act: Act<'_>, place: u64) -> Answer {
        match act.who {
            "closes" => self.door.close(),
            "clock" => self.world.set(act.place),
            "pause" => thread::sleep(rt, Duration::from_millis(place)),
            "waiting" => return Answer::Is(self.door.waiting(self.threads) == place),
            "served" => return Answer::Is(self.door.busy() == place),
            "refuses" => {
                let came = TcpStream::connect(self.threads, ("127.0.0.1", self.stage.port));
                return Answer::Is(came.is_err());
            }
            "door" => {
                let Some(caller) = self.stage.callers.get_mut(place as usize) else {
                    return Answer::Failed;
                };
                return door_does(self.threads, self.door, caller, act.what);
            }
            _ => return self.stage.act(rt, act, place),
        }
        Answer::Is(true)
    }
}

/// Runs the front while something is done, and then to its end.
fn run<T: Net<Listener = TcpListener, Stream = TcpStream> + Threads + Wait + Clock + Sync>(
    rt: &HostRuntime,
    front: &Front,
    hall: &mut Hall<'_, T>,
    acts: &str,
) -> io::Result<()> {
    let (threads, world) = (hall.threads, hall.world);
    let (ran, shown) = thread::join(
        threads,
        || front.run(world).is_ok(),
        || {
            let shown = show_acts(rt, hall, acts);
            front.door().close();
            world.set(END);
            shown
        },
    );
    shown?;
    let again = front.run(world).is_ok();
    println!(rt;
        "  the end: {}, again: {}",
        Answer::of(ran),
        Answer::of(again)
    )
}

fn limits_of(setting: &str) -> Limits {
    let (idle, rest) = cut(setting, ' ');
    let (read, waiting) = cut(rest, ' ');
    Limits {
        idle: Duration::from_millis(number(idle)),
        read: Duration::from_millis(number(read)),
        waiting: number(waiting) as usize,
    }
}

/// Shows what is done at a new front.
pub fn show<T: Net<Listener = TcpListener, Stream = TcpStream> + Threads + Wait + Clock + Sync>(
    rt: &HostRuntime,
    threads: &T,
    sockets: &Sockets,
    setting: &str,
    acts: &str,
) -> io::Result<()> {
    let (count, limits) = cut(setting, ' ');
    let front = Front::open(rt, rt.alloc(), "127.0.0.1:0", limits_of(limits))?;
    let world = World::new(threads, sockets, None);
    let mut hall = Hall {
        threads,
        world: &world,
        door: front.door(),
        stage: Stage::new(rt, front.address().port()),
    };
    for _ in 0..number(count) {
        hall.stage.callers.push(front.caller(&world))?;
    }
    run(rt, &front, &mut hall, acts)
}
