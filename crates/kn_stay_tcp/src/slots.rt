//! The slots of a server, and its keeper.
ghost use Rattle.std.specs.Prelude.{◌≡◌, IfOk, length};

use kn_event::Memory;
use kn_front::{Front, FrontCaller};
use kn_opener::link;
use kn_plan::StayPlan;
use kn_request::{Slot, Work};
use kn_tcp::TcpLink;
use std::alloc::Global;
use std::net::{Net, TcpListener, TcpStream};
use std::time::Clock;

/// A slot whose clients come through a front, with a link of its own to the pods.
pub type StaySlot<'a, N> = Slot<FrontCaller<&'a N>, TcpLink<&'a N>>;

/// The plan's slots. None has served yet.
pub fn slots<'a, N: Net<Listener = TcpListener, Stream = TcpStream> + Clock>(
    alloc: Global,
    net: &'a N,
    front: &Front,
    plan: &StayPlan,
) -> Result<Vec<StaySlot<'a, N>>, Memory>
    ensures { IfOk result (λ slots. length slots.items ≡ plan.now.slots) }
{
    let mut slots = Vec::new(alloc);
    for _ in 0..plan.slots {
        let slot = Slot {
            caller: front.caller(net),
            link: keeper(alloc, net, plan)?,
            work: Work::new(),
        };
        if slots.push(slot).is_err() {
            return Err(Memory);
        }
    }
    Ok(slots)
}

/// A link to the plan's pods.
pub fn keeper<'a, N: Net<Listener = TcpListener, Stream = TcpStream> + Clock>(
    alloc: Global,
    net: &'a N,
    plan: &StayPlan,
) -> Result<TcpLink<&'a N>, Memory> {
    match link(alloc, net, &plan.pods) {
        Ok(link) => Ok(link),
        Err(_) => Err(Memory),
    }
}
