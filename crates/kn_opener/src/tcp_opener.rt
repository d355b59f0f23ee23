//! What listens for clients, and reaches pods over TCP.
ghost use Rattle.std.specs.Prelude.{◌≡◌, [], All, IfOk, IfSome, OnOk, length};
ghost use Rattle.kn_serve.specs.Opening.{IsEmptyWork};

use crate::sockets::{caller, link, listen};
use kn_io::Faulty;
use kn_serve::{OpenError, Opener, Plan, Slot, Work};
use kn_tcp::{TcpCaller, TcpLink};
use std::alloc::Global;
use std::net::{Net, TcpListener, TcpStream};
use std::time::Clock;

/// An opener that listens on the plan's address, with all callers on the one socket. Its links tell no content; their addresses are
/// the plan's.
#[derive(Drop)]
pub struct TcpOpener<'a, N> {
    net: &'a N,
    faults: u64,
}

impl<'a, N: Net<Listener = TcpListener, Stream = TcpStream> + Clock> TcpOpener<'a, N> {
    /// An opener without faults so far.
    pub fn new(net: &'a N) -> TcpOpener<'a, N>
        ensures { ⟦<TcpOpener<'a, N> as Faulty>⟧.faults result ≡ 0 }
    {
        TcpOpener { net, faults: 0 }
    }
}

impl<N> Faulty for TcpOpener<'_, N> {
    ghost faults = { λ o. o.faults };

    fn faults(&self) -> u64 {
        self.faults
    }
}

impl<'a, N: Net<Listener = TcpListener, Stream = TcpStream> + Clock> Opener<
    TcpCaller,
    TcpLink<&'a N>,
> for TcpOpener<'a, N> {
    ghost gives = { λ _ plan _ slots keeper. All (λ s. s.link.addresses ≡ plan.pods) slots × IfSome keeper (λ k. k.addresses ≡ plan.pods) };

    fn open(
        &mut self,
        alloc: Global,
        plan: &Plan,
        slots: &mut Vec<Slot<TcpCaller, TcpLink<&'a N>>>,
        keeper: &mut Option<TcpLink<&'a N>>,
    ) -> Result<(), OpenError> {
        let Some(listener) = listen(self.net, &plan.listen) else {
            self.faults = self.faults.saturating_add(1);
            return Err(OpenError::Failed);
        };
        match fill(alloc, self.net, &listener, plan, slots) {
            Ok(link) => {
                *keeper = Some(link);
                Ok(())
            }
            Err(error) => {
                if error == OpenError::Failed {
                    self.faults = self.faults.saturating_add(1);
                }
                slots.clear();
                Err(error)
            }
        }
    }
}

/// Makes the slots, and answers the keeper.
fn fill<'a, N: Net<Listener = TcpListener, Stream = TcpStream> + Clock>(
    alloc: Global,
    net: &'a N,
    listener: &TcpListener,
    plan: &Plan,
    slots: &mut Vec<Slot<TcpCaller, TcpLink<&'a N>>>,
) -> Result<TcpLink<&'a N>, OpenError>
    requires { slots.old.items ≡ [] }
    ensures made { OnOk result (length slots.new.items ≡ plan.now.slots) }
    ensures works { OnOk result (All (λ s. IsEmptyWork s.work) slots.new.items) }
    ensures reach { OnOk result (All (λ s. s.link.addresses ≡ plan.now.pods) slots.new.items) }
    ensures keeper { IfOk result (λ k. k.addresses ≡ plan.now.pods) }
{
    for _ in 0..plan.slots {
        let slot = Slot {
            caller: caller(listener)?,
            link: link(alloc, net, &plan.pods)?,
            work: Work::new(),
        };
        if slots.push(slot).is_err() {
            return Err(OpenError::Memory);
        }
    }
    link(alloc, net, &plan.pods)
}
