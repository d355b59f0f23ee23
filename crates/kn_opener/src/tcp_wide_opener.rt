//! What listens for the clients of several revisions, and reaches their pods over TCP.
ghost use Rattle.std.specs.Prelude.{◌≡◌, [], All, OnOk, length, map};
ghost use Rattle.kn_many.specs.Many.{IsReadyFor};
ghost use Rattle.kn_serve.specs.Opening.{IsEmptyWork};

use crate::sockets::{caller, link, listen};
use kn_io::Faulty;
use kn_many::{HostLists, WideOpener, WidePlan, WideSlot};
use kn_serve::{OpenError, Work};
use kn_tcp::{TcpCaller, TcpLink};
use std::alloc::Global;
use std::net::{Net, TcpListener, TcpStream};
use std::time::Clock;

/// An opener that listens on the plan's address, with all callers on the one socket. Its links tell no content; their addresses are
/// those of the plan's lists.
#[derive(Drop)]
pub struct TcpWideOpener<'a, N> {
    net: &'a N,
    faults: u64,
}

impl<'a, N: Net<Listener = TcpListener, Stream = TcpStream> + Clock> TcpWideOpener<'a, N> {
    /// An opener without faults so far.
    pub fn new(net: &'a N) -> TcpWideOpener<'a, N>
        ensures { ⟦<TcpWideOpener<'a, N> as Faulty>⟧.faults result ≡ 0 }
    {
        TcpWideOpener { net, faults: 0 }
    }
}

impl<N> Faulty for TcpWideOpener<'_, N> {
    ghost faults = { λ o. o.faults };

    fn faults(&self) -> u64 {
        self.faults
    }
}

impl<'a, N: Net<Listener = TcpListener, Stream = TcpStream> + Clock> WideOpener<
    TcpCaller,
    TcpLink<&'a N>,
> for TcpWideOpener<'a, N> {
    ghost gives = { λ _ plan _ slots keepers. All (λ s. map (λ l. l.addresses) s.links.items ≡ plan.pods) slots × (map (λ k. k.addresses) keepers ≡ plan.pods) };

    fn open(
        &mut self,
        alloc: Global,
        plan: &WidePlan,
        slots: &mut Vec<WideSlot<TcpCaller, TcpLink<&'a N>>>,
        keepers: &mut Vec<TcpLink<&'a N>>,
    ) -> Result<(), OpenError> {
        let Some(listener) = listen(self.net, &plan.listen) else {
            self.faults = self.faults.saturating_add(1);
            return Err(OpenError::Failed);
        };
        match fill(alloc, self.net, &listener, plan, slots, keepers) {
            Ok(()) => Ok(()),
            Err(error) => {
                if error == OpenError::Failed {
                    self.faults = self.faults.saturating_add(1);
                }
                slots.clear();
                keepers.clear();
                Err(error)
            }
        }
    }
}

/// Makes the slots, and the keepers.
fn fill<'a, N: Net<Listener = TcpListener, Stream = TcpStream> + Clock>(
    alloc: Global,
    net: &'a N,
    listener: &TcpListener,
    plan: &WidePlan,
    slots: &mut Vec<WideSlot<TcpCaller, TcpLink<&'a N>>>,
    keepers: &mut Vec<TcpLink<&'a N>>,
) -> Result<(), OpenError>
    requires slots { slots.old.items ≡ [] }
    requires keepers { keepers.old.items ≡ [] }
    ensures made { OnOk result (length slots.new.items ≡ plan.now.slots) }
    ensures ready { OnOk result (All (IsReadyFor (length plan.now.pods)) slots.new.items) }
    ensures kept { OnOk result (length keepers.new.items ≡ length plan.now.pods) }
    ensures reach { OnOk result (All (λ s. map (λ l. l.addresses) s.links.items ≡ plan.now.pods) slots.new.items) }
    ensures keepers { OnOk result (map (λ k. k.addresses) keepers.new.items ≡ plan.now.pods) }
{
    for _ in 0..plan.slots {
        let mut slot = WideSlot {
            caller: caller(listener)?,
            links: Vec::new(alloc),
            works: Vec::new(alloc),
        };
        links(alloc, net, &plan.pods, &mut slot.links)?;
        works(plan.pods.items().len(), &mut slot.works)?;
        if slots.push(slot).is_err() {
            return Err(OpenError::Memory);
        }
    }
    links(alloc, net, &plan.pods, keepers)
}

/// A link to the pods of each list.
fn links<'a, N: Net<Listener = TcpListener, Stream = TcpStream> + Clock>(
    alloc: Global,
    net: &'a N,
    pods: &HostLists,
    links: &mut Vec<TcpLink<&'a N>>,
) -> Result<(), OpenError>
    requires { links.old.items ≡ [] }
    ensures many { OnOk result (length links.new.items ≡ length pods.now) }
    ensures reach { OnOk result (map (λ l. l.addresses) links.new.items ≡ pods.now) }
{
    for hosts in pods.items() {
        if links.push(link(alloc, net, hosts)?).is_err() {
            return Err(OpenError::Memory);
        }
    }
    Ok(())
}

/// So many empty works.
fn works(count: usize, works: &mut Vec<Work>) -> Result<(), OpenError>
    requires { works.old.items ≡ [] }
    ensures many { OnOk result (length works.new.items ≡ count) }
    ensures empty { OnOk result (All IsEmptyWork works.new.items) }
{
    for _ in 0..count {
        if works.push(Work::new()).is_err() {
            return Err(OpenError::Memory);
        }
    }
    Ok(())
}
