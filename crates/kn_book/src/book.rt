//! The addresses of the live pods, kept row by row.
ghost use Rattle.std.specs.Prelude.{◌≡◌, ◌≢◌, ◌↔◌, ◌+◌, ◌<◌, ◌≤◌, ◌++◌, [], length, IsTrue, find, position, ◌==◌, IfOk};
ghost use Rattle.kn_event.specs.Lists.{contains};
ghost use Rattle.kn_trace.specs.Rows.{created_by};
ghost use Rattle.kn_trace.specs.Trace.{Trace, each_row};
ghost use Rattle.kn_record.specs.Rows.{counted};
ghost use Rattle.kn_book.specs.declared.book.Holding.{Holding};
ghost use Rattle.kn_book.specs.Book.{address_of, call_address, least_free, noted, shared_out, taken, waits, with_pod, without_pod};
ghost use Rattle.kn_book.specs.State.{HasRoom, IsBookOf, address_at, after, state_of};

use kn_event::{Entry, Memory, Row};
use std::alloc::Global;
use std::marker::Model;

/// A live pod and its address, which is below the number of addresses. One without waits until an address is free.
#[derive(Clone, Copy)]
pub struct Holding {
    pub pod: u64,
    pub address: Option<u64>,
}

/// Which of so many addresses each live pod has. A pod gets the least that is free when it is created, or waits for one behind
/// those that wait already. Where there are no addresses nothing is kept, and a pod's number is its address.
#[derive(Drop)]
pub struct Book {
    /// How many addresses there are; they are numbered from 0 on.
    addresses: u64,
    /// In the order in which the pods were created.
    holdings: Vec<Holding>,
}

impl Model for Book {
    ghost use Rattle.std.specs.Prelude.{◌≢◌, ◌≤◌, vec_capacity};
    ghost use Rattle.kn_book.specs.State.{BookState};

    ghost Value = { BookState };

    ghost view = { λ b. record { addresses = b.addresses; holdings = b.holdings.items } };

    ghost invariant = { λ b. b.addresses ≢ 0 → 20500 ≤ vec_capacity b.holdings };
}

/// The pod that a row creates.
fn created_by(row: &Row) -> Option<u64>
    ensures { result ≡ created_by row.now }
{
    match *row {
        Row::Create(pod, _) => Some(pod),
        _ => None,
    }
}

/// How many pods the entries create.
fn count_created(entries: &[Entry]) -> usize
    ensures { result ≡ length (each_row created_by entries.now) }
{
    entries.iter().filter_map(|e| created_by(&e.row)).count()
}

impl Book {
    /// The most live pods.
    const LIVE_MOST: usize = 20500;

    /// No addresses. It takes no memory.
    #[tactic(auto, unfolding(crate::specs::State::state_of, crate::specs::Book::book_of))]
    pub fn none(alloc: Global) -> Book
        ensures { (c : Trace) → result ≡ state_of 0 c }
    {
        Book {
            addresses: 0,
            holdings: Vec::new(alloc),
        }
    }

    /// So many addresses, and no pod yet. It takes all the memory that it will ever have.
    #[tactic(auto, unfolding(crate::specs::State::state_of, crate::specs::Book::book_of))]
    pub fn new(alloc: Global, addresses: u64) -> Result<Book, Memory>
        ensures { IfOk result (λ book. book ≡ state_of addresses []) }
    {
        match Vec::with_capacity(alloc, Book::LIVE_MOST) {
            Ok(holdings) => Ok(Book {
                addresses,
                holdings,
            }),
            Err(_) => Err(Memory),
        }
    }

    /// Whether a pod has the address.
    fn is_taken(&self, address: u64) -> bool
        ensures { result ≡ contains address (taken self.now.holdings) }
    {
        self.holdings
            .iter()
            .filter_map(|h| h.address)
            .any(|a| a == address)
    }

    /// The least address that no pod has.
    #[tactic(auto, unfolding(crate::specs::Book::least_free))]
    fn least_free(&self) -> Option<u64>
        ensures { result ≡ least_free self.now.addresses self.now.holdings }
    {
        (0..self.addresses).find(|a| !self.is_taken(*a))
    }

    /// Where the first pod stands that waits.
    fn first_waiting(&self) -> Option<usize>
        ensures { result ≡ position waits self.now.holdings }
    {
        self.holdings.iter().position(|h| h.address.is_none())
    }

    /// The first pod that waits gets the least free address.
    #[tactic(auto, unfolding(crate::specs::Book::shared_out))]
    fn share_out(&mut self)
        ensures { self.new ≡ record self.old { holdings = shared_out self.old.addresses self.old.holdings } }
    {
        let Some(place) = self.first_waiting() else {
            return;
        };
        let Some(address) = self.least_free() else {
            return;
        };
        self.holdings[place].address = Some(address);
    }

    /// One pod more, which waits behind all others.
    fn put(&mut self, pod: u64)
        requires addresses { self.old.addresses ≢ 0 }
        requires room { length self.old.holdings < 20500 }
        ensures { self.new ≡ record self.old { holdings = with_pod pod self.old.holdings } }
    {
        self.holdings.push_reserved(Holding { pod, address: None });
    }

    /// A pod fewer.
    fn take_out(&mut self, pod: u64)
        ensures { self.new ≡ record self.old { holdings = without_pod pod self.old.holdings } }
    {
        self.holdings.retain(|h| pod != h.pod);
    }

    /// One more row.
    #[tactic(auto, unfolding(crate::specs::Book::noted))]
    fn note(&mut self, row: &Row)
        requires addresses { self.old.addresses ≢ 0 }
        requires room { length self.old.holdings + counted (created_by row.now) ≤ 20500 }
        ensures { self.new ≡ record self.old { holdings = noted self.old.addresses row.now self.old.holdings } }
    {
        match *row {
            Row::Create(pod, _) => {
                self.put(pod);
                self.share_out();
            }
            Row::Remove(pod) => {
                self.take_out(pod);
                self.share_out();
            }
            Row::LostPod(pod) => {
                self.take_out(pod);
                self.share_out();
            }
            _ => {}
        }
    }

    /// Whether the pods that it has and those that these entries create are no more than it has room for, 20,500.
    pub fn has_room(&self, entries: &[Entry]) -> bool
        ensures { IsTrue result ↔ HasRoom self.now entries.now }
    {
        if self.addresses == 0 {
            return true;
        }
        let pods = self.holdings.len().saturating_add(count_created(entries));
        pods <= Book::LIVE_MOST
    }

    /// The entries of an event, or those that a revision opens with.
    pub fn apply(&mut self, entries: &[Entry])
        requires room { HasRoom self.old entries.now }
        ensures after { self.new ≡ after self.old entries.now }
        ensures addresses { self.new.addresses ≡ self.old.addresses }
        ensures stands { (c : Trace) → IsBookOf self.old c → IsBookOf self.new (c ++ entries.now) }
    {
        if self.addresses == 0 {
            return;
        }
        for entry in entries {
            self.note(&entry.row);
        }
    }

    /// What is kept of the pod.
    fn holding_of(&self, pod: u64) -> Option<Holding>
        ensures { result ≡ find (λ (h : Holding). h.pod == pod) self.now.holdings }
    {
        self.holdings.iter().copied().find(|h| h.pod == pod)
    }

    /// The address of a live pod; none while it waits for one, and of a pod that isn't live.
    #[tactic(auto, unfolding(crate::specs::State::address_at))]
    pub fn address(&self, pod: u64) -> Option<u64>
        ensures value { result ≡ address_at self.now pod }
        ensures trace { (c : Trace) → IsBookOf self.now c → result ≡ address_of self.now.addresses c pod }
    {
        if self.addresses == 0 {
            return Some(pod);
        }
        let holding = self.holding_of(pod)?;
        holding.address
    }

    /// Whom a call of the pod reaches: its address, or the number of addresses, at which there is nobody.
    #[tactic(auto, unfolding(crate::specs::Book::call_address))]
    pub fn call_address(&self, pod: u64) -> u64
        ensures { (c : Trace) → IsBookOf self.now c → result ≡ call_address self.now.addresses c pod }
    {
        self.address(pod).unwrap_or(self.addresses)
    }

    /// How many addresses there are.
    pub fn addresses(&self) -> u64
        ensures { result ≡ self.now.addresses }
    {
        self.addresses
    }
}
