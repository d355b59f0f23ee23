//! How a cell is opened, and the book of its pods' addresses.
ghost use Rattle.std.specs.Prelude.{◌≡◌, ◌≢◌, ◌<◌, ◌≤◌, ◌^◌, [], IfOk};
ghost use Rattle.kn_trace.specs.Trace.{Trace};
ghost use Rattle.kn_book.specs.State.{HasRoom, state_of};
ghost use Rattle.kn_core.specs.State.{StandsFor};
ghost use Rattle.kn_core.specs.Gauges.{count_live};
ghost use Rattle.kn_cell.specs.Books.{IsBookFor, IsOpenedBy};
ghost use Rattle.kn_cell.specs.Shown.{first_lasting, first_opened, first_shown};

use super::{Pass, RevisionCell};
use crate::desk::Desk;
use crate::view::Key;
use atomic_table::{Refused, Table};
use kn_book::Book;
use kn_book::laws::room_laws;
use kn_core::Revision;
use kn_event::{Entry, Memory};
use std::alloc::Global;
use std::snapshot::Snapshot;

impl RevisionCell {
    /// Opens the cell over a revision with no live request, with room for so many rows. The answered pass is the first of
    /// so many, and stands for all of them.
    pub fn new(
        alloc: Global,
        revision: Revision,
        room: u64,
        passes: u64,
    ) -> Result<(RevisionCell, Pass), Memory>
        requires live { (c : Trace) → StandsFor revision c → count_live c ≡ 0 }
        requires events { revision.events < 2 ^ 53 }
        requires room { room ≤ 1000000 }
        requires passes { (1 ≤ passes) × (passes ≤ 1100) }
        ensures { IfOk result (λ r. r.1 ≡ first_shown r.0 revision room passes) }
    {
        opened(alloc, revision, Book::none(alloc), room, passes, false)
    }

    /// The same, where rows may be taken out of the history, and pods have so many addresses: 0, where a pod's number is its
    /// address, or a revision that has taken no event, with the entries that it opened with. The answered pass may take rows.
    pub fn lasting(
        alloc: Global,
        revision: Revision,
        entries: &[Entry],
        room: u64,
        passes: u64,
        addresses: u64,
    ) -> Result<(RevisionCell, Pass), Memory>
        requires live { (c : Trace) → StandsFor revision c → count_live c ≡ 0 }
        requires events { revision.events < 2 ^ 53 }
        requires room { room ≤ 1000000 }
        requires passes { (1 ≤ passes) × (passes ≤ 1100) }
        requires entries { addresses ≢ 0 → IsOpenedBy revision entries.now }
        ensures { IfOk result (λ r. r.1 ≡ first_lasting r.0 revision room passes addresses) }
    {
        room_laws();
        let book = book_after(alloc, addresses, entries)?;
        opened(alloc, revision, book, room, passes, true)
    }
}

/// The book after these entries.
fn book_after(alloc: Global, addresses: u64, entries: &[Entry]) -> Result<Book, Memory>
    requires { HasRoom (state_of addresses []) entries.now }
    ensures { IfOk result (λ book. book ≡ state_of addresses entries.now) }
{
    if addresses == 0 {
        return Ok(Book::none(alloc));
    }
    let mut book = Book::new(alloc, addresses)?;
    book.apply(entries);
    Ok(book)
}

/// Opens a cell, from which rows may be taken out or not.
fn opened(
    alloc: Global,
    revision: Revision,
    book: Book,
    room: u64,
    passes: u64,
    lasting: bool,
) -> Result<(RevisionCell, Pass), Memory>
    requires live { (c : Trace) → StandsFor revision c → count_live c ≡ 0 }
    requires events { revision.events < 2 ^ 53 }
    requires room { room ≤ 1000000 }
    requires passes { (1 ≤ passes) × (passes ≤ 1100) }
    requires book { IsBookFor book revision }
    ensures { IfOk result (λ r. r.1 ≡ first_opened lasting r.0 revision room passes book.addresses) }
{
    let _live = revision.live();
    let key = Key {
        opening: Snapshot::of(&revision),
        lasting,
        room,
        passes,
        addresses: book.addresses(),
    };
    let desk = Desk::new(alloc, revision, book, room, passes)?;
    let Ok(mut slots) = Vec::with_capacity(alloc, 1) else {
        return Err(Memory);
    };
    slots.push_reserved(desk);
    let Ok(words) = Vec::from_elem(alloc, 0, passes as usize + 2) else {
        return Err(Memory);
    };
    match Table::new(alloc, &words, slots, &key) {
        Ok((table, place)) => Ok((
            RevisionCell { table },
            Pass {
                number: 0,
                free: passes - 1,
                passes,
                place,
                asked: None,
                heard: 0,
            },
        )),
        Err(Refused { slots: _ }) => Err(Memory),
    }
}
