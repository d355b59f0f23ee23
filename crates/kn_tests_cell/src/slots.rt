//! Callers, links and slots over memory, which nobody used.
ghost use Rattle.std.specs.Prelude.{◌≡◌, [], All, Some, IfOk};
ghost use Rattle.kn_io.specs.Links.{unused};
ghost use Rattle.kn_io.specs.MemCaller.{kept_of};
ghost use Rattle.kn_tests_cell.specs.Fresh.{IsFreshSlot};

use crate::words::numbers_of;
use kn_door::Guest;
use kn_event::{Memory, Text};
use kn_io::{MemCaller, MemLink};
use kn_request::{Slot, Work};
use std::alloc::{AllocError, Global};

const REQUEST: &[u8] =
    b"GET /a HTTP/1.1\r\nHost: h\r\nKnative-Serving-Namespace: default\r\nKnative-Serving-Revision: fixed\r\n\r\n";

const REPLY: &[u8] = b"HTTP/1.1 200 OK\r\nContent-Length: 0\r\nConnection: close\r\n\r\n";

pub type Visitor = Guest<MemCaller>;

pub type MemSlot = Slot<Visitor, MemLink>;

fn add_text(alloc: Global, texts: &mut Vec<Text>, bytes: &[u8]) -> Result<(), AllocError> {
    texts.push(Text::new(Vec::from_slice(alloc, bytes)?))?;
    Ok(())
}

/// This text alone.
fn text_of(alloc: Global, bytes: &[u8]) -> Result<Vec<Text>, Memory> {
    let mut texts = Vec::new(alloc);
    if add_text(alloc, &mut texts, bytes).is_err() {
        return Err(Memory);
    }
    Ok(texts)
}

/// A caller of one request.
fn caller_of(alloc: Global) -> Result<Visitor, Memory>
    ensures kept { IfOk result (λ g. kept_of g.caller.met ≡ []) }
    ensures held { IfOk result (λ g. g.caller.held ≡ []) }
{
    match text_of(alloc, REQUEST) {
        Ok(inputs) => match MemCaller::new(alloc, inputs, 10_000, Vec::new(alloc)) {
            Ok(caller) => Ok(Guest::new(caller)),
            Err(Memory) => Err(Memory),
        },
        Err(Memory) => Err(Memory),
    }
}

/// A link with one reply. The words say which of its calls and probes fail, as `fail=0,2`.
pub fn link_of(alloc: Global, words: &str) -> Result<MemLink, Memory>
    ensures { IfOk result (λ l. l.told ≡ Some unused) }
{
    let Ok(fail) = numbers_of(alloc, words, "fail=", u64::MAX) else {
        return Err(Memory);
    };
    match text_of(alloc, REPLY) {
        Ok(replies) => MemLink::new(alloc, replies, fail),
        Err(Memory) => Err(Memory),
    }
}

fn slot(caller: Visitor, link: MemLink) -> MemSlot
    requires kept { kept_of caller.caller.met ≡ [] }
    requires held { caller.caller.held ≡ [] }
    requires told { link.told ≡ Some unused }
    ensures { IsFreshSlot result }
{
    let work = Work::new();
    Slot { caller, link, work }
}

/// The slot of such a caller and link.
pub fn slot_of(alloc: Global, words: &str) -> Result<MemSlot, Memory>
    ensures { IfOk result IsFreshSlot }
{
    let caller = caller_of(alloc)?;
    match link_of(alloc, words) {
        Ok(link) => Ok(slot(caller, link)),
        Err(Memory) => {
            drop(caller);
            Err(Memory)
        }
    }
}

/// A slot for each of these words, as `good fail=0`.
pub fn slots_of(alloc: Global, words: &str) -> Result<Vec<MemSlot>, Memory>
    ensures { IfOk result (λ slots. All IsFreshSlot slots.items) }
{
    let mut slots = Vec::new(alloc);
    for word in words.split(' ') {
        let slot = slot_of(alloc, word)?;
        if slots.push(slot).is_err() {
            return Err(Memory);
        }
    }
    Ok(slots)
}
