//! A caller in memory, whose connections are the inputs that it was given.
ghost use Rattle.std.specs.Prelude.{◌≡◌, ◌↔◌, ◌⊎◌, ◌≤◌, ◌<◌, ◌+◌, ◌-◌, ◌^◌, ◌++◌, ◌∷◌, [], All, min, length, take, drop, None, Some, IsErr, IfOk, OnOk, OnErr, MatchResult, is_err, slice_get, vec_len, vec_capacity};
ghost use Rattle.std.specs.Io.KnownBytes.{Appends, Consumes, IsAtEnd, Keeps};
ghost use Rattle.kn_io.specs.Causes.{HasCause};
ghost use Rattle.kn_io.specs.Callers.{Meets, followed};
ghost use Rattle.kn_io.specs.Memory.{FailsNext, after_call};
ghost use Rattle.kn_io.specs.MemCaller.{kept_of, kept_of-paired, last_input, texts};

use crate::callers::Caller;
use crate::memory::Calls;
use crate::records::Taken;
use crate::traits::{Failed, Faulty, Sink, Source};
use kn_event::{Memory, Text};
use std::alloc::Global;
use std::collections::VecDeque;
use std::marker::Model;
use std::mem;

/// A caller whose connections are the inputs that it was given, in turn. Each has a buffer of its own for what is
/// written to it, so that nothing takes memory once it was made.
pub struct MemCaller {
    met: Vec<Taken>,
    held: Vec<u8>,
    read: usize,
    coming: VecDeque<Text>,
    buffers: Vec<Vec<u8>>,
    given: u128,
    written: usize,
    room: usize,
    piece: u64,
    calls: Calls,
}

impl Drop for MemCaller {
    fn drop(self) {
        let MemCaller {
            met: _,
            held: _,
            read: _,
            coming: _,
            buffers: _,
            given: _,
            written: _,
            room: _,
            piece: _,
            calls: _,
        } = self;
    }
}

impl Model for MemCaller {
    ghost use Rattle.std.specs.Prelude.{◌≡◌, ◌<◌, ◌≤◌, ◌+◌, ◌*◌, ◌^◌, [], All, drop, length, vec_len, vec_capacity};
    ghost use Rattle.std.specs.VecDeque.{deque_len};
    ghost use Rattle.kn_io.specs.MemCaller.{Talking, last_input};

    ghost Value = { Talking };

    ghost view = { λ c. record {
      met = c.met.items;
      held = c.held.items;
      left = drop c.read (last_input c.met.items);
      coming = c.coming.items;
      given = c.given;
      written = c.written;
      room = c.room;
      piece = c.piece;
      plan = c.calls;
    } };

    ghost invariant = { λ c. record {
      buffered : deque_len c.coming ≤ vec_len c.buffers;
      wide : All (λ b. (b.items ≡ []) × (c.room ≤ vec_capacity b)) c.buffers.items;
      listed : vec_len c.met + deque_len c.coming ≤ vec_capacity c.met;
      within : vec_len c.held ≤ c.written;
      full : c.written ≤ c.room;
      roomy : c.room ≤ vec_capacity c.held;
      inside : c.read ≤ length (last_input c.met.items);
      few : c.given + length (last_input c.met.items) ≤ vec_len c.met * 2 ^ 64 + c.read;
      some : 0 < c.piece;
    } };
}

/// Empty buffers of this room.
fn buffers(alloc: Global, count: usize, room: usize) -> Result<Vec<Vec<u8>>, Memory>
    ensures count { IfOk result (λ all. vec_len all ≡ count) }
    ensures wide { IfOk result (λ all. All (λ b. (b.items ≡ []) × (room ≤ vec_capacity b)) all.items) }
{
    let mut all = Vec::new(alloc);
    for _ in 0..count {
        let Ok(buffer) = Vec::with_capacity(alloc, room) else {
            return Err(Memory);
        };
        if all.push(buffer).is_err() {
            return Err(Memory);
        }
    }
    Ok(all)
}

/// One of these buffers.
fn next_buffer(buffers: &mut Vec<Vec<u8>>, room: usize) -> Vec<u8>
    requires some { 0 < vec_len buffers.old }
    requires wide { All (λ b. (b.items ≡ []) × (room ≤ vec_capacity b)) buffers.old.items }
    ensures empty { result.items ≡ [] }
    ensures roomy { room ≤ vec_capacity result }
    ensures fewer { vec_len buffers.new + 1 ≡ vec_len buffers.old }
    ensures wide { All (λ b. (b.items ≡ []) × (room ≤ vec_capacity b)) buffers.new.items }
{
    match buffers.pop() {
        Some(buffer) => buffer,
        None => unreachable!(),
    }
}

/// Adds a connection, for which there is room.
fn add(met: &mut Vec<Taken>, taken: Taken)
    requires { vec_len met.old < vec_capacity met.old }
    ensures last { last_input met.new.items ≡ taken.stream }
    ensures kept { kept_of met.new.items ≡ kept_of met.old.items ++ taken.text ∷ taken.stream ∷ [] }
    ensures len { vec_len met.new ≡ vec_len met.old + 1 }
    ensures capacity { vec_capacity met.new ≡ vec_capacity met.old }
{
    met.push_reserved(taken);
}

/// The input of the last connection.
fn last_stream(met: &[Taken]) -> &[u8]
    ensures { result.now ≡ last_input met.now }
{
    match met.last() {
        Some(last) => last.stream.bytes(),
        None => &[],
    }
}

impl MemCaller {
    #[tactic(auto, unfolding(crate::specs::MemCaller::kept_of))]
    /// A caller of these inputs, to which `room` bytes can be written in all. `fail` lists the numbers, from 0, of the
    /// calls of `meet`, `read` and `write` that fail. A `meet` past the last input fails too, and a `write` once all
    /// room is taken.
    pub fn new(
        alloc: Global,
        inputs: Vec<Text>,
        room: u64,
        fail: Vec<u64>,
    ) -> Result<MemCaller, Memory>
        ensures met { IfOk result (λ caller. caller.met ≡ []) }
        ensures kept { IfOk result (λ caller. kept_of caller.met ≡ []) }
        ensures held { IfOk result (λ caller. caller.held ≡ []) }
        ensures left { IfOk result (λ caller. caller.left ≡ []) }
        ensures coming { IfOk result (λ caller. caller.coming ≡ inputs.items) }
        ensures given { IfOk result (λ caller. caller.given ≡ 0) }
        ensures written { IfOk result (λ caller. caller.written ≡ 0) }
        ensures room { IfOk result (λ caller. caller.room ≡ room) }
        ensures piece { IfOk result (λ caller. caller.piece ≡ 2 ^ 64 - 1) }
        ensures fail { IfOk result (λ caller. caller.plan.fail ≡ fail.items) }
        ensures made { IfOk result (λ caller. caller.plan.made ≡ 0) }
        ensures faults { IfOk result (λ caller. caller.plan.faults ≡ 0) }
    {
        MemCaller::in_pieces(alloc, inputs, room, u64::MAX, fail)
    }

    #[tactic(auto, unfolding(crate::specs::MemCaller::kept_of))]
    /// The same, where a `read` gives at most `piece` bytes.
    pub fn in_pieces(
        alloc: Global,
        inputs: Vec<Text>,
        room: u64,
        piece: u64,
        fail: Vec<u64>,
    ) -> Result<MemCaller, Memory>
        requires { 0 < piece }
        ensures met { IfOk result (λ caller. caller.met ≡ []) }
        ensures kept { IfOk result (λ caller. kept_of caller.met ≡ []) }
        ensures held { IfOk result (λ caller. caller.held ≡ []) }
        ensures left { IfOk result (λ caller. caller.left ≡ []) }
        ensures coming { IfOk result (λ caller. caller.coming ≡ inputs.items) }
        ensures given { IfOk result (λ caller. caller.given ≡ 0) }
        ensures written { IfOk result (λ caller. caller.written ≡ 0) }
        ensures room { IfOk result (λ caller. caller.room ≡ room) }
        ensures piece { IfOk result (λ caller. caller.piece ≡ piece) }
        ensures fail { IfOk result (λ caller. caller.plan.fail ≡ fail.items) }
        ensures made { IfOk result (λ caller. caller.plan.made ≡ 0) }
        ensures faults { IfOk result (λ caller. caller.plan.faults ≡ 0) }
    {
        let room = room as usize;
        let count = inputs.len();
        let Ok(held) = Vec::with_capacity(alloc, room) else {
            return Err(Memory);
        };
        let Ok(met) = Vec::with_capacity(alloc, count) else {
            return Err(Memory);
        };
        Ok(MemCaller {
            met,
            held,
            read: 0,
            coming: VecDeque::from_vec(inputs),
            buffers: buffers(alloc, count, room)?,
            given: 0,
            written: 0,
            room,
            piece,
            calls: Calls::new(fail),
        })
    }

    /// How many texts it has: one more than connections were taken.
    pub fn texts(&self) -> u64
        ensures { result ≡ length (texts self.now) }
    {
        self.met.len() as u64 + 1
    }

    /// Its text at this place, counted from 0, lent.
    pub fn text(&self, k: u64) -> &[u8]
        requires { k < length (texts self.now) }
        ensures { slice_get (texts self.now) k ≡ Some result.now }
    {
        let place = k as usize;
        if place < self.met.len() {
            self.met[place].text.bytes()
        } else {
            &self.held
        }
    }
}

impl Faulty for MemCaller {
    ghost faults = { λ c. c.plan.faults };

    fn faults(&self) -> u64 {
        self.calls.faults()
    }
}

impl Source for MemCaller {
    ghost left = { λ c. Some c.left };

    ghost apart = { λ c. followed (Some (kept_of c.met)) (Some c.held) };

    ghost given = { λ c. c.given };

    fn read(&mut self, buf: &mut [u8]) -> Result<usize, Failed>
        ensures bound { IfOk result (λ n. n ≤ length buf.old) }
        ensures moved { MatchResult result
            (λ n. Consumes (Some self.old.left) (Some self.new.left) (take n buf.new))
            (λ _. Keeps (Some self.old.left) (Some self.new.left)) }
        ensures end { IfOk result (λ n. n ≡ 0 → 0 < length buf.old → IsAtEnd (Some self.new.left)) }
        ensures rest_of_buffer { MatchResult result (λ n. drop n buf.new ≡ drop n buf.old) (λ _. buf.new ≡ buf.old) }
        ensures counted { MatchResult result (λ n. self.new.given ≡ self.old.given + n) (λ _. self.new.given ≡ self.old.given) }
        ensures cause { HasCause self.old.plan.faults self.new.plan.faults result }

        // It fails exactly at the calls that it was told, and else gives as much as there is and a piece has.
        ensures fails { IsErr result ↔ FailsNext self.old.plan }
        ensures count { IfOk result (λ n. n ≡ min (min (length buf.old) self.old.piece) (length self.old.left)) }
        ensures stays { self.new ≡ record self.old { left = self.new.left; given = self.new.given; plan = after_call self.old.plan (is_err result) } }
    {
        let fails = self.calls.fails_next();
        self.calls.count(fails);
        if fails {
            return Err(Failed);
        }
        let left = &last_stream(&self.met)[self.read..];
        let most = buf.len().min(self.piece as usize);
        let n = left.len().min(most);
        buf[..n].copy_from_slice(&left[..n]);
        self.read += n;
        self.given += n as u128;
        Ok(n)
    }
}

impl Sink for MemCaller {
    ghost held = { λ c. Some c.held };

    ghost kept = { λ c. Some (kept_of c.met) };

    fn write(&mut self, bytes: &[u8]) -> Result<usize, Failed>
        ensures bound { IfOk result (λ n. n ≤ length bytes.now) }
        ensures some { IfOk result (λ n. 0 < length bytes.now → 0 < n) }
        ensures taken { MatchResult result
            (λ n. Appends (Some self.old.held) (Some self.new.held) (take n bytes.now))
            (λ _. Keeps (Some self.old.held) (Some self.new.held)) }
        ensures cause { HasCause self.old.plan.faults self.new.plan.faults result }

        // It fails exactly at the calls that it was told and without room, and else takes as much as it can.
        ensures fails { IsErr result ↔ (FailsNext self.old.plan ⊎ self.old.room ≤ self.old.written) }
        ensures count { IfOk result (λ n. n ≡ min (length bytes.now) (self.old.room - self.old.written)) }
        ensures written { MatchResult result (λ n. self.new.written ≡ self.old.written + n) (λ _. self.new.written ≡ self.old.written) }
        ensures stays { self.new ≡ record self.old { held = self.new.held; written = self.new.written; plan = after_call self.old.plan (is_err result) } }
    {
        let free = self.room - self.written;
        let fails = free == 0 || self.calls.fails_next();
        self.calls.count(fails);
        if fails {
            return Err(Failed);
        }
        let n = bytes.len().min(free);
        let _ = self.held.extend_from_slice(&bytes[..n]);
        self.written += n;
        Ok(n)
    }
}

impl Caller for MemCaller {
    ghost paired = { λ c. kept_of-paired c.met };

    ghost together = { λ c. λ i. followed (Some (kept_of c.met)) (Some c.held) };

    ghost heard = { λ _. tt };

    fn meet(&mut self) -> Result<(), Failed>
        ensures met { OnOk result (Meets (Some (kept_of self.old.met)) (Some (kept_of self.new.met)) (Some self.old.held) (Some self.new.held) (Some self.old.left) (Some self.new.left)) }
        ensures cause { HasCause self.old.plan.faults self.new.plan.faults result }

        // It fails exactly at the calls that it was told and past the last input, and else takes the next input.
        ensures fails { IsErr result ↔ (FailsNext self.old.plan ⊎ (self.old.coming ≡ [])) }
        ensures input { OnOk result (self.old.coming ≡ self.new.left ∷ self.new.coming) }
        ensures failed { OnErr result (self.new ≡ record self.old { plan = self.new.plan }) }
        ensures stays { self.new ≡ record self.old { met = self.new.met; held = self.new.held; left = self.new.left; coming = self.new.coming; plan = after_call self.old.plan (is_err result) } }
    {
        let Some(stream) = self.calls.take(&mut self.coming) else {
            return Err(Failed);
        };
        let _fits = stream.bytes().len();
        let buffer = next_buffer(&mut self.buffers, self.room);
        let text = Text::new(mem::replace(&mut self.held, buffer));
        add(&mut self.met, Taken { text, stream });
        self.read = 0;
        Ok(())
    }
}
