//! A link in memory, which answers the replies that it was given.
ghost use Rattle.std.specs.Prelude.{◌≡◌, ◌↔◌, ◌⊎◌, ◌≤◌, ◌∷◌, [], None, Some, Err, true, IsErr, IfOk, OnErr, is_err, option_copied, option_map};
ghost use Rattle.kn_io.specs.Causes.{HasCause, Rose};
ghost use Rattle.kn_io.specs.Links.{Tells, called, probed, unused};
ghost use Rattle.kn_io.specs.Memory.{FailsNext, after_call};
ghost use Rattle.kn_io.specs.MemLink.{most_probes, probed_within};

use crate::links::{LinkError, PodLink};
use crate::memory::Calls;
use crate::records::{Call, Probe};
use crate::traits::{Failed, Faulty};
use kn_event::{Memory, Text};
use std::alloc::Global;
use std::collections::VecDeque;
use std::marker::Model;

/// How many probes a link in memory has room for.
const MOST_PROBES: usize = 4096;

/// A link that answers its replies in turn, and true to each probe. It tells what was called and probed until it has no
/// memory to record a call, or no room to record a probe.
pub struct MemLink {
    replies: VecDeque<Text>,
    tells: bool,
    called: Vec<Call>,
    probed: Vec<Probe>,
    calls: Calls,
}

impl Drop for MemLink {
    fn drop(self) {
        let MemLink {
            replies: _,
            tells: _,
            called: _,
            probed: _,
            calls: _,
        } = self;
    }
}

impl Model for MemLink {
    ghost use Rattle.std.specs.Prelude.{Some, None, if◌then◌else◌, ◌≤◌, vec_capacity};
    ghost use Rattle.kn_io.specs.MemLink.{Wire, most_probes};

    ghost Value = { Wire };

    ghost view = { λ l. record { told = if l.tells then Some (record { calls = l.called.items; probes = l.probed.items }) else None; replies = l.replies.items; plan = l.calls } };

    ghost invariant = { λ l. most_probes ≤ vec_capacity l.probed };
}

impl MemLink {
    /// A link with these replies. `fail` lists the numbers, from 0, of the calls and probes that fail; a call past the
    /// last reply fails too.
    pub fn new(alloc: Global, replies: Vec<Text>, fail: Vec<u64>) -> Result<MemLink, Memory>
        ensures told { IfOk result (λ link. link.told ≡ Some unused) }
        ensures replies { IfOk result (λ link. link.replies ≡ replies.items) }
        ensures fail { IfOk result (λ link. link.plan.fail ≡ fail.items) }
        ensures made { IfOk result (λ link. link.plan.made ≡ 0) }
        ensures faults { IfOk result (λ link. link.plan.faults ≡ 0) }
    {
        match Vec::with_capacity(alloc, MOST_PROBES) {
            Ok(probed) => Ok(MemLink {
                replies: VecDeque::from(replies),
                tells: true,
                called: Vec::new(alloc),
                probed,
                calls: Calls::new(fail),
            }),
            Err(_) => Err(Memory),
        }
    }

    /// The calls that were made, lent, where it tells them.
    pub fn calls(&self) -> Option<&[Call]>
        ensures { option_copied result ≡ option_map (λ link. link.calls) self.now.told }
    {
        if self.tells { Some(&self.called) } else { None }
    }

    /// The probes that were made, lent, where it tells them.
    pub fn probes(&self) -> Option<&[Probe]>
        ensures { option_copied result ≡ option_map (λ link. link.probes) self.now.told }
    {
        if self.tells { Some(&self.probed) } else { None }
    }
}

/// The record of a call.
fn record_of(alloc: Global, pod: u64, request: &[u8], reply: Option<&Text>) -> Result<Call, Memory>
    ensures pod { IfOk result (λ call. call.pod ≡ pod) }
    ensures request { IfOk result (λ call. call.request ≡ request.now) }
    ensures reply { IfOk result (λ call. call.reply ≡ option_copied reply.entry) }
{
    let Ok(request) = Vec::from_slice(alloc, request) else {
        return Err(Memory);
    };
    let reply = match reply {
        Some(text) => Some(text.copy(alloc)?),
        None => None,
    };
    Ok(Call {
        pod,
        request: Text::new(request),
        reply,
    })
}

impl Faulty for MemLink {
    ghost faults = { λ l. l.plan.faults };

    fn faults(&self) -> u64 {
        self.calls.faults()
    }
}

impl PodLink for MemLink {
    ghost told = { λ l. l.told };

    fn probe(&mut self, pod: u64) -> Result<bool, Failed>
        ensures recorded { Tells self.old.told self.new.told (λ link. probed link pod result) }
        ensures cause { HasCause self.old.plan.faults self.new.plan.faults result }

        // It fails exactly at the calls that it was told, answers true else, and tells on while it has room.
        ensures fails { IsErr result ↔ FailsNext self.old.plan }
        ensures answer { IfOk result (λ reached. reached ≡ true) }
        ensures tells { self.new.told ≡ probed_within self.old.told pod result }
        ensures replies { self.new.replies ≡ self.old.replies }
        ensures calls { self.new.plan ≡ after_call self.old.plan (is_err result) }
    {
        let fails = self.calls.fails_next();
        self.calls.count(fails);
        let answer = if fails { None } else { Some(true) };
        if self.probed.len() < MOST_PROBES {
            self.probed.push_reserved(Probe { pod, answer });
        } else {
            self.tells = false;
        }
        if fails { Err(Failed) } else { Ok(true) }
    }

    fn call(&mut self, alloc: Global, pod: u64, request: &[u8]) -> Result<Text, LinkError>
        ensures recorded { Tells self.old.told self.new.told (λ link. called link pod request.now result) }
        ensures never_falls { self.old.plan.faults ≤ self.new.plan.faults }
        ensures cause { result ≡ Err LinkError.Failed → Rose self.old.plan.faults self.new.plan.faults }

        // It fails exactly at the calls that it was told and past the last reply, and else answers the next reply.
        ensures fails { IsErr result ↔ (FailsNext self.old.plan ⊎ (self.old.replies ≡ [])) }
        ensures failed { OnErr result ((result ≡ Err LinkError.Failed) × (self.new.replies ≡ self.old.replies)) }
        ensures reply { IfOk result (λ reply. self.old.replies ≡ reply ∷ self.new.replies) }
        ensures calls { self.new.plan ≡ after_call self.old.plan (is_err result) }
    {
        let reply = self.calls.take(&mut self.replies);
        match record_of(alloc, pod, request, reply.as_ref()) {
            Ok(call) => self.tells = self.called.push(call).is_ok() && self.tells,
            Err(Memory) => self.tells = false,
        }
        match reply {
            Some(text) => Ok(text),
            None => Err(LinkError::Failed),
        }
    }
}
