//! What is told of a row that is no decision.
ghost use Rattle.std.specs.Prelude.{◌≡◌, ◌+◌, ◌-◌, ◌≤◌, ◌++◌, length};
ghost use Rattle.kn_show_reasons.specs.Notices.{arrived_in, breaker_text, cancelled_text, expired_text, lost_text, notice_by, notice_line, notice_text, overload_text, pod_full_text, pod_in, ready_text, request_text, sample_text, slots_text, with_pod_text};

use kn_event::{Entry, Line, Row, Spec};
use kn_lives::Lives;
use kn_reason::{put_count, put_pods};

/// A line of a row, with the numbers that it names. The first one is mostly a request's. Times are in milliseconds.
#[derive(Clone, Copy)]
pub(crate) enum Notice {
    /// The stable window in seconds, in which there is no sample.
    NoSample(u64),
    /// Slots of the activator's breaker for those that wait, and for those that run.
    BreakerFull(u64, u64, u64),
    /// The pod.
    PodFull(u64, u64),
    Overload(u64),
    /// How long it waited, the timeout, and how many pods are ready.
    Expired(u64, u64, u64, u64),
    /// How long it waited.
    Cancelled(u64, u64),
    /// The pod that it was sent to.
    Lost(u64, Option<u64>),
}

/// How long a request has waited at this time.
fn waited(lives: &Lives, r: u64, time: u64) -> u64
    ensures { result ≡ time - arrived_in lives.now r }
{
    match lives.get(r) {
        Some(life) => time.saturating_sub(life.arrived),
        None => time,
    }
}

/// The pod that a request was sent to.
fn pod_of(lives: &Lives, r: u64) -> Option<u64>
    ensures { result ≡ pod_in lives.now r }
{
    match lives.get(r) {
        Some(life) => life.pod,
        None => None,
    }
}

impl Notice {
    /// That of a row, where so many pods are ready before it.
    pub(crate) fn of(spec: &Spec, lives: &Lives, ready: u64, e: &Entry) -> Option<Notice>
        ensures { result ≡ notice_by spec.now (arrived_in lives.now) (pod_in lives.now) ready e.now.time e.now.row }
    {
        let t = e.time;
        match e.row {
            Row::NoData => Some(Notice::NoSample(spec.stable_s)),
            Row::QueueFull(r, None) => {
                Some(Notice::BreakerFull(r, spec.slots.depth, spec.slots.max))
            }
            Row::QueueFull(r, Some(p)) => Some(Notice::PodFull(r, p)),
            Row::Overload(r) => Some(Notice::Overload(r)),
            Row::Expire(r) => Some(Notice::Expired(r, waited(lives, r, t), spec.timeout_ms, ready)),
            Row::Cancel(r) => Some(Notice::Cancelled(r, waited(lives, r, t))),
            Row::LostRequest(r) => Some(Notice::Lost(r, pod_of(lives, r))),
            _ => None,
        }
    }

    /// Sets the line to its own at this time, with its LF.
    #[tactic(auto, using(crate::proofs::Pieces::three_pieces), unfolding(crate::specs::Notices::notice_line))]
    pub(crate) fn set_line(&self, time: u64, line: &mut Line)
        ensures { line.new ≡ notice_line time self.now }
    {
        line.clear();
        line.put_integer(time);
        self.put(line);
        line.put(b"\n");
    }

    /// Adds what stands behind the time.
    #[tactic(auto, unfolding(crate::specs::Notices::notice_text))]
    fn put(&self, line: &mut Line)
        requires { length line.old ≤ 40 }
        ensures value { line.new ≡ line.old ++ notice_text self.now }
        ensures short { length line.new ≤ 900 }
    {
        match *self {
            Notice::NoSample(window) => put_sample(line, window),
            Notice::BreakerFull(r, depth, max) => put_breaker_full(line, r, depth, max),
            Notice::PodFull(r, pod) => put_pod_full(line, r, pod),
            Notice::Overload(r) => put_overload(line, r),
            Notice::Expired(r, waited, timeout, ready) => {
                put_expired(line, r, waited, timeout, ready)
            }
            Notice::Cancelled(r, waited) => put_cancelled(line, r, waited),
            Notice::Lost(r, pod) => put_lost(line, r, pod),
        }
    }
}

fn put_request(line: &mut Line, r: u64)
    requires { length line.old ≤ 40 }
    ensures value { line.new ≡ line.old ++ request_text r }
    ensures short { length line.new ≤ 100 }
{
    put_count(line, b" request ", r as u128);
}

fn put_sample(line: &mut Line, window: u64)
    requires { length line.old ≤ 40 }
    ensures value { line.new ≡ line.old ++ sample_text window }
    ensures short { length line.new ≤ 900 }
{
    put_count(
        line,
        b" no decision: no sample in the last ",
        window as u128,
    );
    line.put(b" s");
}

fn put_slots(line: &mut Line, depth: u64, max: u64)
    requires { length line.old ≤ 200 }
    ensures value { line.new ≡ line.old ++ slots_text depth max }
    ensures short { length line.new ≤ 900 }
{
    put_count(line, b" slots (depth ", depth as u128);
    put_count(line, b", max ", max as u128);
    line.put(b")");
}

fn put_breaker_full(line: &mut Line, r: u64, depth: u64, max: u64)
    requires { length line.old ≤ 40 }
    ensures value { line.new ≡ line.old ++ breaker_text r depth max }
    ensures short { length line.new ≤ 900 }
{
    put_request(line, r);
    put_count(
        line,
        b" refused: the activator's breaker is full, ",
        depth as u128 + max as u128,
    );
    put_slots(line, depth, max);
}

fn put_pod_full(line: &mut Line, r: u64, pod: u64)
    requires { length line.old ≤ 40 }
    ensures value { line.new ≡ line.old ++ pod_full_text r pod }
    ensures short { length line.new ≤ 900 }
{
    put_request(line, r);
    put_count(line, b" refused: pod ", pod as u128);
    line.put(b" is full, 11 requests for each of its limit");
}

#[tactic(auto, using(std::proofs::Common::append_assoc), unfolding(crate::specs::Notices::overload_text))]
fn put_overload(line: &mut Line, r: u64)
    requires { length line.old ≤ 40 }
    ensures value { line.new ≡ line.old ++ overload_text r }
    ensures short { length line.new ≤ 900 }
{
    put_request(line, r);
    line.put(b" refused: 20000 requests are live");
}

#[tactic(auto, using(std::proofs::Common::append_assoc), unfolding(crate::specs::Notices::ready_text))]
fn put_ready(line: &mut Line, ready: u64)
    requires { length line.old ≤ 300 }
    ensures value { line.new ≡ line.old ++ ready_text ready }
    ensures short { length line.new ≤ 900 }
{
    if ready == 0 {
        line.put(b", no pod was ready");
    } else {
        put_pods(line, b", ", ready as u128);
        line.put(b" ready");
    }
}

fn put_expired(line: &mut Line, r: u64, waited: u64, timeout: u64, ready: u64)
    requires { length line.old ≤ 40 }
    ensures value { line.new ≡ line.old ++ expired_text r waited timeout ready }
    ensures short { length line.new ≤ 900 }
{
    put_request(line, r);
    put_count(line, b" expired: waited ", waited as u128);
    put_count(line, b" ms of ", timeout as u128);
    put_ready(line, ready);
}

fn put_cancelled(line: &mut Line, r: u64, waited: u64)
    requires { length line.old ≤ 40 }
    ensures value { line.new ≡ line.old ++ cancelled_text r waited }
    ensures short { length line.new ≤ 900 }
{
    put_request(line, r);
    put_count(line, b" cancelled: waited ", waited as u128);
    line.put(b" ms");
}

fn put_with_pod(line: &mut Line, pod: Option<u64>)
    requires { length line.old ≤ 100 }
    ensures value { line.new ≡ line.old ++ with_pod_text pod }
    ensures short { length line.new ≤ 900 }
{
    match pod {
        Some(pod) => put_count(line, b" lost with pod ", pod as u128),
        None => line.put(b" lost"),
    }
}

#[tactic(auto, using(std::proofs::Common::append_assoc), unfolding(crate::specs::Notices::lost_text))]
fn put_lost(line: &mut Line, r: u64, pod: Option<u64>)
    requires { length line.old ≤ 40 }
    ensures value { line.new ≡ line.old ++ lost_text r pod }
    ensures short { length line.new ≤ 900 }
{
    put_request(line, r);
    put_with_pod(line, pod);
}
