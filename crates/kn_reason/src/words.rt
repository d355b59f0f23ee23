//! The text of each line of a decision.
ghost use Rattle.std.specs.Prelude.{◌≡◌, ◌+◌, ◌≤◌, ◌++◌, codes, length};
ghost use Rattle.std.specs.Fmt.{signed_decimal};
ghost use Rattle.kn_event.specs.EntryLine.{labelled};
ghost use Rattle.kn_reason.specs.Numbers.{pods_text};
ghost use Rattle.kn_reason.specs.Texts.{active_text, burst_text, goes_text, left_text, less_text, lever_word, line_text, not_yet_text, over_text, panic_text, rate_text, reason_text, setting_text, stable_text, total_text, wants_text, way_word};

use crate::numbers::{put_count, put_frac, put_milli, put_pods, put_rate, put_setting};
use crate::reason::{Lever, Reason, Seats};
use kn_event::{Frac, Line, Milli, Mode};

fn way_word(mode: Mode) -> &'static [u8]
    ensures value { result.now ≡ way_word mode }
    ensures short { length result.now ≤ 21 }
{
    match mode {
        Mode::Proxy => b"through the activator",
        Mode::Serve => b"straight to the pods",
    }
}

fn lever_word(lever: Lever) -> &'static [u8]
    ensures value { result.now ≡ lever_word lever }
    ensures short { length result.now ≤ 34 }
{
    match lever {
        Lever::Load => b"the load or the target",
        Lever::UpRate => b"max-scale-up-rate",
        Lever::DownRate => b"max-scale-down-rate",
        Lever::Activation => b"activation-scale",
        Lever::Panic => b"panic-threshold-percentage",
        Lever::Delay => b"scale-down-delay",
        Lever::Initial => b"initial-scale",
        Lever::Min => b"min-scale",
        Lever::Max => b"max-scale",
        Lever::Nothing => b"none, 500 is the most",
        Lever::ToZero => b"enable-scale-to-zero",
        Lever::Ready => b"a pod becomes ready",
        Lever::StableWindow => b"stable-window",
        Lever::Grace => b"scale-to-zero-grace-period",
        Lever::Retention => b"scale-to-zero-pod-retention-period",
    }
}

/// The way to the pods.
#[tactic(auto, using(std::proofs::Common::append_assoc), unfolding(kn_event::specs::EntryLine::labelled))]
fn put_way(line: &mut Line, words: &[u8], mode: Mode)
    requires { length line.old + length words.now ≤ 800 }
    ensures value { line.new ≡ line.old ++ labelled words.now (way_word mode) }
    ensures short { length line.new ≤ length line.old + length words.now + 21 }
{
    line.put(words);
    line.put(way_word(mode));
}

/// What would change the count.
fn put_lever(line: &mut Line, lever: Lever)
    requires { length line.old ≤ 40 }
    ensures value { line.new ≡ line.old ++ labelled (codes "   to change this: ") (lever_word lever) }
    ensures short { length line.new ≤ 900 }
{
    line.put(b"   to change this: ");
    line.put(lever_word(lever));
}

/// So many pods, at the end of a line.
fn put_end(line: &mut Line, words: &[u8], pods: u64)
    requires room { length line.old ≤ 40 }
    requires few { length words.now ≤ 60 }
    ensures value { line.new ≡ line.old ++ labelled words.now (pods_text pods) }
    ensures short { length line.new ≤ 900 }
{
    put_pods(line, words, pods as u128);
}

fn put_most(line: &mut Line, pods: u64)
    requires { length line.old ≤ 40 }
    ensures value { line.new ≡ line.old ++ labelled (codes "   panic: the most asked for since it began: ") (pods_text pods) }
    ensures short { length line.new ≤ 900 }
{
    put_end(line, b"   panic: the most asked for since it began: ", pods);
}

fn put_delay(line: &mut Line, seconds: u64, pods: u64)
    requires { length line.old ≤ 40 }
    ensures value { line.new ≡ line.old ++ setting_text (codes "   scale-down-delay ") seconds (codes " s: still ") pods }
    ensures short { length line.new ≤ 900 }
{
    put_setting(line, b"   scale-down-delay ", seconds, b" s: still ", pods);
}

fn put_initial(line: &mut Line, scale: u64, pods: u64)
    requires { length line.old ≤ 40 }
    ensures value { line.new ≡ line.old ++ setting_text (codes "   initial-scale ") scale (codes ", never reached yet: ") pods }
    ensures short { length line.new ≤ 900 }
{
    put_setting(
        line,
        b"   initial-scale ",
        scale,
        b", never reached yet: ",
        pods,
    );
}

fn put_inactive(line: &mut Line, passed: u64, pods: u64)
    requires { length line.old ≤ 40 }
    ensures value { line.new ≡ line.old ++ setting_text (codes "   inactive for ") passed (codes " ms: ") pods }
    ensures short { length line.new ≤ 900 }
{
    put_setting(line, b"   inactive for ", passed, b" ms: ", pods);
}

fn put_up_rate(line: &mut Line, rate: Milli, pods: u128)
    requires { length line.old ≤ 40 }
    ensures value { line.new ≡ line.old ++ rate_text (codes "   max-scale-up-rate ") rate.0 (codes ": at most ") pods }
    ensures short { length line.new ≤ 900 }
{
    put_rate(line, b"   max-scale-up-rate ", rate, b": at most ", pods);
}

fn put_down_rate(line: &mut Line, rate: Milli, pods: u128)
    requires { length line.old ≤ 40 }
    ensures value { line.new ≡ line.old ++ rate_text (codes "   max-scale-down-rate ") rate.0 (codes ": at least ") pods }
    ensures short { length line.new ≤ 900 }
{
    put_rate(line, b"   max-scale-down-rate ", rate, b": at least ", pods);
}

#[tactic(auto, using(crate::proofs::Pieces::three_pieces), unfolding(crate::specs::Texts::wants_text))]
fn put_wants(line: &mut Line, want: u64, ready: u64)
    requires { length line.old ≤ 40 }
    ensures value { line.new ≡ line.old ++ wants_text want ready }
    ensures short { length line.new ≤ 900 }
{
    put_pods(line, b" decision: ", want as u128);
    put_pods(line, b" wanted, ", ready as u128);
    line.put(b" ready");
}

fn put_stable(line: &mut Line, window: u64, average: Frac, target: u128, pods: u64)
    requires { length line.old ≤ 40 }
    ensures value { line.new ≡ line.old ++ stable_text window average target pods }
    ensures short { length line.new ≤ 900 }
{
    put_count(line, b"   stable window ", window as u128);
    put_frac(line, b" s: ", average);
    put_milli(line, b" requests, target ", target);
    put_pods(line, b": ", pods as u128);
}

#[tactic(auto, using(crate::proofs::Pieces::three_pieces), unfolding(crate::specs::Texts::panic_text))]
fn put_panic(line: &mut Line, window: u64, average: Frac, pods: u64)
    requires { length line.old ≤ 40 }
    ensures value { line.new ≡ line.old ++ panic_text window average pods }
    ensures short { length line.new ≤ 900 }
{
    put_count(line, b"   panic window ", window as u128);
    put_frac(line, b" s: ", average);
    put_pods(line, b" requests: ", pods as u128);
}

fn put_over(line: &mut Line, pods: u64, ready: u64, threshold: Milli)
    requires { length line.old ≤ 40 }
    ensures value { line.new ≡ line.old ++ over_text pods ready threshold.0 }
    ensures short { length line.new ≤ 900 }
{
    put_pods(line, b"   panic: ", pods as u128);
    put_count(line, b" asked for, ", ready as u128);
    put_milli(line, b" ready: at least ", threshold.0 as u128);
    line.put(b" per cent");
}

fn put_active(line: &mut Line, passed: u64, window: u64, pods: u64)
    requires { length line.old ≤ 40 }
    ensures value { line.new ≡ line.old ++ active_text passed window pods }
    ensures short { length line.new ≤ 900 }
{
    put_count(line, b"   active for ", passed as u128);
    put_count(line, b" of ", window as u128);
    put_pods(line, b" ms: ", pods as u128);
}

fn put_goes(line: &mut Line, passed: u64, window: u64)
    requires { length line.old ≤ 40 }
    ensures value { line.new ≡ line.old ++ goes_text passed window }
    ensures short { length line.new ≤ 900 }
{
    put_count(line, b"   active for ", passed as u128);
    put_count(line, b" ms, ", window as u128);
    line.put(b" at least: goes inactive, and the pods stay for now");
}

fn put_not_yet(line: &mut Line, passed: u64, grace: u64, retention: u64)
    requires { length line.old ≤ 40 }
    ensures value { line.new ≡ line.old ++ not_yet_text passed grace retention }
    ensures short { length line.new ≤ 900 }
{
    put_count(line, b"   inactive for ", passed as u128);
    put_count(line, b" ms, not yet long enough (grace ", grace as u128);
    put_count(line, b", retention ", retention as u128);
    line.put(b"): the pods stay");
}

fn put_total(line: &mut Line, seats: &Seats)
    requires { length line.old ≤ 40 }
    ensures value { line.new ≡ line.old ++ total_text seats.now }
    ensures short { length line.new ≤ 300 }
{
    put_count(line, b"   burst capacity: ", seats.ready as u128);
    put_milli(line, b" ready of ", seats.total.0 as u128);
}

#[tactic(auto, using(std::proofs::Common::append_assoc), unfolding(crate::specs::Texts::less_text))]
fn put_less(line: &mut Line, seats: &Seats)
    requires { length line.old ≤ 300 }
    ensures value { line.new ≡ line.old ++ less_text seats.now }
    ensures short { length line.new ≤ 600 }
{
    put_milli(line, b", less ", seats.capacity.0 as u128);
    put_frac(line, b", less ", seats.average);
}

/// A signed number.
#[tactic(auto, using(std::proofs::Common::append_assoc), unfolding(kn_event::specs::EntryLine::labelled))]
fn put_signed(line: &mut Line, words: &[u8], n: i64)
    requires { length line.old + length words.now ≤ 900 }
    ensures value { line.new ≡ line.old ++ labelled words.now (signed_decimal n) }
    ensures short { length line.new ≤ length line.old + length words.now + 40 }
{
    line.put(words);
    line.put_integer(n);
}

#[tactic(auto, using(std::proofs::Common::append_assoc), unfolding(crate::specs::Texts::left_text))]
fn put_left(line: &mut Line, seats: &Seats)
    requires { length line.old ≤ 600 }
    ensures value { line.new ≡ line.old ++ left_text seats.now }
    ensures short { length line.new ≤ 900 }
{
    put_signed(line, b": ", seats.excess);
    put_way(line, b" left: ", seats.mode);
}

#[tactic(auto, using(crate::proofs::Pieces::three_pieces), unfolding(crate::specs::Texts::burst_text))]
fn put_burst(line: &mut Line, seats: &Seats)
    requires { length line.old ≤ 40 }
    ensures value { line.new ≡ line.old ++ burst_text seats.now }
    ensures short { length line.new ≤ 900 }
{
    put_total(line, seats);
    put_less(line, seats);
    put_left(line, seats);
}

impl Reason {
    /// Sets the line to its own at this time, with its LF.
    #[tactic(auto, using(crate::proofs::Pieces::three_pieces), unfolding(crate::specs::Texts::line_text))]
    pub fn set_line(&self, time: u64, line: &mut Line)
        ensures { line.new ≡ line_text time self.now }
    {
        line.clear();
        line.put_integer(time);
        self.put(line);
        line.put(b"\n");
    }

    /// Adds what stands behind the time.
    #[tactic(auto, unfolding(crate::specs::Texts::reason_text))]
    fn put(&self, line: &mut Line)
        requires { length line.old ≤ 40 }
        ensures value { line.new ≡ line.old ++ reason_text self.now }
        ensures short { length line.new ≤ 900 }
    {
        match *self {
            Reason::Wants(want, ready) => put_wants(line, want, ready),
            Reason::Stable(s, mean, target, pods) => put_stable(line, s, mean, target, pods),
            Reason::UpRate(rate, pods) => put_up_rate(line, rate, pods),
            Reason::DownRate(rate, pods) => put_down_rate(line, rate, pods),
            Reason::Activation(n) => put_setting(line, b"   activation-scale ", n, b": ", n),
            Reason::Panic(s, mean, pods) => put_panic(line, s, mean, pods),
            Reason::Over(pods, ready, threshold) => put_over(line, pods, ready, threshold),
            Reason::GoesOn(pods) => put_end(line, b"   panic goes on: not below ", pods),
            Reason::Most(pods) => put_most(line, pods),
            Reason::Delay(s, pods) => put_delay(line, s, pods),
            Reason::Initial(n, pods) => put_initial(line, n, pods),
            Reason::Min(n, pods) => put_setting(line, b"   min-scale ", n, b": ", pods),
            Reason::Max(n, pods) => put_setting(line, b"   max-scale ", n, b": ", pods),
            Reason::Ceiling(pods) => put_end(line, b"   no more than ", pods),
            Reason::NoZero(pods) => put_end(line, b"   scale to zero is off: ", pods),
            Reason::Waits(pods) => put_end(line, b"   activating: stays at ", pods),
            Reason::Active(passed, window, pods) => put_active(line, passed, window, pods),
            Reason::GoesInactive(passed, window) => put_goes(line, passed, window),
            Reason::Inactive(passed, pods) => put_inactive(line, passed, pods),
            Reason::NotYet(ms, grace, retention) => put_not_yet(line, ms, grace, retention),
            Reason::Burst(seats) => put_burst(line, &seats),
            Reason::BurstUnlimited(way) => put_way(line, b"   burst capacity unlimited: ", way),
            Reason::BurstOff(way) => put_way(line, b"   no burst capacity asked for: ", way),
            Reason::Change(lever) => put_lever(line, lever),
        }
    }
}
