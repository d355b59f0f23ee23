//! The line of an event, which says first whose it is.
ghost use Rattle.std.specs.Prelude.{◌≡◌, ◌≤◌, ◌<◌, length, drop, codes, IfOk, IfSome, OnOk};
ghost use Rattle.kn_event.specs.declared.event.Act.TheVariants as act;
ghost use Rattle.kn_event.specs.EventLine.{end_due, last_outcome, outcome_of};
ghost use Rattle.kn_event.specs.Fields.{fields_behind};
ghost use Rattle.kn_slices.specs.Activators.{IsPlain};
ghost use Rattle.kn_activators.specs.Reading.{IsGroupEvent, addressee, behind_word, between, event_behind, group_event_of, last_between, own_act_behind, shared_behind};

use crate::event::GroupEvent;
use kn_event::{Act, Event, LineError, first_end, last_number, next_end, read_number};

/// More than a pod's limit may be.
const LIMIT_BOUND: u64 = 1001;

/// The number, where it is one from the least on and below the bound.
fn between(number: Option<u64>, least: u64, bound: u64) -> Option<u64>
    ensures value { result ≡ between least bound number }
    ensures least { IfSome result (λ n. least ≤ n) }
    ensures bound { IfSome result (λ n. n < bound) }
{
    match number {
        Some(n) => if least <= n && n < bound {
            Some(n)
        } else {
            None
        },
        None => None,
    }
}

/// The number of the line's last field in this range, which follows the field that ends at `at`.
fn last_between(line: &[u8], at: usize, least: u64, bound: u64) -> Result<u64, LineError>
    requires { at ≤ length line.now }
    ensures value { result ≡ last_between least bound at (fields_behind (drop at line.now)) }
    ensures least { IfOk result (λ n. least ≤ n) }
    ensures bound { IfOk result (λ n. n < bound) }
{
    let Some(end) = next_end(line, at) else {
        return Err(LineError::BadNumber(at as u64));
    };
    let Some(n) = between(read_number(&line[at + 1..end]), least, bound) else {
        return Err(LineError::BadNumber(at as u64 + 1));
    };
    match next_end(line, end) {
        Some(_) => Err(LineError::Extra(end as u64)),
        None => Ok(n),
    }
}

/// Whether a word says that a request ended well.
fn outcome_of(word: &[u8]) -> Option<bool>
    ensures { result ≡ outcome_of word.now }
{
    if word == b"ok".as_slice() {
        Some(true)
    } else if word == b"fail".as_slice() {
        Some(false)
    } else {
        None
    }
}

/// The outcome that the last field is.
fn last_outcome(line: &[u8], at: usize) -> Result<bool, LineError>
    requires { at ≤ length line.now }
    ensures { result ≡ last_outcome at (fields_behind (drop at line.now)) }
{
    let Some(end) = next_end(line, at) else {
        return Err(LineError::BadWord);
    };
    let Some(ok) = outcome_of(&line[at + 1..end]) else {
        return Err(LineError::BadWord);
    };
    match next_end(line, end) {
        Some(_) => Err(LineError::Extra(end as u64)),
        None => Ok(ok),
    }
}

/// What follows the word `finish`.
fn finish_behind(line: &[u8], at: usize) -> Result<Act, LineError>
    requires { at ≤ length line.now }
    ensures value { result ≡ own_act_behind (codes "finish") at (fields_behind (drop at line.now)) }
    ensures range { IfOk result IsPlain }
{
    let Some(end) = next_end(line, at) else {
        return Err(LineError::BadNumber(at as u64));
    };
    let Some(request) = read_number(&line[at + 1..end]) else {
        return Err(LineError::BadNumber(at as u64 + 1));
    };
    match last_outcome(line, end) {
        Ok(ok) => Ok(Act::Finish(request, ok)),
        Err(why) => Err(why),
    }
}

/// What follows the word `pass`: nothing.
fn pass_behind(line: &[u8], at: usize) -> Result<Act, LineError>
    requires { at ≤ length line.now }
    ensures value { result ≡ end_due at (fields_behind (drop at line.now)) act.Pass }
    ensures range { IfOk result IsPlain }
{
    match next_end(line, at) {
        Some(_) => Err(LineError::Extra(at as u64)),
        None => Ok(Act::Pass),
    }
}

/// What follows the word of an act of one activator.
fn own_act_behind(line: &[u8], word: &[u8], at: usize) -> Result<Act, LineError>
    requires { at ≤ length line.now }
    ensures value { result ≡ own_act_behind word.now at (fields_behind (drop at line.now)) }
    ensures range { IfOk result IsPlain }
    ensures bytes { OnOk result (4 ≤ length word.now) }
{
    if word == b"arrive".as_slice() {
        match last_number(line, at) {
            Ok(tag) => Ok(Act::Arrive(tag)),
            Err(why) => Err(why),
        }
    } else if word == b"finish".as_slice() {
        finish_behind(line, at)
    } else if word == b"cancel".as_slice() {
        match last_number(line, at) {
            Ok(request) => Ok(Act::Cancel(request)),
            Err(why) => Err(why),
        }
    } else if word == b"pass".as_slice() {
        pass_behind(line, at)
    } else {
        Err(LineError::BadWord)
    }
}

/// What follows the word `limit`: one of so many pods, and a limit that has something for each activator.
fn limit_behind(
    line: &[u8],
    at: usize,
    many: u64,
    pods: u64,
    time: u64,
) -> Result<GroupEvent, LineError>
    requires { at ≤ length line.now }
    ensures value { result ≡ shared_behind many pods time (codes "limit") at (fields_behind (drop at line.now)) }
    ensures range { IfOk result (IsGroupEvent many pods) }
{
    let Some(end) = next_end(line, at) else {
        return Err(LineError::BadNumber(at as u64));
    };
    let Some(pod) = between(read_number(&line[at + 1..end]), 0, pods) else {
        return Err(LineError::BadNumber(at as u64 + 1));
    };
    match last_between(line, end, many, LIMIT_BOUND) {
        Ok(limit) => Ok(GroupEvent::Limit(time, pod, limit)),
        Err(why) => Err(why),
    }
}

/// What follows the word of an event of all activators.
fn shared_behind(
    line: &[u8],
    word: &[u8],
    at: usize,
    many: u64,
    pods: u64,
    time: u64,
) -> Result<GroupEvent, LineError>
    requires { at ≤ length line.now }
    ensures value { result ≡ shared_behind many pods time word.now at (fields_behind (drop at line.now)) }
    ensures range { IfOk result (IsGroupEvent many pods) }
    ensures bytes { OnOk result (4 ≤ length word.now) }
{
    if word == b"ready".as_slice() {
        match last_number(line, at) {
            Ok(pod) => Ok(GroupEvent::Ready(time, pod)),
            Err(why) => Err(why),
        }
    } else if word == b"limit".as_slice() {
        limit_behind(line, at, many, pods, time)
    } else {
        Err(LineError::BadWord)
    }
}

/// What follows the word of an event of one of so many activators, or of all.
fn behind_word(
    line: &[u8],
    word: &[u8],
    at: usize,
    many: u64,
    pods: u64,
    to: Option<u64>,
    time: u64,
) -> Result<GroupEvent, LineError>
    requires within { at ≤ length line.now }
    requires one { IfSome to (λ i. i < many) }
    ensures value { result ≡ behind_word many pods to time word.now at (fields_behind (drop at line.now)) }
    ensures range { IfOk result (IsGroupEvent many pods) }
    ensures bytes { OnOk result (4 ≤ length word.now) }
{
    match to {
        Some(i) => match own_act_behind(line, word, at) {
            Ok(act) => Ok(GroupEvent::One(i, Event { time, act })),
            Err(why) => Err(why),
        },
        None => shared_behind(line, word, at, many, pods, time),
    }
}

/// The event behind the field that ends at `at`, which says whose it is.
fn event_behind(
    line: &[u8],
    at: usize,
    many: u64,
    pods: u64,
    to: Option<u64>,
) -> Result<GroupEvent, LineError>
    requires within { at ≤ length line.now }
    requires one { IfSome to (λ i. i < many) }
    ensures value { result ≡ event_behind many pods to at (fields_behind (drop at line.now)) }
    ensures range { IfOk result (IsGroupEvent many pods) }
    ensures bytes { OnOk result (6 ≤ length line.now) }
{
    let Some(time_end) = next_end(line, at) else {
        return Err(LineError::BadTime);
    };
    let Some(time) = read_number(&line[at + 1..time_end]) else {
        return Err(LineError::BadTime);
    };
    let Some(end) = next_end(line, time_end) else {
        return Err(LineError::BadWord);
    };
    behind_word(line, &line[time_end + 1..end], end, many, pods, to, time)
}

/// Whose event it is: all activators' at `-`, or that of one of so many.
#[tactic(auto, unfolding(crate::specs::Reading::addressee))]
fn addressee(field: &[u8], many: u64) -> Option<Option<u64>>
    ensures value { result ≡ addressee many field.now }
    ensures one { IfSome result (λ to. IfSome to (λ i. i < many)) }
{
    if field == b"-".as_slice() {
        return Some(None);
    }
    match read_number(field) {
        Some(i) => if i < many { Some(Some(i)) } else { None },
        None => None,
    }
}

/// The event that the line spells for one of so many activators, or for all of them, over so many pods; or its first fault.
#[tactic(auto, unfolding(crate::specs::Reading::group_event_of))]
pub fn group_event_of(line: &[u8], many: u64, pods: u64) -> Result<GroupEvent, LineError>
    ensures value { result ≡ group_event_of many pods line.now }
    ensures range { IfOk result (IsGroupEvent many pods) }
    ensures bytes { OnOk result (6 ≤ length line.now) }
{
    let end = first_end(line);
    let Some(to) = addressee(&line[..end], many) else {
        return Err(LineError::BadNumber(0));
    };
    event_behind(line, end, many, pods, to)
}
