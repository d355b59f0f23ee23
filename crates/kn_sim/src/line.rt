//! The lines of a workload that a journal has not: a word with a number, and a job.
ghost use Rattle.std.specs.Prelude.{◌≡◌, ◌≤◌, length, drop, IfOk, IfSome};
ghost use Rattle.kn_event.specs.Fields.{fields_behind};
ghost use Rattle.kn_sim.specs.Reading.{job_behind, job_of, last_within, named_of, service_most, within};

use kn_agenda::Job;
use kn_event::{LineError, first_end, next_end, read_number};

/// The longest service, in milliseconds.
const SERVICE_MOST: u64 = 3_600_000;

/// The number, where it is one from the least to the most.
fn within(number: Option<u64>, least: u64, most: u64) -> Option<u64>
    ensures value { result ≡ within least most number }
    ensures least { IfSome result (λ n. least ≤ n) }
    ensures most { IfSome result (λ n. n ≤ most) }
{
    match number {
        Some(n) => if least <= n && n <= most {
            Some(n)
        } else {
            None
        },
        None => None,
    }
}

/// The number of the line's last field, from the least to the most, which follows the field that ends at `at`.
fn last_within(line: &[u8], at: usize, least: u64, most: u64) -> Result<u64, LineError>
    requires { at ≤ length line.now }
    ensures value { result ≡ last_within least most at (fields_behind (drop at line.now)) }
    ensures least { IfOk result (λ n. least ≤ n) }
    ensures most { IfOk result (λ n. n ≤ most) }
{
    let Some(end) = next_end(line, at) else {
        return Err(LineError::BadNumber(at as u64));
    };
    let Some(n) = within(read_number(&line[at + 1..end]), least, most) else {
        return Err(LineError::BadNumber(at as u64 + 1));
    };
    match next_end(line, end) {
        Some(_) => Err(LineError::Extra(end as u64)),
        None => Ok(n),
    }
}

/// The number of the line `WORD N`, from the least to the most; or its first fault.
#[tactic(auto, unfolding(crate::specs::Reading::named_of))]
pub fn named_of(line: &[u8], word: &[u8], least: u64, most: u64) -> Result<u64, LineError>
    ensures value { result ≡ named_of word.now least most line.now }
    ensures least { IfOk result (λ n. least ≤ n) }
    ensures most { IfOk result (λ n. n ≤ most) }
{
    let end = first_end(line);
    if &line[..end] == word {
        last_within(line, end, least, most)
    } else {
        Err(LineError::BadWord)
    }
}

/// The job of this time whose tag and service follow the field that ends at `at`.
fn job_behind(line: &[u8], at: usize, time: u64) -> Result<Job, LineError>
    requires { at ≤ length line.now }
    ensures value { result ≡ job_behind time at (fields_behind (drop at line.now)) }
    ensures service { IfOk result (λ j. j.service ≤ service_most) }
{
    let Some(end) = next_end(line, at) else {
        return Err(LineError::BadNumber(at as u64));
    };
    let Some(tag) = read_number(&line[at + 1..end]) else {
        return Err(LineError::BadNumber(at as u64 + 1));
    };
    match last_within(line, end, 0, SERVICE_MOST) {
        Ok(service) => Ok(Job { time, tag, service }),
        Err(why) => Err(why),
    }
}

/// The job of the line `T job TAG SERVICE`, or its first fault.
#[tactic(auto, unfolding(crate::specs::Reading::job_of))]
pub fn job_of(line: &[u8]) -> Result<Job, LineError>
    ensures value { result ≡ job_of line.now }
    ensures service { IfOk result (λ j. j.service ≤ service_most) }
{
    let end = first_end(line);
    let Some(time) = read_number(&line[..end]) else {
        return Err(LineError::BadTime);
    };
    let Some(word_end) = next_end(line, end) else {
        return Err(LineError::BadWord);
    };
    if &line[end + 1..word_end] == b"job".as_slice() {
        job_behind(line, word_end, time)
    } else {
        Err(LineError::BadWord)
    }
}
