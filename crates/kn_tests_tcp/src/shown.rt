//! Acts, one after another, and what comes of each. One that begins with `until` is tried until it goes well, for ten seconds at most.

use crate::answers::Answer;
use crate::words::{Act, act_of, number};
use std::time::{Duration, Instant};
use std::{io, thread};

/// How often an act is tried at most, and how many milliseconds pass in between.
const TRIES: u32 = 200;

const PAUSE_MS: u64 = 50;

/// What acts are shown of.
pub trait Shown {
    /// What comes of an act of the one at this place.
    fn act(&mut self, rt: &HostRuntime, act: Act<'_>, place: u64) -> Answer;
}

/// What comes of an act that is tried so often at most.
fn answer_of<S: Shown>(
    rt: &HostRuntime,
    shown: &mut S,
    act: Act<'_>,
    place: u64,
    tries: u32,
) -> Answer {
    let mut answer = shown.act(rt, act, place);
    for _ in 1..tries {
        if let Answer::Is(true) = answer {
            break;
        }
        thread::sleep(rt, Duration::from_millis(PAUSE_MS));
        answer = shown.act(rt, act, place);
    }
    answer
}

/// Shows what comes of an act, of each where several do it, and whether a caller took a second for it.
fn show_act<S: Shown>(rt: &HostRuntime, shown: &mut S, text: &str) -> io::Result<()> {
    let (text_of_act, tries) = match text.strip_prefix("until ") {
        Some(rest) => (rest, TRIES),
        None => (text, 1),
    };
    let act = act_of(text_of_act);
    let (first, last) = act.place.split_once('-').unwrap_or((act.place, act.place));
    let since = Instant::now(rt)?;
    print!(rt; "  {text}:")?;
    for place in number(first)..=number(last) {
        let answer = answer_of(rt, shown, act, place, tries);
        print!(rt; " {answer}")?;
    }
    let is_long = act.who == "caller" && since.elapsed(rt)? >= Duration::from_secs(1);
    println!(rt; "{}", if is_long { ", a second later" } else { "" })
}

/// Shows one act after another.
pub fn show_acts<S: Shown>(rt: &HostRuntime, shown: &mut S, acts: &str) -> io::Result<()> {
    for text in acts.split(", ") {
        show_act(rt, shown, text)?;
    }
    Ok(())
}
