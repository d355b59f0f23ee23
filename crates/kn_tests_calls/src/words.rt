//! The words of a line, and what is added to an answer. An answer that memory lacks for is shorter than it must be.
use kn_event::{Entry, Frac, Line, entry_line};
use std::fmt::Write;

/// The word at a place, from 0 on; empty where there is none.
pub fn word(line: &str, place: usize) -> &str {
    line.split_whitespace().nth(place).unwrap_or("")
}

/// The number at a place; 0 where there is none.
pub fn number(line: &str, place: usize) -> u64 {
    word(line, place).parse().unwrap_or(0)
}

pub fn add(out: &mut String, text: &str) {
    let _ = out.push_str(text);
}

/// Adds a number behind a text.
pub fn add_number(out: &mut String, before: &str, number: u64) {
    let _ = write!(out, "{before}{number}");
}

/// Adds a number behind a text, or `none`.
pub fn add_option(out: &mut String, before: &str, number: Option<u64>) {
    match number {
        Some(number) => add_number(out, before, number),
        None => {
            add(out, before);
            add(out, "none");
        }
    }
}

/// Adds each number, where it is known, with a space before it.
pub fn add_numbers(out: &mut String, numbers: &[Option<u64>]) {
    for number in numbers {
        if let Some(number) = number {
            add_number(out, " ", *number);
        }
    }
}

/// Adds an average, with the denominator that it has.
pub fn add_average(out: &mut String, average: &Frac) {
    let _ = write!(out, "{}/{}", average.num, average.den);
}

/// Adds the line of an entry, without its LF.
pub fn add_entry(out: &mut String, entry: &Entry) {
    let mut line = Line::new();
    entry_line(entry, &mut line);
    add(out, str::from_utf8(line.bytes()).unwrap_or("?").trim_end());
}

pub fn add_flag(out: &mut String, before: &str, flag: bool) {
    add(out, before);
    add(out, either(flag, "true", "false"));
}

pub fn either(first: bool, word: &'static str, other: &'static str) -> &'static str {
    if first { word } else { other }
}
