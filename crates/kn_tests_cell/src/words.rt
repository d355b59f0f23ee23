//! Words of a line.
use std::alloc::{AllocError, Global};

/// What stands behind a key, as `room=`, or nothing.
pub fn value_of<'a>(line: &'a str, key: &str) -> &'a str {
    match line.split_once(key) {
        Some((_, rest)) => rest.split_once(' ').unwrap_or((rest, "")).0,
        None => "",
    }
}

/// The number behind a key, or else another.
pub fn number_of(line: &str, key: &str, other: u64) -> u64 {
    value_of(line, key).parse().unwrap_or(other)
}

/// The numbers behind a key, between which commas stand; for each that is none, another.
pub fn numbers_of(
    alloc: Global,
    line: &str,
    key: &str,
    other: u64,
) -> Result<Vec<u64>, AllocError> {
    let mut numbers = Vec::new(alloc);
    for number in value_of(line, key).split(',') {
        numbers.push(number.parse().unwrap_or(other))?;
    }
    Ok(numbers)
}
