//! The words that a program is given.
ghost use Rattle.std.specs.Prelude.{◌≤◌, length, IfOk};

use std::alloc::AllocError;
use std::env::{Env, FillError};

/// A word of a command is shorter.
const LONGEST: usize = 64;

/// The words after the program's name, the first of them where there are more than so many. One of 64 bytes or more, and one
/// that is no text, is empty, which is no word of a command.
pub fn short_words<R: Env + AllocGlobal>(rt: &R, most: usize) -> Result<Vec<String>, AllocError>
    ensures { IfOk result (λ words. length words.items ≤ most) }
{
    let mut words = Vec::new(rt.alloc());
    let mut buffer = [0; LONGEST];
    for i in 0..most {
        let len = match rt.arg(i + 1, &mut buffer) {
            Ok(len) => len.min(LONGEST),
            Err(FillError::TooLong) => 0,
            Err(FillError::NotPresent) => break,
        };
        let word = str::from_utf8(&buffer[..len]).unwrap_or("");
        words.push(String::from_str(rt.alloc(), word)?)?;
    }
    Ok(words)
}
