//! What the acts of a block are done with.
use crate::words::add;

pub trait Subject {
    /// Does what a line says, and adds what comes of it.
    fn act(&mut self, line: &str, out: &mut String);
}

/// Adds a block's first line and its acts, each with what it comes to. An act is a line that begins with a space.
pub fn act_all<S: Subject>(subject: &mut S, block: &str, out: &mut String) {
    add(out, block.lines().next().unwrap_or(""));
    add(out, "\n");
    for line in block.lines() {
        if line.starts_with(' ') {
            add(out, line);
            add(out, ": ");
            subject.act(line, out);
            add(out, "\n");
        }
    }
}
