//! `ahead`: each act is a text in the input, where `|` stands for LF and dots follow, and comes to the event that is
//! taken from its front at once, and the one that a reader of times takes which took those before it.
use crate::subject::{Subject, act_all};
use crate::words::add;
use kn_event::{Event, LastTime, Line, event_ahead, event_line};

pub fn ahead(block: &str, out: &mut String) {
    let mut last = LastTime::new();
    act_all(&mut last, block, out);
}

/// So much of a text as there is room for, and dots behind it.
fn padded(text: &str) -> [u8; 128] {
    let mut bytes = [b'.'; 128];
    for (there, byte) in bytes.iter_mut().zip(text.as_bytes()) {
        *there = if *byte == b'|' { b'\n' } else { *byte };
    }
    bytes
}

fn add_event(out: &mut String, ahead: Option<(Event, usize)>) {
    match ahead {
        Some((event, _)) => {
            let mut line = Line::new();
            event_line(&event, &mut line);
            add(out, str::from_utf8(line.bytes()).unwrap_or("?").trim_end());
        }
        None => add(out, "nothing"),
    }
}

impl Subject for LastTime {
    fn act(&mut self, line: &str, out: &mut String) {
        let bytes = padded(line.trim_start());
        add_event(out, event_ahead(&bytes));
        add(out, ", ");
        add_event(out, self.event_ahead(&bytes));
    }
}
