//! The end of an input as what tells to stop, of a pipe: `input|ACTS`, in which `gives 7`, the pipe so many bytes; `ends`, the pipe; and `over`, whether it
//! tells to stop.

use crate::answers::Answer;
use crate::shown::{Shown, show_acts};
use crate::words::Act;
use kn_door::Stop;
use kn_front::InputStop;
use std::io;
use std::io::{PipeReader, PipeWriter, Write};

/// A pipe, whose end tells to stop.
#[derive(Drop)]
struct Pipe {
    writer: Option<PipeWriter>,
    stop: InputStop<PipeReader>,
}

fn give(rt: &HostRuntime, writer: &mut PipeWriter, count: u64) -> io::Result<()> {
    let bytes = vec![in rt.alloc(); b'x'; count.min(1_000_000) as usize]?;
    writer.write_all(&bytes)
}

impl Shown for Pipe {
    fn act(&mut self, rt: &HostRuntime, act: Act<'_>, count: u64) -> Answer {
        match (act.who, &mut self.writer) {
            ("gives", Some(writer)) => Answer::of(give(rt, writer, count).is_ok()),
            ("over", _) => Answer::Is(self.stop.is_over()),
            _ => {
                self.writer = None;
                Answer::Is(true)
            }
        }
    }
}

/// Shows what is said of a new pipe.
pub fn show(rt: &HostRuntime, acts: &str) -> io::Result<()> {
    let (reader, writer) = io::pipe(rt)?;
    let mut pipe = Pipe {
        writer: Some(writer),
        stop: InputStop::new(rt, rt.alloc(), reader)?,
    };
    show_acts(rt, &mut pipe, acts)
}
