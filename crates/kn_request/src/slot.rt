//! A slot, and how its requests are answered.
ghost use Rattle.std.specs.Prelude.{◌≡◌, None, false};

use kn_cell::{Full, Pass};
use kn_head::Answer;

/// How a request was answered.
#[derive(Clone, Copy, Drop)]
pub enum Served {
    /// With the pod's reply.
    Replied,
    Refused(Answer),
    LinkFault,
    CallerFault,
    Full(Full),
    Memory,
}

/// What a slot holds while it is served: its pass, and whether a round ended in a fault or in want of memory.
#[derive(Drop)]
pub struct Work {
    pub pass: Option<Pass>,
    pub fault: bool,
    pub memory: bool,
}

impl Work {
    /// Nothing so far.
    pub fn new() -> Work
        ensures pass { result.pass ≡ None }
        ensures fault { result.fault ≡ false }
        ensures memory { result.memory ≡ false }
    {
        Work {
            pass: None,
            fault: false,
            memory: false,
        }
    }
}

/// A caller, its own link to the pods, and what it holds while it is served.
#[derive(Drop)]
pub struct Slot<C, L> {
    pub caller: C,
    pub link: L,
    pub work: Work,
}

/// A caller, and for each revision a link of its own to the pods and what is held while it is served.
#[derive(Drop)]
pub struct WideSlot<C, L> {
    pub caller: C,
    pub links: Vec<L>,
    pub works: Vec<Work>,
}

/// How a request to one of several revisions was answered, and the place of the one that its head named: none where nobody was
/// met, where the head was refused, and where it names none.
#[derive(Clone, Copy, Drop)]
pub struct Ended {
    pub revision: Option<usize>,
    pub served: Served,
}
