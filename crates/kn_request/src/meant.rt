//! What is to be answered.
use kn_cell::Full;
use kn_event::Text;

/// What is to be answered, if the caller takes it.
#[derive(Drop)]
pub enum Meant {
    /// The pod's reply.
    Reply(Text),
    QueueFull,
    Overload,
    Expired,
    LinkFault,
    Full(Full),
    Memory,
}
