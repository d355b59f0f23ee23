//! What requests and replies over HTTP have in common: names in any case, first lines, numbers in digits, and bodies in chunks.
#![tactic(auto)]

mod chunks;
mod laws;
mod names;
mod numbers;
mod parts;

pub use chunks::{Chunk, next_chunk};
pub use laws::chunks_are_determined;
pub use names::{is_named, is_of_connection, is_word};
pub use numbers::number;
pub use parts::{Bounds, Front, line_end, size_line, trailer};
