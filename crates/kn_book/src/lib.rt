//! Which address each pod has: the book that a server keeps of its pods' addresses, and its laws.
#![tactic(auto)]

mod book;
pub mod laws;

pub use book::{Book, Holding};
