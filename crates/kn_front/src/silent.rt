//! A connection of which nothing has come yet.

use std::net::TcpStream;
use std::time::Instant;

/// A connection of which nothing has come since it was let in.
#[derive(Drop)]
pub(crate) struct Silent {
    pub(crate) stream: TcpStream,
    pub(crate) since: Instant,
}
