//! What opens a session over TCP: a socket that all slots' callers share, and links to the pods, of one revision or of several.
#![tactic(auto)]

mod sockets;
mod tcp_opener;
mod tcp_wide_opener;

pub use sockets::link;
pub use tcp_opener::TcpOpener;
pub use tcp_wide_opener::TcpWideOpener;
