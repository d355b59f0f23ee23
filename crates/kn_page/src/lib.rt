//! The status page of a server that goes on: whether it lives, whether it takes requests, and its metrics.
#![tactic(auto)]

mod asked;
mod lines;
mod metric;
mod metrics;
mod numbers;
mod page;
mod read;
mod reply;
mod server;
mod sheet;
mod visit;

pub use metrics::{Outer, write_metrics};
pub use page::Page;
pub use server::Server;
pub use sheet::Sheet;
