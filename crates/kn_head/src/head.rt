//! A request as it was read, and why one is refused.
use kn_event::{Items, Text};

/// Fields in their order: each is its name, as it came, and its value without spaces and tabs at both ends.
pub type Headers = Items<(Text, Text)>;

/// A request, whole.
#[derive(Drop)]
pub struct Head {
    pub method: Text,
    pub target: Text,
    /// HTTP/1.0 or HTTP/1.1: 0 or 1.
    pub minor: u8,
    /// All fields, at most 100.
    pub headers: Headers,
    /// The value of the one field `Knative-Serving-Namespace`.
    pub namespace: Text,
    /// The value of the one field `Knative-Serving-Revision`.
    pub revision: Text,
    /// At most 1,048,576 bytes, decoded where they came in chunks.
    pub body: Text,
    /// Whether the body came in chunks.
    pub chunked: bool,
}

/// Why a request is refused, or wasn't read.
#[derive(Clone, Copy)]
pub enum HeadError {
    /// The source failed.
    ReadFault,
    /// No bytes that may follow make it a head.
    Malformed,
    /// More than 100 fields come, or no head ends within 16,384 bytes.
    TooLong,
    /// The stream ends before the head or the body does.
    EndedEarly,
    /// Namespace and revision aren't named exactly once each.
    NoRevision,
    /// `Content-Length` is there more than once, isn't 1 to 19 digits, or stands beside a coding.
    BadLength,
    /// The body has more than 1,048,576 bytes.
    BodyTooLong,
    Memory,
    /// `Transfer-Encoding` isn't there exactly once with the value `chunked`.
    BadCoding,
    /// A chunk's size, the end of its data or the trailer is refused.
    BadChunk,
}
