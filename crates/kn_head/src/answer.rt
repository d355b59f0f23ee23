//! The answers that are made here, and not by a pod.
ghost use Rattle.std.specs.Prelude.{◌≡◌, IfOk};
ghost use Rattle.kn_head.specs.Answers.{answered, answer_for, code_of};

use crate::head::HeadError;
use http::StatusCode;
use kn_event::{Memory, Text};
use std::alloc::Global;

/// An answer to a request that no pod answers.
#[derive(Clone, Copy)]
pub enum Answer {
    BadHead,
    NoSuchRevision,
    BodyTooLong,
    HeadTooLong,
    BadCoding,
    LinkFailed,
    QueueFull,
    Overload,
    Expired,
    HistoryFull,
}

impl Answer {
    /// The status of the answer, of whose line `statuses_are_named` speaks.
    pub fn status(self) -> StatusCode
        ensures { result ≡ code_of self }
    {
        match self {
            Answer::BadHead => StatusCode::BAD_REQUEST,
            Answer::NoSuchRevision => StatusCode::NOT_FOUND,
            Answer::BodyTooLong => StatusCode::PAYLOAD_TOO_LARGE,
            Answer::HeadTooLong => StatusCode::REQUEST_HEADER_FIELDS_TOO_LARGE,
            Answer::BadCoding => StatusCode::NOT_IMPLEMENTED,
            Answer::LinkFailed => StatusCode::BAD_GATEWAY,
            Answer::QueueFull => StatusCode::SERVICE_UNAVAILABLE,
            Answer::Overload => StatusCode::SERVICE_UNAVAILABLE,
            Answer::Expired => StatusCode::SERVICE_UNAVAILABLE,
            Answer::HistoryFull => StatusCode::INSUFFICIENT_STORAGE,
        }
    }

    /// The whole answer: its status line, three fields, an empty line and the text.
    pub fn bytes(self) -> &'static [u8]
        ensures { result.now ≡ answered self }
    {
        match self {
            Answer::BadHead =>
                b"HTTP/1.1 400 Bad Request\r\nContent-Type: text/plain\r\nContent-Length: 11\r\nConnection: close\r\n\r\nbad request",
            Answer::NoSuchRevision =>
                b"HTTP/1.1 404 Not Found\r\nContent-Type: text/plain\r\nContent-Length: 16\r\nConnection: close\r\n\r\nunknown revision",
            Answer::BodyTooLong =>
                b"HTTP/1.1 413 Payload Too Large\r\nContent-Type: text/plain\r\nContent-Length: 21\r\nConnection: close\r\n\r\nrequest body too long",
            Answer::HeadTooLong =>
                b"HTTP/1.1 431 Request Header Fields Too Large\r\nContent-Type: text/plain\r\nContent-Length: 21\r\nConnection: close\r\n\r\nrequest head too long",
            Answer::BadCoding =>
                b"HTTP/1.1 501 Not Implemented\r\nContent-Type: text/plain\r\nContent-Length: 32\r\nConnection: close\r\n\r\ntransfer coding is not supported",
            Answer::LinkFailed =>
                b"HTTP/1.1 502 Bad Gateway\r\nContent-Type: text/plain\r\nContent-Length: 15\r\nConnection: close\r\n\r\npod call failed",
            Answer::QueueFull =>
                b"HTTP/1.1 503 Service Unavailable\r\nContent-Type: text/plain\r\nContent-Length: 26\r\nConnection: close\r\n\r\npending request queue full",
            Answer::Overload =>
                b"HTTP/1.1 503 Service Unavailable\r\nContent-Type: text/plain\r\nContent-Length: 17\r\nConnection: close\r\n\r\ntoo many requests",
            Answer::Expired =>
                b"HTTP/1.1 503 Service Unavailable\r\nContent-Type: text/plain\r\nContent-Length: 27\r\nConnection: close\r\n\r\ntimed out waiting for a pod",
            Answer::HistoryFull =>
                b"HTTP/1.1 507 Insufficient Storage\r\nContent-Type: text/plain\r\nContent-Length: 12\r\nConnection: close\r\n\r\nhistory full",
        }
    }
}

/// A copy of an answer's bytes.
pub fn answer_bytes(alloc: Global, answer: Answer) -> Result<Text, Memory>
    ensures { IfOk result (λ bytes. bytes ≡ answered answer) }
{
    match Vec::from_slice(alloc, answer.bytes()) {
        Ok(bytes) => Ok(Text::new(bytes)),
        Err(_) => Err(Memory),
    }
}

impl HeadError {
    /// The answer to a head that can't be served: none after a fault of the source or for want of memory.
    pub fn answer(self) -> Option<Answer>
        ensures { result ≡ answer_for self }
    {
        match self {
            HeadError::ReadFault | HeadError::Memory => None,
            HeadError::Malformed | HeadError::EndedEarly | HeadError::NoRevision => Some(
                Answer::BadHead,
            ),
            HeadError::BadLength | HeadError::BadChunk => Some(Answer::BadHead),
            HeadError::TooLong => Some(Answer::HeadTooLong),
            HeadError::BodyTooLong => Some(Answer::BodyTooLong),
            HeadError::BadCoding => Some(Answer::BadCoding),
        }
    }
}
