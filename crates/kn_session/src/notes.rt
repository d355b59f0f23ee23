//! Who is told what became of each request.
use kn_request::Served;
use std::sync::Wait;

/// Is told what became of each request.
pub trait Notes {
    /// What became of one. It promises nothing.
    fn note<R: Wait>(&self, rt: &R, served: &Served);
}

/// Keeps nothing.
#[derive(Clone, Copy, Drop)]
pub struct NoNotes;

impl Notes for NoNotes {
    fn note<R: Wait>(&self, _rt: &R, _served: &Served) {}
}
