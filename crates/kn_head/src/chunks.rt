//! A body in chunks.
ghost use Rattle.std.specs.Prelude.{◌≡◌, ℕ, ◌≤◌, List, Option, vec_len, true, false, Ok, IfOk, IfErr, IfSome, OnOk};
ghost use Rattle.kn_io.specs.Causes.{Rose};
ghost use Rattle.kn_http.specs.Parts.{TrailerCut};
ghost use Rattle.kn_head.specs.Told.{Stops};
ghost use Rattle.kn_head.specs.Rules.{body_limit};
ghost use Rattle.kn_head.specs.Chunks.{request_bounds, SaysSize, IsTrailer, BeginsWithLineEnd, SizeFails, TrailerFails, BytesFail, LineEndFails, ChunksFail};
ghost use Rattle.kn_head.specs.Calls.{DrawsSource, TakesFront, IsFaultIn, AddsBytes, Decodes, EndsBody, TakesBody};

use crate::head::HeadError;
use crate::lines::line_feeds;
use crate::window::Window;
use kn_http::{Bounds, Front, line_end, size_line, trailer};
use kn_io::Source;
use std::alloc::Global;

/// A size line has at most 1,024 bytes, and a trailer as many fields and bytes as a head.
const BOUNDS: Bounds = Bounds {
    line: Some(1024),
    fields: 100,
    trailer: Some(16384),
};

/// Why there is no trailer where the source stopped after these bytes: where it ended, more than 100 fields may have come.
fn cut_trailer(stop: HeadError, bytes: &[u8]) -> HeadError
    requires { TrailerCut request_bounds bytes.now }
    ensures why { (known : Option (List ℕ)) → Stops bytes.now known stop → IfSome known (λ all. TrailerFails all result) }
    ensures fault { result ≡ HeadError.ReadFault → stop ≡ HeadError.ReadFault }
{
    match stop {
        HeadError::EndedEarly if line_feeds(bytes) > 100 => HeadError::BadChunk,
        _ => stop,
    }
}

/// Takes a size line, in whatever pieces it comes.
fn take_size<S: Source>(source: &mut S, window: &mut Window) -> Result<u64, HeadError>
    ensures line { IfOk result (λ n. TakesFront (SaysSize n) window.old window.new S.Source.own source.old source.new) }
    ensures fails { IfErr result (IsFaultIn SizeFails window.old S.Source.own source.old) }
    ensures fault { result ≡ Err HeadError.ReadFault → Rose (S.Faulty.faults source.old) (S.Faulty.faults source.new) }
    ensures source { DrawsSource S.Source.own S.Faulty source.old source.new }
{
    'pieces: loop {
        match size_line(window.bytes(), BOUNDS) {
            Front::Whole((end, size)) => {
                window.advance(end);
                return Ok(size);
            }
            Front::Cut => {}
            Front::Never => return Err(HeadError::BadChunk),
        }
        match window.fill(source) {
            Ok(()) => {}
            Err(e) => return Err(e),
        }
    }
}

/// Takes a trailer, in whatever pieces it comes, and drops it.
fn take_trailer<S: Source>(source: &mut S, window: &mut Window) -> Result<(), HeadError>
    ensures trailer { OnOk result (TakesFront IsTrailer window.old window.new S.Source.own source.old source.new) }
    ensures fails { IfErr result (IsFaultIn TrailerFails window.old S.Source.own source.old) }
    ensures fault { result ≡ Err HeadError.ReadFault → Rose (S.Faulty.faults source.old) (S.Faulty.faults source.new) }
    ensures source { DrawsSource S.Source.own S.Faulty source.old source.new }
{
    'pieces: loop {
        match trailer(window.bytes(), BOUNDS) {
            Front::Whole(end) => {
                window.advance(end);
                return Ok(());
            }
            Front::Cut => {}
            Front::Never => return Err(HeadError::BadChunk),
        }
        match window.fill(source) {
            Ok(()) => {}
            Err(e) => return Err(cut_trailer(e, window.bytes())),
        }
    }
}

/// Takes CR LF, in whatever pieces it comes.
fn take_line_end<S: Source>(source: &mut S, window: &mut Window) -> Result<(), HeadError>
    ensures end { OnOk result (TakesFront BeginsWithLineEnd window.old window.new S.Source.own source.old source.new) }
    ensures fails { IfErr result (IsFaultIn LineEndFails window.old S.Source.own source.old) }
    ensures fault { result ≡ Err HeadError.ReadFault → Rose (S.Faulty.faults source.old) (S.Faulty.faults source.new) }
    ensures source { DrawsSource S.Source.own S.Faulty source.old source.new }
{
    'pieces: loop {
        match line_end(window.bytes()) {
            Front::Whole(end) => {
                window.advance(end);
                return Ok(());
            }
            Front::Cut => {}
            Front::Never => return Err(HeadError::BadChunk),
        }
        match window.fill(source) {
            Ok(()) => {}
            Err(e) => return Err(e),
        }
    }
}

/// Takes so many bytes, in whatever pieces they come, and adds them to `body`.
pub(crate) fn take_bytes<S: Source>(
    source: &mut S,
    window: &mut Window,
    n: usize,
    body: &mut Vec<u8>,
) -> Result<(), HeadError>
    ensures piece { OnOk result (AddsBytes n body.old body.new window.old window.new S.Source.own source.old source.new) }
    ensures fails { IfErr result (IsFaultIn (BytesFail n) window.old S.Source.own source.old) }
    ensures fault { result ≡ Err HeadError.ReadFault → Rose (S.Faulty.faults source.old) (S.Faulty.faults source.new) }
    ensures source { DrawsSource S.Source.own S.Faulty source.old source.new }
{
    let mut left = n;
    'pieces: while left > 0 {
        match window.wait(source) {
            Ok(()) => {}
            Err(e) => return Err(e),
        }
        let bytes = window.bytes();
        let count = bytes.len().min(left);
        match body.extend_from_slice(&bytes[..count]) {
            Ok(()) => {}
            Err(_) => return Err(HeadError::Memory),
        }
        window.advance(count);
        left -= count;
    }
    Ok(())
}

/// Takes one chunk and adds its bytes to `body`, or takes the last one with the trailer. Answers whether it took a chunk.
fn take_chunk<S: Source>(
    source: &mut S,
    window: &mut Window,
    body: &mut Vec<u8>,
) -> Result<bool, HeadError>
    requires { vec_len body.old ≤ body_limit }
    ensures chunk { result ≡ Ok true → Decodes body.old body.new window.old window.new S.Source.own source.old source.new }
    ensures last { result ≡ Ok false → EndsBody body.old body.new window.old window.new S.Source.own source.old source.new }
    ensures short { IfOk result (λ _. vec_len body.new ≤ body_limit) }
    ensures fails { IfErr result (IsFaultIn (ChunksFail (vec_len body.old)) window.old S.Source.own source.old) }
    ensures fault { result ≡ Err HeadError.ReadFault → Rose (S.Faulty.faults source.old) (S.Faulty.faults source.new) }
    ensures source { DrawsSource S.Source.own S.Faulty source.old source.new }
{
    let size = take_size(source, window)?;
    if size == 0 {
        return match take_trailer(source, window) {
            Ok(()) => Ok(false),
            Err(e) => Err(e),
        };
    }
    let room = 1_048_576 - body.len();
    if size > room as u64 {
        return Err(HeadError::BodyTooLong);
    }
    match take_bytes(source, window, size as usize, body) {
        Ok(()) => {}
        Err(e) => return Err(e),
    }
    match take_line_end(source, window) {
        Ok(()) => Ok(true),
        Err(e) => Err(e),
    }
}

/// Takes a body in chunks and decodes it.
pub(crate) fn take_chunks<S: Source>(
    alloc: Global,
    source: &mut S,
    window: &mut Window,
) -> Result<Vec<u8>, HeadError>
    ensures body { IfOk result (λ body. TakesBody window.old window.new S.Source.own source.old source.new body.items) }
    ensures short { IfOk result (λ body. vec_len body ≤ body_limit) }
    ensures fails { IfErr result (IsFaultIn (ChunksFail 0) window.old S.Source.own source.old) }
    ensures fault { result ≡ Err HeadError.ReadFault → Rose (S.Faulty.faults source.old) (S.Faulty.faults source.new) }
    ensures source { DrawsSource S.Source.own S.Faulty source.old source.new }
{
    let mut body = Vec::new(alloc);
    'chunks: loop {
        match take_chunk(source, window, &mut body) {
            Ok(true) => {}
            Ok(false) => return Ok(body),
            Err(e) => return Err(e),
        }
    }
}
