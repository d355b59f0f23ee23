//! What callers and links are told, as it is printed.
use crate::slots::Visitor;
use kn_io::MemLink;
use std::io;

/// Prints bytes behind this text.
pub fn show_bytes(rt: &HostRuntime, before: &str, bytes: &[u8]) -> io::Result<()> {
    let text = str::from_utf8(bytes).unwrap_or("not text");
    println!(rt; "{before} {text:?}")
}

/// Prints the answer to each client.
pub fn show_answers(rt: &HostRuntime, visitor: &Visitor) -> io::Result<()> {
    let caller = &visitor.caller;
    for i in 1..caller.texts() {
        show_bytes(rt, "  answered", caller.text(i))?;
    }
    Ok(())
}

/// Prints whom a link called, and with what.
pub fn show_calls(rt: &HostRuntime, link: &MemLink) -> io::Result<()> {
    for call in link.calls().unwrap_or(&[]) {
        print!(rt; "  pod {}", call.pod)?;
        show_bytes(rt, " was sent", call.request.bytes())?;
    }
    Ok(())
}
