//! Tests of the texts of faults and refusals.

use std::alloc::Global;
use std::error::Error;
use std::io::ErrorKind;
use wire_stream::{LinkFault, ReadRefusal};

/// Returns true if the error is printed as this text.
fn shows<E: Error>(alloc: Global, error: &E, text: &str) -> bool {
    match format!(in alloc; "{error}") {
        Ok(shown) => shown.as_str() == text,
        Err(_) => false,
    }
}

#[test]
fn a_links_fault_tells_what_it_was(rt: HostRuntime) {
    for (kind, text) in &[
        (
            ErrorKind::ConnectionReset,
            "the link failed: connection reset",
        ),
        (ErrorKind::BrokenPipe, "the link failed: broken pipe"),
        (ErrorKind::TimedOut, "the link failed: timed out"),
        (ErrorKind::WriteZero, "the link failed: write zero"),
    ] {
        assert!(rt;
            shows(rt.alloc(), &LinkFault { kind: *kind }, text),
            "{text}"
        );
    }
}

#[test]
fn a_readers_refusal_is_printed(rt: HostRuntime) {
    assert!(rt; shows(rt.alloc(), &ReadRefusal::OutOfMemory, "out of memory"));
}
