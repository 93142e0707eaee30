//! Tests that a reader of items stays the same after a refused allocation.
//! `scripts/checks/try-refusals` runs them with each of their allocations refused in turn. Only one
//! is refused in a run, so what is tried again succeeds.

use crate::marked::{Marked, THREE};
use framing::{FirstItem, ItemBuf, Reader, read_pieces};
use std::alloc::Global;

/// Returns true if the reader takes the front of `piece`, which has `wanted` bytes; or is refused
/// memory, and takes it when it is fed again.
fn is_fed(reader: &mut Reader<Marked>, piece: &[u8], wanted: usize) -> bool {
    match reader.feed(piece) {
        Ok(n) => n == wanted,
        Err(_) => reader.feed(piece) == Ok(wanted),
    }
}

/// Returns true if a reader reads the first item, in three parts.
fn reads_first(alloc: Global) -> bool {
    let mut reader = Reader::new(alloc, Marked);
    is_fed(&mut reader, THREE, 2)
        && is_fed(&mut reader, &THREE[2..], 1)
        && is_fed(&mut reader, &THREE[3..], 2)
        && match reader.first() {
            FirstItem::Whole { item, .. } => item == &THREE[..5],
            _ => false,
        }
}

#[test]
fn a_reader_can_be_fed_again(rt: HostRuntime) {
    assert!(rt; reads_first(rt.alloc()));
}

/// Returns true if the bytes are copied, at the second time where the first is refused memory.
fn is_copied(alloc: Global) -> bool {
    let copy = match ItemBuf::copy_of(alloc, THREE) {
        Err(_) => ItemBuf::copy_of(alloc, THREE),
        copied => copied,
    };
    match copy {
        Ok(copy) => copy.as_bytes() == THREE.as_slice(),
        Err(_) => false,
    }
}

#[test]
fn an_item_can_be_copied_again(rt: HostRuntime) {
    assert!(rt; is_copied(rt.alloc()));
}

/// Returns true if all pieces are read, at the second time where the first is refused memory.
fn are_read(alloc: Global) -> bool {
    let pieces = [&THREE[..4], &THREE[4..]];
    let read = match read_pieces(alloc, Marked, &pieces) {
        Err(_) => read_pieces(alloc, Marked, &pieces),
        read => read,
    };
    match read {
        Ok(read) => read.items.len() == 3,
        Err(_) => false,
    }
}

#[test]
fn pieces_can_be_read_again(rt: HostRuntime) {
    assert!(rt; are_read(rt.alloc()));
}
