//! Bytes that are cut into pieces.

use crate::marked::{Marked, THREE};
use framing::read_pieces;
use std::alloc::Global;

/// Returns true if bytes that are cut in two there have so many items, and so many bytes are held
/// of what follows them.
fn has_items(alloc: Global, bytes: &[u8], at: usize, items: usize, held: usize) -> bool {
    let (front, behind) = bytes.split_at(at);
    match read_pieces(alloc, Marked, &[front, behind]) {
        Ok(read) => read.items.len() == items && read.reader.held() == held,
        Err(_) => false,
    }
}

#[test]
fn items_are_read_however_they_are_cut(rt: HostRuntime) {
    for at in 0..THREE.len() {
        assert!(rt; has_items(rt.alloc(), THREE, at, 3, 0), "{at}");
    }
    for at in 0..12usize {
        assert!(rt; has_items(rt.alloc(), &THREE[..12], at, 2, 4), "{at}");
    }
}

#[test]
fn nothing_is_taken_behind_what_no_item_begins_with(rt: HostRuntime) {
    let lead = b"ab\0ba\0ab\0";
    for at in 0..lead.len() {
        assert!(rt; has_items(rt.alloc(), lead, at, 1, 2), "{at}");
    }
    let header = b"ab\0ab\x0aab\0";
    for at in 0..header.len() {
        assert!(rt; has_items(rt.alloc(), header, at, 1, 3), "{at}");
    }
}
