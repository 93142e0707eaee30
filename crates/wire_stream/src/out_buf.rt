//! Holds messages until they are sent.

ghost use Rattle.std.specs.Prelude.{◌≡◌, ◌≤◌, ◌++◌, [], IfErr, List, OnErr, OnOk, drop, length};
ghost use Rattle.std.specs.Prelude.{refl, take, vec_capacity, vec_len, ℕ};
ghost use Rattle.wire_msg.specs.{Carries, Content, IsWriteRefusal, Message, canonical, message_len};

use crate::outlet::Outlet;
use std::alloc::Global;
use std::marker::Model;
use wire_msg::{MsgFlags, MsgRefusal, Payload, write_msg};

/// The number of sent bytes that are kept before the others are moved to the front.
const KEPT: usize = 4096;

/// The most room that is kept once all bytes were sent.
const ROOM: usize = 64 * 1024;

/// Bytes that wait to be sent. Contracts see those that weren't sent yet.
#[derive(Drop)]
pub struct OutBuf {
    bytes: Vec<u8>,
    /// The number of them that were sent.
    start: usize,
}

impl Model for OutBuf {
    ghost use Rattle.std.specs.Prelude.{List, ℕ, ◌≤◌, ◌+◌, ◌-◌, drop, length};

    ghost Value = { List ℕ };

    ghost view = { λ s. drop s.start s.bytes.items };

    // At most 4,096 more bytes that were sent are kept than wait.
    ghost invariant = { λ s. record {
      within : s.start ≤ length s.bytes.items;
      kept : s.start ≤ 4096 + (length s.bytes.items - s.start);
    } };
}

impl OutBuf {
    /// Makes an empty buffer. Takes no memory.
    pub fn new(alloc: Global) -> OutBuf
        ensures { result ≡ [] }
    {
        OutBuf {
            bytes: Vec::new(alloc),
            start: 0,
        }
    }

    /// Appends a message, in its canonical spelling.
    ///
    /// # Errors
    ///
    /// Returns `TooLarge` if the message has more than `limit` bytes, and otherwise `OutOfMemory`.
    /// Nothing is appended then.
    pub fn push_msg(
        &mut self,
        id: i32,
        response_to: i32,
        flags: MsgFlags,
        payload: Payload<'_>,
        limit: u32,
    ) -> Result<(), MsgRefusal>
        ensures written { (c : Content) → Carries payload.entry c
            → OnOk result (self.new ≡ self.old ++ canonical (record {
              id = id;
              response_to = response_to;
              flags = flags;
              content = c;
            })) }
        ensures within { (c : Content) → Carries payload.entry c
            → OnOk result (message_len c ≤ limit) }
        ensures refused { (c : Content) → Carries payload.entry c
            → IfErr result (λ e. IsWriteRefusal limit (message_len c) e) }
        ensures unchanged { OnErr result (self.new ≡ self.old) }
    {
        write_msg(&mut self.bytes, id, response_to, flags, payload, limit)
    }

    /// Returns the bytes that weren't sent yet.
    pub fn output(&self) -> &[u8]
        ensures { result.now ≡ self.now }
    {
        &self.bytes[self.start..]
    }

    /// Drops the first `n` bytes, which were sent.
    ///
    /// Bytes are moved only if at least as many were sent since the last move, so the cost of each
    /// byte is constant, however many wait.
    pub fn sent(&mut self, n: usize)
        requires { n ≤ length self.old }
        ensures { self.new ≡ drop n self.old }
    {
        let start = self.start + n;
        let len = self.bytes.len();
        if start == len {
            empty(&mut self.bytes);
            self.start = 0;
        } else if start >= KEPT && start >= len - start {
            remove_front(&mut self.bytes, start);
            self.start = 0;
        } else {
            self.start = start;
        }
    }

    /// Keeps the first `n` of the waiting bytes, and drops the others.
    pub fn keep(&mut self, n: usize)
        requires { n ≤ length self.old }
        ensures { self.new ≡ take n self.old }
    {
        self.bytes.truncate(self.start + n);
        if self.start >= KEPT && self.start >= n {
            remove_front(&mut self.bytes, self.start);
            self.start = 0;
        }
    }
}

/// Drops the bytes, and gives the room back if there is much.
fn empty(bytes: &mut Vec<u8>)
    ensures empty { bytes.new.items ≡ [] }
    ensures room { vec_capacity bytes.new ≤ 65536 }
{
    if bytes.capacity() > ROOM {
        let alloc = *bytes.allocator();
        *bytes = Vec::new(alloc);
    } else {
        bytes.clear();
    }
}

/// Drops the first `count` bytes, and moves the others to the front.
fn remove_front(bytes: &mut Vec<u8>, count: usize)
    requires { count ≤ vec_len bytes.old }
    ensures { bytes.new.items ≡ drop count bytes.old.items }
{
    let len = bytes.len();
    bytes.as_mut_slice().copy_within(count..len, 0);
    bytes.truncate(len - count);
}

impl Outlet for OutBuf {
    ghost waiting = { λ s. s };

    ghost with_waiting = { λ s bytes. bytes };

    ghost waits = { λ o bytes. refl };

    ghost unchanged = { λ o. refl };

    ghost last = { λ o first then. refl };

    fn output(&self) -> &[u8] {
        OutBuf::output(self)
    }

    fn sent(&mut self, n: usize) {
        OutBuf::sent(self, n);
    }
}
