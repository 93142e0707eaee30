//! Replies that wait to be sent.

ghost use Rattle.std.specs.Prelude.{◌≡◌, ◌≤◌, ◌<◌, ◌^◌, ◌++◌, [], IfNone, IfSome, List, OnErr};
ghost use Rattle.std.specs.Prelude.{OnOk, drop, false, length, map, nat_lt, refl, true, ℕ, ℤ};
ghost use Rattle.std.specs.Io.{StartsWith};
ghost use Rattle.wire_msg.specs.{canonical, message_len};
ghost use Rattle.wire_peer.specs.AnswerLists.{answers_of};
ghost use Rattle.wire_peer.specs.Chains.{ReplyState, chain, id_after, id_after_one, is_longer};
ghost use Rattle.wire_peer.specs.Chains.{reply, written};
ghost use Rattle.wire_peer.specs.Contents.{buf_content};
ghost use Rattle.wire_peer.specs.Replying.{PushStep};

use crate::answer_list::Answers;
use crate::limits::MAX_ID;
use std::alloc::Global;
use std::marker::Model;
use thiserror::Error;
use wire_msg::{MsgFlags, PayloadBuf};
use wire_stream::{OutBuf, Outlet};

/// Why replies aren't appended.
#[derive(Clone, Copy, Debug, PartialEq, Eq, Error)]
pub enum ReplyRefusal {
    /// One of them has more bytes than the limit.
    #[error("a reply is too large")]
    TooLarge,
    /// The allocator refused memory.
    #[error("out of memory")]
    OutOfMemory,
}

/// Returns the id after `id`.
fn id_after_one(id: u32) -> u32
    requires { id < 2 ^ 31 }
    ensures next { result ≡ id_after_one id }
    ensures range { (1 ≤ result) × (result < 2 ^ 31) }
{
    if id < MAX_ID { id + 1 } else { 1 }
}

/// Holds the replies of one connection until they are sent, and the id of the next one: from 1 to
/// 2,147,483,647, and then 1 again.
#[derive(Drop)]
pub struct ReplyBuf {
    out: OutBuf,
    next: u32,
    limit: u32,
}

impl Model for ReplyBuf {
    ghost use Rattle.std.specs.Prelude.{◌≤◌, ◌<◌, ◌^◌};
    ghost use Rattle.wire_peer.specs.Chains.{ReplyState};

    ghost Value = { ReplyState };

    ghost view = { λ s. record {
      output = s.out;
      next = s.next;
      limit = s.limit;
    } };

    ghost invariant = { λ s. (1 ≤ s.next) × (s.next < 2 ^ 31) };
}

impl ReplyBuf {
    /// Returns a buffer without replies, whose first reply has id 1. No reply may have more than
    /// `limit` bytes. It takes no memory.
    pub fn new(alloc: Global, limit: u32) -> ReplyBuf
        ensures { result ≡ record { output = []; next = 1; limit = limit } }
    {
        ReplyBuf {
            out: OutBuf::new(alloc),
            next: 1,
            limit,
        }
    }

    /// Returns the bytes that weren't sent yet.
    pub fn output(&self) -> &[u8]
        ensures { result.now ≡ self.now.output }
    {
        self.out.output()
    }

    /// Takes the first `n` bytes off, since they were sent.
    pub fn sent(&mut self, n: usize)
        requires { n ≤ length self.old.output }
        ensures { self.new ≡ record {
          output = drop n self.old.output;
          next = self.old.next;
          limit = self.old.limit;
        } }
    {
        self.out.sent(n);
    }

    /// Appends the answers to the request of this id as replies. The first one's responseTo is
    /// `id`, and that of each later one the requestID of the reply before it; moreToCome is set on
    /// all but the last.
    ///
    /// # Errors
    ///
    /// `TooLarge` if one of the replies has more bytes than the limit, and else `OutOfMemory`.
    /// Nothing is appended then.
    pub fn push(&mut self, id: i32, answers: &Answers) -> Result<(), ReplyRefusal>
        ensures { PushStep id (answers_of answers.now) result self.old self.new }
    {
        let answers = answers.as_slice();
        if is_one_too_long(answers, self.limit) {
            return Err(ReplyRefusal::TooLarge);
        }
        let start = self.out.output().len();
        match write_chain(&mut self.out, self.next, id, answers, self.limit) {
            Some(next) => {
                self.next = next;
                Ok(())
            }
            None => {
                self.out.keep(start);
                Err(ReplyRefusal::OutOfMemory)
            }
        }
    }
}

/// Returns true if a message with this payload is longer than the limit.
fn is_too_long(answer: &PayloadBuf, limit: u32) -> bool
    ensures { result ≡ nat_lt limit (message_len (buf_content answer.now)) }
{
    answer.as_payload().msg_len() > limit as u64
}

/// Returns true if a message with one of these payloads is longer than the limit.
fn is_one_too_long(answers: &[PayloadBuf], limit: u32) -> bool
    ensures { (id : ℕ) (to : ℤ)
        → result ≡ is_longer limit (chain id to (map buf_content answers.now)) }
{
    let mut rest = answers;
    while let Some((answer, others)) = rest.split_first() {
        if is_too_long(answer, limit) {
            return true;
        }
        rest = others;
    }
    false
}

/// Appends one reply with this payload. Returns false where memory is refused; then nothing is
/// appended.
fn write_reply(
    out: &mut OutBuf,
    id: u32,
    to: i32,
    more: bool,
    answer: &PayloadBuf,
    limit: u32,
) -> bool
    requires int32 { id < 2 ^ 31 }
    requires within { message_len (buf_content answer.now) ≤ limit }
    ensures added { result ≡ true
        → out.new ≡ out.old ++ canonical (reply id to more (buf_content answer.now)) }
    ensures unchanged { result ≡ false → out.new ≡ out.old }
{
    let flags = MsgFlags {
        more_to_come: more,
        exhaust_allowed: false,
    };
    out.push_msg(id as i32, to, flags, answer.as_payload(), limit)
        .is_ok()
}

/// Appends replies with ids from `first` on, the first to `to` and each later one to the reply
/// before it. Returns the id that is next after them, or `None` where memory is refused; then some
/// of their bytes may stand in `out`.
fn write_chain(
    out: &mut OutBuf,
    first: u32,
    to: i32,
    answers: &[PayloadBuf],
    limit: u32,
) -> Option<u32>
    requires range { (1 ≤ first) × (first < 2 ^ 31) }
    requires within { is_longer limit (chain first to (map buf_content answers.now)) ≡ false }
    ensures range { IfSome result (λ next. (1 ≤ next) × (next < 2 ^ 31)) }
    ensures next { IfSome result (λ next. next ≡ id_after first (map buf_content answers.now)) }
    ensures added { IfSome result (λ _.
        out.new ≡ out.old ++ written (chain first to (map buf_content answers.now))) }
    ensures kept { IfNone result (StartsWith out.new out.old) }
{
    let mut next = first;
    let mut to = to;
    let mut rest = answers;
    while let Some((answer, others)) = rest.split_first() {
        if !write_reply(out, next, to, !others.is_empty(), answer, limit) {
            return None;
        }
        to = next as i32;
        next = id_after_one(next);
        rest = others;
    }
    Some(next)
}

impl Outlet for ReplyBuf {
    ghost waiting = { λ s. s.output };

    ghost with_waiting = { λ s bytes. record s { output = bytes } };

    ghost waits = { λ o bytes. refl };

    ghost unchanged = { λ o. refl };

    ghost last = { λ o first then. refl };

    fn output(&self) -> &[u8] {
        ReplyBuf::output(self)
    }

    fn sent(&mut self, n: usize) {
        ReplyBuf::sent(self, n);
    }
}
