//! The log of what a handler was asked and what it answered.

ghost use Rattle.std.specs.Prelude.{◌≡◌, ◌<◌, ◌≤◌, ◌++◌, ◌∷◌, [], IfOk, List, OnOk, Some, drop, ℕ};
ghost use Rattle.std.specs.Vec.{vec_capacity, vec_len};
ghost use Rattle.wire_peer.specs.Contents.{buf_content};
ghost use Rattle.wire_peer.specs.Logs.{AskStep, IsGrown, IsLastAnswered, LogEntry, OutcomeStep};
ghost use Rattle.wire_peer.specs.Logs.{entered, log_of, outcome_of};
ghost use Rattle.wire_msg.specs.{Content};
ghost use Rattle.wire_peer.specs.AnswerLists.{answers_of};
ghost use Rattle.wire_peer.specs.Replying.{PutStep, ReplyStep};
ghost use Rattle.wire_peer.specs.Requests.{Asked, asked};

use crate::answer_list::Answers;
use crate::handlers::{Handler, HandlerStop};
use crate::reply_buf::{ReplyBuf, ReplyRefusal};
use crate::requests::Request;
use std::alloc::{AllocError, Global};
use thiserror::Error;
use wire_msg::PayloadBuf;

/// What became of a request.
#[derive(Debug, Drop)]
pub enum Outcome {
    /// The handler gave these answers.
    Answered(Answers),
    /// The handler stopped.
    Failed,
}

/// What a handler was asked, and what became of it.
#[derive(Debug, Drop)]
pub struct Entry {
    /// The connection that the request came over.
    pub connection: u64,
    /// The payload of the request.
    pub payload: PayloadBuf,
    /// The answers, or that the handler stopped.
    pub outcome: Outcome,
}

/// Why a handler gave no answers.
#[derive(Clone, Copy, Debug, PartialEq, Eq, Error)]
pub enum AskRefusal {
    /// The allocator refused the memory for an entry, so the handler wasn't asked.
    #[error("out of memory")]
    NotAsked,
    /// The handler stopped. Its entry stands.
    #[error("{0}")]
    Stopped(HandlerStop),
}

/// Why a request got no replies.
#[derive(Clone, Copy, Debug, PartialEq, Eq, Error)]
pub enum NoReplies {
    /// The allocator refused the memory for an entry, so the handler wasn't asked.
    #[error("out of memory")]
    NotAsked,
    /// The handler stopped. Its entry stands.
    #[error("{0}")]
    Stopped(HandlerStop),
    /// One of the replies has more bytes than the limit. The entry stands with the answers.
    #[error("a reply is too large")]
    TooLarge,
    /// The allocator refused the memory for the replies. The entry stands with the answers.
    #[error("out of memory")]
    NoMemory,
}

/// A handler, with the log of what it was asked and what it answered.
#[derive(Drop)]
pub struct Logged<H> {
    handler: H,
    entries: Vec<Entry>,
}

impl<H> Logged<H> {
    /// Returns the handler with a log without entries. It takes no memory.
    pub fn new(alloc: Global, handler: H) -> Logged<H>
        ensures handler { result.handler ≡ handler }
        ensures empty { log_of result.entries.items ≡ [] }
        ensures room { vec_capacity result.entries ≡ 0 }
    {
        Logged {
            handler,
            entries: Vec::new(alloc),
        }
    }

    /// Returns the entries, in order.
    pub fn entries(&self) -> &[Entry]
        ensures { result.now ≡ self.now.entries.items }
    {
        &self.entries
    }

    /// Drops the first `n` entries, which were read. The handler and the other entries stay as they
    /// are, and the room that was taken is kept.
    pub fn forget(&mut self, n: usize)
        requires { n ≤ vec_len self.old.entries }
        ensures handler { self.new.handler ≡ self.old.handler }
        ensures entries { log_of self.new.entries.items ≡ drop n (log_of self.old.entries.items) }
        ensures room { vec_capacity self.new.entries ≡ vec_capacity self.old.entries }
    {
        let _ = self.entries.drain(..n);
    }

    /// Takes room for one more entry where there is none: as much again, and for four at least.
    fn make_room(&mut self) -> Result<(), AllocError>
        ensures handler { self.new.handler ≡ self.old.handler }
        ensures entries { self.new.entries.items ≡ self.old.entries.items }
        ensures room { OnOk result (vec_len self.new.entries < vec_capacity self.new.entries) }
        ensures grown { IsGrown (vec_len self.old.entries) (vec_capacity self.old.entries)
            (vec_capacity self.new.entries) }
    {
        let count = self.entries.len();
        if count < self.entries.capacity() {
            return Ok(());
        }
        self.entries.try_reserve_exact(count.max(4))
    }

    /// Takes the room for an entry, and copies the payload of a request.
    fn room_for(&mut self, request: &Request<'_>) -> Result<PayloadBuf, AllocError>
        ensures handler { self.new.handler ≡ self.old.handler }
        ensures entries { self.new.entries.items ≡ self.old.entries.items }
        ensures room { OnOk result (vec_len self.new.entries < vec_capacity self.new.entries) }
        ensures grown { IsGrown (vec_len self.old.entries) (vec_capacity self.old.entries)
            (vec_capacity self.new.entries) }
        ensures payload { IfOk result (λ b. buf_content b ≡ (asked request.now).payload) }
    {
        self.make_room()?;
        let alloc = *self.entries.allocator();
        request.payload.to_buf(alloc)
    }
}

/// Asks a handler.
fn outcome_from<H: Handler>(
    handler: &mut H,
    alloc: Global,
    request: &Request<'_>,
) -> (Outcome, Result<(), AskRefusal>)
    ensures { OutcomeStep H.does H.stops (asked request.now) (outcome_of result.0) result.1
        handler.old handler.new }
{
    let mut answers = Answers::new(alloc);
    match handler.respond(request, &mut answers) {
        Ok(()) => (Outcome::Answered(answers), Ok(())),
        Err(stop) => (Outcome::Failed, Err(AskRefusal::Stopped(stop))),
    }
}

/// Returns the answers in the last entry, which is known to have some.
fn last_answers(entries: &[Entry]) -> &Answers
    requires { IsLastAnswered (log_of entries.now) }
    ensures { (log : List LogEntry) (connection : ℕ) (a : Asked) (answers : List Content)
        → log_of entries.now ≡ log ++ entered connection a (Some answers) ∷ []
        → answers_of result.now ≡ answers }
{
    match entries.last() {
        Some(
            Entry {
                outcome: Outcome::Answered(answers),
                ..
            },
        ) => answers,
        _ => unreachable!(),
    }
}

/// Appends the answers to a request of this id as replies. A silent request gets none.
fn put_replies(
    id: i32,
    request: &Request<'_>,
    answers: &Answers,
    replies: &mut ReplyBuf,
) -> Result<(), ReplyRefusal>
    ensures { PutStep id (asked request.now) (answers_of answers.now) result replies.old
        replies.new }
{
    if request.more_to_come {
        Ok(())
    } else {
        replies.push(id, answers)
    }
}

impl<H: Handler> Logged<H> {
    /// Asks the handler a request that came over a connection, and adds its entry. Where the log
    /// has no room for one, it takes as much again.
    ///
    /// # Errors
    ///
    /// `NotAsked` where the allocator refuses the memory for the entry: then the handler isn't
    /// asked, and nothing changes. `Stopped` where the handler stops: the entry stands as failed.
    pub fn ask(&mut self, connection: u64, request: &Request<'_>) -> Result<(), AskRefusal>
        ensures step { AskStep H.does H.stops connection (asked request.now) result
            self.old.handler (log_of self.old.entries.items)
            self.new.handler (log_of self.new.entries.items) }
        ensures room { IsGrown (vec_len self.old.entries) (vec_capacity self.old.entries)
            (vec_capacity self.new.entries) }
    {
        let Ok(payload) = self.room_for(request) else {
            return Err(AskRefusal::NotAsked);
        };
        let alloc = *self.entries.allocator();
        let (outcome, result) = outcome_from(&mut self.handler, alloc, request);
        let entry = Entry {
            connection,
            payload,
            outcome,
        };
        self.entries.push_reserved(entry);
        result
    }

    /// Asks the handler a request of this id that came over a connection, adds its entry, and
    /// appends the replies. A silent request gets none.
    ///
    /// # Errors
    ///
    /// Why there are no replies. No byte is appended then, and but for `NotAsked` the entry stands.
    pub fn reply(
        &mut self,
        connection: u64,
        id: i32,
        request: &Request<'_>,
        replies: &mut ReplyBuf,
    ) -> Result<(), NoReplies>
        ensures step { ReplyStep H.does H.stops connection id (asked request.now) result
            self.old.handler (log_of self.old.entries.items) replies.old
            self.new.handler (log_of self.new.entries.items) replies.new }
        ensures room { IsGrown (vec_len self.old.entries) (vec_capacity self.old.entries)
            (vec_capacity self.new.entries) }
    {
        self.ask(connection, request)?;
        put_replies(id, request, last_answers(&self.entries), replies)?;
        Ok(())
    }
}

impl From<AskRefusal> for NoReplies {
    ghost use Rattle.wire_peer.specs.Refusals.{of_ask};

    ghost from_gives = { λ r n. n ≡ of_ask r };

    fn from(refusal: AskRefusal) -> NoReplies {
        match refusal {
            AskRefusal::NotAsked => NoReplies::NotAsked,
            AskRefusal::Stopped(stop) => NoReplies::Stopped(stop),
        }
    }
}

impl From<ReplyRefusal> for NoReplies {
    ghost use Rattle.wire_peer.specs.Refusals.{of_push};

    ghost from_gives = { λ r n. n ≡ of_push r };

    fn from(refusal: ReplyRefusal) -> NoReplies {
        match refusal {
            ReplyRefusal::TooLarge => NoReplies::TooLarge,
            ReplyRefusal::OutOfMemory => NoReplies::NoMemory,
        }
    }
}
