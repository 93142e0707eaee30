//! A server of one connection: bytes come in, requests wait and are answered, and replies go out.

ghost use Rattle.std.specs.Prelude.{◌≡◌, ◌≢◌, ◌≤◌, ◌<◌, ◌↔◌, All, IfOk, IfSome, IsSome, IsTrue};
ghost use Rattle.std.specs.Prelude.{[], Ok, OnErr, Some, drop, length, refl, slice_get};
ghost use Rattle.std.specs.VecDeque.{deque_capacity, deque_len};
ghost use Rattle.wire_msg.specs.{IsMessage, IsOpen, Message, SpellsMsg, msg_bytes};
ghost use Rattle.wire_stream.specs.{CompletesHeader, StandsAt};
ghost use Rattle.wire_peer.specs.ServerAnswers.{AnswerStep, WaitsAt, cause_of};
ghost use Rattle.wire_peer.specs.Logs.{log_of};
ghost use Rattle.wire_peer.specs.Replying.{ReplyStep};
ghost use Rattle.wire_peer.specs.Requests.{asked, asked_by};
ghost use Rattle.wire_peer.specs.Servers.{IsNewServer, TakesBytes, closed_for, end_cause};
ghost use Rattle.wire_peer.specs.Servers.{new_server};
ghost use Rattle.wire_peer.specs.Limits.{IsWindow};
ghost use Rattle.wire_peer.specs.ServerParts.{IsAccepted, IsSettled, IsTakenOut};

use crate::handlers::{Handler, HandlerStop};
use crate::limits::{MAX_WINDOW, MIN_LIMIT};
use crate::log::{Logged, NoReplies};
use crate::reply_buf::ReplyBuf;
use crate::requests::{Request, request_of};
use crate::server_state::{AnswerRefusal, ServerCause, ServerRefusal, ServerState};
use std::alloc::{AllocError, Global};
use std::collections::VecDeque;
use std::marker::Model;
use wire_msg::{MAX_MESSAGE_LEN, RawMsg};
use wire_stream::{MsgBuf, MsgReader, Outlet, ReadEnd, ReadRefusal, ReaderState};

/// Serves one connection. It takes bytes, out of which requests come that wait in order; it answers
/// one that waits, by a handler, and holds the bytes of the replies until they are sent. It reads
/// and writes nothing itself.
///
/// A contract sees it as the record `ServerView`.
#[derive(Drop)]
pub struct Server {
    connection: u64,
    window: usize,
    limit: u32,
    reader: MsgReader,
    waiting: VecDeque<MsgBuf>,
    replies: ReplyBuf,
    state: ServerState,
}

impl Model for Server {
    ghost use Rattle.wire_peer.specs.Servers.{ServerView};
    ghost use Rattle.wire_peer.specs.ServerParts.{AreParts, view_of};

    ghost Value = { ServerView };

    ghost view = { λ s.
        view_of s.connection s.window s.limit s.reader s.waiting s.replies s.state };

    ghost invariant = { λ s. AreParts s.window s.limit s.reader s.waiting s.replies s.state };
}

/// Moves the message that is ready out of the reader, to the end of the waiting list.
fn accept(reader: &mut MsgReader, waiting: &mut VecDeque<MsgBuf>)
    requires ready { IsMessage reader.old.limit reader.old.held }
    requires room { deque_len waiting.old < deque_capacity waiting.old }
    ensures { IsAccepted reader.old waiting.old reader.new waiting.new }
{
    match reader.take() {
        Some(message) => waiting.push_back_reserved(message),
        None => unreachable!(),
    }
}

/// Does what follows from where the reader stands: a whole message waits from now on. Returns the
/// state of the server.
fn settle(found: ReaderState, reader: &mut MsgReader, waiting: &mut VecDeque<MsgBuf>) -> ServerState
    requires stands { StandsAt reader.old.limit reader.old.held found }
    requires room { deque_len waiting.old < deque_capacity waiting.old }
    ensures { IsSettled found reader.old waiting.old reader.new waiting.new result }
{
    match found {
        ReaderState::Need => ServerState::Open,
        ReaderState::Ready => {
            accept(reader, waiting);
            ServerState::Open
        }
        ReaderState::Bad(fault) => ServerState::Closed(ServerCause::Message(fault)),
    }
}

/// Returns the `k`-th of the messages, or `None` where there are no more than `k`.
fn message_at(waiting: &VecDeque<MsgBuf>, k: usize) -> Option<RawMsg<'_>>
    ensures found { IsSome result ↔ (k < length waiting.now.items) }
    ensures at { IfSome result (λ m. slice_get waiting.now.items k ≡ Some (msg_bytes m)) }
{
    let message = waiting.get(k)?;
    Some(message.as_msg())
}

/// Takes the `k`-th of the messages out.
fn take_out(waiting: &mut VecDeque<MsgBuf>, k: usize)
    requires { k < length waiting.old.items }
    ensures { IsTakenOut waiting.old k waiting.new }
{
    let _ = waiting.remove(k);
}

/// Asks the handler about a message, and appends its replies.
fn reply_to<H: Handler>(
    message: RawMsg<'_>,
    connection: u64,
    logged: &mut Logged<H>,
    replies: &mut ReplyBuf,
) -> Result<(), NoReplies>
    ensures step { (m : Message) → SpellsMsg m (msg_bytes message.entry)
        → ReplyStep H.does H.stops connection m.id (asked_by m) result
        logged.old.handler (log_of logged.old.entries.items) replies.old
        logged.new.handler (log_of logged.new.entries.items) replies.new }
    ensures limit { replies.new.limit ≡ replies.old.limit }
{
    logged.reply(connection, message.id(), &request_of(message), replies)
}

/// Returns the cause for which a server closes that has no replies for this reason. It has none
/// where the handler wasn't asked.
fn cause_of(reason: NoReplies) -> Option<ServerCause>
    ensures { result ≡ cause_of reason }
{
    match reason {
        NoReplies::NotAsked => None,
        NoReplies::Stopped(HandlerStop::Failed) => Some(ServerCause::HandlerFailed),
        NoReplies::Stopped(HandlerStop::OutOfMemory) => Some(ServerCause::NoMemory),
        NoReplies::TooLarge => Some(ServerCause::ReplyTooLarge),
        NoReplies::NoMemory => Some(ServerCause::NoMemory),
    }
}

impl Server {
    /// Like `new`, of numbers that are known to be good.
    ///
    /// # Errors
    ///
    /// `AllocError` where memory runs out.
    fn of(alloc: Global, connection: u64, window: usize, limit: u32) -> Result<Server, AllocError>
        requires window { IsWindow window }
        requires limit { limit ≤ MAX_MESSAGE_LEN }
        ensures { IfOk result (λ server. server ≡ new_server connection window limit) }
    {
        let waiting = VecDeque::with_capacity(alloc, window)?;
        Ok(Server {
            connection,
            window,
            limit,
            reader: MsgReader::new(alloc, limit),
            waiting,
            replies: ReplyBuf::new(alloc, limit),
            state: ServerState::Open,
        })
    }

    /// Returns a server of the connection of this number, in which at most `window` requests wait,
    /// 1 to 1,024, of messages of at most `limit` bytes, 26 to 48,000,000. It takes the memory of
    /// its waiting list.
    ///
    /// # Errors
    ///
    /// `BadWindow`, else `BadLimit`, else `OutOfMemory` where memory runs out.
    pub fn new(
        alloc: Global,
        connection: u64,
        window: usize,
        limit: u32,
    ) -> Result<Server, ServerRefusal>
        ensures { IsNewServer connection window limit result }
    {
        if window < 1 || window > MAX_WINDOW {
            return Err(ServerRefusal::BadWindow);
        }
        if limit < MIN_LIMIT || limit > MAX_MESSAGE_LEN {
            return Err(ServerRefusal::BadLimit);
        }
        match Server::of(alloc, connection, window, limit) {
            Ok(server) => Ok(server),
            Err(_) => Err(ServerRefusal::OutOfMemory),
        }
    }

    /// Takes the first bytes of `piece`, up to the end of one message or the 16th byte of a bad
    /// header, and returns how many. It takes none where the server is closed or its waiting list
    /// is full. A message that is whole then waits behind the others; bytes with a fault close the
    /// server.
    ///
    /// # Errors
    ///
    /// `OutOfMemory` where the piece completes a good header and memory runs out for the announced
    /// message. Nothing is taken then.
    pub fn feed(&mut self, piece: &[u8]) -> Result<usize, ReadRefusal>
        ensures closed { self.old.state ≢ ServerState.Open
            → (result ≡ Ok 0) × (self.new ≡ self.old) }
        ensures full { self.old.window ≤ length self.old.waiting
            → (result ≡ Ok 0) × (self.new ≡ self.old) }
        ensures taken { self.old.state ≡ ServerState.Open
            → length self.old.waiting < self.old.window
            → IfOk result (λ n. TakesBytes self.old piece.now n self.new) }
        ensures refused { OnErr result (CompletesHeader self.old.limit self.old.held piece.now) }
        ensures unchanged { OnErr result (self.new ≡ self.old) }
    {
        let ServerState::Open = self.state else {
            return Ok(0);
        };
        if self.waiting.len() >= self.window {
            return Ok(0);
        }
        let fed = self.reader.feed(piece)?;
        self.state = settle(fed.state, &mut self.reader, &mut self.waiting);
        Ok(fed.taken)
    }

    /// Returns how many requests wait.
    pub fn waiting(&self) -> usize
        ensures count { result ≡ length self.now.waiting }
        ensures within { result ≤ self.now.window }
        ensures each { All (IsMessage self.now.limit) self.now.waiting }
    {
        self.waiting.len()
    }

    /// Returns true if as many requests wait as may. The server takes no bytes then.
    pub fn is_full(&self) -> bool
        ensures { IsTrue result ↔ (self.now.window ≤ length self.now.waiting) }
    {
        self.waiting.len() >= self.window
    }

    /// Returns the `k`-th request that waits, counted from 0, or `None` where no more than `k`
    /// wait.
    pub fn request(&self, k: usize) -> Option<Request<'_>>
        ensures found { IsSome result ↔ (k < length self.now.waiting) }
        ensures shown { (m : Message) → WaitsAt self.now k m
            → IfSome result (λ r. asked r ≡ asked_by m) }
    {
        let message = message_at(&self.waiting, k)?;
        Some(request_of(message))
    }

    /// Answers the `k`-th request that waits, counted from 0. The handler is asked, its log gets an
    /// entry, the request leaves the list, which closes up, and its replies are put out; a request
    /// that wants none gets none. Returns the entry's number.
    ///
    /// # Errors
    ///
    /// `Closed` where the server is closed; else `NoSuchRequest` where no more than `k` wait; else
    /// `OutOfMemory` where memory runs out for the entry. Nothing changes then, and the handler
    /// isn't asked. `NowClosed` where the handler stops, one of the replies has more bytes than the
    /// limit, or memory runs out for the replies: the entry stands, the request has left the
    /// list, no byte of its replies is put out, and the server is closed.
    pub fn answer<H: Handler>(
        &mut self,
        k: usize,
        logged: &mut Logged<H>,
    ) -> Result<usize, AnswerRefusal>
        ensures { AnswerStep H.does H.stops k result
            self.old logged.old.handler (log_of logged.old.entries.items)
            self.new logged.new.handler (log_of logged.new.entries.items) }
    {
        let ServerState::Open = self.state else {
            return Err(AnswerRefusal::Closed);
        };
        let Some(message) = message_at(&self.waiting, k) else {
            return Err(AnswerRefusal::NoSuchRequest);
        };
        let number = logged.entries().len();
        match reply_to(message, self.connection, logged, &mut self.replies) {
            Ok(()) => {
                take_out(&mut self.waiting, k);
                Ok(number)
            }
            Err(reason) => match cause_of(reason) {
                None => Err(AnswerRefusal::OutOfMemory),
                Some(cause) => {
                    take_out(&mut self.waiting, k);
                    self.state = ServerState::Closed(cause);
                    Err(AnswerRefusal::NowClosed(cause))
                }
            },
        }
    }

    /// Returns the number of the connection.
    pub fn connection(&self) -> u64
        ensures { result ≡ self.now.connection }
    {
        self.connection
    }

    /// Returns true if the server holds bytes of a message that isn't whole, or that is at fault.
    pub fn is_inside(&self) -> bool
        ensures { IsTrue result ↔ (self.now.held ≢ []) }
    {
        self.reader.held() > 0
    }

    /// Returns the bytes of the replies that weren't sent yet.
    pub fn output(&self) -> &[u8]
        ensures { result.now ≡ self.now.output }
    {
        self.replies.output()
    }

    /// Takes the first `n` bytes of the output off, since they were sent.
    pub fn sent(&mut self, n: usize)
        requires { n ≤ length self.old.output }
        ensures { self.new ≡ record self.old { output = drop n self.old.output } }
    {
        self.replies.sent(n);
    }

    /// Tells the server that no more bytes come. It closes, with `EndedInside` where it holds bytes
    /// of a message and else with `Ended`; a closed one stays as it is. What waits still waits.
    pub fn end(&mut self)
        ensures { self.new
            ≡ record self.old { state = closed_for (end_cause self.old.held) self.old.state } }
    {
        if let ServerState::Open = self.state {
            self.state = match self.reader.end() {
                ReadEnd::Ended => ServerState::Closed(ServerCause::Ended),
                ReadEnd::EndedInside => ServerState::Closed(ServerCause::EndedInside),
            };
        }
    }

    /// Returns whether the server is open, and if not, the first cause for which it closed. An open
    /// one is between messages or inside one.
    pub fn state(&self) -> ServerState
        ensures state { result ≡ self.now.state }
        ensures between { result ≡ ServerState.Open → IsOpen self.now.limit self.now.held }
    {
        self.state
    }
}

impl Outlet for Server {
    ghost waiting = { λ s. s.output };

    ghost with_waiting = { λ s bytes. record s { output = bytes } };

    ghost waits = { λ o bytes. refl };

    ghost unchanged = { λ o. refl };

    ghost last = { λ o first then. refl };

    fn output(&self) -> &[u8] {
        Server::output(self)
    }

    fn sent(&mut self, n: usize) {
        Server::sent(self, n);
    }
}
