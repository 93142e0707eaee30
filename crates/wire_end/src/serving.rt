//! Serves a connection at the end of a server: its requests are answered in order, and the replies
//! to each are sent before the next one is received.

ghost use Rattle.std.specs.Prelude.{◌≡◌, [], List, IfErr, OnOk, ℕ};
ghost use Rattle.std.specs.Io.KnownBytes.{Keeps};
ghost use Rattle.wire_model.specs.{ServerAct};
ghost use Rattle.wire_msg.specs.{Message, SpellsMsg};
ghost use Rattle.wire_peer.specs.declared.server_state.ServerState.TheVariants.{Open};
ghost use Rattle.wire_stream.specs.{AddsTurns};
ghost use Rattle.wire_end.specs.Answering.{AnswersAs, CountsLater, StandsAfter, WaitsAlone};
ghost use Rattle.wire_end.specs.Answering.{end_by, end_of, end_with};
ghost use Rattle.wire_end.specs.ServerEnds.{ServerEndRuns};
ghost use Rattle.wire_end.specs.Serving.{IsUnused, Served, seen};

use crate::next::{NextRequest, RequestFault};
use crate::server_end::ServerEnd;
use wire_msg::MsgFault;
use wire_peer::{AnswerRefusal, Handler, Logged, ServerCause};
use wire_stream::{Flushed, Link};

/// Why serving a connection ended.
#[derive(Clone, Copy, Debug, PartialEq, Eq)]
pub enum ServeEnd {
    /// The link ended between messages.
    Ended,
    /// The link ended inside a message.
    EndedInside,
    /// What came is no message. The fault's offset is counted from its first byte.
    Fault(MsgFault),
    /// The link failed.
    Link,
    /// The link can move no byte now. A link that waits returns this where its time is limited.
    Later,
    /// As many messages as the budget were answered, and all their replies sent.
    Budget,
    /// A reply to the last message is longer than the limit.
    ReplyTooLarge,
    /// Memory ran out, in the handler or outside it.
    OutOfMemory,
    /// The handler stopped at the last message, as failed.
    HandlerFailed,
}

impl From<ServerCause> for ServeEnd {
    ghost from_gives = { λ cause end. end ≡ end_by cause };

    fn from(cause: ServerCause) -> ServeEnd {
        match cause {
            ServerCause::Ended => ServeEnd::Ended,
            ServerCause::EndedInside => ServeEnd::EndedInside,
            ServerCause::Message(fault) => ServeEnd::Fault(fault),
            ServerCause::ReplyTooLarge => ServeEnd::ReplyTooLarge,
            ServerCause::NoMemory => ServeEnd::OutOfMemory,
            ServerCause::HandlerFailed => ServeEnd::HandlerFailed,
        }
    }
}

impl From<AnswerRefusal> for ServeEnd {
    ghost from_gives = { λ refusal end. end ≡ end_of refusal };

    fn from(refusal: AnswerRefusal) -> ServeEnd {
        match refusal {
            AnswerRefusal::NowClosed(cause) => ServeEnd::from(cause),
            _ => ServeEnd::OutOfMemory,
        }
    }
}

impl From<RequestFault> for ServeEnd {
    ghost from_gives = { λ fault end. end ≡ end_with fault };

    fn from(fault: RequestFault) -> ServeEnd {
        match fault {
            RequestFault::Link(_) => ServeEnd::Link,
            RequestFault::Closed(cause) => ServeEnd::from(cause),
            RequestFault::OutOfMemory => ServeEnd::OutOfMemory,
        }
    }
}

impl<L: Link + Drop> ServerEnd<L> {
    /// Answers the only request that waits, and sends all its replies.
    ///
    /// # Errors
    ///
    /// Returns why not all replies were sent. The entry stands unless memory ran out before the
    /// handler was asked.
    fn answer_first<H: Handler>(&mut self, logged: &mut Logged<H>) -> Result<(), ServeEnd>
        ensures ran { (acts : List ServerAct) × ServerEndRuns H.does H.stops L.sent L.received
            self.old logged.old acts self.new logged.new }
        ensures answered { (request : List ℕ) → WaitsAlone self.old.server request
            → (m : Message) × SpellsMsg m request
            × AnswersAs H.does H.stops self.old.server.connection self.old.server.limit m result
            self.old.server.next_id self.new.server.next_id
            (seen L.received L.sent L.turns L.failures L.ends L.waits logged.old self.old.link)
            (seen L.received L.sent L.turns L.failures L.ends L.waits logged.new self.new.link) }
        ensures others { (request : List ℕ) → WaitsAlone self.old.server request
            → OnOk result (self.new.server ≡ record self.old.server {
              waiting = [];
              output = [];
              next_id = self.new.server.next_id;
            }) }
        ensures stands { self.old.server.state ≡ Open
            → IfErr result (λ end. StandsAfter end self.new.server.state) }
        ensures inlet { self.new.inlet ≡ self.old.inlet }
        ensures received { Keeps (L.received self.old.link) (L.received self.new.link) }
        ensures turns { AddsTurns (L.turns self.old.link) (L.turns self.new.link) [] }
        ensures end { L.ends self.new.link ≡ L.ends self.old.link }
        ensures later { CountsLater result (L.waits self.old.link) (L.waits self.new.link) }
    {
        if let Err(refusal) = self.answer(0, logged) {
            return Err(ServeEnd::from(refusal));
        }
        match self.flush() {
            Ok(Flushed::All) => Ok(()),
            Ok(Flushed::Later) => Err(ServeEnd::Later),
            Err(_) => Err(ServeEnd::Link),
        }
    }

    /// Serves the connection: receives requests and answers them in order, at most `budget` of
    /// them. All replies to one are sent before the next one is received. Returns why it ended.
    /// The server is still open after `Link`, `Later` and `Budget`, and may be after `OutOfMemory`.
    pub fn serve<H: Handler>(&mut self, logged: &mut Logged<H>, budget: u64) -> ServeEnd
        requires { IsUnused self.old }
        ensures served { Served H.does H.stops self.old.server.connection self.old.server.limit
            budget result
            (seen L.received L.sent L.turns L.failures L.ends L.waits logged.old self.old.link)
            (seen L.received L.sent L.turns L.failures L.ends L.waits logged.new self.new.link) }
        ensures ran { (acts : List ServerAct) × ServerEndRuns H.does H.stops L.sent L.received
            self.old logged.old acts self.new logged.new }
        ensures stands { StandsAfter result self.new.server.state }
    {
        for i in 0..budget {
            match self.next_request() {
                Ok(NextRequest::Waits) => {}
                Ok(NextRequest::Later) => return ServeEnd::Later,
                Ok(NextRequest::Full) => unreachable!(),
                Err(fault) => return ServeEnd::from(fault),
            }
            if let Err(end) = self.answer_first(logged) {
                return end;
            }
        }
        ServeEnd::Budget
    }
}
