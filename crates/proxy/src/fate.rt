//! Asks a script what becomes of a request.

ghost use Rattle.std.specs.Prelude.{◌≡◌, ◌≢◌, ◌≤◌, ◌++◌, IfErr, IfOk, IfSome, None, OnErr, OnOk};
ghost use Rattle.std.specs.Prelude.{option_copied};
ghost use Rattle.bson_elem.specs.{Spells, Tree};
ghost use Rattle.bson_raw.specs.{document_bytes};
ghost use Rattle.bson_doc.specs.{tree_of};
ghost use Rattle.wire_frames.specs.{frame_bytes};
ghost use Rattle.script_rules.specs.{after, first_met};
ghost use Rattle.proxy.specs.Fates.{Asked, Becomes, IsAsked, IsFate, IsLeft, IsReplied};
ghost use Rattle.proxy.specs.Fates.{IsReplyRefusal, IsRequest, asked_content, reply_size, reply_to};
ghost use Rattle.proxy.specs.Fates.{wants_reply};

use bson_doc::{DocRefusal, Document};
use bson_raw::RawDocument;
use script_rules::{Action, Flow, Script};
use std::alloc::{AllocError, Global};
use wire_frames::RawFrame;
use wire_msg::{MAX_MESSAGE_LEN, MsgFlags, MsgRefusal, PayloadBuf, RawMsg, write_msg};
use wire_query::{RawQuery, ReplyHead, write_reply};

/// What becomes of a request that is held.
#[derive(Drop)]
pub enum Fate {
    /// It goes on, and this becomes of its reply.
    Pass(Flow),
    /// It goes on after this many milliseconds.
    Delay(u64),
    /// None of its bytes goes on, and the connection is closed.
    HangUp,
    /// This many of its bytes go on, and then the connection is closed.
    CutUp(u64),
    /// None of its bytes goes on, and these bytes come back as the reply to it.
    Reply(Vec<u8>),
}

/// A request, in the spelling in which it came.
#[derive(Clone, Copy)]
enum Request<'a> {
    Message(RawMsg<'a>),
    Query(RawQuery<'a>),
}

impl<'a> Request<'a> {
    /// Reads the request of a command. Other messages are none.
    fn of(alloc: Global, frame: RawFrame<'a>) -> Option<Request<'a>>
        ensures some { IfSome result (λ r. (a : Asked) × IsAsked (frame_bytes frame.entry) a
            × IsRequest r a) }
        ensures none { result ≡ None → (a : Asked) → IsAsked (frame_bytes frame.entry) a → ⊥ }
    {
        let bytes = frame.as_bytes();
        if let Ok(message) = RawMsg::parse_with(alloc, bytes, MAX_MESSAGE_LEN) {
            return Some(Request::Message(message));
        }
        match RawQuery::parse(alloc, bytes, MAX_MESSAGE_LEN) {
            Ok(query) => Some(Request::Query(query)),
            Err(_) => None,
        }
    }

    /// Returns true if a reply to it is wanted.
    fn wants_reply(self) -> bool
        ensures { (a : Asked) → IsRequest self.entry a → result ≡ wants_reply a }
    {
        match self {
            Request::Message(message) => !message.more_to_come(),
            Request::Query(_) => true,
        }
    }

    /// Returns the index of the rule that it meets, which is used once more.
    fn meet(self, alloc: Global, script: &mut Script) -> Result<Option<usize>, AllocError>
        ensures met { (a : Asked) → IsRequest self.entry a → IfOk result
            (λ i. i ≡ first_met (asked_content a) script.old.rules.items) }
        ensures used { (a : Asked) → IsRequest self.entry a → OnOk result
            (script.new.rules.items ≡ after (asked_content a) script.old.rules.items) }
        ensures unchanged { OnErr result (script.new.rules.items ≡ script.old.rules.items) }
    {
        match self {
            Request::Message(message) => script.meet(alloc, message.payload()),
            Request::Query(query) => {
                let mut bytes = Vec::new(alloc);
                query.write_msg(&mut bytes)?;
                script.meet(alloc, RawMsg::from_spelled(&bytes).payload())
            }
        }
    }

    /// Appends the reply to it that has this body, with its own id; none if it wants no reply.
    fn write_reply(
        self,
        alloc: Global,
        body: RawDocument<'_>,
        out: &mut Vec<u8>,
    ) -> Result<(), MsgRefusal>
        ensures written { (a : Asked) (t : Tree) → IsRequest self.entry a
            → Spells t (document_bytes body.entry)
            → OnOk result (out.new.items ≡ out.old.items ++ reply_to a t) }
        ensures within { (a : Asked) (t : Tree) → IsRequest self.entry a
            → Spells t (document_bytes body.entry)
            → OnOk result (reply_size a t ≤ MAX_MESSAGE_LEN) }
        ensures refused { (a : Asked) (t : Tree) → IsRequest self.entry a
            → Spells t (document_bytes body.entry)
            → IfErr result (λ e. IsReplyRefusal a t e) }
    {
        match self {
            Request::Message(message) => {
                if message.more_to_come() {
                    return Ok(());
                }
                let id = message.id();
                let payload = PayloadBuf::new(alloc, body)?;
                let payload = payload.as_payload();
                write_msg(out, id, id, MsgFlags::NONE, payload, MAX_MESSAGE_LEN)
            }
            Request::Query(query) => {
                let head = ReplyHead::of_command(query.id(), query.id());
                write_reply(out, head, body, MAX_MESSAGE_LEN)
            }
        }
    }

    /// Returns what becomes of it where the reply to it is this document. If that can't be written,
    /// the connection is closed.
    fn reply(self, alloc: Global, answer: &Document) -> Result<Fate, AllocError>
        ensures { (a : Asked) → IsRequest self.entry a → IfOk result
            (λ fate. IsReplied a (tree_of answer.now) fate) }
    {
        let body = match answer.to_raw() {
            Ok(body) => body,
            Err(DocRefusal::OutOfMemory) => return Err(AllocError),
            Err(_) => return Ok(Fate::HangUp),
        };
        let mut out = Vec::new(alloc);
        match self.write_reply(alloc, body.as_raw(), &mut out) {
            Ok(()) => Ok(Fate::Reply(out)),
            Err(MsgRefusal::OutOfMemory) => Err(AllocError),
            Err(_) => Ok(Fate::HangUp),
        }
    }

    /// Returns what becomes of it where this is done with it.
    fn fate(self, alloc: Global, action: Option<&Action>) -> Result<Fate, AllocError>
        ensures { (a : Asked) → IsRequest self.entry a → IfOk result
            (λ fate. IsFate a (option_copied action.entry) fate) }
    {
        match action {
            None | Some(Action::Pass) => Ok(Fate::Pass(Flow::Whole)),
            Some(Action::Reply(answer)) => self.reply(alloc, answer),
            Some(Action::Delay(millis)) => Ok(Fate::Delay(*millis)),
            Some(Action::HangUp) => Ok(Fate::HangUp),
            Some(Action::CutUp(count)) => Ok(Fate::CutUp(*count)),
            Some(Action::Cut(_) | Action::NoReply) if !self.wants_reply() => {
                Ok(Fate::Pass(Flow::Whole))
            }
            Some(Action::Cut(count)) => Ok(Fate::Pass(Flow::Cut(*count))),
            Some(Action::NoReply) => Ok(Fate::Pass(Flow::Dropped)),
        }
    }
}

/// Returns what becomes of a message that a client sent, by the rule that it meets, which is used
/// once more. A message that is no request of a command goes on.
///
/// # Errors
///
/// Returns `AllocError` if memory runs out. The rule may have been used then.
pub fn fate_of(alloc: Global, script: &mut Script, frame: RawFrame<'_>) -> Result<Fate, AllocError>
    ensures ok { IfOk result (λ fate. Becomes (frame_bytes frame.entry) script.old.rules.items fate
        script.new.rules.items) }
    ensures err { OnErr result
        (IsLeft (frame_bytes frame.entry) script.old.rules.items script.new.rules.items) }
{
    let Some(request) = Request::of(alloc, frame) else {
        return Ok(Fate::Pass(Flow::Whole));
    };
    let met = request.meet(alloc, script)?;
    request.fate(alloc, script.action(met))
}
