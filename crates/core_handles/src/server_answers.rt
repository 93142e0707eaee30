//! Answers a request of a server, by documents that its caller has.

ghost use Rattle.std.specs.Prelude.{◌≡◌, ◌<◌, ◌++◌, ◌∷◌, [], IfErr, OnOk, length};
ghost use Rattle.bson_elem.specs.{Spells, Tree};
ghost use Rattle.bson_raw.specs.{document_bytes};
ghost use Rattle.wire_msg.specs.{Message, body_alone};
ghost use Rattle.wire_peer.specs.{WaitsAt, answers_of};
ghost use Rattle.core_handles.specs.Serving.{AreGiven, IsAnswerGiven, IsAnswered, IsRefusedAt};
ghost use Rattle.core_handles.specs.Serving.{answer_told, no_answers_told};

use crate::given::{Given, is_count};
use crate::numbers::{
    BAD_CONTENT, BAD_COUNT, CLOSED, DONE, NO_CORE, NO_MEMORY, NOT_READY, answer_number,
};
use bson_raw::RawDocument;
use byte_views::FirstFault;
use std::alloc::Global;
use wire_msg::{MsgCause, MsgFault, MsgRefusal};
use wire_peer::{Answers, Logged, Server, ServerState};

/// What became of an answer.
#[derive(Clone, Copy)]
#[repr(C)]
pub struct AnswerGiven {
    /// 0 if the request was answered, else why it wasn't: 1 where the server is closed, 3 where a
    /// reply would be too large, 4 where the documents are no answers, 7 where no such request
    /// waits, 10 where the request may not get as many answers, 254 where there was no memory, and
    /// 255 where the handle has no server. The server closes where it is 3, and may close where it
    /// is 254; else nothing changed.
    pub refusal: u32,
    /// If it is 4, the fault of a message with the first document that is no answer as its body, at
    /// the offset of that document.
    pub fault: FirstFault,
    /// If the cause of that is 7, the fault of the document. Its own offset is counted from there.
    pub document_fault: FirstFault,
}

impl AnswerGiven {
    /// Returns that the answer has this number, and no fault.
    fn by_number(refusal: u32) -> AnswerGiven
        ensures { result ≡ answer_told refusal }
    {
        AnswerGiven {
            refusal,
            fault: FirstFault::none(),
            document_fault: FirstFault::none(),
        }
    }

    /// Returns that the handle has no server.
    pub(crate) fn no_core() -> AnswerGiven
        ensures { result ≡ answer_told 255 }
    {
        AnswerGiven::by_number(NO_CORE)
    }

    /// Returns that the documents are no answers.
    fn of_documents(why: NoAnswers) -> AnswerGiven
        ensures { result ≡ no_answers_told why }
    {
        match why {
            NoAnswers::Fault(fault) => AnswerGiven {
                refusal: BAD_CONTENT,
                fault: FirstFault::of_message(0, fault),
                document_fault: FirstFault::inside(fault.cause),
            },
            NoAnswers::OutOfMemory => AnswerGiven::by_number(NO_MEMORY),
        }
    }
}

/// Why documents are no answers.
#[derive(Clone, Copy)]
pub(crate) enum NoAnswers {
    /// A message with one of them as its body would have this fault. Its offset is that of the
    /// document.
    Fault(MsgFault),
    /// Memory ran out.
    OutOfMemory,
}

/// Appends the answer of `body` alone, which begins at this offset.
fn push_body(answers: &mut Answers, body: RawDocument<'_>, at: usize) -> Result<(), NoAnswers>
    ensures added { (t : Tree) → Spells t (document_bytes body.entry)
        → OnOk result (answers_of answers.new ≡ answers_of answers.old ++ body_alone t ∷ []) }
    ensures refused { (t : Tree) → Spells t (document_bytes body.entry)
        → IfErr result (λ why. IsRefusedAt at t why) }
{
    let cause = match answers.push_body(body) {
        Ok(()) => return Ok(()),
        Err(MsgRefusal::RepeatedField) => MsgCause::RepeatedField,
        Err(MsgRefusal::TooLarge) => MsgCause::Length,
        Err(_) => return Err(NoAnswers::OutOfMemory),
    };
    Err(NoAnswers::Fault(MsgFault { at, cause }))
}

/// Returns the answers that documents are, which stand one behind the other.
fn read_answers(alloc: Global, documents: &[u8]) -> Result<Answers, NoAnswers>
    ensures { AreGiven documents.now result }
{
    let mut answers = Answers::new(alloc);
    let mut rest = documents;
    while !rest.is_empty() {
        let at = documents.len() - rest.len();
        let (document, after) = match RawDocument::front(rest) {
            Ok(front) => front,
            Err(fault) => {
                let cause = MsgCause::Document(fault);
                return Err(NoAnswers::Fault(MsgFault { at, cause }));
            }
        };
        push_body(&mut answers, document, at)?;
        rest = after;
    }
    Ok(answers)
}

/// Answers the `k`-th request that waits with these answers. Returns 0, or the number of the reason
/// why it isn't answered.
fn answer_with(alloc: Global, server: &mut Server, k: usize, answers: Answers) -> u32
    requires open { server.old.state ≡ ServerState.Open }
    requires waits { k < length server.old.waiting }
    ensures { (m : Message) → WaitsAt server.old k m
        → IsAnswered server.old k m (answers_of answers) server.new result }
{
    let Some(request) = server.request(k) else {
        unreachable!()
    };
    if !is_count(&request, answers.len()) {
        return BAD_COUNT;
    }
    let mut logged = Logged::new(alloc, Given { answers });
    match server.answer(k, &mut logged) {
        Ok(_) => DONE,
        Err(refusal) => answer_number(refusal),
    }
}

/// Answers the `k`-th request that waits with the documents, one answer each.
pub(crate) fn give_answer(
    alloc: Global,
    server: &mut Server,
    k: usize,
    documents: &[u8],
) -> AnswerGiven
    ensures { IsAnswerGiven server.old k documents.now server.new result }
{
    let ServerState::Open = server.state() else {
        return AnswerGiven::by_number(CLOSED);
    };
    if k >= server.waiting() {
        return AnswerGiven::by_number(NOT_READY);
    }
    match read_answers(alloc, documents) {
        Ok(answers) => AnswerGiven::by_number(answer_with(alloc, server, k, answers)),
        Err(why) => AnswerGiven::of_documents(why),
    }
}
