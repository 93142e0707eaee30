//! Answers a request with a document.

ghost use Rattle.std.specs.Prelude.{◌≡◌, ◌++◌, ◌∷◌, [], IfErr, OnErr, OnOk};
ghost use Rattle.bson_doc.specs.{tree_of};
ghost use Rattle.wire_msg.specs.{body_alone};
ghost use Rattle.wire_peer.specs.{answers_of};
ghost use Rattle.command_parts.specs.Answering.{IsUnanswerable, WantsMemory};

use bson_doc::{DocRefusal, Document};
use wire_msg::MsgRefusal;
use wire_peer::{Answers, HandlerStop};

/// Appends `answer` to the answers of a request.
///
/// # Errors
///
/// Returns `Failed` if the answer can't be written, and `OutOfMemory` if memory runs out. Then the
/// answers are unchanged.
pub fn put_answer(answer: &Document, answers: &mut Answers) -> Result<(), HandlerStop>
    ensures put { OnOk result
        (answers_of answers.new ≡ answers_of answers.old ++ body_alone (tree_of answer.now) ∷ []) }
    ensures failed { IfErr result
        (λ stop. stop ≡ HandlerStop.Failed → IsUnanswerable (tree_of answer.now)) }
    ensures memory { IfErr result
        (λ stop. stop ≡ HandlerStop.OutOfMemory → WantsMemory (tree_of answer.now)) }
    ensures unchanged { OnErr result (answers_of answers.new ≡ answers_of answers.old) }
{
    let body = match answer.to_raw() {
        Ok(body) => body,
        Err(DocRefusal::OutOfMemory) => return Err(HandlerStop::OutOfMemory),
        Err(_) => return Err(HandlerStop::Failed),
    };
    match answers.push_body(body.as_raw()) {
        Ok(()) => Ok(()),
        Err(MsgRefusal::OutOfMemory) => Err(HandlerStop::OutOfMemory),
        Err(_) => Err(HandlerStop::Failed),
    }
}
