//! The answers that a handler gives to one request.

ghost use Rattle.std.specs.Prelude.{◌≡◌, ◌++◌, ◌∷◌, [], IfErr, OnErr, OnOk, length, map};
ghost use Rattle.bson_elem.specs.{Spells, Tree};
ghost use Rattle.bson_raw.specs.{document_bytes};
ghost use Rattle.wire_msg.specs.{IsBodyRefusal, body_alone};
ghost use Rattle.wire_peer.specs.AnswerLists.{answers_of};
ghost use Rattle.wire_peer.specs.Contents.{buf_content, content_of};

use bson_raw::RawDocument;
use std::alloc::{AllocError, Global};
use wire_msg::{MsgRefusal, Payload, PayloadBuf};

/// The answers to one request, in order.
#[derive(Debug, Drop)]
pub struct Answers {
    list: Vec<PayloadBuf>,
}

impl Answers {
    /// Returns a list without answers. It takes no memory.
    pub fn new(alloc: Global) -> Answers
        ensures { answers_of result ≡ [] }
    {
        Answers {
            list: Vec::new(alloc),
        }
    }

    /// Appends a copy of `answer`.
    ///
    /// # Errors
    ///
    /// Returns `AllocError` if memory runs out. Then the answers are unchanged.
    pub fn push(&mut self, answer: Payload<'_>) -> Result<(), AllocError>
        ensures added { OnOk result (answers_of self.new
            ≡ answers_of self.old ++ content_of answer.entry ∷ []) }
        ensures unchanged { OnErr result (answers_of self.new ≡ answers_of self.old) }
    {
        let alloc = *self.list.allocator();
        let copy = answer.to_buf(alloc)?;
        self.push_buf(copy)
    }

    /// Appends the answer of `body` alone, copied.
    ///
    /// # Errors
    ///
    /// `RepeatedField` if a top-level name of the body stands twice; else `TooLarge` if its message
    /// would have more than 2,147,483,647 bytes; else `OutOfMemory`. The answers are as they were
    /// then.
    pub fn push_body(&mut self, body: RawDocument<'_>) -> Result<(), MsgRefusal>
        ensures added { (t : Tree) → Spells t (document_bytes body.entry)
            → OnOk result (answers_of self.new ≡ answers_of self.old ++ body_alone t ∷ []) }
        ensures refused { (t : Tree) → Spells t (document_bytes body.entry)
            → IfErr result (λ e. IsBodyRefusal t e) }
        ensures unchanged { OnErr result (answers_of self.new ≡ answers_of self.old) }
    {
        let alloc = *self.list.allocator();
        let answer = PayloadBuf::new(alloc, body)?;
        self.push_buf(answer)?;
        Ok(())
    }

    /// Appends `answer`.
    ///
    /// # Errors
    ///
    /// Returns `AllocError` if memory runs out. Then the answers are unchanged.
    pub fn push_buf(&mut self, answer: PayloadBuf) -> Result<(), AllocError>
        ensures added { OnOk result (answers_of self.new
            ≡ answers_of self.old ++ buf_content answer ∷ []) }
        ensures unchanged { OnErr result (answers_of self.new ≡ answers_of self.old) }
    {
        // Most requests have one answer, so the first takes the room for one alone.
        if self.list.is_empty() {
            self.list.try_reserve_exact(1)?;
        }
        self.list.push(answer)?;
        Ok(())
    }

    /// Returns how many answers there are.
    pub fn len(&self) -> usize
        ensures { result ≡ length (answers_of self.now) }
    {
        self.list.len()
    }

    /// Returns the answers, in order.
    pub fn as_slice(&self) -> &[PayloadBuf]
        ensures { map buf_content result.now ≡ answers_of self.now }
    {
        &self.list
    }
}
