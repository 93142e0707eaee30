//! Proves that for given bytes each definition allows only one result, and that a walk has the
//! offsets of the text. The contract of each function is the law; the function does nothing.

ghost use Rattle.std.specs.Prelude.{◌≡◌, ℕ, List};
ghost use Rattle.bson_elem.specs.{IsBytes, Tree};
ghost use Rattle.byte_views.specs.declared.documents.DocumentsCheck.{DocumentsCheck};
ghost use Rattle.byte_views.specs.declared.fault.FirstFault.{FirstFault};
ghost use Rattle.byte_views.specs.declared.front.MessageFront.{MessageFront};
ghost use Rattle.byte_views.specs.declared.walk.DocumentsWalk.{DocumentsWalk};
ghost use Rattle.byte_views.specs.declared.messages.MessageCheck.{MessageCheck};
ghost use Rattle.byte_views.specs.declared.messages.MessagesCheck.{MessagesCheck};
ghost use Rattle.byte_views.specs.Documents.{IsDocumentCheck, IsDocumentsCheck};
ghost use Rattle.byte_views.specs.Walk.{IsDocumentsWalk};
ghost use Rattle.byte_views.specs.declared.element.Element.{Element};
ghost use Rattle.byte_views.specs.declared.iter.ElementIter.{ElementIter};
ghost use Rattle.byte_views.specs.Front.{IsMessageFront};
ghost use Rattle.byte_views.specs.Iters.{IsStep};
ghost use Rattle.byte_views.specs.Offsets.{HasOffsets};
ghost use Rattle.byte_views.specs.Pairs.{PairsFrom};
ghost use Rattle.byte_views.specs.Messages.{IsMessageCheck, IsMessagesCheck};

/// Proves that the check of bytes as one document has one result.
pub fn one_document_check()
    ensures { (bytes : List ℕ) (a b : FirstFault) → IsBytes bytes
        → IsDocumentCheck bytes a → IsDocumentCheck bytes b → a ≡ b }
{}

/// Proves that the check of bytes as documents has one result.
pub fn one_documents_check()
    ensures { (bytes : List ℕ) (a b : DocumentsCheck) → IsBytes bytes
        → IsDocumentsCheck bytes a → IsDocumentsCheck bytes b → a ≡ b }
{}

/// Proves that the walk over bytes has one result.
pub fn one_documents_walk()
    ensures { (bytes : List ℕ) (a b : DocumentsWalk) → IsBytes bytes
        → IsDocumentsWalk bytes a → IsDocumentsWalk bytes b → a ≡ b }
{}

/// Proves that the check of bytes as one message under a limit has one result.
pub fn one_message_check()
    ensures { (limit : ℕ) (bytes : List ℕ) (a b : MessageCheck) → IsBytes bytes
        → IsMessageCheck limit bytes a → IsMessageCheck limit bytes b → a ≡ b }
{}

/// Proves that the check of bytes as messages under a limit has one result.
pub fn one_messages_check()
    ensures { (limit : ℕ) (bytes : List ℕ) (a b : MessagesCheck) → IsBytes bytes
        → IsMessagesCheck limit bytes a → IsMessagesCheck limit bytes b → a ≡ b }
{}

/// Proves that one thing is told of what stands in front of bytes under a limit.
pub fn one_message_front()
    ensures { (limit : ℕ) (bytes : List ℕ) (a b : MessageFront) → IsBytes bytes
        → IsMessageFront limit bytes a → IsMessageFront limit bytes b → a ≡ b }
{}

/// Proves that a step of a walk over a document has the offsets that its text with offsets has: of
/// the element, of the next one, and of the first one in a document that the element holds.
pub fn walked_offsets()
    ensures { (bytes : List ℕ) (s : ElementIter) (e : Element) (next deep : ℕ) (t : Tree)
        → PairsFrom bytes s t → IsStep bytes s e next → HasOffsets s e next deep t }
{}
