//! The laws that make the texts of commands exact. The contract of each function is the law; the
//! function does nothing.

ghost use Rattle.std.specs.Prelude.{◌≡◌, ◌++◌, Bool, List, Option, ℕ};
ghost use Rattle.bson_elem.specs.{IsBytes, Spells, Tree};
ghost use Rattle.file_commands.specs.Any.{AnyText};
ghost use Rattle.file_commands.specs.Documents.{IsWholeText, told_at};
ghost use Rattle.file_commands.specs.Msg.{MsgText};
ghost use Rattle.file_commands.specs.OrRecords.{TextOrRecords};
ghost use Rattle.file_commands.specs.declared.msg.MessageForm.TheVariants.{Text};
ghost use Rattle.file_commands.specs.declared.record_text.RecordForm.TheVariants.{Text as in_lines};
ghost use Rattle.wire_frames.specs.{signature};

/// Proves that bytes have at most one text as documents, which ends with a fault line or doesn't,
/// whatever a command writes for a document and behind all of them, if a function of the document
/// and of the offset at which it begins tells it.
pub fn one_text()
    ensures { (text_of : ℕ → Tree → Option (List ℕ)) (closing : Bool → List ℕ)
        (bytes text other : List ℕ) (fault other_fault : Bool) → IsBytes bytes
        → IsWholeText (told_at text_of) closing bytes text fault
        → IsWholeText (told_at text_of) closing bytes other other_fault
        → (text ≡ other) × (fault ≡ other_fault) }
{}

/// Proves that bytes have at most one text as messages, which ends with a fault line or doesn't.
pub fn one_text_of_messages()
    ensures { (bytes text other : List ℕ) (fault other_fault : Bool) → IsBytes bytes
        → MsgText Text bytes text fault → MsgText Text bytes other other_fault
        → (text ≡ other) × (fault ≡ other_fault) }
{}

/// Proves that bytes have at most one text as messages of any opCode, which ends with a fault line
/// or doesn't.
pub fn one_text_of_frames()
    ensures { (bytes text other : List ℕ) (fault other_fault : Bool) → IsBytes bytes
        → AnyText bytes text fault → AnyText bytes other other_fault
        → (text ≡ other) × (fault ≡ other_fault) }
{}

/// Proves that an input which may be a file of records has at most one text of `msg`, and one of
/// `msg --any`, each of which ends with a fault line or doesn't.
pub fn one_text_of_records()
    ensures messages { (bytes text other : List ℕ) (fault other_fault : Bool) → IsBytes bytes
        → TextOrRecords in_lines (MsgText Text) bytes text fault
        → TextOrRecords in_lines (MsgText Text) bytes other other_fault
        → (text ≡ other) × (fault ≡ other_fault) }
    ensures frames { (bytes text other : List ℕ) (fault other_fault : Bool) → IsBytes bytes
        → TextOrRecords in_lines AnyText bytes text fault
        → TextOrRecords in_lines AnyText bytes other other_fault
        → (text ≡ other) × (fault ≡ other_fault) }
{}

/// Proves that no document begins as a file of records does.
pub fn no_document_begins_so()
    ensures { (t : Tree) (more : List ℕ) → Spells t (signature ++ more) → ⊥ }
{}
