//! Why a document isn't made or written.

ghost use Rattle.std.specs.Prelude.{◌≡◌};
ghost use Rattle.bson_doc.specs.Refusals.{refusal_words};
ghost use Rattle.bson_doc.specs.declared.refusal.DocRefusal.TheVariants.{OutOfMemory};

use std::alloc::{AllocError, AllocFailed};
use std::fmt;

/// Why a document isn't made, or isn't written.
#[derive(Clone, Copy, Debug, PartialEq, Eq)]
pub enum DocRefusal {
    /// Two elements of a document or a scope have the same name. `depth` is that of this container;
    /// the outermost document has depth 1.
    RepeatedName { depth: u32 },
    OutOfMemory,
    /// The document would have more than 2,147,483,647 bytes.
    TooLarge,
    /// A 00 stands in a name, a pattern or options.
    ZeroInName,
    /// A container would be deeper than 200.
    Depth,
}

impl DocRefusal {
    /// Returns what the refusal displays as, without a depth.
    fn words(self) -> &'static str
        ensures { result.now ≡ refusal_words self }
    {
        match self {
            DocRefusal::RepeatedName { .. } => "a name is repeated",
            DocRefusal::OutOfMemory => "out of memory",
            DocRefusal::TooLarge => "the document is too large",
            DocRefusal::ZeroInName => "a name, a pattern or options have a 00 in them",
            DocRefusal::Depth => "a container is too deep",
        }
    }
}

impl fmt::Display for DocRefusal {
    ghost use Rattle.bson_doc.specs.Refusals.{shown_refusal};

    ghost output = { shown_refusal };

    #[tactic(auto, using(crate::proofs::RefusalTexts::plain_text))]
    fn fmt<W: fmt::Write>(&self, f: &mut fmt::Formatter<W>) -> fmt::Result {
        match *self {
            DocRefusal::RepeatedName { depth } => write!(f, "a name is repeated at depth {depth}"),
            other => f.write_str(other.words()),
        }
    }
}

impl std::error::Error for DocRefusal {}

impl From<AllocError> for DocRefusal {
    ghost from_gives = { λ _ e. e ≡ OutOfMemory };

    fn from(_error: AllocError) -> DocRefusal {
        DocRefusal::OutOfMemory
    }
}

impl<T: Drop> From<AllocFailed<T>> for DocRefusal {
    ghost from_gives = { λ _ e. e ≡ OutOfMemory };

    fn from(_error: AllocFailed<T>) -> DocRefusal {
        DocRefusal::OutOfMemory
    }
}
