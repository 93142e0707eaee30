//! Names the parts of a stream in which some bytes are no documents.

ghost use Rattle.std.specs.Prelude.{◌≡◌};

use bson_elem::BsonFault;

/// Why no document begins at an offset.
#[derive(Clone, Copy, Debug, PartialEq, Eq)]
pub enum GapFault {
    /// The bytes there have this fault. Its offset is counted from the first byte of the stream.
    Bson(BsonFault),
    /// The length there is good, and above the limit.
    TooLong,
}

/// A gap whose end isn't known yet. Its offset is counted from the first byte of the stream.
#[derive(Clone, Copy, Debug, PartialEq, Eq)]
pub struct GapStart {
    /// The offset of its first byte.
    pub from: usize,
    /// Why no document begins there.
    pub fault: GapFault,
}

impl GapStart {
    /// Returns the gap that ends at `to`.
    pub(crate) fn up_to(self, to: usize) -> Gap
        ensures { result ≡ record { from = self.from; to = to; fault = self.fault } }
    {
        Gap {
            from: self.from,
            to,
            fault: self.fault,
        }
    }
}

/// Bytes at none of which a document begins, up to the next document or the end of the stream. The
/// offsets are counted from the first byte of the stream.
#[derive(Clone, Copy, Debug, PartialEq, Eq)]
pub struct Gap {
    /// The offset of its first byte.
    pub from: usize,
    /// The offset of the first byte behind it.
    pub to: usize,
    /// Why no document begins at `from`.
    pub fault: GapFault,
}

/// What a salvager finds next.
#[derive(Clone, Copy, Debug, PartialEq, Eq)]
pub enum Find {
    /// Nothing, before more bytes come.
    Nothing,
    /// A gap that ended.
    Gap(Gap),
    /// A document of `len` bytes in front. `canonical` says whether it is in canonical form.
    Document { len: usize, canonical: bool },
}
