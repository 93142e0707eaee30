//! Exports what writes the texts of documents, and their canonical forms. It takes memory for them.

ghost use Rattle.bson_json.specs.{IsJson};
ghost use Rattle.byte_views.specs.Texts.{IsCanonicalWritten, IsDump, IsPickle, IsTextWritten};
ghost use Rattle.byte_views.specs.Texts.{json_mode};

use byte_views::TextWritten;
use std::alloc::Global;

/// Writes the text of the document that `bytes` are to the front of `room`, as
/// `byte_views::put_dump` does.
#[unsafe(no_mangle)]
pub extern "C" fn lughemra_dump_nonnull(alloc: Global, bytes: &[u8], room: &mut [u8]) -> TextWritten
    ensures { IsTextWritten bytes.now IsDump room.old room.new result }
{
    byte_views::put_dump(alloc, bytes, room)
}

/// Writes the document that `bytes` are as Extended JSON to the front of `room`, as
/// `byte_views::put_json` does.
#[unsafe(no_mangle)]
pub extern "C" fn lughemra_json_nonnull(
    alloc: Global,
    bytes: &[u8],
    relaxed: bool,
    room: &mut [u8],
) -> TextWritten
    ensures { IsTextWritten bytes.now (IsJson (json_mode relaxed)) room.old room.new result }
{
    byte_views::put_json(alloc, bytes, relaxed, room)
}

/// Writes the document that `bytes` are as a pickle to the front of `room`, as
/// `byte_views::put_pickle` does.
#[unsafe(no_mangle)]
pub extern "C" fn lughemra_pickle_nonnull(
    alloc: Global,
    bytes: &[u8],
    room: &mut [u8],
) -> TextWritten
    ensures { IsTextWritten bytes.now IsPickle room.old room.new result }
{
    byte_views::put_pickle(alloc, bytes, room)
}

/// Writes the canonical form of the document that `bytes` are to the front of `room`, as
/// `byte_views::put_canonical` does.
#[unsafe(no_mangle)]
pub extern "C" fn lughemra_canonical_nonnull(
    alloc: Global,
    bytes: &[u8],
    room: &mut [u8],
) -> TextWritten
    ensures { IsCanonicalWritten bytes.now room.old room.new result }
{
    byte_views::put_canonical(alloc, bytes, room)
}
