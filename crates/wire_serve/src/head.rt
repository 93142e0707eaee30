//! Tells by a header how many bytes are gathered before any is passed on.

ghost use Rattle.std.specs.Prelude.{◌≡◌, false, true};
ghost use Rattle.wire_serve.specs.Heads.{IsHead, IsQueryHeader};

use wire_msg::MsgHeader;
use wire_query::OP_QUERY;

/// The most bytes that a query may have.
pub const MAX_QUERY_LEN: u32 = 65_536;

/// What some bytes begin with.
#[derive(Clone, Copy, Debug, PartialEq, Eq)]
pub(crate) enum Head {
    /// There are fewer bytes than a header has.
    Part,
    /// The header of a query of this many bytes.
    Query(usize),
    /// Another header.
    Other,
}

/// Returns true if the header is that of a query of 17 to 65,536 bytes.
fn is_query(header: MsgHeader) -> bool
    ensures yes { result ≡ true → IsQueryHeader header }
    ensures no { result ≡ false → IsQueryHeader header → ⊥ }
{
    header.opcode == OP_QUERY && header.length > 16 && header.length <= MAX_QUERY_LEN
}

/// Returns what the bytes begin with.
pub(crate) fn head_of(bytes: &[u8]) -> Head
    ensures { IsHead bytes.now result }
{
    let Some((header, _)) = bytes.split_first_chunk::<16>() else {
        return Head::Part;
    };
    let header = MsgHeader::read(*header);
    if is_query(header) {
        Head::Query(header.length as usize)
    } else {
        Head::Other
    }
}
