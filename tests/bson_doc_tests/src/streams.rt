//! A stream of three documents.

/// The greatest limit of a document's bytes.
pub(crate) const LIMIT: u32 = 2_147_483_647;

/// `{}`, `{"a": true}` and `{"hello": "world"}`.
pub(crate) const THREE: &[u8; 36] =
    b"\x05\0\0\0\0\x09\0\0\0\x08a\0\x01\0\x16\0\0\0\x02hello\0\x06\0\0\0world\0\0";

/// The first of them.
pub(crate) const EMPTY: &[u8; 5] = b"\x05\0\0\0\0";

/// The second.
pub(crate) const TRUTH: &[u8; 9] = b"\x09\0\0\0\x08a\0\x01\0";

/// The second and the third.
pub(crate) const OTHERS: &[u8; 31] =
    b"\x09\0\0\0\x08a\0\x01\0\x16\0\0\0\x02hello\0\x06\0\0\0world\0\0";
