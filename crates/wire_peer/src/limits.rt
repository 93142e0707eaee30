//! The limits of a connection.

/// The most requests that may wait, and calls that may be outstanding.
pub const MAX_WINDOW: usize = 1024;

/// The least limit on the length of a message: the length of the shortest one, in bytes.
pub const MIN_LIMIT: u32 = 26;

/// The greatest id of a request or a reply. The one after it is 1.
pub(crate) const MAX_ID: u32 = 2_147_483_647;
