//! A reply, as a client lends it.

use wire_msg::Payload;

/// A reply to a call, lent out of the client's buffer.
#[derive(Clone, Copy, Debug)]
pub struct Reply<'a> {
    /// The number of the call that it belongs to.
    pub call: u64,
    /// No other reply to that call comes.
    pub last: bool,
    /// What the reply carries.
    pub payload: Payload<'a>,
}
