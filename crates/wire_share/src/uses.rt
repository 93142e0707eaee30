//! Who uses a connection to the server.

ghost use Rattle.std.specs.Prelude.{◌≡◌};
ghost use Rattle.wire_share.specs.Placing.{is_common, is_of, is_routed, is_transaction, serves};

use crate::need::Need;

/// Who uses a connection to the server.
#[derive(Clone, Copy, PartialEq, Eq)]
pub enum Use {
    /// Any client.
    Shared,
    /// One request, which didn't go over it yet.
    Once,
    /// The client of this number, with which it is closed.
    Kept(u64),
    /// A transaction, whichever client goes on with it. It is closed when the transaction ends, when
    /// the next one of its session begins, or when the client of this number, which began it,
    /// leaves.
    Transaction(u64),
    /// None any more: it is closed once the calls over it are over.
    Over,
}

/// Returns true if a request that needs this may share a connection.
fn is_common(need: Need) -> bool
    ensures { result ≡ is_common need }
{
    match need {
        Need::Any | Need::Cursor(_) | Need::Transaction(_) => true,
        Need::Own | Need::Kept => false,
    }
}

/// Returns true if a request that needs this may go where a cursor or a transaction lives.
fn is_routed(need: Need) -> bool
    ensures { result ≡ is_routed need }
{
    match need {
        Need::Cursor(_) | Need::Transaction(_) => true,
        Need::Any | Need::Own | Need::Kept => false,
    }
}

impl Use {
    /// Returns true if a request of a client that needs this may go over a connection that is used
    /// so.
    pub fn serves(self, need: Need, client: u64) -> bool
        ensures { result ≡ serves need client self }
    {
        match self {
            Use::Shared => is_common(need),
            Use::Once => need == Need::Own,
            Use::Kept(owner) => owner == client,
            Use::Transaction(_) => is_routed(need),
            Use::Over => false,
        }
    }

    /// Returns true if it is of this client alone, or for a transaction that it began.
    pub(crate) fn is_of(self, client: u64) -> bool
        ensures { result ≡ is_of client self }
    {
        match self {
            Use::Kept(owner) | Use::Transaction(owner) => owner == client,
            Use::Shared | Use::Once | Use::Over => false,
        }
    }

    /// Returns true if it is for a transaction.
    pub(crate) fn is_transaction(self) -> bool
        ensures { result ≡ is_transaction self }
    {
        matches!(self, Use::Transaction(_))
    }
}
