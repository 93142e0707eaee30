//! Names the answers of a pool.

use thiserror::Error;

/// The answer to `check_out`.
#[derive(Clone, Copy, Debug, PartialEq, Eq)]
pub enum CheckOut {
    /// The connection with this id, which was idle, is lent.
    Use(u64),
    /// The connection with this id is lent. The id is new, so the caller has to open it.
    Open(u64),
    /// None is idle, and as many are lent as allowed, or no id is left. Nothing changed.
    Full,
    /// The pool is closed. Nothing changed.
    PoolClosed,
}

/// The answer to `check_in`.
#[derive(Clone, Copy, Debug, PartialEq, Eq)]
pub enum CheckIn {
    /// The connection is idle now.
    Kept,
    /// The pool has dropped the connection.
    Dropped,
    /// The connection wasn't lent. Nothing changed.
    NotLent,
}

/// Why a pool isn't made.
#[derive(Clone, Copy, Debug, PartialEq, Eq, Error)]
pub enum PoolRefusal {
    /// The greatest number of connections isn't 1 to 1,024.
    #[error("the greatest number isn't from 1 to 1,024")]
    BadMax,
    /// There was no memory for the lists.
    #[error("out of memory")]
    OutOfMemory,
}
