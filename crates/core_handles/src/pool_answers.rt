//! The answers of a pool, as a caller gets them.

ghost use Rattle.std.specs.Prelude.{◌≡◌};
ghost use Rattle.core_handles.specs.Pooling.{in_told, lent, none_back, none_lent, out_told};
ghost use Rattle.core_handles.specs.Pooling.{taken_back};

use crate::numbers::{CLOSED, DONE, FULL, NO_CORE, NOT_LENT};
use wire_pool::{CheckIn, CheckOut};

/// What became of a check out.
#[derive(Clone, Copy)]
#[repr(C)]
pub struct CheckedOut {
    /// 0 if a connection is lent, else why none is: 1 where the pool is closed, 11 where none is
    /// idle and as many are lent as may, or no id is left, and 255 where the handle has no pool.
    /// Then nothing changed.
    pub refusal: u32,
    /// The id is new, so the caller has to open the connection.
    pub is_new: bool,
    /// The connection's id, or 0 if none is lent.
    pub id: u64,
}

impl CheckedOut {
    /// Returns that the connection with this id is lent.
    fn lent(is_new: bool, id: u64) -> CheckedOut
        ensures { result ≡ lent is_new id }
    {
        CheckedOut {
            refusal: DONE,
            is_new,
            id,
        }
    }

    /// Returns that none is lent, by this number.
    fn refused(refusal: u32) -> CheckedOut
        ensures { result ≡ none_lent refusal }
    {
        CheckedOut {
            refusal,
            is_new: false,
            id: 0,
        }
    }

    /// Returns that the handle has no pool.
    pub(crate) fn no_core() -> CheckedOut
        ensures { result ≡ none_lent 255 }
    {
        CheckedOut::refused(NO_CORE)
    }

    /// Returns the answer of a pool.
    pub(crate) fn of(answer: CheckOut) -> CheckedOut
        ensures { result ≡ out_told answer }
    {
        match answer {
            CheckOut::Use(id) => CheckedOut::lent(false, id),
            CheckOut::Open(id) => CheckedOut::lent(true, id),
            CheckOut::Full => CheckedOut::refused(FULL),
            CheckOut::PoolClosed => CheckedOut::refused(CLOSED),
        }
    }
}

/// What became of a check in.
#[derive(Clone, Copy)]
#[repr(C)]
pub struct CheckedIn {
    /// 0 if the connection was lent, else 12, or 255 where the handle has no pool. Then nothing
    /// changed.
    pub refusal: u32,
    /// The connection is idle, and may be lent again. If it was lent and isn't kept, the pool has
    /// dropped it, so the caller has to close it.
    pub kept: bool,
}

impl CheckedIn {
    /// Returns that the connection was lent, and is kept or dropped.
    fn back(kept: bool) -> CheckedIn
        ensures { result ≡ taken_back kept }
    {
        CheckedIn {
            refusal: DONE,
            kept,
        }
    }

    /// Returns that none is taken back, by this number.
    fn refused(refusal: u32) -> CheckedIn
        ensures { result ≡ none_back refusal }
    {
        CheckedIn {
            refusal,
            kept: false,
        }
    }

    /// Returns that the handle has no pool.
    pub(crate) fn no_core() -> CheckedIn
        ensures { result ≡ none_back 255 }
    {
        CheckedIn::refused(NO_CORE)
    }

    /// Returns the answer of a pool.
    pub(crate) fn of(answer: CheckIn) -> CheckedIn
        ensures { result ≡ in_told answer }
    {
        match answer {
            CheckIn::Kept => CheckedIn::back(true),
            CheckIn::Dropped => CheckedIn::back(false),
            CheckIn::NotLent => CheckedIn::refused(NOT_LENT),
        }
    }
}
