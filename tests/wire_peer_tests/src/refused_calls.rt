//! How calls end in a run in which one allocation is refused.

/// How a call ended.
#[derive(Clone, Copy, Debug, PartialEq)]
pub(crate) enum CallEnd {
    /// As expected.
    AtOnce,
    /// Out of memory, with nothing changed; and the same call after it ended as expected.
    Again,
    /// Out of memory, with what that has to leave, after which no call follows.
    ToAnEnd,
    Otherwise,
}

/// Returns the end of a call for which memory ran out. If `holds`, nothing changed and the same
/// call then ended as expected.
pub(crate) fn again(holds: bool) -> CallEnd {
    if holds {
        CallEnd::Again
    } else {
        CallEnd::Otherwise
    }
}

/// Returns the end of a call for which memory ran out. If `holds`, it left what it had to leave.
pub(crate) fn to_an_end(holds: bool) -> CallEnd {
    if holds {
        CallEnd::ToAnEnd
    } else {
        CallEnd::Otherwise
    }
}

/// Returns the end of a call that got all its memory. If `holds`, it ended as expected.
pub(crate) fn at_once(holds: bool) -> CallEnd {
    if holds {
        CallEnd::AtOnce
    } else {
        CallEnd::Otherwise
    }
}

/// Returns the end of two calls. At most one of them met a refusal, since only one allocation is
/// refused in a run.
pub(crate) fn both(first: CallEnd, second: CallEnd) -> CallEnd {
    match (first, second) {
        (CallEnd::AtOnce, came) => came,
        (came, CallEnd::AtOnce) => came,
        _ => CallEnd::Otherwise,
    }
}

/// Returns true if another call may follow.
pub(crate) fn goes_on(came: CallEnd) -> bool {
    match came {
        CallEnd::AtOnce | CallEnd::Again => true,
        CallEnd::ToAnEnd | CallEnd::Otherwise => false,
    }
}
