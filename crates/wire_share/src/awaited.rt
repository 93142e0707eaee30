//! The call whose reply a downstream awaits.

/// A call of an upstream. No two calls of all upstreams have the same two numbers, if no two
/// upstreams have the same number.
#[derive(Clone, Copy, Debug, PartialEq, Eq)]
pub struct Awaited {
    /// The number of the upstream.
    pub upstream: u64,
    /// The number of the call among those of the upstream.
    pub call: u64,
}
