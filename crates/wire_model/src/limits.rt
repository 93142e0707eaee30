//! The limits with which a world is made.

/// The numbers with which each client, each server and the pool of a world are made.
#[derive(Clone, Copy, Debug, PartialEq, Eq)]
pub struct WorldLimits {
    /// The id of each client's first request, 1 to 2,147,483,647.
    pub first_id: i32,
    /// How many calls may be outstanding at a client, and how many requests may wait at a server, 1
    /// to 1,024.
    pub window: usize,
    /// How many connections the pool may have lent, 1 to 1,024.
    pub connections: usize,
    /// How many bytes a message may have, 26 to 48,000,000.
    pub limit: u32,
}
