//! Names the two forms of Extended JSON.

/// The form of Extended JSON that is written.
#[derive(Clone, Copy, Debug, PartialEq, Eq)]
pub enum Mode {
    /// The form that tells the kind of each value.
    Canonical,
    /// The form that is easier to read: an int32, an int64 and a finite double are JSON numbers, a
    /// decimal128 isn't, and dates from 1970 to 9999 are ISO-8601.
    Relaxed,
}
