//! What sees the bytes that pass.

ghost use Rattle.std.specs.Prelude.{List, None, Option, ℕ};
ghost use Rattle.std.specs.Io.KnownBytes.{Appends};

/// Sees the bytes that come on one way of a relay, in order.
pub trait Tap {
    // The bytes that it saw, if it tells them.
    ghost seen: { Self → Option (List ℕ) };

    /// Sees the next bytes.
    fn see(&mut self, bytes: &[u8])
        ensures { Appends (seen self.old) (seen self.new) bytes.now };
}

/// Looks away.
#[derive(Clone, Copy, Debug, PartialEq, Eq)]
pub struct NoTap;

impl Tap for NoTap {
    ghost seen = { λ _. None };

    fn see(&mut self, _bytes: &[u8]) {}
}
