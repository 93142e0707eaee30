//! A part of the caller's bytes.

ghost use Rattle.std.specs.Prelude.{◌≡◌};
ghost use Rattle.byte_views.specs.Views.{view};

/// A part of the caller's bytes: `length` bytes from `offset` on.
#[derive(Clone, Copy)]
#[repr(C)]
pub struct View {
    /// The offset of the first byte.
    pub offset: usize,
    /// The number of bytes.
    pub length: usize,
}

impl View {
    /// Returns the view of no bytes.
    pub const NONE: View = View {
        offset: 0,
        length: 0,
    };

    /// Returns the view of `length` bytes from `offset` on.
    #[inline(always)]
    pub fn new(offset: usize, length: usize) -> View
        ensures { result ≡ view offset length }
    {
        View { offset, length }
    }
}
