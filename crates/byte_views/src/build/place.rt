//! Puts bytes into the room of a caller.

ghost use Rattle.std.specs.Prelude.{◌≡◌, ◌≤◌, ◌+◌, length};
ghost use Rattle.byte_views.specs.Placing.{placed};

/// Writes `part` to offset `at` of `room`. Returns the offset after it.
#[inline(always)]
pub(crate) fn put(room: &mut [u8], at: usize, part: &[u8]) -> usize
    requires { at + length part.now ≤ length room.old }
    ensures placed { room.new ≡ placed at part.now room.old }
    ensures after { result ≡ at + length part.now }
{
    let after = at + part.len();
    room[at..after].copy_from_slice(part);
    after
}
