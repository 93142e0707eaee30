//! Room in lists that grow.

ghost use Rattle.std.specs.Prelude.{◌≡◌, ◌<◌, OnOk};
ghost use Rattle.std.specs.Vec.{vec_capacity, vec_len};
ghost use Rattle.wire_peer.specs.{IsGrown};

use std::alloc::AllocError;

/// Takes room for more elements if the list is full: for as many again, and at least four.
pub(crate) fn make_room<T>(list: &mut Vec<T>) -> Result<(), AllocError>
    ensures items { list.new.items ≡ list.old.items }
    ensures len { vec_len list.new ≡ vec_len list.old }
    ensures room { OnOk result (vec_len list.new < vec_capacity list.new) }
    ensures grown { IsGrown (vec_len list.old) (vec_capacity list.old) (vec_capacity list.new) }
{
    let count = list.len();
    if count < list.capacity() {
        return Ok(());
    }
    list.try_reserve_exact(count.max(4))
}
