//! Exports what is done with the pool of a handle. `lughemra_pool_new` alone takes memory.

ghost use Rattle.std.specs.Prelude.{◌≡◌};
ghost use Rattle.wire_pool.specs.{cleared_pool, closed_pool};
ghost use Rattle.core_handles.specs.Handles.{OnPool, held};
ghost use Rattle.core_handles.specs.Pooling.{IsCheckedIn, IsCheckedOut, IsPoolMade, none_back};
ghost use Rattle.core_handles.specs.Pooling.{none_lent};

use core_handles::{CheckedIn, CheckedOut, CoreHandle};
use std::alloc::Global;

/// Puts a pool into a handle of no core, as `core_handles::pool_new` does.
#[unsafe(no_mangle)]
pub extern "C" fn lughemra_pool_new_nonnull(alloc: Global, core: &mut CoreHandle, max: usize) -> u32
    ensures { IsPoolMade max (held core.old) (held core.new) result }
{
    core_handles::pool_new(alloc, core, max)
}

/// Lends a connection, as `core_handles::pool_check_out` does.
#[unsafe(no_mangle)]
pub extern "C" fn lughemra_pool_check_out_nonnull(
    alloc: Global,
    core: &mut CoreHandle,
) -> CheckedOut
    ensures { OnPool (held core.old) (held core.new) (none_lent 255) result
        (λ p after. IsCheckedOut p after result) }
{
    core_handles::pool_check_out(alloc, core)
}

/// Takes back the connection with this id, as `core_handles::pool_check_in` does.
#[unsafe(no_mangle)]
pub extern "C" fn lughemra_pool_check_in_nonnull(
    alloc: Global,
    core: &mut CoreHandle,
    id: u64,
    healthy: bool,
) -> CheckedIn
    ensures { OnPool (held core.old) (held core.new) (none_back 255) result
        (λ p after. IsCheckedIn p id healthy after result) }
{
    core_handles::pool_check_in(alloc, core, id, healthy)
}

/// Drops the idle connections, as `core_handles::pool_clear` does.
#[unsafe(no_mangle)]
pub extern "C" fn lughemra_pool_clear_nonnull(alloc: Global, core: &mut CoreHandle) -> u32
    ensures { OnPool (held core.old) (held core.new) 255 result
        (λ p after. (after ≡ cleared_pool p) × (result ≡ 0)) }
{
    core_handles::pool_clear(alloc, core)
}

/// Closes the pool for good, as `core_handles::pool_close` does.
#[unsafe(no_mangle)]
pub extern "C" fn lughemra_pool_close_nonnull(alloc: Global, core: &mut CoreHandle) -> u32
    ensures { OnPool (held core.old) (held core.new) 255 result
        (λ p after. (after ≡ closed_pool p) × (result ≡ 0)) }
{
    core_handles::pool_close(alloc, core)
}
