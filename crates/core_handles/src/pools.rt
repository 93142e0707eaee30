//! What is done with the pool of a handle. Where the handle has no pool, each call answers 255.

ghost use Rattle.std.specs.Prelude.{◌≡◌};
ghost use Rattle.wire_pool.specs.{cleared_pool, closed_pool};
ghost use Rattle.core_handles.specs.Handles.{OnPool, held};
ghost use Rattle.core_handles.specs.Pooling.{IsCheckedIn, IsCheckedOut, IsPoolMade, none_back};
ghost use Rattle.core_handles.specs.Pooling.{none_lent};

use crate::cores::Core;
use crate::handle::CoreHandle;
use crate::numbers::{DONE, IN_USE, NO_CORE, pool_number};
use crate::pool_answers::{CheckedIn, CheckedOut};
use std::alloc::Global;
use wire_pool::Pool;

/// Puts a pool into a handle of no core, as `Pool::new` makes it.
///
/// Returns 0, or 4 where `max` is out of range, 9 where the handle has a core, and 254 where there
/// was no memory. Then nothing changed.
pub fn pool_new(alloc: Global, core: &mut CoreHandle, max: usize) -> u32
    ensures { IsPoolMade max (held core.old) (held core.new) result }
{
    if core.there {
        return IN_USE;
    }
    match Pool::new(alloc, max) {
        Ok(pool) => core.put_new(alloc, Core::Pool(pool)),
        Err(refusal) => pool_number(refusal),
    }
}

/// Lends a connection, as `Pool::check_out` does.
pub fn pool_check_out(alloc: Global, core: &mut CoreHandle) -> CheckedOut
    ensures { OnPool (held core.old) (held core.new) (none_lent 255) result
        (λ p after. IsCheckedOut p after result) }
{
    let Some(mut boxed) = core.take(alloc) else {
        return CheckedOut::no_core();
    };
    let Core::Pool(pool) = &mut *boxed else {
        core.put(boxed);
        return CheckedOut::no_core();
    };
    let told = CheckedOut::of(pool.check_out());
    core.put(boxed);
    told
}

/// Takes back the connection with this id, `healthy` or not, as `Pool::check_in` does.
pub fn pool_check_in(alloc: Global, core: &mut CoreHandle, id: u64, healthy: bool) -> CheckedIn
    ensures { OnPool (held core.old) (held core.new) (none_back 255) result
        (λ p after. IsCheckedIn p id healthy after result) }
{
    let Some(mut boxed) = core.take(alloc) else {
        return CheckedIn::no_core();
    };
    let Core::Pool(pool) = &mut *boxed else {
        core.put(boxed);
        return CheckedIn::no_core();
    };
    let told = CheckedIn::of(pool.check_in(id, healthy));
    core.put(boxed);
    told
}

/// Drops the idle connections, and each lent one when it is returned. Returns 0.
pub fn pool_clear(alloc: Global, core: &mut CoreHandle) -> u32
    ensures { OnPool (held core.old) (held core.new) 255 result
        (λ p after. (after ≡ cleared_pool p) × (result ≡ 0)) }
{
    let Some(mut boxed) = core.take(alloc) else {
        return NO_CORE;
    };
    let Core::Pool(pool) = &mut *boxed else {
        core.put(boxed);
        return NO_CORE;
    };
    pool.clear();
    core.put(boxed);
    DONE
}

/// Closes the pool for good: drops the idle connections, and each lent one when it is returned.
/// Returns 0.
pub fn pool_close(alloc: Global, core: &mut CoreHandle) -> u32
    ensures { OnPool (held core.old) (held core.new) 255 result
        (λ p after. (after ≡ closed_pool p) × (result ≡ 0)) }
{
    let Some(mut boxed) = core.take(alloc) else {
        return NO_CORE;
    };
    let Core::Pool(pool) = &mut *boxed else {
        core.put(boxed);
        return NO_CORE;
    };
    pool.close();
    core.put(boxed);
    DONE
}
