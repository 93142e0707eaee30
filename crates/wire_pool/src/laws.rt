//! Proves the laws of pools. The contract of each function is the law.

ghost use Rattle.std.specs.Prelude.{◌≡◌, ◌≤◌, ◌-◌, ◌^◌, ℕ, List, [], None, Some, false};
ghost use Rattle.wire_pool.specs.declared.pool_answers.CheckOut.TheVariants.{Full};
ghost use Rattle.wire_pool.specs.PoolRuns.{PoolCall, IsRising, after_calls, given_by, times_known};
ghost use Rattle.wire_pool.specs.Pools.{PoolSeen, checked_out, new_pool, next_after};

/// Proves that each new id that a pool gives, by `check_out` or `draw`, is greater than all that it
/// gave before.
pub fn new_ids_rise()
    ensures { (max : ℕ) (calls : List PoolCall) → IsRising (given_by (new_pool max) calls) }
{}

/// Proves that no id comes after the greatest, and that an open pool without a next id and without
/// an idle connection is full.
pub fn no_id_follows_the_greatest()
    ensures last { next_after (Some (2 ^ 64 - 1)) ≡ None }
    ensures full { (p : PoolSeen) → p.closed ≡ false → p.idle ≡ [] → p.next ≡ None
        → checked_out p ≡ (Full, p) }
{}

/// Proves that after any calls each connection is idle once, lent once, or neither: none is lent
/// twice at a time, and none is idle while it is lent.
pub fn none_is_lent_twice()
    ensures { (max : ℕ) (calls : List PoolCall) (id : ℕ)
        → times_known id (after_calls (new_pool max) calls) ≤ 1 }
{}
