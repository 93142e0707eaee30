//! The law of the `_id`s that are made. The contract of the function is the law; the function does
//! nothing.

ghost use Rattle.std.specs.Prelude.{◌≡◌, ◌+◌, ◌<◌, ◌^◌, List, Some, false, length};
ghost use Rattle.bson_raw.specs.{TreeValue};
ghost use Rattle.doc_update.specs.Identity.{free_number, is_taken, made_id};

/// Proves that an `_id` that is made beside documents and others is that of none of them.
pub fn a_made_id_is_free()
    ensures free { (vs ws : List TreeValue) → length vs + length ws < 2 ^ 63
        → (is_taken (Some (made_id (free_number vs ws))) vs ≡ false)
        × (is_taken (Some (made_id (free_number vs ws))) ws ≡ false) }
{}
