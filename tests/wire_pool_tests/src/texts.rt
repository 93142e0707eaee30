//! Tests of the texts of a pool's refusals.

use std::alloc::Global;
use wire_pool::PoolRefusal;

/// Returns true if the refusal is printed as this text.
fn shows(alloc: Global, refusal: PoolRefusal, text: &str) -> bool {
    match format!(in alloc; "{refusal}") {
        Ok(shown) => shown.as_str() == text,
        Err(_) => false,
    }
}

#[test]
fn refusals_are_printed(rt: HostRuntime) {
    assert!(rt;
        shows(
            rt.alloc(),
            PoolRefusal::BadMax,
            "the greatest number isn't from 1 to 1,024"
        )
    );
    assert!(rt; shows(rt.alloc(), PoolRefusal::OutOfMemory, "out of memory"));
}
