//! Lends connections from a pool.
//!
//! A `Pool` lends connections by their ids, the most recently returned one first, and takes them
//! back. It doesn't know what a connection is: the caller opens one when the pool says so, and
//! closes one that the pool drops.
//!
//! Uses the kit alone. Used by core_handles, wire_model and wire_world. Read first:
//! `specs/Pools.antt`.
#![tactic(auto)]

pub mod laws;
mod loans;
mod pool_answers;
mod pools;

pub use loans::Loan;
pub use pool_answers::{CheckIn, CheckOut, PoolRefusal};
pub use pools::Pool;
