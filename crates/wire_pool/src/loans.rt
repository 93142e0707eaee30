//! Keeps the connections that a pool has lent.

ghost use Rattle.std.specs.Prelude.{◌≡◌, ◌&&◌, map, not};
ghost use Rattle.std.specs.Vec.{vec_capacity};
ghost use Rattle.wire_pool.specs.Loans.{loan_of, cleared, without};

/// A lent connection.
#[derive(Clone, Copy, Debug, PartialEq, Eq)]
pub struct Loan {
    /// The connection's id.
    pub id: u64,
    /// Whether the pool was cleared since it was lent.
    pub cleared: bool,
}

impl Loan {
    /// Returns true if the connection, `healthy` or not, is kept when it is returned to a pool that
    /// is `closed` or not.
    pub(crate) fn is_kept(self, healthy: bool, closed: bool) -> bool
        ensures { result ≡ (healthy && (not closed && not self.cleared)) }
    {
        healthy && !closed && !self.cleared
    }
}

/// Returns the loan of the connection with this id, if it is lent.
pub(crate) fn loan_of(lent: &[Loan], id: u64) -> Option<Loan>
    ensures { result ≡ loan_of id lent.now }
{
    lent.iter().find(|loan| loan.id == id).copied()
}

/// Removes the connection with this id from the lent ones.
pub(crate) fn take_out(lent: &mut Vec<Loan>, id: u64)
    ensures others { lent.new.items ≡ without id lent.old.items }
    ensures room { vec_capacity lent.new ≡ vec_capacity lent.old }
{
    lent.retain(|loan| loan.id != id);
}

/// Notes in each loan that the pool was cleared.
pub(crate) fn clear_all(lent: &mut [Loan])
    ensures { lent.new ≡ map cleared lent.old }
{
    for loan in lent.iter_mut() {
        loan.cleared = true;
    }
}
