//! Moves the bytes of clients.

ghost use Rattle.std.specs.Prelude.{◌≡◌, ◌≤◌, ◌<◌, IfOk, Some, length, take};
ghost use Rattle.wire_serve.specs.{IsReady};
ghost use Rattle.wire_share.specs.Acts.{Ends, MovesDown, Sends, Takes};
ghost use Rattle.wire_share.specs.declared.client.Client.{Client};
ghost use Rattle.wire_share.specs.Cores.{CoreDoes, Ran, Shares, core_seen};

use crate::state::State;
use wire_stream::ReadRefusal;

impl State {
    /// Has this client take the first bytes of `piece`, and returns how many: none if it isn't
    /// there, or isn't ready.
    ///
    /// # Errors
    ///
    /// Returns `OutOfMemory` if memory runs out. Nothing is taken then.
    pub(crate) fn take(&mut self, number: u64, piece: &[u8]) -> Result<usize, ReadRefusal>
        ensures run { Ran (core_seen self.old) (core_seen self.new) }
        ensures within { IfOk result (λ n. n ≤ length piece.now) }
        ensures taken { (x : Client) → (core_seen self.old).downs number ≡ Some x
            → IsReady x.downstream.conn
            → IfOk result (λ n. CoreDoes (Shares (MovesDown number (Takes (take n piece.now))))
            (core_seen self.old) (core_seen self.new)) }
        ensures some { (x : Client) → (core_seen self.old).downs number ≡ Some x
            → IsReady x.downstream.conn → 0 < length piece.now → IfOk result (λ n. 0 < n) }
    {
        let Some(client) = self.downs.get_mut(&number) else {
            return Ok(0);
        };
        if !client.downstream.is_ready() {
            return Ok(0);
        }
        client.downstream.feed(piece)
    }

    /// Drops the first `n` of the bytes that are to be sent to this client, which were sent, if there
    /// are as many.
    pub(crate) fn sent(&mut self, number: u64, n: usize)
        ensures run { Ran (core_seen self.old) (core_seen self.new) }
        ensures sent { (x : Client) → (core_seen self.old).downs number ≡ Some x
            → n ≤ length x.downstream.conn.output
            → CoreDoes (Shares (MovesDown number (Sends (take n x.downstream.conn.output))))
            (core_seen self.old) (core_seen self.new) }
    {
        let Some(client) = self.downs.get_mut(&number) else {
            return;
        };
        if n > client.downstream.output().len() {
            return;
        }
        client.downstream.sent(n);
    }

    /// Tells this client that no more bytes come, if it is there.
    pub(crate) fn end(&mut self, number: u64)
        ensures run { Ran (core_seen self.old) (core_seen self.new) }
        ensures ended { (x : Client) → (core_seen self.old).downs number ≡ Some x
            → CoreDoes (Shares (MovesDown number Ends)) (core_seen self.old) (core_seen self.new) }
    {
        let Some(client) = self.downs.get_mut(&number) else {
            return;
        };
        client.downstream.end();
    }
}
