//! Follows a script by the log alone: which rule each request met, and what becomes of its reply.

ghost use Rattle.std.specs.Prelude.{◌≡◌, ◌↔◌, [], IsTrue, None, OnOk, Some};
ghost use Rattle.wire_peer.specs.{entry_of, log_of};
ghost use Rattle.script_rules.specs.{after, flow_by, met};
ghost use Rattle.server_core.specs.Replies.{Follows, gate_for};

use script_rules::{Flow, Script};
use std::alloc::{AllocError, Global};
use wire_peer::Entry;
use wire_serve::Gate;

/// The rules of a script as they stand after the requests that were told, and what becomes of the
/// reply to the last one.
#[derive(Drop)]
pub struct ReplyRules {
    alloc: Global,
    script: Script,
    flow: Option<Flow>,
}

/// Returns the gate that a flow wants.
pub(crate) fn gate_for(flow: Flow) -> Gate
    ensures { result ≡ gate_for flow }
{
    match flow {
        Flow::Whole | Flow::Held(_) => Gate::Open,
        Flow::Cut(count) => Gate::Cut(count),
        Flow::Dropped => Gate::Swallowed,
    }
}

impl ReplyRules {
    /// Begins with the rules of this script, to which no request was told.
    pub fn new(alloc: Global, script: Script) -> ReplyRules
        ensures script { result.script ≡ script }
        ensures flow { result.flow ≡ None }
    {
        ReplyRules {
            alloc,
            script,
            flow: None,
        }
    }

    /// Returns true if the script has no rules, so that each reply goes as it comes.
    pub fn is_idle(&self) -> bool
        ensures { IsTrue result ↔ (self.now.script.rules.items ≡ []) }
    {
        self.script.is_empty()
    }

    /// Returns what becomes of the reply to the last request of those that were told last, if there
    /// was one.
    pub fn flow(&self) -> Option<Flow>
        ensures { result ≡ self.now.flow }
    {
        self.flow
    }

    /// Notes one request.
    fn follow_one(&mut self, entry: &Entry) -> Result<(), AllocError>
        ensures rules { OnOk result (self.new.script.rules.items
            ≡ after (entry_of entry.now).payload self.old.script.rules.items) }
        ensures flow { OnOk result (self.new.flow
            ≡ Some (flow_by (met (entry_of entry.now).payload self.old.script.rules.items))) }
    {
        let found = self.script.meet(self.alloc, entry.payload.as_payload())?;
        self.flow = Some(self.script.flow(found));
        Ok(())
    }

    /// Follows the requests of these entries, one after another.
    ///
    /// # Errors
    ///
    /// Returns `AllocError` if memory runs out.
    pub fn follow(&mut self, entries: &[Entry]) -> Result<(), AllocError>
        ensures { OnOk result (Follows self.old (log_of entries.now) self.new) }
    {
        self.flow = None;
        let mut left = entries;
        while let Some((entry, behind)) = left.split_first() {
            self.follow_one(entry)?;
            left = behind;
        }
        Ok(())
    }
}
