//! A script: rules, the first live one of which a request meets.

ghost use Rattle.std.specs.Prelude.{◌≡◌, ◌↔◌, [], IfOk, IsTrue, OnErr, OnOk};
ghost use Rattle.std.specs.Prelude.{List, option_copied, option_map};
ghost use Rattle.bson_doc.specs.{value_of};
ghost use Rattle.wire_msg.specs.{Content};
ghost use Rattle.wire_peer.specs.{content_of};
ghost use Rattle.script_rules.specs.Meeting.{action_at, after, first_met, first_met_as, flow_by};
ghost use Rattle.script_rules.specs.Meeting.{met};
ghost use Rattle.script_rules.specs.Rules.{RuleView};

use crate::action::{Action, Flow};
use crate::asked::{asked_name, asked_value};
use crate::rule::Rule;
use bson_doc::Bson;
use std::alloc::{AllocError, Global};
use wire_msg::Payload;

/// Rules, in their order.
#[derive(Debug, Drop)]
pub struct Script {
    pub(crate) rules: Vec<Rule>,
}

impl Script {
    /// Returns the script without rules. It takes no memory.
    pub fn new(alloc: Global) -> Script
        ensures { result.rules.items ≡ [] }
    {
        Script {
            rules: Vec::new(alloc),
        }
    }

    /// Makes the script of these rules, in their order.
    pub fn from_rules(rules: Vec<Rule>) -> Script
        ensures { result.rules ≡ rules }
    {
        Script { rules }
    }

    /// Returns true if there are no rules.
    pub fn is_empty(&self) -> bool
        ensures { IsTrue result ↔ (self.now.rules.items ≡ []) }
    {
        self.rules.is_empty()
    }

    /// Returns what the rule at an index does.
    fn action_at(&self, found: Option<usize>) -> Option<&Action>
        ensures { option_copied result ≡ action_at found self.now.rules.items }
    {
        match self.rules.get(found?) {
            Some(rule) => Some(rule.action()),
            None => None,
        }
    }

    /// Returns what the rule does that a request met, by the index that `meet` returned for it.
    pub fn action(&self, found: Option<usize>) -> Option<&Action>
        ensures at { option_copied result ≡ action_at found self.now.rules.items }
        ensures met { (c : Content) (rs : List RuleView) → self.now.rules.items ≡ after c rs
            → found ≡ first_met c rs → option_copied result ≡ met c rs }
    {
        self.action_at(found)
    }

    /// Returns what becomes of the reply to a request, by the index that `meet` returned for it.
    pub fn flow(&self, found: Option<usize>) -> Flow
        ensures { (c : Content) (rs : List RuleView) → self.now.rules.items ≡ after c rs
            → found ≡ first_met c rs → result ≡ flow_by (met c rs) }
    {
        match self.action(found) {
            Some(action) => action.flow(),
            None => Flow::Whole,
        }
    }

    /// Returns the index of the first rule that a request for a command of this name meets, which
    /// asks for this.
    fn find(&self, name: &str, asked: Option<&Bson>) -> Option<usize>
        ensures { result ≡ first_met_as name.now (option_map (λ v. value_of v.now) asked.entry)
            self.now.rules.items }
    {
        for (i, rule) in self.rules.iter().enumerate() {
            if rule.meets(name, asked) {
                return Some(i);
            }
        }
        None
    }

    /// Returns the index of the first live rule that the request meets, if it meets one.
    fn found(&self, alloc: Global, request: Payload<'_>) -> Result<Option<usize>, AllocError>
        ensures { IfOk result
            (λ i. i ≡ first_met (content_of request.entry) self.now.rules.items) }
    {
        if self.is_empty() {
            return Ok(None);
        }
        let asked = asked_value(alloc, request)?;
        Ok(self.find(asked_name(request), asked.as_ref()))
    }

    /// Returns the index of the first live rule that the request meets, if it meets one, and notes
    /// that it was used.
    ///
    /// # Errors
    ///
    /// Returns `AllocError` if memory runs out. Then nothing changes.
    pub fn meet(&mut self, alloc: Global, request: Payload<'_>) -> Result<Option<usize>, AllocError>
        ensures met { IfOk result
            (λ i. i ≡ first_met (content_of request.entry) self.old.rules.items) }
        ensures used { OnOk result
            (self.new.rules.items ≡ after (content_of request.entry) self.old.rules.items) }
        ensures unchanged { OnErr result (self.new.rules.items ≡ self.old.rules.items) }
    {
        let found = self.found(alloc, request)?;
        match found {
            Some(i) => {
                self.rules[i].use_up();
                Ok(Some(i))
            }
            None => Ok(None),
        }
    }
}
