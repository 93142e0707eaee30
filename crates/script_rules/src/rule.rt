//! A rule of a script, and which requests it is for.

ghost use Rattle.std.specs.Prelude.{◌≡◌, option_map};
ghost use Rattle.bson_doc.specs.{value_of};
ghost use Rattle.script_rules.specs.Rules.{is_live, meets_as, names, suits, used};

use crate::action::Action;
use bson_doc::{Bson, Document};
use doc_query::is_match;
use std::marker::Model;

/// A rule: which requests it is for, how often it may still be used, and what it does. Contracts
/// see it as the record `RuleView`.
#[derive(Debug, Drop)]
pub struct Rule {
    /// The name of the command, or `None` for any.
    pub command: Option<Vec<u8>>,
    /// The filter that the body of a request matches. The empty one asks for nothing.
    pub filter: Document,
    /// How often it may still be used, or `None` for any number of times.
    pub left: Option<u64>,
    /// What it does.
    pub action: Action,
}

impl Model for Rule {
    ghost use Rattle.std.specs.Prelude.{option_map};
    ghost use Rattle.script_rules.specs.Codes.{coded_rule};
    ghost use Rattle.script_rules.specs.Rules.{RuleView};

    ghost Value = { RuleView };

    ghost coded = { coded_rule };

    ghost view = { λ s. record {
      command = option_map (λ name. name.items) s.command;
      filter = s.filter;
      left = s.left;
      action = s.action;
    } };
}

impl Rule {
    /// Returns what the rule does.
    pub(crate) fn action(&self) -> &Action
        ensures { result.now ≡ self.now.action }
    {
        &self.action
    }

    /// Returns true if the rule may still be used.
    fn is_live(&self) -> bool
        ensures { result ≡ is_live self.now }
    {
        match self.left {
            Some(count) => count > 0,
            None => true,
        }
    }

    /// Returns true if the rule is for commands of this name.
    fn names(&self, name: &str) -> bool
        ensures { result ≡ names self.now.command name.now }
    {
        match &self.command {
            Some(own) => own.as_slice() == name.as_bytes(),
            None => true,
        }
    }

    /// Returns true if the body of a request is as the filter asks. `None` is one with a name
    /// twice, which matches the empty filter alone.
    fn suits(&self, body: Option<&Bson>) -> bool
        ensures { result ≡ suits self.now.filter (option_map (λ v. value_of v.now) body.entry) }
    {
        if self.filter.is_empty() {
            return true;
        }
        match body {
            Some(body) => is_match(&self.filter, body),
            None => false,
        }
    }

    /// Returns true if a request for a command of this name, which asks for this, meets the rule: if
    /// the rule may still be used, and is for it.
    pub(crate) fn meets(&self, name: &str, asked: Option<&Bson>) -> bool
        ensures { result
            ≡ meets_as name.now (option_map (λ v. value_of v.now) asked.entry) self.now }
    {
        self.is_live() && self.names(name) && self.suits(asked)
    }

    /// Notes that the rule was used.
    pub(crate) fn use_up(&mut self)
        ensures { self.new ≡ used self.old }
    {
        if let Some(count) = self.left {
            self.left = Some(count.saturating_sub(1));
        }
    }
}
