//! Reads a script: a rule a line.

ghost use Rattle.std.specs.Prelude.{◌≡◌, ◌++◌, ◌∷◌, [], IfErr, IfOk, OnOk};
ghost use Rattle.script_rules.specs.{RuleView};
ghost use Rattle.test_script.specs.Lines.{FailsBy, IsRule};
ghost use Rattle.test_script.specs.Scripts.{FailsAt, IsScript};

use crate::fault::{Cause, ScriptFault};
use crate::line::parse_rule;
use script_lines::{Lines, NumberedLine};
use script_rules::{Rule, Script};
use std::alloc::Global;

/// Returns the fault of a line.
fn fault_of(line: NumberedLine<'_>, cause: Cause) -> ScriptFault
    ensures line { result.line ≡ line.entry.number }
    ensures cause { result.cause ≡ cause }
{
    ScriptFault {
        line: line.number,
        cause,
    }
}

/// Reads a line, and adds its rule.
fn add_rule(alloc: Global, line: NumberedLine<'_>, rules: &mut Vec<Rule>) -> Result<(), ScriptFault>
    ensures added { OnOk result ((r : RuleView) × IsRule line.entry.text.now r
        × (rules.new.items ≡ rules.old.items ++ r ∷ [])) }
    ensures fault { IfErr result
        (λ f. (f.line ≡ line.entry.number) × FailsBy line.entry.text.now f.cause) }
{
    let rule = match parse_rule(alloc, line.text) {
        Ok(rule) => rule,
        Err(cause) => return Err(fault_of(line, cause)),
    };
    match rules.push(rule) {
        Ok(()) => Ok(()),
        Err(_) => Err(fault_of(line, Cause::OutOfMemory)),
    }
}

/// Reads a script: a rule a line. Empty lines, and those that begin with `#`, are passed over.
///
/// # Errors
///
/// Returns the first line that is no rule, and why.
pub fn parse(alloc: Global, text: &[u8]) -> Result<Script, ScriptFault>
    ensures script { IfOk result (λ s. IsScript text.now s.rules.items) }
    ensures fault { IfErr result (λ fault. FailsAt text.now fault) }
{
    let mut rules = Vec::new(alloc);
    let mut lines = Lines::new(text);
    while let Some(line) = lines.next() {
        add_rule(alloc, line, &mut rules)?;
    }
    Ok(Script::from_rules(rules))
}
