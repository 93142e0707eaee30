//! Reads a line of a script.

ghost use Rattle.std.specs.Prelude.{◌≡◌, ℕ, Err, IfErr, IfNone, IfOk, IfSome, List};
ghost use Rattle.script_rules.specs.declared.action.Action.{Action as Done};
ghost use Rattle.test_script.specs.Lines.{FailsBy, HasCommand, IsAction, IsActionFault};
ghost use Rattle.test_script.specs.Lines.{IsActionOf, IsNoActionFor, IsReplyOf, IsRule};
ghost use Rattle.test_script.specs.Lines.{after_command};
ghost use Rattle.test_script.specs.Tokens.{behind, word_in};

use crate::fault::Cause;
use crate::keyword::{Keyword, read_keyword};
use crate::operands::{error, is_nothing, one_number, one_word, reply};
use crate::parts::{cut_filter, cut_times, read_command, read_filter, read_times};
use crate::token::{begins_value, cut_word};
use crate::written::no_document;
use script_lines::LineError;
use script_rules::{Action, Rule};
use std::alloc::Global;

/// Reads the operands of an action.
fn action_of(alloc: Global, keyword: Keyword, operands: &[u8]) -> Result<Action, LineError>
    ensures is { IfOk result (λ action. IsActionOf keyword operands.now action) }
    ensures none { result ≡ Err LineError.Malformed → (action : Done)
        → IsActionOf keyword operands.now action → ⊥ }
{
    match keyword {
        Keyword::Reply => match reply(alloc, operands) {
            Ok(answer) => Ok(Action::Reply(answer)),
            Err(error) => Err(error),
        },
        Keyword::Error => match error(alloc, operands) {
            Ok(answer) => Ok(Action::Reply(answer)),
            Err(error) => Err(error),
        },
        Keyword::Delay => match one_number(operands) {
            Some(millis) => Ok(Action::Delay(millis)),
            None => Err(LineError::Malformed),
        },
        Keyword::Cut => match one_number(operands) {
            Some(count) => Ok(Action::Cut(count)),
            None => Err(LineError::Malformed),
        },
        Keyword::CutUp => match one_number(operands) {
            Some(count) => Ok(Action::CutUp(count)),
            None => Err(LineError::Malformed),
        },
        Keyword::HangUp if is_nothing(operands) => Ok(Action::HangUp),
        Keyword::NoReply if is_nothing(operands) => Ok(Action::NoReply),
        Keyword::Pass if is_nothing(operands) => Ok(Action::Pass),
        _ => Err(LineError::Malformed),
    }
}

/// Reads an action by its word.
fn known_action(alloc: Global, text: &[u8]) -> Result<Action, LineError>
    ensures is { IfOk result (λ action. IsAction text.now action) }
    ensures none { result ≡ Err LineError.Malformed → (action : Done) → IsAction text.now action
        → ⊥ }
{
    let (word, operands) = cut_word(text);
    match read_keyword(word) {
        Some(keyword) => action_of(alloc, keyword, operands),
        None => Err(LineError::Malformed),
    }
}

/// Returns the word that should be the document of a reply, if the text is one with one word.
fn reply_document(text: &[u8]) -> Option<&[u8]>
    ensures found { IfSome result (λ word. IsReplyOf text.now word.now) }
    ensures none { IfNone result ((word : List ℕ) → IsReplyOf text.now word → ⊥) }
{
    let (word, operands) = cut_word(text);
    if word == b"reply".as_slice() {
        one_word(operands)
    } else {
        None
    }
}

/// Returns why the text is no action: by the document of a reply, if one is there.
fn no_action(alloc: Global, text: &[u8]) -> Cause
    requires { (action : Done) → IsAction text.now action → ⊥ }
    ensures { IsNoActionFor text.now result }
{
    match reply_document(text) {
        Some(document) => no_document(alloc, document, Cause::Action),
        None => Cause::Action,
    }
}

/// Reads an action.
///
/// # Errors
///
/// Returns `Action` if it is none, or `Json` if that is for the Extended JSON of a reply; and
/// `OutOfMemory` if memory runs out.
fn read_action(alloc: Global, text: &[u8]) -> Result<Action, Cause>
    ensures is { IfOk result (λ action. IsAction text.now action) }
    ensures fault { IfErr result (λ e. IsActionFault text.now e) }
{
    match known_action(alloc, text) {
        Ok(action) => Ok(action),
        Err(LineError::Malformed) => Err(no_action(alloc, text)),
        Err(LineError::OutOfMemory) => Err(Cause::OutOfMemory),
    }
}

/// Returns the word of the command, and what stands behind it.
fn cut_command(line: &[u8]) -> Option<(&[u8], &[u8])>
    ensures found { IfSome result (λ x. HasCommand line.now × (x.0.now ≡ word_in (behind line.now))
        × (x.1.now ≡ after_command line.now)) }
    ensures none { IfNone result (HasCommand line.now → ⊥) }
{
    let (on, rest) = cut_word(line);
    let (command, rest) = cut_word(rest);
    if on == b"on".as_slice() && !command.is_empty() && !begins_value(command) {
        Some((command, rest))
    } else {
        None
    }
}

/// Reads a line of a script, without its end.
///
/// # Errors
///
/// Returns why it is no rule, by the first part of it that isn't as it has to be, or `OutOfMemory`.
pub(crate) fn parse_rule(alloc: Global, line: &[u8]) -> Result<Rule, Cause>
    ensures rule { IfOk result (λ r. IsRule line.now r) }
    ensures fault { IfErr result (λ e. FailsBy line.now e) }
{
    let Some((command, rest)) = cut_command(line) else {
        return Err(Cause::Start);
    };
    let (filter, rest) = cut_filter(rest);
    let (times, rest) = cut_times(rest);
    let filter = read_filter(alloc, filter)?;
    let Some(left) = read_times(times) else {
        return Err(Cause::Times);
    };
    let action = match read_action(alloc, rest) {
        Ok(action) => action,
        Err(cause) => return Err(cause),
    };
    match read_command(alloc, command) {
        Ok(command) => Ok(Rule {
            command,
            filter,
            left,
            action,
        }),
        Err(_) => Err(Cause::OutOfMemory),
    }
}
