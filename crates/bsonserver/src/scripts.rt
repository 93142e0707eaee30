//! Reads the rules of the script.

ghost use Rattle.std.specs.Prelude.{IfErr, IfOk, option_map};
ghost use Rattle.test_script.specs.{FailsAt, IsScript};
ghost use Rattle.bsonserver.specs.Runs.{AreRead, IsRefused};

use crate::ending::ServingEnd;
use script_rules::Script;
use server_core::{Stop, wants_memory};
use std::alloc::Global;
use std::fs;
use std::rt::Files;
use test_script::{Cause, ScriptFault, parse};

/// The rules of a script, twice: those that answers follow, and those that say what becomes of
/// replies.
#[derive(Drop)]
pub struct Scripts {
    pub script: Script,
    pub replies: Script,
}

/// Reads the script out of its text.
///
/// # Errors
///
/// Returns the first line that is no rule, and why.
fn parse_scripts(alloc: Global, text: &[u8]) -> Result<Scripts, ScriptFault>
    ensures script { IfOk result (λ s. IsScript text.now s.script.rules.items) }
    ensures replies { IfOk result (λ s. IsScript text.now s.replies.rules.items) }
    ensures fault { IfErr result (λ fault. FailsAt text.now fault) }
{
    let script = parse(alloc, text)?;
    let replies = parse(alloc, text)?;
    Ok(Scripts { script, replies })
}

/// Reads the script, if a file of one is given, and else makes the one without rules.
pub fn read_scripts<R: Files + Alloc>(
    rt: &R,
    alloc: Global,
    file: Option<&str>,
) -> Result<Scripts, ServingEnd>
    ensures read { IfOk result (λ s. AreRead (option_map (λ f. f.now) file.entry)
        s.script.rules.items s.replies.rules.items) }
    ensures refused { IfErr result (λ end. IsRefused (option_map (λ f. f.now) file.entry) end) }
{
    let Some(file) = file else {
        return Ok(Scripts {
            script: Script::new(alloc),
            replies: Script::new(alloc),
        });
    };
    let text = match fs::read(rt, file) {
        Ok(text) => text,
        Err(error) if wants_memory(&error) => {
            return Err(ServingEnd::Stopped(Stop::OutOfMemory));
        }
        Err(error) => return Err(ServingEnd::ScriptFile(error)),
    };
    match parse_scripts(alloc, text.as_slice()) {
        Ok(scripts) => Ok(scripts),
        Err(fault) if fault.cause == Cause::OutOfMemory => {
            Err(ServingEnd::Stopped(Stop::OutOfMemory))
        }
        Err(fault) => Err(ServingEnd::Script(fault)),
    }
}
