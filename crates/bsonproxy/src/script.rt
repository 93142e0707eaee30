//! Reads the script of a proxy.

ghost use Rattle.std.specs.Prelude.{IfErr, IfOk, option_map};
ghost use Rattle.bsonproxy.specs.Serving.{IsRead, IsUnread};

use crate::fault::ServeFault;
use proxy::ProxyFault;
use script_rules::Script;
use std::alloc::Global;
use std::io::ErrorKind;
use std::rt::Files;
use std::{fs, io};
use test_script::{Cause, parse};

/// Reads the script, if a file of one is given.
///
/// # Errors
///
/// Returns `Script` if the script is at fault, `ScriptFile` if it can't be read or memory runs out
/// meanwhile, and `Proxy` if memory runs out for its rules.
pub fn read_script<R: Files + Alloc>(
    rt: &R,
    alloc: Global,
    file: Option<&str>,
) -> Result<Option<Script>, ServeFault>
    ensures read { IfOk result (λ script. IsRead (option_map (λ f. f.now) file.entry) script) }
    ensures unread { IfErr result (λ fault. IsUnread (option_map (λ f. f.now) file.entry) fault) }
{
    let Some(file) = file else {
        return Ok(None);
    };
    let text = match fs::read(rt, file) {
        Ok(text) => text,
        Err(error) => return Err(ServeFault::ScriptFile(error)),
    };
    match parse(alloc, &text) {
        Ok(script) => Ok(Some(script)),
        Err(fault) if fault.cause == Cause::OutOfMemory => {
            let error = io::Error::from(ErrorKind::OutOfMemory);
            Err(ServeFault::Proxy(ProxyFault::Io(error)))
        }
        Err(fault) => Err(ServeFault::Script(fault)),
    }
}
