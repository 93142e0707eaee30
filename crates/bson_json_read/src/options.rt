//! The options of a regular expression, by their text.

ghost use Rattle.std.specs.Prelude.{◌≡◌, ◌==◌, ◌++◌, ◌<◌, IfOk, OnOk, filter};
ghost use Rattle.std.specs.String.{string_bytes};
ghost use Rattle.bson_json.specs.{alphabetical, in_order};

use bson_json::is_out_of_order;
use std::alloc::{AllocError, Global};

/// Appends the characters of this code.
fn push_each(code: u8, options: &[u8], ordered: &mut String) -> Result<(), AllocError>
    requires { code < 128 }
    ensures { OnOk result (string_bytes ordered.new
        ≡ string_bytes ordered.old ++ filter (λ c. c == code) options.now) }
{
    for c in options {
        if *c == code {
            ordered.push(char::from(*c))?;
        }
    }
    Ok(())
}

/// Returns the characters of ASCII in order of their codes.
fn in_order(alloc: Global, options: &[u8]) -> Result<String, AllocError>
    ensures { IfOk result (λ text. string_bytes text ≡ in_order 128 options.now) }
{
    let mut ordered = String::with_capacity(alloc, options.len())?;
    for code in 0..128 {
        push_each(code, options, &mut ordered)?;
    }
    Ok(ordered)
}

/// Returns the options of this text, in alphabetical order.
pub(crate) fn read_options(alloc: Global, text: &str) -> Result<String, AllocError>
    ensures { IfOk result (λ read. string_bytes read ≡ alphabetical text.now) }
{
    let options = text.as_bytes();
    if is_out_of_order(options) {
        return in_order(alloc, options);
    }
    String::from_str(alloc, text)
}
