//! Checks the parts of a query (MongoDB Wire Protocol manual: OP_QUERY), in their order.

ghost use Rattle.std.specs.Prelude.{◌≡◌, ◌+◌, ◌<◌, ◌≤◌, ◌^◌, length, drop, MatchOption};
ghost use Rattle.std.specs.Prelude.{MatchResult};
ghost use Rattle.bson_elem.specs.{IsName};
ghost use Rattle.bson_raw.specs.{document_bytes};
ghost use Rattle.wire_query.specs.Queries.{command_name, IsDatabase};
ghost use Rattle.wire_query.specs.Faults.{CommandFault, FaultQuery, IsOfCommands, NameFault};
ghost use Rattle.wire_query.specs.Faults.{NumbersFault};
ghost use Rattle.wire_query.specs.Checks.{HasCommand, HasHeader, HasName, HasNumbers, HasParts};

use crate::fault::{QueryCause, QueryFault, fault_at};
use crate::query::OP_QUERY;
use bson_elem::{little_u32, read_cstring};
use bson_raw::RawDocument;
use std::alloc::Global;
use wire_msg::{MAX_MESSAGE_LEN, MsgHeader, has_repeated_name};

/// SlaveOk, bit 2 of the flags: a secondary may answer.
const SECONDARY_OK: u32 = 4;

/// The offset of the collection's full name, after the header and the flags.
const NAME: usize = 20;

/// The number of bytes of numberToSkip and numberToReturn.
const NUMBERS_LEN: usize = 8;

/// Checks the header, and that the length in it is the number of bytes.
fn check_header(bytes: &[u8], limit: u32) -> Result<(), QueryFault>
    ensures { MatchResult result
        (λ _. HasHeader limit bytes.now)
        (λ f. FaultQuery bytes.now limit f) }
{
    let Some((header, _)) = bytes.split_first_chunk::<16>() else {
        return Err(fault_at(0, QueryCause::Length));
    };
    let header = MsgHeader::read(*header);
    if header.length as usize != bytes.len() || header.length > limit {
        return Err(fault_at(0, QueryCause::Length));
    }
    if header.opcode != OP_QUERY {
        return Err(fault_at(12, QueryCause::Opcode(header.opcode)));
    }
    Ok(())
}

/// Checks the command, which begins at offset `at` and is all of `bytes`.
fn check_command(alloc: Global, bytes: &[u8], at: usize) -> Result<RawDocument<'_>, QueryFault>
    requires { at + length bytes.now < 2 ^ 64 }
    ensures { MatchResult result
        (λ d. (document_bytes d ≡ bytes.now) × HasCommand bytes.now)
        (λ f. CommandFault at bytes.now f) }
{
    match RawDocument::front(bytes) {
        Err(inner) => Err(fault_at(at, QueryCause::Document(inner))),
        Ok((_, rest)) if !rest.is_empty() => {
            let end = at + (bytes.len() - rest.len());
            Err(fault_at(end, QueryCause::TrailingBytes))
        }
        Ok((command, _)) => {
            if has_repeated_name(alloc, command) {
                return Err(fault_at(at, QueryCause::RepeatedField));
            }
            Ok(command)
        }
    }
}

/// Checks numberToSkip, numberToReturn and the command, which begin at offset `at`. Returns the
/// command.
fn check_numbers(alloc: Global, bytes: &[u8], at: usize) -> Result<RawDocument<'_>, QueryFault>
    requires { at + length bytes.now < 2 ^ 64 }
    ensures { MatchResult result
        (λ d. HasNumbers bytes.now (document_bytes d))
        (λ f. NumbersFault at bytes.now f) }
{
    if bytes.len() < NUMBERS_LEN {
        return Err(fault_at(at, QueryCause::Truncated));
    }
    if little_u32(bytes) != 0 {
        return Err(fault_at(at, QueryCause::Skip));
    }
    let count = little_u32(&bytes[4..NUMBERS_LEN]);
    if count != 1 && count != u32::MAX {
        return Err(fault_at(at + 4, QueryCause::Count));
    }
    check_command(alloc, &bytes[NUMBERS_LEN..], at + NUMBERS_LEN)
}

/// Returns the database whose commands are sent to the collection with this full name, if it is
/// such a collection.
fn database_of(name: &str) -> Option<&str>
    requires { IsName name.now }
    ensures { MatchOption result
        (IsOfCommands name.now → ⊥)
        (λ database. IsDatabase database.now × (name.now ≡ command_name database.now)) }
{
    let (database, collection) = name.split_once('.')?;
    if database.is_empty() || collection != "$cmd" {
        return None;
    }
    Some(database)
}

/// Checks what follows the flags. Returns the database's name and the command.
fn check_name(alloc: Global, bytes: &[u8]) -> Result<(&str, RawDocument<'_>), QueryFault>
    requires { length bytes.now < 2 ^ 32 }
    ensures { MatchResult result
        (λ x. HasName bytes.now x.0.now (document_bytes x.1))
        (λ f. NameFault bytes.now f) }
{
    let Ok((name, rest)) = read_cstring(bytes) else {
        return Err(fault_at(NAME, QueryCause::Name));
    };
    let Some(database) = database_of(name) else {
        return Err(fault_at(NAME, QueryCause::Collection));
    };
    let command = check_numbers(alloc, rest, NAME + 1 + name.len())?;
    Ok((database, command))
}

/// Checks a whole query. Returns the database's name and the command.
pub(crate) fn check_query(
    alloc: Global,
    bytes: &[u8],
    limit: u32,
) -> Result<(&str, RawDocument<'_>), QueryFault>
    requires { limit ≤ MAX_MESSAGE_LEN }
    ensures { MatchResult result
        (λ x. HasParts limit bytes.now x.0.now (document_bytes x.1))
        (λ f. FaultQuery bytes.now limit f) }
{
    check_header(bytes, limit)?;
    if bytes.len() < NAME {
        return Err(fault_at(16, QueryCause::Truncated));
    }
    let flags = little_u32(&bytes[16..NAME]);
    if flags != 0 && flags != SECONDARY_OK {
        return Err(fault_at(16, QueryCause::Flags));
    }
    check_name(alloc, &bytes[NAME..])
}
