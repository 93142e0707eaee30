//! Answers the command hello, and its older forms isMaster and ismaster.

ghost use Rattle.std.specs.Prelude.{◌≡◌, IfOk, OnOk, codes, pos, true};
ghost use Rattle.bson_doc.specs.{put};
ghost use Rattle.doc_query.specs.{int32, truth};
ghost use Rattle.command_parts.specs.Answers.{hello_pairs, primary_name};
ghost use Rattle.wire_msg.specs.declared.header.TheConstants.{MAX_MESSAGE_LEN};

use crate::answers::set_ok;
use bson_doc::{Bson, Document};
use doc_query::set;
use std::alloc::{AllocError, Global};

/// Sets the field that says that the server takes writes.
fn set_primary(alloc: Global, answer: &mut Document, legacy: bool) -> Result<(), AllocError>
    ensures { OnOk result (answer.new ≡ put (primary_name legacy) (truth true) answer.old) }
{
    if legacy {
        set(alloc, answer, "ismaster", Bson::Boolean(true))
    } else {
        set(alloc, answer, "isWritablePrimary", Bson::Boolean(true))
    }
}

/// Sets the limits on what the server takes.
fn set_limits(alloc: Global, answer: &mut Document) -> Result<(), AllocError>
    ensures { OnOk result
        (answer.new ≡ put (codes "maxWriteBatchSize") (int32 (pos 100000))
        (put (codes "maxMessageSizeBytes") (int32 (pos MAX_MESSAGE_LEN))
        (put (codes "maxBsonObjectSize") (int32 (pos 16777216)) answer.old))) }
{
    set(alloc, answer, "maxBsonObjectSize", Bson::Int32(16_777_216))?;
    set(
        alloc,
        answer,
        "maxMessageSizeBytes",
        Bson::Int32(48_000_000),
    )?;
    set(alloc, answer, "maxWriteBatchSize", Bson::Int32(100_000))
}

/// Sets the versions of the wire protocol that the server speaks.
fn set_versions(alloc: Global, answer: &mut Document) -> Result<(), AllocError>
    ensures { OnOk result
        (answer.new ≡ put (codes "maxWireVersion") (int32 (pos 13))
        (put (codes "minWireVersion") (int32 (pos 0)) answer.old)) }
{
    set(alloc, answer, "minWireVersion", Bson::Int32(0))?;
    set(alloc, answer, "maxWireVersion", Bson::Int32(13))
}

/// Makes the answer of a standalone server, in an older form of hello if `legacy`.
pub fn hello(alloc: Global, legacy: bool) -> Result<Document, AllocError>
    ensures { IfOk result (λ d. d ≡ hello_pairs legacy) }
{
    let mut answer = Document::new(alloc);
    set(alloc, &mut answer, "helloOk", Bson::Boolean(true))?;
    set_primary(alloc, &mut answer, legacy)?;
    set_limits(alloc, &mut answer)?;
    set_versions(alloc, &mut answer)?;
    set(alloc, &mut answer, "readOnly", Bson::Boolean(false))?;
    set_ok(alloc, &mut answer)?;
    Ok(answer)
}
