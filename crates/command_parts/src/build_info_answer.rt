//! Answers the command buildInfo.

ghost use Rattle.std.specs.Prelude.{◌≡◌, IfOk, map};
ghost use Rattle.bson_doc.specs.{value_of};
ghost use Rattle.command_parts.specs.Answers.{build_pairs, version_parts};

use crate::answers::{set_ok, set_text};
use bson_doc::{Array, Bson, Document};
use doc_query::set;
use std::alloc::{AllocError, Global};

/// Makes the numbers of the version of a server that has the wire versions 0 to 13.
fn version_parts(alloc: Global) -> Result<Vec<Bson>, AllocError>
    ensures { IfOk result (λ vs. map value_of vs.items ≡ version_parts) }
{
    let mut parts = Vec::with_capacity(alloc, 4)?;
    parts.push(Bson::Int32(5))?;
    parts.push(Bson::Int32(0))?;
    parts.push(Bson::Int32(0))?;
    parts.push(Bson::Int32(0))?;
    Ok(parts)
}

/// Makes the answer of a server of the version 5.0.0.
pub fn build_info(alloc: Global) -> Result<Document, AllocError>
    ensures { IfOk result (λ d. d ≡ build_pairs) }
{
    let parts = Array::from_vec(version_parts(alloc)?);
    let mut answer = Document::new(alloc);
    set_text(alloc, &mut answer, "version", "5.0.0")?;
    set(alloc, &mut answer, "versionArray", Bson::Array(parts))?;
    set(
        alloc,
        &mut answer,
        "maxBsonObjectSize",
        Bson::Int32(16_777_216),
    )?;
    set_ok(alloc, &mut answer)?;
    Ok(answer)
}
