//! Makes values, and sets the fields of documents.

ghost use Rattle.std.specs.Prelude.{◌≡◌, ◌<◌, ◌^◌, OnErr, OnOk, string_bytes};
ghost use Rattle.bson_doc.specs.{put, value_of};
ghost use Rattle.doc_query.specs.Values.{count_value};

use bson_doc::{Bson, Document};
use std::alloc::{AllocError, Global};

/// Sets the field with this name of a document.
fn put_field(document: &mut Document, name: String, value: Bson) -> Result<(), AllocError>
    ensures put { OnOk result
        (document.new ≡ put (string_bytes name) (value_of value) document.old) }
    ensures unchanged { OnErr result (document.new ≡ document.old) }
{
    drop(document.insert(name, value)?);
    Ok(())
}

/// Sets a field of a document.
///
/// # Errors
///
/// Returns `AllocError` if memory runs out. Nothing changes then.
pub fn set(
    alloc: Global,
    document: &mut Document,
    name: &str,
    value: Bson,
) -> Result<(), AllocError>
    ensures put { OnOk result (document.new ≡ put name.now (value_of value) document.old) }
    ensures unchanged { OnErr result (document.new ≡ document.old) }
{
    match String::from_str(alloc, name) {
        Ok(name) => put_field(document, name, value),
        Err(refused) => {
            drop(value);
            Err(refused)
        }
    }
}

/// Returns a number as a value: an int32 if it fits, and otherwise an int64.
pub fn count_value(count: usize) -> Bson
    requires { count < 2 ^ 63 }
    ensures { value_of result ≡ count_value count }
{
    if count < 0x8000_0000 {
        Bson::Int32(count as i32)
    } else {
        Bson::Int64(count as i64)
    }
}
