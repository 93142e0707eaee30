//! Compares documents without the fields that are ignored.

ghost use Rattle.std.specs.Prelude.{◌≡◌, ◌↔◌, ◌<◌, [], IfOk, IfSome, IsTrue, MatchOption};
ghost use Rattle.std.specs.Prelude.{OnOk, OnSome, false, map, string_bytes, true};
ghost use Rattle.bson_elem.specs.{Spells, Tree};
ghost use Rattle.bson_raw.specs.{document_bytes, is_among};
ghost use Rattle.bson_doc.specs.{plain, put, tree_of, value_of};
ghost use Rattle.bson_doc.specs.RawDocumentBuf.{buf_bytes};
ghost use Rattle.replay.specs.Stripped.{AreSame, has_own_names, stripped, stripped_value};

use bson_doc::{Array, Bson, DocRefusal, Document, RawDocumentBuf, laws};
use bson_elem::laws as tree_laws;
use bson_raw::RawDocument;
use std::alloc::{AllocError, Global};

/// Returns true if this is one of the names.
fn is_among(names: &[&str], name: &str) -> bool
    ensures { result ≡ is_among name.now (map (λ n. n.now) names.now) }
{
    for ignored in names {
        if *ignored == name {
            return true;
        }
    }
    false
}

/// Sets the field with this name of a document.
fn put_field(document: &mut Document, name: String, value: Bson) -> Option<()>
    ensures { OnSome result (document.new ≡ put (string_bytes name) (value_of value) document.old) }
{
    document.insert(name, value).ok()?;
    Some(())
}

/// Returns a value without the fields of these names.
#[cycle(stripped)]
fn stripped_value(alloc: Global, names: &[&str], value: &Bson) -> Result<Bson, AllocError>
    ensures { IfOk result (λ v.
        value_of v ≡ stripped_value (map (λ n. n.now) names.now) (value_of value.now)) }
{
    match value {
        Bson::Document(document) => Ok(Bson::Document(stripped(alloc, names, document)?)),
        Bson::Array(array) => {
            let values = stripped_values(alloc, names, array.as_slice())?;
            Ok(Bson::Array(Array::from_vec(values)))
        }
        Bson::CodeWithScope { code, scope } => Ok(Bson::CodeWithScope {
            code: code.clone()?,
            scope: stripped(alloc, names, scope)?,
        }),
        _ => value.try_clone(),
    }
}

/// Adds values without the fields of these names to what is left.
#[cycle(stripped)]
fn strip_values(
    alloc: Global,
    names: &[&str],
    values: &[Bson],
    left: &mut Vec<Bson>,
) -> Result<(), AllocError>
    ensures { left.old.items ≡ [] → OnOk result (map value_of left.new.items
        ≡ map (stripped_value (map (λ n. n.now) names.now)) (map value_of values.now)) }
{
    for value in values {
        left.push(stripped_value(alloc, names, value)?)?;
    }
    Ok(())
}

/// Returns values without the fields of these names.
#[cycle(stripped)]
fn stripped_values(alloc: Global, names: &[&str], values: &[Bson]) -> Result<Vec<Bson>, AllocError>
    ensures { IfOk result (λ vs. map value_of vs.items
        ≡ map (stripped_value (map (λ n. n.now) names.now)) (map value_of values.now)) }
{
    let mut left = Vec::with_capacity(alloc, values.len())?;
    strip_values(alloc, names, values, &mut left)?;
    Ok(left)
}

/// Sets the fields of a document, without those of these names at every depth, in what is left.
#[cycle(stripped)]
fn strip_fields(
    alloc: Global,
    names: &[&str],
    document: &Document,
    left: &mut Document,
) -> Result<(), AllocError>
    ensures { left.old ≡ [] → OnOk result
        (tree_of left.new ≡ stripped (map (λ n. n.now) names.now) (tree_of document.now)) }
{
    for (name, value) in document.iter() {
        if !is_among(names, name) {
            let name = String::from_str(alloc, name)?;
            let value = stripped_value(alloc, names, value)?;
            put_field(left, name, value).ok_or(AllocError)?;
        }
    }
    Ok(())
}

/// Returns a document without the fields of these names, at every depth.
#[cycle(stripped)]
fn stripped(alloc: Global, names: &[&str], document: &Document) -> Result<Document, AllocError>
    ensures { IfOk result (λ d.
        tree_of d ≡ stripped (map (λ n. n.now) names.now) (tree_of document.now)) }
{
    let mut left = Document::new(alloc);
    strip_fields(alloc, names, document, &mut left)?;
    Ok(left)
}

/// Returns a document without the fields of these names, or `None` if a document or a scope in it
/// has a name twice.
fn read_stripped(
    alloc: Global,
    names: &[&str],
    raw: RawDocument<'_>,
) -> Result<Option<Document>, AllocError>
    ensures { (t : Tree) → Spells t (document_bytes raw.entry)
        → IfOk result (λ read. MatchOption read
        (has_own_names t ≡ false)
        (λ d. (has_own_names t ≡ true)
        × (tree_of d ≡ stripped (map (λ n. n.now) names.now) (plain t)))) }
{
    match Document::from_raw(alloc, raw) {
        Ok(document) => stripped(alloc, names, &document).map(Some),
        Err(DocRefusal::OutOfMemory) => Err(AllocError),
        Err(_) => Ok(None),
    }
}

/// Returns true if two documents are the same.
fn are_same_documents(a: &Document, b: &Document) -> bool
    ensures { IsTrue result ↔ (tree_of a.now ≡ tree_of b.now) }
{
    laws::equal_where_same();
    a == b
}

/// Returns true if two documents have the same bytes.
fn have_same_bytes(a: RawDocument<'_>, b: RawDocument<'_>) -> bool
    ensures { (t u : Tree) → Spells t (document_bytes a.entry) → Spells u (document_bytes b.entry)
        → (IsTrue result ↔ (t ≡ u)) }
{
    tree_laws::one_tree();
    tree_laws::one_spelling();
    a.as_bytes() == b.as_bytes()
}

/// Returns true if what is left of a recorded document is what is left of the other one; or if they
/// have the same bytes, where the other one has a name twice.
fn is_left(
    alloc: Global,
    names: &[&str],
    left: &Document,
    recorded: RawDocument<'_>,
    received: RawDocument<'_>,
) -> Result<bool, AllocError>
    ensures { (t u : Tree) → Spells t (document_bytes recorded.entry)
        → Spells u (document_bytes received.entry) → has_own_names t ≡ true
        → tree_of left.now ≡ stripped (map (λ n. n.now) names.now) (plain t)
        → IfOk result (λ same. IsTrue same ↔ AreSame (map (λ n. n.now) names.now) t u) }
{
    match read_stripped(alloc, names, received)? {
        Some(other) => Ok(are_same_documents(left, &other)),
        None => Ok(have_same_bytes(recorded, received)),
    }
}

/// Returns true if two documents are the same but for the fields of these names, at every depth. If
/// a name stands twice in one of them, or in a document inside, all fields are compared. Each value
/// is compared with its kind, bit by bit; the names in arrays aren't, unless all is.
///
/// # Errors
///
/// Returns `AllocError` if memory runs out.
pub fn are_same(
    alloc: Global,
    names: &[&str],
    recorded: RawDocument<'_>,
    received: RawDocument<'_>,
) -> Result<bool, AllocError>
    ensures { (t u : Tree) → Spells t (document_bytes recorded.entry)
        → Spells u (document_bytes received.entry)
        → IfOk result (λ same. IsTrue same ↔ AreSame (map (λ n. n.now) names.now) t u) }
{
    let Some(left) = read_stripped(alloc, names, recorded)? else {
        return Ok(have_same_bytes(recorded, received));
    };
    is_left(alloc, names, &left, recorded, received)
}

/// Returns the bytes of a document, or `None` if it can't be written.
fn written(document: &Document) -> Result<Option<RawDocumentBuf>, AllocError>
    ensures { IfOk result (λ read. IfSome read
        (λ bytes. Spells (tree_of document.now) (buf_bytes bytes))) }
{
    match document.to_raw() {
        Ok(bytes) => Ok(Some(bytes)),
        Err(DocRefusal::OutOfMemory) => Err(AllocError),
        Err(_) => Ok(None),
    }
}

/// Returns the bytes of a document without the fields of these names; or `None` if there are no
/// names, or if the document has a name twice or can't be written back.
///
/// # Errors
///
/// Returns `AllocError` if memory runs out.
pub fn without_ignored(
    alloc: Global,
    names: &[&str],
    raw: RawDocument<'_>,
) -> Result<Option<RawDocumentBuf>, AllocError> {
    if names.is_empty() {
        return Ok(None);
    }
    match read_stripped(alloc, names, raw)? {
        Some(document) => written(&document),
        None => Ok(None),
    }
}
