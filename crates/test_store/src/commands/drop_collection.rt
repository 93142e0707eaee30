//! Carries out the command drop.

ghost use Rattle.std.specs.Prelude.{◌≡◌, ◌<◌, ◌^◌, [], IfOk, OnErr, OnOk};
ghost use Rattle.bson_elem.specs.{Spells, Tree};
ghost use Rattle.bson_raw.specs.{document_bytes};
ghost use Rattle.test_store.specs.Answers.{dropped_pairs};
ghost use Rattle.test_store.specs.Commands.{IsCarriedOut, drop_collection};
ghost use Rattle.test_store.specs.Held.{namespace_of, namespace_text, store_of};

use crate::answer::set_namespace;
use crate::fields::namespace_field;
use crate::namespace::Namespace;
use crate::store::Store;
use bson_doc::Document;
use bson_raw::RawDocument;
use command_parts::set_ok;
use doc_query::{CommandError, Failure, count_value, set};
use std::alloc::{AllocError, Global};

/// Sets the fields of the answer that says that a collection with so many indexes was dropped.
fn set_dropped(
    alloc: Global,
    answer: &mut Document,
    indexes: usize,
    namespace: Namespace<'_>,
) -> Result<(), AllocError>
    requires few { indexes < 2 ^ 63 }
    requires none { answer.old ≡ [] }
    ensures { OnOk result
        (answer.new ≡ dropped_pairs indexes (namespace_text (namespace_of namespace.entry))) }
{
    set(alloc, answer, "nIndexesWas", count_value(indexes))
        .and(set_namespace(alloc, answer, namespace))
        .and(set_ok(alloc, answer))
}

/// Makes the answer that says that a collection with so many indexes was dropped.
fn dropped_answer(
    alloc: Global,
    indexes: usize,
    namespace: Namespace<'_>,
) -> Result<Document, AllocError>
    requires { indexes < 2 ^ 63 }
    ensures { IfOk result
        (λ d. d ≡ dropped_pairs indexes (namespace_text (namespace_of namespace.entry))) }
{
    let mut answer = Document::new(alloc);
    set_dropped(alloc, &mut answer, indexes, namespace).and(Ok(answer))
}

/// Drops a collection.
pub fn drop_collection(
    alloc: Global,
    store: &mut Store,
    body: RawDocument<'_>,
) -> Result<Document, Failure>
    ensures carried { (t : Tree) → Spells t (document_bytes body.entry)
        → IsCarriedOut (drop_collection (store_of store.old) t) (store_of store.old) result
        (store_of store.new) }
    ensures kept { OnErr result
        ((store_of store.new).collections ≡ (store_of store.old).collections) }
{
    let namespace = namespace_field(body, "drop", CommandError::Drop)?;
    let Some(indexes) = store.indexes(namespace) else {
        return Err(Failure::Refused(CommandError::NamespaceNotFound));
    };
    let answer = dropped_answer(alloc, indexes.len(), namespace)?;
    match store.drop_collection(namespace) {
        Ok(()) => Ok(answer),
        Err(error) => {
            drop(answer);
            Err(Failure::Refused(error))
        }
    }
}
