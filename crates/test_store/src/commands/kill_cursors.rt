//! Carries out the command killCursors.

ghost use Rattle.std.specs.Prelude.{◌≡◌, [], IfOk, OnOk, map};
ghost use Rattle.bson_elem.specs.{Spells, Tree};
ghost use Rattle.bson_raw.specs.{document_bytes};
ghost use Rattle.bson_doc.specs.{tree_of, value_of};
ghost use Rattle.test_store.specs.Answers.{killed_pairs};
ghost use Rattle.test_store.specs.Commands.{IsCarriedOut, kill_cursors, kill_each, kill_reply};
ghost use Rattle.test_store.specs.Commands.{kill_in, kill_one, killing_so_far};
ghost use Rattle.test_store.specs.Held.{namespace_of, store_of};

use crate::answer::{in_memory, set_array};
use crate::fields::namespace_field;
use crate::namespace::Namespace;
use crate::store::Store;
use crate::values::push;
use bson_doc::{Bson, Document};
use bson_raw::RawDocument;
use command_parts::set_ok;
use doc_query::{CommandError, Failure, array_field, owned_body};
use std::alloc::{AllocError, Global};

/// Sets the fields of the answer that says which cursors were closed, and which weren't open.
fn set_killed(
    alloc: Global,
    answer: &mut Document,
    killed: Vec<Bson>,
    missing: Vec<Bson>,
) -> Result<(), AllocError>
    requires { answer.old ≡ [] }
    ensures { OnOk result (answer.new
        ≡ killed_pairs (map value_of killed.items) (map value_of missing.items)) }
{
    set_array(alloc, answer, "cursorsKilled", killed)
        .and(set_array(alloc, answer, "cursorsNotFound", missing))
        .and(set_array(alloc, answer, "cursorsAlive", Vec::new(alloc)))
        .and(set_array(alloc, answer, "cursorsUnknown", Vec::new(alloc)))
        .and(set_ok(alloc, answer))
}

/// Makes the answer that says which cursors were closed, and which weren't open.
fn killed_answer(
    alloc: Global,
    killed: Vec<Bson>,
    missing: Vec<Bson>,
) -> Result<Document, AllocError>
    ensures { IfOk result
        (λ d. d ≡ killed_pairs (map value_of killed.items) (map value_of missing.items)) }
{
    let mut answer = Document::new(alloc);
    set_killed(alloc, &mut answer, killed, missing).and(Ok(answer))
}

/// Closes the cursor with this id, if it is open, and appends the id to those of the cursors that
/// were closed, or to those that weren't open.
fn close_one(
    store: &mut Store,
    namespace: Namespace<'_>,
    id: &Bson,
    killed: &mut Vec<Bson>,
    missing: &mut Vec<Bson>,
) -> Result<(), AllocError>
    ensures closed { OnOk result (kill_one (namespace_of namespace.entry) (value_of id.now)
        (killing_so_far (store_of store.old) (map value_of killed.old.items)
        (map value_of missing.old.items))
        ≡ killing_so_far (store_of store.new) (map value_of killed.new.items)
        (map value_of missing.new.items)) }
    ensures steady { (store_of store.new).collections ≡ (store_of store.old).collections }
{
    let copy = id.try_clone()?;
    if store.close_cursor(id, namespace) {
        push(killed, copy)
    } else {
        push(missing, copy)
    }
}

/// Closes those of the cursors that are open, and appends each id to those of the cursors that were
/// closed, or to those that weren't open.
fn close_each(
    store: &mut Store,
    namespace: Namespace<'_>,
    ids: &[Bson],
    killed: &mut Vec<Bson>,
    missing: &mut Vec<Bson>,
) -> Result<(), AllocError>
    ensures closed { OnOk result (kill_each (namespace_of namespace.entry) (map value_of ids.now)
        (killing_so_far (store_of store.old) (map value_of killed.old.items)
        (map value_of missing.old.items))
        ≡ killing_so_far (store_of store.new) (map value_of killed.new.items)
        (map value_of missing.new.items)) }
    ensures steady { (store_of store.new).collections ≡ (store_of store.old).collections }
{
    for id in ids {
        close_one(store, namespace, id, killed, missing)?;
    }
    Ok(())
}

/// Closes those of the cursors that are open, and answers with what became of each.
fn close_all(
    alloc: Global,
    store: &mut Store,
    namespace: Namespace<'_>,
    ids: &[Bson],
) -> Result<Document, AllocError>
    ensures answered { IfOk result (λ d.
        kill_reply (store_of store.old) (namespace_of namespace.entry) (map value_of ids.now)
        ≡ record { answer = d; held = store_of store.new }) }
    ensures steady { (store_of store.new).collections ≡ (store_of store.old).collections }
{
    let mut killed = Vec::new(alloc);
    let mut missing = Vec::new(alloc);
    match close_each(store, namespace, ids, &mut killed, &mut missing) {
        Ok(()) => killed_answer(alloc, killed, missing),
        Err(refused) => {
            drop(killed);
            drop(missing);
            Err(refused)
        }
    }
}

/// Closes those of the cursors in the array `cursors` of these fields that are open, and answers with
/// what became of each.
fn close_in(
    alloc: Global,
    store: &mut Store,
    namespace: Namespace<'_>,
    fields: &Document,
) -> Result<Document, Failure>
    ensures carried { IsCarriedOut
        (kill_in (store_of store.old) (namespace_of namespace.entry) (tree_of fields.now))
        (store_of store.old) result (store_of store.new) }
    ensures steady { (store_of store.new).collections ≡ (store_of store.old).collections }
{
    match array_field(fields, "cursors") {
        Some(ids) => in_memory(close_all(alloc, store, namespace, ids.as_slice())),
        None => Err(Failure::Refused(CommandError::Cursors)),
    }
}

/// Closes cursors. A value that is no open cursor's id is answered as one that wasn't found.
pub fn kill_cursors(
    alloc: Global,
    store: &mut Store,
    body: RawDocument<'_>,
) -> Result<Document, Failure>
    ensures carried { (t : Tree) → Spells t (document_bytes body.entry)
        → IsCarriedOut (kill_cursors (store_of store.old) t) (store_of store.old) result
        (store_of store.new) }
    ensures steady { (store_of store.new).collections ≡ (store_of store.old).collections }
{
    let namespace = namespace_field(body, "killCursors", CommandError::KillCursors)?;
    let fields = owned_body(alloc, body)?;
    let answer = close_in(alloc, store, namespace, &fields);
    drop(fields);
    answer
}
