//! Carries out the command dropDatabase.

ghost use Rattle.std.specs.Prelude.{◌≡◌, [], IfOk, OnErr, OnOk, true};
ghost use Rattle.bson_elem.specs.{Spells, Tree};
ghost use Rattle.bson_raw.specs.{document_bytes};
ghost use Rattle.test_store.specs.Answers.{dropped_database_pairs};
ghost use Rattle.test_store.specs.Commands.{IsCarriedOut, drop_database};
ghost use Rattle.test_store.specs.Held.{store_of};

use crate::fields::text_field;
use crate::store::{Store, has_database};
use bson_doc::Document;
use bson_raw::RawDocument;
use command_parts::{ok_alone, set_ok, set_text};
use doc_query::{CommandError, Failure};
use std::alloc::{AllocError, Global};

/// Sets the fields of the answer that says that this database was dropped.
fn set_dropped(alloc: Global, answer: &mut Document, database: &str) -> Result<(), AllocError>
    requires { answer.old ≡ [] }
    ensures { OnOk result (answer.new ≡ dropped_database_pairs database.now true) }
{
    set_text(alloc, answer, "dropped", database).and(set_ok(alloc, answer))
}

/// Makes the answer that says whether a database was dropped: it has its name, if there was one.
fn dropped_answer(alloc: Global, database: &str, held: bool) -> Result<Document, AllocError>
    ensures { IfOk result (λ d. d ≡ dropped_database_pairs database.now held) }
{
    if !held {
        return ok_alone(alloc);
    }
    let mut answer = Document::new(alloc);
    set_dropped(alloc, &mut answer, database).and(Ok(answer))
}

/// Drops all collections of a database.
pub fn drop_database(
    alloc: Global,
    store: &mut Store,
    body: RawDocument<'_>,
) -> Result<Document, Failure>
    ensures carried { (t : Tree) → Spells t (document_bytes body.entry)
        → IsCarriedOut (drop_database (store_of store.old) t) (store_of store.old) result
        (store_of store.new) }
    ensures kept { OnErr result
        ((store_of store.new).collections ≡ (store_of store.old).collections) }
{
    let database = text_field(body, "$db", CommandError::Database)?;
    let held = has_database(&store.collections, database);
    match dropped_answer(alloc, database, held) {
        Ok(answer) => {
            store.drop_database(database);
            Ok(answer)
        }
        Err(_) => Err(Failure::OutOfMemory),
    }
}
