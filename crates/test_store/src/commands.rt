//! Carries out the commands that the server knows. Each has a module of its own.

mod aggregate;
mod count;
mod create_indexes;
mod delete;
mod drop_collection;
mod drop_database;
mod find;
mod get_more;
mod insert;
mod kill_cursors;
mod list_collections;
mod list_databases;
mod list_indexes;
mod update;

ghost use Rattle.std.specs.Prelude.{◌≡◌, ◌≢◌, ◌++◌, IfOk, OnErr, string_bytes};
ghost use Rattle.wire_msg.specs.{Carries, Content};
ghost use Rattle.command_parts.specs.{first_name};
ghost use Rattle.test_store.specs.Commands.{IsCarriedOut, command_of, reply_to, run};
ghost use Rattle.test_store.specs.Commands.{settled, unknown_pairs, unread_pairs};
ghost use Rattle.test_store.specs.Held.{store_of};

use crate::answer::in_memory;
use crate::options::first_unread;
use crate::store::Store;
use aggregate::aggregate;
use bson_doc::Document;
use command_parts::{build_info, error_answer, hello, name_of, ok_alone, refusal_answer};
use count::count;
use create_indexes::create_indexes;
use delete::delete;
use doc_query::Failure;
use drop_collection::drop_collection;
use drop_database::drop_database;
use find::find;
use get_more::get_more;
use insert::insert;
use kill_cursors::kill_cursors;
use list_collections::list_collections;
use list_databases::list_databases;
use list_indexes::list_indexes;
use std::alloc::{AllocError, Global};
use update::update;
use wire_msg::Payload;

/// What a request asks for.
#[derive(Clone, Copy)]
pub enum Command {
    Hello,
    LegacyHello,
    BuildInfo,
    Ping,
    EndSessions,
    Insert,
    Find,
    GetMore,
    Delete,
    Update,
    Count,
    Aggregate,
    KillCursors,
    Drop,
    DropDatabase,
    ListCollections,
    ListDatabases,
    CreateIndexes,
    ListIndexes,
    Unknown,
}

/// Returns the command with this name.
fn command_of(name: &str) -> Command
    ensures { result ≡ command_of name.now }
{
    match name {
        "hello" => Command::Hello,
        "isMaster" | "ismaster" => Command::LegacyHello,
        "buildInfo" | "buildinfo" => Command::BuildInfo,
        "ping" => Command::Ping,
        "endSessions" => Command::EndSessions,
        "insert" => Command::Insert,
        "find" => Command::Find,
        "getMore" => Command::GetMore,
        "delete" => Command::Delete,
        "update" => Command::Update,
        "count" => Command::Count,
        "aggregate" => Command::Aggregate,
        "killCursors" => Command::KillCursors,
        "drop" => Command::Drop,
        "dropDatabase" => Command::DropDatabase,
        "listCollections" => Command::ListCollections,
        "listDatabases" => Command::ListDatabases,
        "createIndexes" => Command::CreateIndexes,
        "listIndexes" => Command::ListIndexes,
        _ => Command::Unknown,
    }
}

/// Returns a name between words.
fn name_between(alloc: Global, before: &str, name: &str, after: &str) -> Result<String, AllocError>
    ensures { IfOk result (λ s. string_bytes s ≡ before.now ++ name.now ++ after.now) }
{
    let mut words = String::new(alloc);
    words
        .push_str(before)
        .and(words.push_str(name))
        .and(words.push_str(after))
        .and(Ok(words))
}

/// Makes the answer that says that no command has this name.
fn unknown_command(alloc: Global, name: &str) -> Result<Document, AllocError>
    ensures { IfOk result (λ d. d ≡ unknown_pairs name.now) }
{
    let words = name_between(alloc, "no such command: '", name, "'")?;
    let answer = error_answer(alloc, words.as_str(), 59, "CommandNotFound");
    drop(words);
    answer
}

/// Carries out a command, and returns its answer.
fn run(command: Command, store: &mut Store, payload: Payload<'_>) -> Result<Document, Failure>
    ensures carried { (c : Content) → Carries payload.entry c
        → IsCarriedOut (run command (store_of store.old) c) (store_of store.old) result
        (store_of store.new) }
    ensures kept { OnErr result
        ((store_of store.new).collections ≡ (store_of store.old).collections) }
    ensures steady { command ≢ Command.Insert → command ≢ Command.Drop
        → command ≢ Command.DropDatabase → command ≢ Command.CreateIndexes
        → command ≢ Command.Delete → command ≢ Command.Update
        → (store_of store.new).collections ≡ (store_of store.old).collections }
{
    let alloc = store.allocator();
    let body = payload.body();
    match command {
        Command::Hello => in_memory(hello(alloc, false)),
        Command::LegacyHello => in_memory(hello(alloc, true)),
        Command::BuildInfo => in_memory(build_info(alloc)),
        Command::Ping | Command::EndSessions => in_memory(ok_alone(alloc)),
        Command::Insert => insert(alloc, store, payload),
        Command::Find => find(alloc, store, body),
        Command::GetMore => get_more(alloc, store, body),
        Command::Delete => delete(alloc, store, payload),
        Command::Update => update(alloc, store, payload),
        Command::Count => count(alloc, store, body),
        Command::Aggregate => aggregate(alloc, store, body),
        Command::KillCursors => kill_cursors(alloc, store, body),
        Command::Drop => drop_collection(alloc, store, body),
        Command::DropDatabase => drop_database(alloc, store, body),
        Command::ListCollections => list_collections(alloc, store, body),
        Command::ListDatabases => list_databases(alloc, store, body),
        Command::CreateIndexes => create_indexes(alloc, store, body),
        Command::ListIndexes => list_indexes(alloc, store, body),
        Command::Unknown => in_memory(unknown_command(alloc, name_of(body))),
    }
}

/// Makes the answer that says that a command has a field, or a document sequence in its place,
/// which isn't carried out.
fn unread_field(alloc: Global, name: &str) -> Result<Document, AllocError>
    ensures { IfOk result (λ d. d ≡ unread_pairs name.now) }
{
    let words = name_between(alloc, "the field '", name, "' is not carried out")?;
    let answer = error_answer(alloc, words.as_str(), 238, "NotImplemented");
    drop(words);
    answer
}

/// Carries out a command, and returns its answer, or that to its error.
fn carry_out(
    command: Command,
    store: &mut Store,
    payload: Payload<'_>,
) -> Result<Document, AllocError>
    ensures answered { (c : Content) → Carries payload.entry c
        → IfOk result (λ d. settled (store_of store.old) (run command (store_of store.old) c)
        ≡ record { answer = d; held = store_of store.new }) }
    ensures kept { OnErr result
        ((store_of store.new).collections ≡ (store_of store.old).collections) }
    ensures steady { command ≢ Command.Insert → command ≢ Command.Drop
        → command ≢ Command.DropDatabase → command ≢ Command.CreateIndexes
        → command ≢ Command.Delete → command ≢ Command.Update
        → (store_of store.new).collections ≡ (store_of store.old).collections }
{
    match run(command, store, payload) {
        Ok(answer) => Ok(answer),
        Err(Failure::Refused(error)) => refusal_answer(store.allocator(), error),
        Err(Failure::OutOfMemory) => Err(AllocError),
    }
}

/// Carries out what a request asks for, and returns its answer.
///
/// # Errors
///
/// Returns `AllocError` if memory runs out. Then the held documents are unchanged.
pub fn answer_to(store: &mut Store, payload: Payload<'_>) -> Result<Document, AllocError>
    ensures answered { (c : Content) → Carries payload.entry c
        → IfOk result (λ d. reply_to (store_of store.old) c
        ≡ record { answer = d; held = store_of store.new }) }
    ensures kept { OnErr result
        ((store_of store.new).collections ≡ (store_of store.old).collections) }
    ensures steady { (c : Content) → Carries payload.entry c
        → command_of (first_name c.body) ≢ Command.Insert
        → command_of (first_name c.body) ≢ Command.Drop
        → command_of (first_name c.body) ≢ Command.DropDatabase
        → command_of (first_name c.body) ≢ Command.CreateIndexes
        → command_of (first_name c.body) ≢ Command.Delete
        → command_of (first_name c.body) ≢ Command.Update
        → (store_of store.new).collections ≡ (store_of store.old).collections }
{
    let command = command_of(name_of(payload.body()));
    match first_unread(command, payload) {
        Some(name) => unread_field(store.allocator(), name),
        None => carry_out(command, store, payload),
    }
}
