//! Reads what a request needs of the connection that it goes over, and which cursors and
//! transactions it and its reply tell of.

ghost use Rattle.std.specs.Prelude.{◌≡◌, MatchOption, None, Option};
ghost use Rattle.bson_elem.specs.{Spells, Tree};
ghost use Rattle.bson_raw.specs.{ShowsFound, TreeValue, array_bytes, document_bytes};
ghost use Rattle.wire_share.specs.Needs.{asked_cursor, begun_by, command_in, command_name};
ghost use Rattle.wire_share.specs.Needs.{ended_by, first_id, id_of, is_false, is_true, is_wrapper};
ghost use Rattle.wire_share.specs.Needs.{need_by, need_for, other_topic};
ghost use Rattle.wire_share.specs.Needs.{more_of, need_of, opened_by, session_by, session_id};
ghost use Rattle.wire_share.specs.Needs.{session_of, topic_of, transaction_of};

use bson_raw::{RawArray, RawBson, RawDocument};

/// The id of a session: the 16 bytes of `id` in `lsid`.
#[derive(Clone, Copy, Debug, PartialEq, Eq, Hash, Drop)]
pub struct SessionId {
    pub bytes: [u8; 16],
}

/// What a request needs of the connection to the server that it goes over.
#[derive(Clone, Copy, Debug, PartialEq, Eq)]
pub enum Need {
    /// Any connection serves.
    Any,
    /// One over which nothing went before, and nothing goes later.
    Own,
    /// One over which nothing else goes than what the same client sends later.
    Kept,
    /// That on which the cursor with this id was opened.
    Cursor(i64),
    /// That on which the transaction of this session began.
    Transaction(SessionId),
}

/// What a command is about, as far as connections matter to it.
#[derive(Clone, Copy, Debug, PartialEq, Eq)]
pub(crate) enum Topic {
    /// The first command over a connection.
    Handshake,
    /// It changes who the connection speaks for.
    Authentication,
    GetMore,
    KillCursors,
    /// It commits or aborts a transaction.
    TransactionEnd,
    /// It is an operator, and what stands behind it may be any command.
    Operator,
    Other,
}

/// Returns true if the command stands inside the first field, which has this name.
fn is_wrapper(name: &str) -> bool
    ensures { result ≡ is_wrapper name.now }
{
    matches!(name, "$query" | "query")
}

/// Returns the command of a request with this body: that inside the first field, if that is one
/// that wraps commands, and else the body itself.
pub fn command_in(body: RawDocument<'_>) -> RawDocument<'_>
    ensures { (t : Tree) → Spells t (document_bytes body.entry)
        → Spells (command_in t) (document_bytes result) }
{
    match body.iter().next() {
        Some((name, RawBson::Document(command))) if is_wrapper(name) => command,
        _ => body,
    }
}

/// Returns what the command with this name is about that is none of those that matter.
fn other_topic(name: &str) -> Topic
    ensures { result ≡ other_topic name.now }
{
    match name.as_bytes().first() {
        Some(b'$') => Topic::Operator,
        _ => Topic::Other,
    }
}

/// Returns what the command with this name is about.
fn topic_of(name: &str) -> Topic
    ensures { result ≡ topic_of name.now }
{
    match name {
        "hello" | "isMaster" | "ismaster" => Topic::Handshake,
        "saslStart" | "saslContinue" | "authenticate" | "logout" | "getnonce" => {
            Topic::Authentication
        }
        "getMore" => Topic::GetMore,
        "killCursors" => Topic::KillCursors,
        "commitTransaction" | "abortTransaction" => Topic::TransactionEnd,
        _ => other_topic(name),
    }
}

/// Returns what a command is about.
pub(crate) fn topic_in(body: RawDocument<'_>) -> Topic
    ensures { (t : Tree) → Spells t (document_bytes body.entry)
        → result ≡ topic_of (command_name t) }
{
    match body.iter().next() {
        Some((name, _)) => topic_of(name),
        None => Topic::Other,
    }
}

/// Returns the id, if the value is an int64.
pub(crate) fn id_of(value: Option<RawBson<'_>>) -> Option<i64>
    ensures { (found : Option TreeValue)
        → MatchOption value.entry (found ≡ None) (λ v. ShowsFound v found)
        → result ≡ id_of found }
{
    match value {
        Some(RawBson::Int64(id)) => Some(id),
        _ => None,
    }
}

/// Returns the id of a session with these bytes, if there are 16.
fn session_by(bytes: &[u8]) -> Option<SessionId>
    ensures { result ≡ session_by bytes.now }
{
    match bytes.as_array::<16>() {
        Some(id) => Some(SessionId { bytes: *id }),
        None => None,
    }
}

/// Returns the id of a session, if the value is a binary of 16 bytes.
fn session_id(value: Option<RawBson<'_>>) -> Option<SessionId>
    ensures { (found : Option TreeValue)
        → MatchOption value.entry (found ≡ None) (λ v. ShowsFound v found)
        → result ≡ session_id found }
{
    match value {
        Some(RawBson::Binary { bytes, .. }) => session_by(bytes),
        _ => None,
    }
}

/// Returns the session that a command names in `lsid`, if it names one.
fn session_of(body: RawDocument<'_>) -> Option<SessionId>
    ensures { (t : Tree) → Spells t (document_bytes body.entry) → result ≡ session_of t }
{
    match body.get("lsid") {
        Some(RawBson::Document(session)) => session_id(session.get("id")),
        _ => None,
    }
}

/// Returns true if the field `name` is true.
fn is_true(body: RawDocument<'_>, name: &str) -> bool
    ensures { (t : Tree) → Spells t (document_bytes body.entry) → result ≡ is_true name.now t }
{
    match body.get(name) {
        Some(RawBson::Boolean(truth)) => truth,
        _ => false,
    }
}

/// Returns true if the field `name` is false.
fn is_false(body: RawDocument<'_>, name: &str) -> bool
    ensures { (t : Tree) → Spells t (document_bytes body.entry) → result ≡ is_false name.now t }
{
    match body.get(name) {
        Some(RawBson::Boolean(truth)) => !truth,
        _ => false,
    }
}

/// Returns the session to whose transaction a command belongs, if it belongs to one.
fn transaction_of(body: RawDocument<'_>) -> Option<SessionId>
    ensures { (t : Tree) → Spells t (document_bytes body.entry) → result ≡ transaction_of t }
{
    if is_false(body, "autocommit") {
        session_of(body)
    } else {
        None
    }
}

/// Returns the session whose transaction begins with a command, if one does.
pub fn begun_by(body: RawDocument<'_>) -> Option<SessionId>
    ensures { (t : Tree) → Spells t (document_bytes body.entry) → result ≡ begun_by t }
{
    if is_true(body, "startTransaction") {
        transaction_of(body)
    } else {
        None
    }
}

/// Returns the session whose transaction ends with a command, if one does.
pub(crate) fn ended_by(body: RawDocument<'_>) -> Option<SessionId>
    ensures { (t : Tree) → Spells t (document_bytes body.entry) → result ≡ ended_by t }
{
    if topic_in(body) == Topic::TransactionEnd {
        transaction_of(body)
    } else {
        None
    }
}

/// Returns the first value, if it is the id of a cursor.
fn first_id(ids: RawArray<'_>) -> Option<i64>
    ensures { (t : Tree) → Spells t (array_bytes ids.entry) → result ≡ first_id t }
{
    id_of(ids.get(0))
}

/// Returns the cursor that a command asks for more of, or the first one that it closes.
fn asked_cursor(topic: Topic, body: RawDocument<'_>) -> Option<i64>
    ensures { (t : Tree) → Spells t (document_bytes body.entry)
        → result ≡ asked_cursor topic t }
{
    match topic {
        Topic::GetMore => id_of(body.get("getMore")),
        Topic::KillCursors => match body.get("cursors") {
            Some(RawBson::Array(ids)) => first_id(ids),
            _ => None,
        },
        _ => None,
    }
}

/// Returns the cursor that a command asks for more of, if it asks for more.
pub(crate) fn more_of(body: RawDocument<'_>) -> Option<i64>
    ensures { (t : Tree) → Spells t (document_bytes body.entry)
        → result ≡ more_of (topic_of (command_name t)) t }
{
    match topic_in(body) {
        Topic::GetMore => id_of(body.get("getMore")),
        _ => None,
    }
}

/// Returns what a command needs that is about neither connections nor users.
fn need_for(transaction: Option<SessionId>, cursor: Option<i64>) -> Need
    ensures { result ≡ need_for transaction cursor }
{
    match (transaction, cursor) {
        (Some(session), _) => Need::Transaction(session),
        (None, Some(cursor)) => Need::Cursor(cursor),
        (None, None) => Need::Any,
    }
}

/// Returns what a request needs whose command is about this.
fn need_by(topic: Topic, body: RawDocument<'_>) -> Need
    ensures { (t : Tree) → Spells t (document_bytes body.entry) → result ≡ need_by topic t }
{
    match topic {
        Topic::Handshake if body.get("speculativeAuthenticate").is_some() => Need::Kept,
        Topic::Handshake => Need::Own,
        Topic::Authentication | Topic::Operator => Need::Kept,
        _ => need_for(transaction_of(body), asked_cursor(topic, body)),
    }
}

/// Returns what a request with this body needs of the connection that it goes over.
pub fn need_of(body: RawDocument<'_>) -> Need
    ensures { (t : Tree) → Spells t (document_bytes body.entry) → result ≡ need_of t }
{
    need_by(topic_in(body), body)
}

/// Returns the id of the cursor in a reply, 0 if it has no more to give, or `None` if the reply
/// tells of no cursor.
pub(crate) fn opened_by(reply: RawDocument<'_>) -> Option<i64>
    ensures { (t : Tree) → Spells t (document_bytes reply.entry) → result ≡ opened_by t }
{
    match reply.get("cursor") {
        Some(RawBson::Document(cursor)) => id_of(cursor.get("id")),
        _ => None,
    }
}
