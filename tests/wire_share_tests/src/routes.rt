//! Over which connections requests go, by their bodies and by the replies before.

use bson_doc::RawDocumentBuf;
use bson_json_read::from_json;
use bson_raw::RawDocument;
use std::alloc::{AllocError, Global};
use wire_share::{Need, Routes, SessionId, begun_by, need_of};

/// The session of the bytes 0 to 15, and its id as Extended JSON.
pub(crate) const SESSION: SessionId = SessionId {
    bytes: [0, 1, 2, 3, 4, 5, 6, 7, 8, 9, 10, 11, 12, 13, 14, 15],
};

const ID: &str = r#"{"$binary": {"base64": "AAECAwQFBgcICQoLDA0ODw==", "subType": "04"}}"#;

/// A row for each body of a request: it, with `~` for the id of the session, and what the request
/// needs.
const NEEDS: &str = r#"{} | any
{"ping": 1} | any
{"hello": 1} | own
{"isMaster": 1} | own
{"ismaster": 1, "maxAwaitTimeMS": 1} | own
{"ping": 1, "hello": 1} | any
{"hello": 1, "speculativeAuthenticate": {}} | kept
{"saslStart": 1, "mechanism": "PLAIN"} | kept
{"saslContinue": 1} | kept
{"authenticate": 1} | kept
{"logout": 1} | kept
{"getnonce": 1} | kept
{"find": "c", "getMore": {"$numberLong": "7"}} | any
{"getMore": {"$numberLong": "7"}} | cursor 7
{"getMore": 7} | any
{"killCursors": "c", "cursors": [{"$numberLong": "-5"}, 1]} | cursor -5
{"killCursors": "c", "cursors": []} | any
{"killCursors": "c"} | any
{"find": "c", "autocommit": false} | any
{"find": "c", "autocommit": false, "lsid": {"id": "x"}} | any
{"find": "c", "lsid": {"id": ~}} | any
{"find": "c", "lsid": {"id": ~}, "autocommit": true, "startTransaction": true} | any
{"find": "c", "autocommit": false, "lsid": {"id": ~}} | transaction
{"getMore": {"$numberLong": "7"}, "lsid": {"id": ~}, "autocommit": false} | transaction
{"find": "c", "lsid": {"id": ~}, "autocommit": false, "startTransaction": true} | new transaction
{"hello": 1, "lsid": {"id": ~}, "autocommit": false} | own"#;

/// Returns the document that is this Extended JSON.
pub(crate) fn document(alloc: Global, text: &str) -> Option<RawDocumentBuf> {
    from_json(alloc, text).ok()?.to_raw().ok()
}

/// Returns the document of this text, in which `~` stands for the id of the session.
fn in_session(alloc: Global, text: &str) -> Option<RawDocumentBuf> {
    let text = text.replace(alloc, '~', ID).ok()?;
    document(alloc, text.as_str())
}

/// Returns what is needed, in the words of a row.
fn words_of_need(alloc: Global, need: Need) -> Result<String, AllocError> {
    match need {
        Need::Any => String::from_str(alloc, "any"),
        Need::Own => String::from_str(alloc, "own"),
        Need::Kept => String::from_str(alloc, "kept"),
        Need::Cursor(id) => format!(in alloc; "cursor {id}"),
        Need::Transaction(session) if session == SESSION => {
            String::from_str(alloc, "transaction")
        }
        Need::Transaction(_) => String::from_str(alloc, "transaction of another session"),
    }
}

/// Returns what a request of this body needs, in the words of a row: behind `new` if it begins a
/// transaction.
fn words_of(alloc: Global, body: RawDocument<'_>) -> Result<String, AllocError> {
    let words = words_of_need(alloc, need_of(body))?;
    match begun_by(body) {
        None => Ok(words),
        Some(session) if session == SESSION => format!(in alloc; "new {words}"),
        Some(_) => format!(in alloc; "new for another session: {words}"),
    }
}

/// Returns true if a request of the row's body needs what the row says.
fn is_needed(alloc: Global, row: &str) -> Option<bool> {
    let (text, words) = row.split_once(" | ")?;
    let body = in_session(alloc, text)?;
    let found = words_of(alloc, body.as_raw()).ok()?;
    Some(found.as_str() == words)
}

/// Notes the reply to a request over this upstream. `None` if one of these can't be made.
fn note(alloc: Global, routes: &mut Routes, asked: &str, told: &str, upstream: u64) -> Option<()> {
    let (asked, told) = (in_session(alloc, asked)?, document(alloc, told)?);
    routes
        .answered(asked.as_raw(), told.as_raw(), upstream)
        .ok()
}

/// A row for each reply, one after another: the request, the reply, the upstream that it came over,
/// and those on which cursors 7, 8 and 9 are known to be then.
const REPLIES: &str = r#"{"find": "c"} | {"cursor": {"id": {"$numberLong": "7"}}} | 1 | 1 - -
{"aggregate": "c"} | {"cursor": {"id": {"$numberLong": "8"}}} | 2 | 1 2 -
{"listIndexes": "c"} | {"cursor": {"id": {"$numberLong": "9"}}} | 1 | 1 2 1
{"find": "c"} | {"cursor": {"id": {"$numberLong": "0"}}} | 2 | 1 2 1
{"getMore": {"$numberLong": "8"}} | {"cursor": {"id": {"$numberLong": "8"}}} | 2 | 1 2 1
{"getMore": {"$numberLong": "8"}} | {"ok": 0.0} | 2 | 1 2 1
{"getMore": {"$numberLong": "8"}} | {"cursor": {"id": {"$numberLong": "0"}}} | 2 | 1 - 1
{"killCursors": "c", "cursors": [{"$numberLong": "9"}, {"$numberLong": "3"}]} | {"ok": 1.0} | 1 | 1 - -"#;

/// Returns on which upstream a cursor is known to be, in the words of a row.
fn place_of(alloc: Global, routes: &Routes, cursor: i64) -> Result<String, AllocError> {
    match routes.find(Need::Cursor(cursor)) {
        Some(upstream) => format!(in alloc; "{upstream}"),
        None => String::from_str(alloc, "-"),
    }
}

/// Returns where cursors 7, 8 and 9 are known to be, in the words of a row.
fn places_of(alloc: Global, routes: &Routes) -> Result<String, AllocError> {
    let seventh = place_of(alloc, routes, 7)?;
    let eighth = place_of(alloc, routes, 8)?;
    let ninth = place_of(alloc, routes, 9)?;
    format!(in alloc; "{seventh} {eighth} {ninth}")
}

/// Has the reply of a row noted. Returns true if cursors are known then where the row says.
fn follows(alloc: Global, routes: &mut Routes, row: &str) -> Option<bool> {
    let (asked, behind) = row.split_once(" | ")?;
    let (told, behind) = behind.split_once(" | ")?;
    let (upstream, places) = behind.split_once(" | ")?;
    note(alloc, routes, asked, told, upstream.parse().ok()?)?;
    let found = places_of(alloc, routes).ok()?;
    Some(found.as_str() == places)
}

/// Returns true if no cursor is known once its upstream was lost.
fn is_lost(routes: &mut Routes) -> bool {
    routes.lose(1);
    routes.find(Need::Cursor(7)).is_none() && routes.find(Need::Any).is_none()
}

/// Returns true if cursors are known where the replies say, and not once their upstream was lost.
fn are_followed(alloc: Global) -> bool {
    let mut routes = Routes::new(alloc);
    for row in REPLIES.split('\n') {
        if follows(alloc, &mut routes, row) != Some(true) {
            return false;
        }
    }
    is_lost(&mut routes)
}

/// Returns true if the transaction of the session is known to be on this upstream.
fn is_on(routes: &Routes, upstream: Option<u64>) -> bool {
    routes.find(Need::Transaction(SESSION)) == upstream
}

/// A request that ends the transaction of the session.
const COMMIT: &str = r#"{"commitTransaction": 1, "autocommit": false, "lsid": {"id": ~}}"#;

/// Has a transaction begin and be committed. Returns true if it is known in between alone.
fn transacts(alloc: Global, routes: &mut Routes) -> bool {
    routes.begin(SESSION, 4).is_ok()
        && is_on(routes, Some(4))
        && note(alloc, routes, COMMIT, r#"{"ok": 1.0}"#, 4).is_some()
        && is_on(routes, None)
}

/// Returns true if a transaction is known from its begin to its commit.
fn is_transacted(alloc: Global) -> bool {
    let mut routes = Routes::new(alloc);
    transacts(alloc, &mut routes)
}

#[test]
fn requests_need_what_their_bodies_say(rt: HostRuntime) {
    for row in NEEDS.split('\n') {
        assert!(rt; is_needed(rt.alloc(), row) == Some(true), "{row}");
    }
}

#[test]
fn cursors_and_transactions_are_followed(rt: HostRuntime) {
    assert!(rt; are_followed(rt.alloc()));
    assert!(rt; is_transacted(rt.alloc()));
}
