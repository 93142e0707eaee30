//! A cursor and a transaction that are followed where each allocation is refused in turn.

use crate::routes::{SESSION, document};
use bson_doc::RawDocumentBuf;
use std::alloc::{AllocError, Global};
use wire_share::{Need, Routes};

/// Begins a transaction, once more where memory was refused, which has to change nothing.
fn begins(routes: &mut Routes) -> Result<(), AllocError> {
    if routes.begin(SESSION, 4).is_ok() {
        return Ok(());
    }
    if routes.find(Need::Transaction(SESSION)).is_some() {
        return Err(AllocError);
    }
    routes.begin(SESSION, 4)
}

/// Notes a cursor, once more where memory was refused, which has to note none.
fn opens(routes: &mut Routes, asked: &RawDocumentBuf, told: &RawDocumentBuf) -> bool {
    if routes.answered(asked.as_raw(), told.as_raw(), 4).is_ok() {
        return true;
    }
    routes.find(Need::Cursor(7)).is_none()
        && routes.answered(asked.as_raw(), told.as_raw(), 4).is_ok()
}

/// Returns true if a transaction and a cursor are noted, and then known.
fn follows(routes: &mut Routes, asked: &RawDocumentBuf, told: &RawDocumentBuf) -> bool {
    begins(routes).is_ok()
        && opens(routes, asked, told)
        && routes.find(Need::Transaction(SESSION)) == Some(4)
        && routes.find(Need::Cursor(7)) == Some(4)
}

/// Returns true if a cursor and a transaction are followed behind a refused allocation. `None` if
/// memory for the documents is refused.
fn are_followed(alloc: Global) -> Option<bool> {
    let asked = document(alloc, "{\"find\": \"c\"}")?;
    let told = document(alloc, "{\"cursor\": {\"id\": {\"$numberLong\": \"7\"}}}")?;
    let mut routes = Routes::new(alloc);
    Some(follows(&mut routes, &asked, &told))
}

/// Returns true if they are followed, at the second try at last.
fn goes_on(alloc: Global) -> bool {
    match are_followed(alloc) {
        Some(holds) => holds,
        None => are_followed(alloc) == Some(true),
    }
}

#[test]
fn a_refused_allocation_loses_no_route(rt: HostRuntime) {
    assert!(rt; goes_on(rt.alloc()));
}
