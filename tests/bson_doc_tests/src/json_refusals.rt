//! Tests that a text is read after a refused allocation as without one.
//! `scripts/checks/try-refusals` runs them with each of their allocations refused in turn. Only one
//! is refused in a run, so what is tried again succeeds.

use bson_json_read::laws::round_trip;
use bson_json_read::{Cause, JsonFault, Place, from_json};
use bson_raw::RawDocument;
use std::alloc::Global;

const TEXT: &str =
    "{\"a\":[{\"b\":\"c\"}],\"r\":{\"$regularExpression\":{\"pattern\":\"p\",\"options\":\"\"}},\"s\":{\"$code\":\"f\",\"$scope\":{\"x\":{\"$binary\":{\"base64\":\"AAEC\",\"subType\":\"00\"}}}}}";

/// A text that has a name twice, with an escape.
const REPEATED: &str = "{\"a\":\n[{\"b\":\"c\",\"\\u0062\":1}]}";

/// A text that is no JSON, since its array ends with a brace.
const MISFIT: &str = "{\"a\":\n[{}, {\"b\":[1}]}";

/// A document that holds an array of one boolean.
const DOCUMENT: [u8; 17] = [17, 0, 0, 0, 4, b'a', 0, 9, 0, 0, 0, 8, b'0', 0, 1, 0, 0];

/// Returns true if both tries came right, or one did and memory was refused to the other.
fn comes_right(first: Result<bool, Cause>, second: Result<bool, Cause>) -> bool {
    match (first, second) {
        (Ok(right), Ok(again)) => right && again,
        (Ok(right), Err(cause)) | (Err(cause), Ok(right)) => right && cause == Cause::OutOfMemory,
        (Err(_), Err(_)) => false,
    }
}

/// Returns whether the text is read with its three pairs.
fn reads(alloc: Global) -> Result<bool, Cause> {
    match from_json(alloc, TEXT) {
        Ok(document) => Ok(document.len() == 3),
        Err(fault) => Err(fault.cause),
    }
}

/// Returns the fault of a text, unless memory is refused.
fn fault(alloc: Global, text: &str) -> Result<JsonFault, Cause> {
    match from_json(alloc, text) {
        Ok(_document) => Err(Cause::NotAnObject),
        Err(fault) => {
            if fault.cause == Cause::OutOfMemory {
                Err(fault.cause)
            } else {
                Ok(fault)
            }
        }
    }
}

/// Returns whether the repeated name is told.
fn tells(alloc: Global) -> Result<bool, Cause> {
    Ok(fault(alloc, REPEATED)?.path.as_slice() == [1, 0, 0].as_slice())
}

/// Returns whether the text's fault is told at this place.
fn places(alloc: Global, text: &str, fault: &JsonFault, wanted: Place) -> Result<bool, Cause> {
    match fault.place(alloc, text) {
        Ok(place) => Ok(place == wanted),
        Err(_) => Err(Cause::OutOfMemory),
    }
}

/// Returns whether the document is read of its JSON as the same one.
fn keeps(alloc: Global) -> Result<bool, Cause> {
    let Ok(document) = RawDocument::from_bytes(&DOCUMENT) else {
        return Ok(false);
    };
    match round_trip(alloc, document) {
        Ok(read) => match read.to_raw() {
            Ok(raw) => Ok(raw.as_raw().as_bytes() == document.as_bytes()),
            Err(_) => Err(Cause::OutOfMemory),
        },
        Err(fault) => Err(fault.cause),
    }
}

#[test]
fn a_round_trip_is_made_again(rt: HostRuntime) {
    let alloc = rt.alloc();
    assert!(rt; comes_right(keeps(alloc), keeps(alloc)));
}

#[test]
fn a_text_is_read_again(rt: HostRuntime) {
    let alloc = rt.alloc();
    assert!(rt; comes_right(reads(alloc), reads(alloc)));
    assert!(rt; comes_right(tells(alloc), tells(alloc)));
}

/// Texts, why they aren't read, and the line and the column of their faults. Behind the first two are
/// those that an input of several texts reads otherwise.
const PLACES: [(&str, Cause, usize, usize); 11] = [
    (REPEATED, Cause::RepeatedName, 2, 11),
    (MISFIT, Cause::NotJson, 2, 13),
    ("", Cause::NotJson, 1, 1),
    (" \n ", Cause::NotJson, 2, 2),
    ("]", Cause::NotJson, 1, 1),
    ("\n[]", Cause::NotAnObject, 2, 1),
    ("{} \n {}", Cause::NotJson, 2, 2),
    ("{}]", Cause::NotJson, 1, 3),
    ("{} , {}", Cause::NotJson, 1, 4),
    ("{\"a\":1}{\"b\":2}", Cause::NotJson, 1, 8),
    ("1 , 2", Cause::NotJson, 1, 3),
];

#[test]
fn a_place_is_found_again(rt: HostRuntime) {
    let alloc = rt.alloc();
    for (text, cause, line, column) in &PLACES {
        let found = match fault(alloc, text) {
            Ok(fault) => Ok(fault),
            Err(_) => fault(alloc, text),
        };
        let Ok(fault) = found else {
            return assert!(rt; false);
        };
        let wanted = Place {
            line: *line,
            column: *column,
        };
        let first = places(alloc, text, &fault, wanted);
        assert!(rt; fault.cause == *cause, "{text}");
        assert!(rt;
            comes_right(first, places(alloc, text, &fault, wanted)),
            "{text}"
        );
    }
}
