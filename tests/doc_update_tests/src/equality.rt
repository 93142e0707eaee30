//! Tests of which values a filter finds equal, and which it doesn't compare: the rows follow MongoDB's
//! manual (Comparison/Sort Order, and Query and Projection Operators).

use bson_doc::Bson;
use bson_json_read::from_json;
use doc_query::{CommandError, applicable, compared, is_match};
use std::alloc::Global;

/// A row for each filter: it, a document, and whether it matches, or the name of the error. Numbers
/// inside documents and arrays are equal by value, and names and values in their order.
const EQUAL: &str = r#"{"d": {"b": 1.0}} | {"d": {"b": 1}} | true
{"d": {"b": {"$numberLong": "1"}}} | {"d": {"b": 1}} | true
{"d": {"b": 1.5}} | {"d": {"b": 1}} | false
{"d": {"b": 1}} | {"d": {"c": 1}} | false
{"d": {"b": 1}} | {"d": {"b": 1, "c": 1}} | false
{"d": {"b": 1, "c": 1}} | {"d": {"b": 1}} | false
{"d": {"b": 1, "c": 2}} | {"d": {"c": 2, "b": 1}} | false
{"d": {"b": [1.0, {"c": 2.0}]}} | {"d": {"b": [1, {"c": 2}]}} | true
{"d": [1.0, 2.0]} | {"d": [1, 2]} | true
{"d": [1.0, 2.0]} | {"d": [2, 1]} | false
{"d": [1.0]} | {"d": [1, 2]} | false
{"d": [1.0, 2.0]} | {"d": [[1, 2], 3]} | true
{"d": {"0": 1}} | {"d": [1]} | false
{"d": {"b": {"$symbol": "x"}}} | {"d": {"b": "x"}} | true
{"d": {"b": {"$numberDouble": "NaN"}}} | {"d": {"b": {"$numberDouble": "NaN"}}} | true
{"d": {"$ne": {"b": 1.0}}} | {"d": {"b": 1}} | false
{"d": {"$in": [{"b": 1.0}]}} | {"d": {"b": 1}} | true
{"d": {"$code": "f", "$scope": {"b": 1.0}}} | {"d": {"$code": "f", "$scope": {"b": 1}}} | false"#;

/// The same: a decimal128 isn't compared, at any depth.
const DECIMALS: &str = r#"{"d": {"$numberDecimal": "1"}} | {} | Operator
{"d": {"b": {"$numberDecimal": "1"}}} | {} | Operator
{"d": {"$eq": [[{"$numberDecimal": "1"}]]}} | {} | Operator
{"d": {"$in": [{"b": {"$numberDecimal": "1"}}]}} | {} | Operator
{"d": 1} | {"d": {"$numberDecimal": "1"}} | Decimal
{"d": {"b": 1}} | {"d": {"b": {"$numberDecimal": "1"}}} | Decimal
{"d": [1]} | {"d": [[{"b": {"$numberDecimal": "1"}}]]} | Decimal
{"d": 1} | {"d": 1, "e": {"b": {"$numberDecimal": "1"}}} | true"#;

/// The same: the list of `$in` and `$nin` has values alone, of which a database reference is one.
const LISTS: &str = r#"{"d": {"$in": [{"$gt": 1}]}} | {"d": 2} | NestedOperator
{"d": {"$nin": [1, {"$foo": 1}]}} | {"d": 2} | NestedOperator
{"d": {"$in": [{"b": {"$gt": 1}}]}} | {"d": 2} | false
{"d": {"$in": [{"$ref": "c", "$id": 1.0}]}} | {"d": {"$ref": "c", "$id": 1}} | true
{"d": {"$in": [{"$ref": "c"}]}} | {"d": 2} | NestedOperator
{"d": {"b": 1, "$in": [{"$gt": 1}]}} | {"d": {"b": 1, "$in": [{"$gt": 1.0}]}} | true"#;

/// Returns what a filter makes of a document, and `None` if there is no memory.
fn answer(alloc: Global, filter: &str, document: &str) -> Option<Result<bool, CommandError>> {
    let filter = from_json(alloc, filter).ok()?;
    let documents = [Bson::Document(from_json(alloc, document).ok()?)];
    if let Err(error) = applicable(&filter) {
        return Some(Err(error));
    }
    if let Err(error) = compared(&filter, &documents) {
        return Some(Err(error));
    }
    Some(Ok(is_match(&filter, &documents[0])))
}

/// Returns true if a row's filter makes of its document what the row says.
fn is_answer(alloc: Global, row: &str) -> Option<bool> {
    let (filter, behind) = row.split_once(" | ")?;
    let (document, wanted) = behind.split_once(" | ")?;
    let found = match answer(alloc, filter, document)? {
        Ok(matches) => format!(in alloc; "{matches}"),
        Err(error) => format!(in alloc; "{error:?}"),
    };
    Some(found.ok()?.as_str() == wanted)
}

#[test]
fn values_are_equal_by_value(rt: HostRuntime) {
    for row in EQUAL.split('\n') {
        assert!(rt; is_answer(rt.alloc(), row) == Some(true), "{row}");
    }
}

#[test]
fn decimals_are_refused(rt: HostRuntime) {
    for row in DECIMALS.split('\n') {
        assert!(rt; is_answer(rt.alloc(), row) == Some(true), "{row}");
    }
}

#[test]
fn lists_have_values_alone(rt: HostRuntime) {
    for row in LISTS.split('\n') {
        assert!(rt; is_answer(rt.alloc(), row) == Some(true), "{row}");
    }
}
