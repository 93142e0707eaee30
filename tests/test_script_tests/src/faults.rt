//! Tests of lines that are no rules.

use std::alloc::Global;
use test_script::{Cause, ScriptFault, parse};

/// A row for each script: it, with `~` for each line feed, the line at fault, and why. The characters
/// of Extended JSON are counted by hand.
const FAULTS: &str = r#"find pass | 1 | Start
on | 1 | Start
on  | 1 | Start
 # no comment | 1 | Start
on {"find": "c"} pass | 1 | Start
on "find" pass | 1 | Start
on find~ | 1 | Action
# one~~on find pass~on find~ | 4 | Action
on find {"a": 1 pass | 1 | Json { cause: the text is no JSON, column: 9 }
on find {a: 1} pass | 1 | Json { cause: the text is no JSON, column: 2 }
on find {"a": 1, "a": 2} pass | 1 | Json { cause: a name is repeated, column: 10 }
on find 0500 pass | 1 | Filter
on find 16000000026100020000006200026100020000006300 pass | 1 | Filter
on find passs | 1 | Filter
on find {"a": {"$near": 1}} pass | 1 | Operator
on find times pass | 1 | Times
on find times -1 pass | 1 | Times
on find {} times 18446744073709551616 pass | 1 | Times
on find {} times 1 times 2 pass | 1 | Action
on find {} {} pass | 1 | Action
on find pass pass | 1 | Action
on find reply | 1 | Action
on find reply {} {} | 1 | Action
on find reply 05 | 1 | Action
on find reply {"ok": } | 1 | Json { cause: the text is no JSON, column: 8 }
on find reply {"x": {"$oid": 1}} | 1 | Json { cause: an object is not of the form $oid, column: 7 }
on find error 10107 NotWritablePrimary | 1 | Action
on find delay 1s | 1 | Action
on find cut | 1 | Action
on find cutup | 1 | Action
on find cutup 1 2 | 1 | Action"#;

/// Returns true if a row's script fails at its line, for its cause.
fn fails(alloc: Global, row: &str) -> Option<bool> {
    let (text, wanted) = row.split_once(" | ")?;
    let text = text.replace(alloc, '~', "\n").ok()?;
    let ScriptFault { line, cause } = parse(alloc, text.as_bytes()).err()?;
    let found = format!(in alloc; "{line} | {cause:?}").ok()?;
    Some(found.as_str() == wanted)
}

#[test]
fn lines_that_are_no_rules(rt: HostRuntime) {
    for row in FAULTS.split('\n') {
        assert!(rt; fails(rt.alloc(), row) == Some(true), "{row}");
    }
}

#[test]
fn a_filter_that_is_no_text(rt: HostRuntime) {
    let script = parse(rt.alloc(), b"on find {\"\xff\": 1} pass");
    assert!(rt; script.is_err_and(|fault| fault.line == 1 && fault.cause == Cause::Filter));
}

#[test]
fn what_a_fault_says(rt: HostRuntime) {
    let cause = Cause::Times;
    let text = format!(in rt.alloc(); "{}", ScriptFault { line: 3, cause });
    assert!(rt;
        text.is_ok_and(|text| text.as_str() == "line 3: a whole number below 2^64 follows 'times'")
    );
}
