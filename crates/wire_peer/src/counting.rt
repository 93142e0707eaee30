//! The handler that counts.

ghost use Rattle.std.specs.Prelude.{◌≡◌, ◌≤◌, ◌++◌, ◌∷◌, [], IfErr, MatchOption, None, OnOk};
ghost use Rattle.std.specs.Prelude.{Option};
ghost use Rattle.bson_raw.specs.{ShowsFound, TreeValue};
ghost use Rattle.wire_peer.specs.AnswerLists.{answers_of};
ghost use Rattle.wire_peer.specs.Counting.{numbered, numbers, numbers_from, small_number, wanted};
ghost use Rattle.wire_peer.specs.Requests.{asked};
ghost use Rattle.wire_peer.specs.declared.handlers.HandlerStop.TheVariants.{OutOfMemory};

use crate::answer_list::Answers;
use crate::handlers::{Handler, HandlerStop};
use crate::requests::Request;
use bson_raw::{RawBson, RawDocument};

/// The greatest number that is counted to.
const MOST: i32 = 100;

/// Returns the number that a value is, if it is an int32 from 1 to 100, and else 0.
fn small_number(value: Option<RawBson<'_>>) -> u8
    ensures small { result ≤ 100 }
    ensures number { (found : Option TreeValue)
        → MatchOption value.entry (found ≡ None) (λ v. ShowsFound v found)
        → result ≡ small_number found }
{
    match value {
        Some(RawBson::Int32(n)) if 1 <= n && n <= MOST => n as u8,
        _ => 0,
    }
}

/// Returns how many answers the request wants counted, or 0 if it wants no count.
fn wanted_count(request: &Request<'_>) -> u8
    ensures small { result ≤ 100 }
    ensures wanted { result ≡ wanted (asked request.now) }
{
    if request.takes_more() {
        small_number(request.payload.body().get("s"))
    } else {
        0
    }
}

/// Appends the answer `{"n": number}`.
fn push_number(number: u8, answers: &mut Answers) -> Result<(), HandlerStop>
    ensures added { OnOk result
        (answers_of answers.new ≡ answers_of answers.old ++ numbered number ∷ []) }
    ensures stopped { IfErr result (λ stop. stop ≡ OutOfMemory) }
{
    let body = [12, 0, 0, 0, 16, 110, 0, number, 0, 0, 0, 0];
    match answers.push_body(RawDocument::from_spelled(&body)) {
        Ok(()) => Ok(()),
        Err(_) => Err(HandlerStop::OutOfMemory),
    }
}

/// Appends the answers `{"n": 1}` and so on up to `{"n": count}`.
fn push_numbers(count: u8, answers: &mut Answers) -> Result<(), HandlerStop>
    ensures added { OnOk result
        (answers_of answers.new ≡ answers_of answers.old ++ numbers_from 1 count) }
    ensures stopped { IfErr result (λ stop. stop ≡ OutOfMemory) }
{
    for number in 0..count {
        push_number(number + 1, answers)?;
    }
    Ok(())
}

/// Counts: where the request takes more than one answer and the field `s` of its body is an int32
/// from 1 to 100, the answers are `{"n": 1}` and so on up to `{"n": s}`, and else it is `{"n": 0}`
/// alone, with int32s. It stops only if memory runs out.
#[derive(Clone, Copy, Debug, Drop)]
pub struct Count;

impl Handler for Count {
    ghost does = { λ _ a answers _. answers ≡ numbers (wanted a) };

    ghost stops = { λ _ _ stop _. stop ≡ OutOfMemory };

    fn respond(&mut self, request: &Request<'_>, answers: &mut Answers) -> Result<(), HandlerStop> {
        let count = wanted_count(request);
        if count == 0 {
            push_number(0, answers)
        } else {
            push_numbers(count, answers)
        }
    }
}
