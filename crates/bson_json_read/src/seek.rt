//! What is next in an input of several texts.

ghost use Rattle.std.specs.Prelude.{◌≡◌, ◌<◌, ◌≤◌, ◌++◌, ℕ, List, drop, length};
ghost use Rattle.bson_json_read.specs.Pieces.{EndsBetween};
ghost use Rattle.bson_json_read.specs.Seeking.{IsText, next_at};
ghost use Rattle.bson_json_read.specs.Sequences.{next_in};

use crate::fault::Cause;
use crate::frame::{Frame, Step};

/// What is next in an input.
#[derive(Clone, Copy)]
pub(crate) enum Sought {
    /// The end.
    Nothing,
    /// A text.
    Text(Frame),
    /// What isn't to stand there, or the end where it isn't to be.
    Fault(Cause),
}

/// Returns what is next in the rest of an input, and how many bytes stand before it.
pub(crate) fn seek(frame: Frame, rest: &[u8]) -> (usize, Sought)
    ensures next { next_in frame rest.now ≡ next_at result.1 (drop result.0 rest.now) }
    ensures front { result.0 < length rest.now → (more : List ℕ) → next_in frame (rest.now ++ more)
        ≡ next_at result.1 (drop result.0 rest.now ++ more) }
    ensures between { result.0 ≡ length rest.now → EndsBetween frame rest.now }
    ensures nothing { result.1 ≡ Sought.Nothing → result.0 ≡ length rest.now }
    ensures inside { result.0 ≤ length rest.now }
    ensures text { IsText result.1 → result.0 < length rest.now }
{
    let mut at = frame;
    let mut passed = 0;
    for b in rest {
        match at.step(*b) {
            Step::Pass(behind) => at = behind,
            Step::Text => return (passed, Sought::Text(at)),
            Step::Refuse(cause) => return (passed, Sought::Fault(cause)),
        }
        passed += 1;
    }
    if at.may_end() {
        (passed, Sought::Nothing)
    } else {
        (passed, Sought::Fault(Cause::NotJson))
    }
}
