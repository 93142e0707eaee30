//! What stands between texts: white space, or the brackets and commas of one array.

ghost use Rattle.std.specs.Prelude.{◌≡◌};
ghost use Rattle.bson_json_read.specs.Frames as spec;

use crate::fault::Cause;

/// Where reading stands between texts.
#[derive(Clone, Copy)]
pub(crate) enum Frame {
    /// Before all texts.
    Start,
    /// Behind a text, which is in no array.
    Between,
    /// Behind the bracket that opens the array.
    Opened,
    /// Behind an item of the array.
    Item,
    /// Behind a comma of the array.
    Comma,
    /// Behind the bracket that closes the array.
    Closed,
}

/// What a byte between texts is.
#[derive(Clone, Copy)]
pub(crate) enum Step {
    /// It is passed over, and reading stands there.
    Pass(Frame),
    /// A text begins with it.
    Text,
    /// It is at fault.
    Refuse(Cause),
}

/// Returns what a byte is where a text may begin.
fn text_at(b: u8) -> Step
    ensures { result ≡ spec.text_at b }
{
    if b == b'{' {
        Step::Text
    } else {
        Step::Refuse(Cause::NotAnObject)
    }
}

impl Frame {
    /// Returns what a byte is that isn't white space.
    fn step_at(self, b: u8) -> Step
        ensures { result ≡ spec.step_at self b }
    {
        match (self, b) {
            (Frame::Start, b'[') => Step::Pass(Frame::Opened),
            (Frame::Opened, b']') | (Frame::Item, b']') => Step::Pass(Frame::Closed),
            (Frame::Item, b',') => Step::Pass(Frame::Comma),
            (Frame::Item, _) | (Frame::Closed, _) => Step::Refuse(Cause::NotJson),
            _ => text_at(b),
        }
    }

    /// Returns what a byte is.
    pub(crate) fn step(self, b: u8) -> Step
        ensures { result ≡ spec.step self b }
    {
        match b {
            b' ' | b'\t' | b'\n' | b'\r' => Step::Pass(self),
            _ => self.step_at(b),
        }
    }

    /// Returns true if the input may end here.
    pub(crate) fn may_end(self) -> bool
        ensures { result ≡ spec.may_end self }
    {
        match self {
            Frame::Start | Frame::Between | Frame::Closed => true,
            Frame::Opened | Frame::Item | Frame::Comma => false,
        }
    }

    /// Returns where reading stands behind a text.
    pub(crate) fn behind_text(self) -> Frame
        ensures { result ≡ spec.behind_text self }
    {
        match self {
            Frame::Start | Frame::Between => Frame::Between,
            _ => Frame::Item,
        }
    }
}
