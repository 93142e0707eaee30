//! What is found of answers.

use crate::answers::Answer;
use crate::channel::Broken;

/// What is found of one recorded answer, of one that the server gave, or of both; or of a connection
/// to the server.
#[derive(Drop)]
pub enum Finding {
    /// The answer of the server came in the place of the recorded one, with which it is compared.
    Compare { recorded: Answer, received: Answer },
    /// No answer came in the place of this recorded one, or it was given up.
    Missing(Answer),
    /// This one came in the place of a recorded one that was given up before.
    Late(Answer),
    /// This one is to no request whose answer the record lacks.
    Unexpected(Answer),
    /// The record lacks the answer to the request of this one.
    Unrecorded(Answer),
    /// Nothing more goes over the connection, for this reason.
    Failed(Broken),
}
