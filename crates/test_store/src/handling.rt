//! Answers requests, as the server's handler.

use crate::commands::answer_to;
use crate::store::Store;
use command_parts::put_answer;
use wire_peer::{Answers, Handler, HandlerStop, Request};

impl Handler for Store {
    ghost use Rattle.test_store.specs.Handling.{Answered, StopsAt};

    ghost does = { Answered };

    ghost stops = { StopsAt };

    fn respond(&mut self, request: &Request<'_>, answers: &mut Answers) -> Result<(), HandlerStop> {
        match answer_to(self, request.payload) {
            Ok(answer) => {
                let put = put_answer(&answer, answers);
                drop(answer);
                put
            }
            Err(_) => Err(HandlerStop::OutOfMemory),
        }
    }
}
