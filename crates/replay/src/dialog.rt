//! What was recorded on a connection, and what is said on the one to the server.

ghost use Rattle.std.specs.Prelude.{◌≡◌, ◌++◌, ◌==◌, ◌∷◌, [], IfOk, OnOk, if◌then◌else◌, length};
ghost use Rattle.std.specs.Prelude.{not};
ghost use Rattle.wire_frames.specs.{frame_bytes};
ghost use Rattle.replay.specs.MatchingRuns.{Does, expect, give_up, meet};
ghost use Rattle.replay.specs.Matchings.{first_due, left_over, nothing, seen};
ghost use Rattle.replay.specs.Talks.{IsAnswer, asked_behind, asking, due_of, id_of, noted_in};
ghost use Rattle.replay.specs.Talks.{request_in, to_of, with_asked};
ghost use Rattle.replay.specs.Flags.{has_flag, wants_answer};
ghost use Rattle.replay.specs.declared.answers.Answer.{Answer};

use crate::answers::Answer;
use crate::asked::Asked;
use crate::content::plain_bytes;
use crate::finding::Finding;
use crate::flags::{MORE_TO_COME, has_flag, wants_answer};
use crate::follows::Follows;
use crate::matching::Matching;
use crate::pace::Taken;
use std::alloc::{AllocError, Global};
use wire_frames::RawFrame;

/// The requests and answers of a connection of the record, and the answers of the server to those
/// requests.
#[derive(Drop)]
pub struct Dialog {
    alloc: Global,
    /// The recorded answers behind which others come.
    recorded: Follows,
    /// Those of the server.
    received: Follows,
    /// When the requests were recorded whose answers weren't read yet.
    asked: Asked,
    matching: Matching,
}

/// Returns the id of a message.
fn id_of(frame: RawFrame<'_>) -> u32
    ensures { result ≡ id_of (frame_bytes frame.entry) }
{
    frame.header().id.cast_unsigned()
}

/// Returns the id of the message that a message answers.
fn to_of(frame: RawFrame<'_>) -> u32
    ensures { result ≡ to_of (frame_bytes frame.entry) }
{
    frame.header().response_to.cast_unsigned()
}

/// Returns the id of the request that a message answers, which comes on a side now.
fn note(side: &mut Follows, frame: RawFrame<'_>) -> Result<u32, AllocError>
    ensures request { IfOk result (λ request.
        request ≡ request_in side.old.list.items (frame_bytes frame.entry)) }
    ensures noted { OnOk result
        (side.new.list.items ≡ noted_in side.old.list.items (frame_bytes frame.entry)) }
{
    side.note(id_of(frame), to_of(frame), has_flag(frame, MORE_TO_COME))
}

impl Dialog {
    /// Begins without requests and answers. It takes no memory.
    pub fn new(alloc: Global) -> Dialog
        ensures seen { seen result.matching ≡ nothing }
        ensures sides { (result.recorded.list.items ≡ []) × (result.received.list.items ≡ []) }
        ensures asked { result.asked.requests.items ≡ [] }
    {
        Dialog {
            alloc,
            recorded: Follows::new(alloc),
            received: Follows::new(alloc),
            asked: Asked::new(alloc),
            matching: Matching::new(alloc),
        }
    }

    /// Notes a request that is sent now.
    ///
    /// # Errors
    ///
    /// Returns `AllocError` if memory runs out.
    pub fn ask(
        &mut self,
        frame: RawFrame<'_>,
        taken: Taken,
        findings: &mut Vec<Finding>,
    ) -> Result<(), AllocError>
        ensures does { OnOk result (Does (asking (frame_bytes frame.entry))
            (seen self.old.matching) (seen self.new.matching)
            findings.old.items findings.new.items) }
        ensures asked { OnOk result (self.new.asked.requests.items
            ≡ (if wants_answer (frame_bytes frame.entry)
            then with_asked (id_of (frame_bytes frame.entry)) taken.micros
            self.old.asked.requests.items
            else self.old.asked.requests.items)) }
        ensures sides { (self.new.recorded ≡ self.old.recorded)
            × (self.new.received ≡ self.old.received) }
    {
        if wants_answer(frame) {
            self.matching.ask(id_of(frame), findings)?;
            self.asked.note(id_of(frame), taken.micros)?;
            return Ok(());
        }
        Ok(())
    }

    /// Returns up to when a recorded answer to this request is awaited, which is taken now: for as
    /// long as the record took for it, and some time more.
    fn due(&mut self, request: u32, more: bool, taken: Taken) -> Result<u64, AllocError>
        ensures due { IfOk result (λ due.
            due ≡ due_of request taken self.old.asked.requests.items) }
        ensures asked { OnOk result (self.new.asked.requests.items
            ≡ asked_behind request more taken.micros self.old.asked.requests.items) }
        ensures others { self.new ≡ record self.old { asked = self.new.asked } }
    {
        let since = self.asked.take(request).map(|asked| asked.micros);
        if more {
            self.asked.note(request, taken.micros)?;
        }
        Ok(taken.due(since))
    }

    /// Returns the recorded answer that a message is, which is taken now.
    fn recorded_answer(&mut self, frame: RawFrame<'_>, taken: Taken) -> Result<Answer, AllocError>
        ensures answer { IfOk result
            (λ answer. IsAnswer self.old.recorded.list.items (frame_bytes frame.entry)
            (due_of (request_in self.old.recorded.list.items (frame_bytes frame.entry)) taken
            self.old.asked.requests.items) answer) }
        ensures recorded { OnOk result (self.new.recorded.list.items
            ≡ noted_in self.old.recorded.list.items (frame_bytes frame.entry)) }
        ensures asked { OnOk result (self.new.asked.requests.items ≡ asked_behind
            (request_in self.old.recorded.list.items (frame_bytes frame.entry))
            (has_flag 2 (frame_bytes frame.entry)) taken.micros
            self.old.asked.requests.items) }
        ensures others { (self.new.received ≡ self.old.received)
            × (self.new.matching ≡ self.old.matching) }
    {
        let request = note(&mut self.recorded, frame)?;
        let more = has_flag(frame, MORE_TO_COME);
        let due = self.due(request, more, taken)?;
        let bytes = plain_bytes(self.alloc, frame)?;
        Ok(Answer {
            request,
            more,
            bytes,
            due,
        })
    }

    /// Returns the answer of the server that a message is.
    fn received_answer(&mut self, frame: RawFrame<'_>) -> Result<Answer, AllocError>
        ensures answer { IfOk result (λ answer.
            IsAnswer self.old.received.list.items (frame_bytes frame.entry) 0 answer) }
        ensures received { OnOk result (self.new.received.list.items
            ≡ noted_in self.old.received.list.items (frame_bytes frame.entry)) }
        ensures others { self.new ≡ record self.old { received = self.new.received } }
    {
        let request = note(&mut self.received, frame)?;
        let bytes = plain_bytes(self.alloc, frame)?;
        Ok(Answer {
            request,
            more: has_flag(frame, MORE_TO_COME),
            bytes,
            due: 0,
        })
    }

    /// Compares a recorded answer, or awaits its counterpart.
    ///
    /// # Errors
    ///
    /// Returns `AllocError` if memory runs out.
    pub fn expect(
        &mut self,
        frame: RawFrame<'_>,
        taken: Taken,
        findings: &mut Vec<Finding>,
    ) -> Result<(), AllocError>
        ensures does { OnOk result ((answer : Answer)
            × IsAnswer self.old.recorded.list.items (frame_bytes frame.entry)
            (due_of (request_in self.old.recorded.list.items (frame_bytes frame.entry)) taken
            self.old.asked.requests.items) answer
            × Does (expect answer ∷ []) (seen self.old.matching) (seen self.new.matching)
            findings.old.items findings.new.items) }
        ensures recorded { OnOk result (self.new.recorded.list.items
            ≡ noted_in self.old.recorded.list.items (frame_bytes frame.entry)) }
        ensures asked { OnOk result (self.new.asked.requests.items ≡ asked_behind
            (request_in self.old.recorded.list.items (frame_bytes frame.entry))
            (has_flag 2 (frame_bytes frame.entry)) taken.micros
            self.old.asked.requests.items) }
        ensures received { self.new.received ≡ self.old.received }
    {
        let answer = self.recorded_answer(frame, taken)?;
        self.matching.expect(answer, findings)?;
        Ok(())
    }

    /// Compares an answer of the server, or keeps it until its recorded one is read.
    ///
    /// # Errors
    ///
    /// Returns `AllocError` if memory runs out.
    pub fn meet(
        &mut self,
        frame: RawFrame<'_>,
        findings: &mut Vec<Finding>,
    ) -> Result<(), AllocError>
        ensures does { OnOk result ((answer : Answer)
            × IsAnswer self.old.received.list.items (frame_bytes frame.entry) 0 answer
            × Does (meet answer ∷ []) (seen self.old.matching) (seen self.new.matching)
            findings.old.items findings.new.items) }
        ensures received { OnOk result (self.new.received.list.items
            ≡ noted_in self.old.received.list.items (frame_bytes frame.entry)) }
        ensures others { (self.new.recorded ≡ self.old.recorded)
            × (self.new.asked ≡ self.old.asked) }
    {
        let answer = self.received_answer(frame)?;
        self.matching.meet(answer, findings)?;
        Ok(())
    }

    /// Gives up the recorded answers that are no longer awaited at this moment.
    ///
    /// # Errors
    ///
    /// Returns `AllocError` if memory runs out.
    pub fn give_up(&mut self, now: u64, findings: &mut Vec<Finding>) -> Result<(), AllocError>
        ensures does { OnOk result (Does (give_up now ∷ [])
            (seen self.old.matching) (seen self.new.matching)
            findings.old.items findings.new.items) }
        ensures others { self.new ≡ record self.old { matching = self.new.matching } }
    {
        self.matching.give_up(now, findings)
    }

    /// Finds what the answers are that are left at the end.
    ///
    /// # Errors
    ///
    /// Returns `AllocError` if memory runs out.
    pub fn finish(&mut self, findings: &mut Vec<Finding>) -> Result<(), AllocError>
        ensures { OnOk result (findings.new.items ≡ findings.old.items ++ left_over
            (seen self.old.matching).open_ids (seen self.old.matching).early) }
    {
        self.matching.finish(findings)
    }

    /// Returns true if recorded answers are awaited.
    pub fn awaits(&self) -> bool
        ensures { result ≡ not (length (seen self.now.matching).awaited == 0) }
    {
        self.matching.awaits()
    }

    /// Returns when the first of them is no longer awaited, if there is one.
    pub fn due_first(&self) -> Option<u64>
        ensures { result ≡ first_due (seen self.now.matching).awaited }
    {
        self.matching.due_first()
    }
}
