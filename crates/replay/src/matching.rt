//! Finds the recorded answer of each one that comes, by the request that both answer and by their
//! order.

ghost use Rattle.std.specs.Prelude.{◌≡◌, ◌++◌, ◌∷◌, [], ◌==◌, OnOk, if◌then◌else◌, length, map};
ghost use Rattle.std.specs.Prelude.{not};
ghost use Rattle.replay.specs.declared.finding.Finding.TheVariants.{Unexpected};
ghost use Rattle.replay.specs.Matchings.{asked, expected, given_up, left_over, met, seen};
ghost use Rattle.replay.specs.Matchings.{beyond, count_of, explained, first_due, nothing};
ghost use Rattle.replay.specs.Matchings.{open_left, stays, within};

use crate::answers::{Answer, Answers};
use crate::finding::Finding;
use crate::requests::Requests;
use std::alloc::{AllocError, Global};
use std::mem;

/// The answers on a connection that have no counterpart yet, and its requests.
#[derive(Drop)]
pub struct Matching {
    alloc: Global,
    /// The answers of the record that are awaited.
    awaited: Answers,
    /// Those of the server whose recorded ones weren't read yet.
    early: Answers,
    /// The requests that were sent and whose last answer wasn't recorded yet.
    open: Requests,
    /// Those of the recorded answers that were given up, and whose counterparts didn't come since.
    given_up: Requests,
}

impl Matching {
    /// Begins without answers and requests. It takes no memory.
    pub fn new(alloc: Global) -> Matching
        ensures { seen result ≡ nothing }
    {
        Matching {
            alloc,
            awaited: Answers::new(alloc),
            early: Answers::new(alloc),
            open: Requests::new(alloc),
            given_up: Requests::new(alloc),
        }
    }

    /// Keeps an answer that came before its recorded one, or finds that it is unexpected, if it is to
    /// a request with this id and none of so many is left.
    fn sort_one(
        &mut self,
        id: u32,
        left: usize,
        answer: Answer,
        findings: &mut Vec<Finding>,
    ) -> Result<(), AllocError>
        ensures kept { OnOk result (seen self.new ≡ record (seen self.old) {
          early = (seen self.old).early ++ (if stays left id answer then answer ∷ [] else []);
        }) }
        ensures found { OnOk result (findings.new.items ≡ findings.old.items
            ++ (if stays left id answer then [] else Unexpected answer ∷ [])) }
    {
        if answer.stays(id, left) {
            self.early.push(answer)?;
        } else {
            findings.push(Finding::Unexpected(answer))?;
        }
        Ok(())
    }

    /// Finds that answers to a request with this id that came before it are unexpected, but for those
    /// to earlier requests with it.
    fn sort_out(&mut self, id: u32, findings: &mut Vec<Finding>) -> Result<(), AllocError>
        ensures state { OnOk result (seen self.new ≡ record (seen self.old) {
          early = within (count_of id (seen self.old).open_ids) id (seen self.old).early;
        }) }
        ensures found { OnOk result (findings.new.items ≡ findings.old.items
            ++ map (λ a. Unexpected a)
            (beyond (count_of id (seen self.old).open_ids) id (seen self.old).early)) }
    {
        let mut left = self.open.count(id);
        let mut came = mem::replace(&mut self.early, Answers::new(self.alloc));
        while let Some(answer) = came.take_front() {
            let after = answer.left_behind(id, left);
            self.sort_one(id, left, answer, findings)?;
            left = after;
        }
        Ok(())
    }

    /// Notes a request with this id, to which an answer comes. Answers to this id that came before
    /// are none to it: those that no earlier request explains are unexpected.
    ///
    /// # Errors
    ///
    /// Returns `AllocError` if memory runs out.
    pub fn ask(&mut self, id: u32, findings: &mut Vec<Finding>) -> Result<(), AllocError>
        ensures state { OnOk result (seen self.new ≡ (asked id (seen self.old)).0) }
        ensures found { OnOk result
            (findings.new.items ≡ findings.old.items ++ (asked id (seen self.old)).1) }
    {
        self.sort_out(id, findings)?;
        self.open.add(id)
    }

    /// Compares a recorded answer with the first one to its request that came, or awaits that. It is
    /// awaited at least as long as the one before it, since a server answers the requests of a
    /// connection in order.
    ///
    /// # Errors
    ///
    /// Returns `AllocError` if memory runs out.
    pub fn expect(
        &mut self,
        recorded: Answer,
        findings: &mut Vec<Finding>,
    ) -> Result<(), AllocError>
        ensures state { OnOk result (seen self.new ≡ (expected recorded (seen self.old)).0) }
        ensures found { OnOk result
            (findings.new.items ≡ findings.old.items ++ (expected recorded (seen self.old)).1) }
    {
        self.open.take_unless(recorded.more, recorded.request);
        match self.early.take(recorded.request) {
            Some(received) => findings.push(Finding::Compare { recorded, received })?,
            None => {
                let due = self.awaited.last_due().max(recorded.due);
                self.awaited.push(Answer { due, ..recorded })?;
            }
        }
        Ok(())
    }

    /// Compares an answer of the server with the first recorded one to its request that is awaited,
    /// or keeps it until that is read. If such a one was given up, it comes late.
    ///
    /// # Errors
    ///
    /// Returns `AllocError` if memory runs out.
    pub fn meet(&mut self, received: Answer, findings: &mut Vec<Finding>) -> Result<(), AllocError>
        ensures state { OnOk result (seen self.new ≡ (met received (seen self.old)).0) }
        ensures found { OnOk result
            (findings.new.items ≡ findings.old.items ++ (met received (seen self.old)).1) }
    {
        if self.given_up.take(received.request) {
            findings.push(Finding::Late(received))?;
            return Ok(());
        }
        match self.awaited.take(received.request) {
            Some(recorded) => findings.push(Finding::Compare { recorded, received })?,
            None => self.early.push(received)?,
        }
        Ok(())
    }

    /// Gives up the recorded answers that are no longer awaited at this moment.
    ///
    /// # Errors
    ///
    /// Returns `AllocError` if memory runs out.
    pub fn give_up(&mut self, now: u64, findings: &mut Vec<Finding>) -> Result<(), AllocError>
        ensures state { OnOk result (seen self.new ≡ (given_up now (seen self.old)).0) }
        ensures found { OnOk result
            (findings.new.items ≡ findings.old.items ++ (given_up now (seen self.old)).1) }
    {
        while let Some(answer) = self.awaited.take_due(now) {
            self.given_up.add(answer.request)?;
            findings.push(Finding::Missing(answer))?;
        }
        Ok(())
    }

    /// Finds of an answer that is left whether the record lacks it, or whether it is unexpected.
    fn explain(&mut self, answer: Answer, findings: &mut Vec<Finding>) -> Result<(), AllocError>
        ensures state { OnOk result (seen self.new ≡ record (seen self.old) {
          open_ids = open_left answer (seen self.old).open_ids;
        }) }
        ensures found { OnOk result (findings.new.items
            ≡ findings.old.items ++ explained answer (seen self.old).open_ids ∷ []) }
    {
        let request = answer.request;
        if !self.open.has(request) {
            findings.push(Finding::Unexpected(answer))?;
            return Ok(());
        }
        self.open.take_unless(answer.more, request);
        findings.push(Finding::Unrecorded(answer))?;
        Ok(())
    }

    /// Finds of each answer that is left at the end whether the record lacks it, since it ended
    /// before, or whether it is unexpected.
    ///
    /// # Errors
    ///
    /// Returns `AllocError` if memory runs out.
    pub fn finish(&mut self, findings: &mut Vec<Finding>) -> Result<(), AllocError>
        ensures { OnOk result (findings.new.items
            ≡ findings.old.items ++ left_over (seen self.old).open_ids (seen self.old).early) }
    {
        while let Some(answer) = self.early.take_front() {
            self.explain(answer, findings)?;
        }
        Ok(())
    }

    /// Returns true if recorded answers are awaited.
    pub fn awaits(&self) -> bool
        ensures { result ≡ not (length (seen self.now).awaited == 0) }
    {
        !self.awaited.is_empty()
    }

    /// Returns when the first of them is no longer awaited, if there is one.
    pub fn due_first(&self) -> Option<u64>
        ensures { result ≡ first_due (seen self.now).awaited }
    {
        self.awaited.first_due()
    }
}
