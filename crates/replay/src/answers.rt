//! Answers of one side of a connection that have no counterpart yet: the recorded ones, or those of
//! the server.

ghost use Rattle.std.specs.Prelude.{◌≡◌, ◌++◌, ◌∷◌, [], ◌==◌, MatchOption, OnOk, length};
ghost use Rattle.replay.specs.Matchings.{TakesPast, first_due, first_to, last_due, left_by, stays};
ghost use Rattle.replay.specs.Matchings.{without_first_to};

use std::alloc::{AllocError, Global};
use std::collections::VecDeque;

/// An answer.
#[derive(Drop)]
pub struct Answer {
    /// The id of the request that it answers.
    pub request: u32,
    /// Another answer to that request comes behind it.
    pub more: bool,
    /// Its bytes.
    pub bytes: Vec<u8>,
    /// When its counterpart is no longer waited for.
    pub due: u64,
}

impl Answer {
    /// Returns true unless it is to a request with this id, and so many earlier ones with it that
    /// aren't answered are none.
    pub fn stays(&self, id: u32, left: usize) -> bool
        ensures { result ≡ stays left id self.now }
    {
        !(self.request == id && left == 0)
    }

    /// Returns how many of so many requests with this id aren't answered behind it.
    pub fn left_behind(&self, id: u32, left: usize) -> usize
        ensures { result ≡ left_by id self.now left }
    {
        if self.request == id && !self.more {
            left.saturating_sub(1)
        } else {
            left
        }
    }
}

/// Answers that have no counterpart yet, in order.
#[derive(Drop)]
pub struct Answers {
    list: VecDeque<Answer>,
}

impl Answers {
    /// Begins without answers. It takes no memory.
    pub fn new(alloc: Global) -> Answers
        ensures { result.list.items ≡ [] }
    {
        Answers {
            list: VecDeque::new(alloc),
        }
    }

    /// Returns true if there are none.
    pub fn is_empty(&self) -> bool
        ensures { result ≡ (length self.now.list.items == 0) }
    {
        self.list.is_empty()
    }

    /// Adds an answer, behind all others.
    ///
    /// # Errors
    ///
    /// Returns `AllocError` if memory runs out.
    pub fn push(&mut self, answer: Answer) -> Result<(), AllocError>
        ensures { OnOk result (self.new.list.items ≡ self.old.list.items ++ answer ∷ []) }
    {
        self.list.push_back(answer)?;
        Ok(())
    }

    /// Takes out the first answer to this request, if there is one.
    pub fn take(&mut self, request: u32) -> Option<Answer>
        ensures found { result ≡ first_to request self.old.list.items }
        ensures rest { self.new.list.items ≡ without_first_to request self.old.list.items }
    {
        match self
            .list
            .iter()
            .position(|answer| answer.request == request)
        {
            Some(i) => self.list.remove(i),
            None => None,
        }
    }

    /// Takes out the first answer, if there is one.
    pub fn take_front(&mut self) -> Option<Answer>
        ensures { MatchOption result (self.old.list.items ≡ [])
            (λ answer. self.old.list.items ≡ answer ∷ self.new.list.items) }
    {
        self.list.pop_front()
    }

    /// Takes out the first answer, if it is no longer waited for at this moment.
    pub fn take_due(&mut self, now: u64) -> Option<Answer>
        ensures { TakesPast now self.old.list.items self.new.list.items result }
    {
        match self.first_due() {
            Some(due) if due <= now => self.take_front(),
            _ => None,
        }
    }

    /// Returns when the first answer is no longer waited for, if there is one.
    pub fn first_due(&self) -> Option<u64>
        ensures { result ≡ first_due self.now.list.items }
    {
        match self.list.front() {
            Some(answer) => Some(answer.due),
            None => None,
        }
    }

    /// Returns when the last answer is no longer waited for, or 0 if there is none.
    pub fn last_due(&self) -> u64
        ensures { result ≡ last_due self.now.list.items }
    {
        match self.list.back() {
            Some(answer) => answer.due,
            None => 0,
        }
    }
}
