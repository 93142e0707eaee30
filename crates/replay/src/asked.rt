//! When the requests of a connection were recorded whose answers weren't read yet.

ghost use Rattle.std.specs.Prelude.{◌≡◌, ◌==◌, ◌++◌, ◌∷◌, [], OnOk, find};
ghost use Rattle.replay.specs.Firsts.{without_first};
ghost use Rattle.replay.specs.Follows.{with_room};

use std::alloc::{AllocError, Global};
use std::collections::VecDeque;

/// The most requests that are noted. Older ones are forgotten, since their answers may be in no
/// record.
const MOST: usize = 1024;

/// A request, and when it was recorded.
#[derive(Clone, Copy)]
pub struct Request {
    id: u32,
    /// When it was recorded.
    pub micros: u64,
}

/// The requests of a connection whose answers weren't read yet, in order.
#[derive(Drop)]
pub struct Asked {
    requests: VecDeque<Request>,
}

impl Asked {
    /// Begins without requests. It takes no memory.
    pub fn new(alloc: Global) -> Asked
        ensures { result.requests.items ≡ [] }
    {
        Asked {
            requests: VecDeque::new(alloc),
        }
    }

    /// Notes that the request with this id, or an answer to it behind which another one comes, was
    /// recorded at this time.
    ///
    /// # Errors
    ///
    /// Returns `AllocError` if memory runs out.
    pub fn note(&mut self, id: u32, micros: u64) -> Result<(), AllocError>
        ensures { OnOk result (self.new.requests.items
            ≡ with_room self.old.requests.items ++ record { id = id; micros = micros } ∷ []) }
    {
        if self.requests.len() >= MOST {
            let _ = self.requests.pop_front();
        }
        self.requests.push_back(Request { id, micros })?;
        Ok(())
    }

    /// Returns the first request with this id, if one is noted, and forgets it.
    pub fn take(&mut self, id: u32) -> Option<Request>
        ensures found { result ≡ find (λ request. request.id == id) self.old.requests.items }
        ensures rest { self.new.requests.items
            ≡ without_first (λ request. request.id == id) self.old.requests.items }
    {
        match self.requests.iter().position(|request| request.id == id) {
            Some(i) => self.requests.remove(i),
            None => None,
        }
    }
}
