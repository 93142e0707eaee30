//! Which request an answer answers.

ghost use Rattle.std.specs.Prelude.{◌≡◌, [], IfOk, OnOk};
ghost use Rattle.replay.specs.Follows.{forgotten, noted, request_of};

use std::alloc::{AllocError, Global};

/// An answer behind which another one comes, which may have its id as the responseTo.
#[derive(Clone, Copy)]
struct Follow {
    /// The id of the answer.
    id: u32,
    /// The id of the request.
    request: u32,
}

/// The last answer to each request behind which another one comes, on one side of a connection.
#[derive(Drop)]
pub struct Follows {
    list: Vec<Follow>,
}

impl Follows {
    /// Begins without answers. It takes no memory.
    pub fn new(alloc: Global) -> Follows
        ensures { result.list.items ≡ [] }
    {
        Follows {
            list: Vec::new(alloc),
        }
    }

    /// Returns the id of the request that an answer with this responseTo answers. Of several answers
    /// to one request, each but the first may have the id of the one before it there.
    fn request_of(&self, response_to: u32) -> u32
        ensures { result ≡ request_of response_to self.now.list.items }
    {
        match self.list.iter().find(|follow| follow.id == response_to) {
            Some(follow) => follow.request,
            None => response_to,
        }
    }

    /// Forgets the answer to this request behind which another one comes, if there is one.
    fn forget(&mut self, request: u32)
        ensures { self.new.list.items ≡ forgotten request self.old.list.items }
    {
        match self
            .list
            .iter()
            .position(|follow| follow.request == request)
        {
            Some(i) => {
                let _ = self.list.remove(i);
            }
            None => {}
        }
    }

    /// Returns the id of the request that an answer with this id and responseTo answers, which comes
    /// on this side now. Notes whether another answer comes behind it.
    ///
    /// # Errors
    ///
    /// Returns `AllocError` if memory runs out.
    pub fn note(&mut self, id: u32, response_to: u32, more: bool) -> Result<u32, AllocError>
        ensures request { IfOk result (λ request.
            request ≡ request_of response_to self.old.list.items) }
        ensures noted { OnOk result
            (self.new.list.items ≡ noted id response_to more self.old.list.items) }
    {
        let request = self.request_of(response_to);
        self.forget(request);
        if more {
            self.list.push(Follow { id, request })?;
        }
        Ok(request)
    }
}
