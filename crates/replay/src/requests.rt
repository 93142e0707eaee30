//! Requests, of which only the ids are known.

ghost use Rattle.std.specs.Prelude.{◌≡◌, ◌==◌, ◌++◌, ◌∷◌, [], OnOk, count_by, if◌then◌else◌};
ghost use Rattle.replay.specs.Firsts.{has, without_first};

use std::alloc::{AllocError, Global};
use std::collections::VecDeque;

/// Requests, in the order in which they were added. Several may have one id.
#[derive(Drop)]
pub struct Requests {
    ids: VecDeque<u32>,
}

impl Requests {
    /// Begins without requests. It takes no memory.
    pub fn new(alloc: Global) -> Requests
        ensures { result.ids.items ≡ [] }
    {
        Requests {
            ids: VecDeque::new(alloc),
        }
    }

    /// Returns how many requests have this id.
    pub fn count(&self, id: u32) -> usize
        ensures { result ≡ count_by (λ other. other == id) self.now.ids.items }
    {
        self.ids.iter().filter(|other| **other == id).count()
    }

    /// Returns true if a request has this id.
    pub fn has(&self, id: u32) -> bool
        ensures { result ≡ has (λ other. other == id) self.now.ids.items }
    {
        self.ids.iter().position(|other| *other == id).is_some()
    }

    /// Adds a request with this id.
    ///
    /// # Errors
    ///
    /// Returns `AllocError` if memory runs out.
    pub fn add(&mut self, id: u32) -> Result<(), AllocError>
        ensures { OnOk result (self.new.ids.items ≡ self.old.ids.items ++ id ∷ []) }
    {
        self.ids.push_back(id)?;
        Ok(())
    }

    /// Takes out the first request with this id, if there is one. Returns false if there is none.
    pub fn take(&mut self, id: u32) -> bool
        ensures found { result ≡ has (λ other. other == id) self.old.ids.items }
        ensures rest { self.new.ids.items
            ≡ without_first (λ other. other == id) self.old.ids.items }
    {
        match self.ids.iter().position(|other| *other == id) {
            Some(i) => self.ids.remove(i).is_some(),
            None => false,
        }
    }

    /// Takes out the first request with this id, if there is one, unless more answers come to it.
    pub fn take_unless(&mut self, more: bool, id: u32)
        ensures { self.new.ids.items ≡ (if more then self.old.ids.items
            else without_first (λ other. other == id) self.old.ids.items) }
    {
        if !more {
            let _ = self.take(id);
        }
    }
}
