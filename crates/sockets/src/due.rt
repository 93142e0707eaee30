//! Which connections are to take another turn.

ghost use Rattle.std.specs.Prelude.{◌≡◌, ◌++◌, ◌==◌, [], IfOk, OnErr, OnOk, option_to_list};
ghost use Rattle.std.specs.VecDeque.{deque_len};
ghost use Rattle.sockets.specs.Dues.{with_key};

use std::alloc::{AllocError, Global};
use std::collections::VecDeque;

/// The connections that are to take another turn, by their keys, each once, in order.
#[derive(Drop)]
pub struct Due {
    keys: VecDeque<usize>,
}

impl Due {
    /// Makes an empty list that has room for so many keys.
    ///
    /// # Errors
    ///
    /// Returns `AllocError` if memory runs out.
    pub fn with_room(alloc: Global, room: usize) -> Result<Due, AllocError>
        ensures { IfOk result (λ d. d.keys.items ≡ []) }
    {
        Ok(Due {
            keys: VecDeque::with_capacity(alloc, room)?,
        })
    }

    /// Returns how many there are.
    pub fn len(&self) -> usize
        ensures { result ≡ deque_len self.now.keys }
    {
        self.keys.len()
    }

    /// Returns true if there are none.
    pub fn is_empty(&self) -> bool
        ensures { result ≡ (deque_len self.now.keys == 0) }
    {
        self.keys.is_empty()
    }

    /// Notes that a connection is to take another turn.
    ///
    /// # Errors
    ///
    /// Returns `AllocError` if there is no room for it, and memory runs out.
    pub fn push(&mut self, key: usize) -> Result<(), AllocError>
        ensures added { OnOk result (self.new.keys.items ≡ with_key key self.old.keys.items) }
        ensures unchanged { OnErr result (self.new.keys.items ≡ self.old.keys.items) }
    {
        if !self.keys.contains(&key) {
            self.keys.push_back(key)?;
        }
        Ok(())
    }

    /// Returns the first one, and forgets it.
    pub fn pop(&mut self) -> Option<usize>
        ensures { self.old.keys.items ≡ option_to_list result ++ self.new.keys.items }
    {
        self.keys.pop_front()
    }
}
