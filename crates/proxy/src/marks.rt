//! What becomes of replies that don't go on whole.

ghost use Rattle.std.specs.Prelude.{◌≡◌, [], OnErr, OnOk};
ghost use Rattle.proxy.specs.Marks.{flow_at, index_of, marked, without};

use script_rules::Flow;
use std::alloc::{AllocError, Global};

/// A request whose reply doesn't go on whole, and what becomes of that.
#[derive(Clone, Copy)]
struct Mark {
    id: i32,
    flow: Flow,
}

/// The requests whose replies don't go on whole, in the order in which they went on.
#[derive(Drop)]
pub struct Marks {
    marks: Vec<Mark>,
}

impl Marks {
    /// Begins without a request. It takes no memory.
    pub fn new(alloc: Global) -> Marks
        ensures { result.marks.items ≡ [] }
    {
        Marks {
            marks: Vec::new(alloc),
        }
    }

    /// Notes what becomes of the reply to the request with this id.
    ///
    /// # Errors
    ///
    /// Returns `AllocError` if memory runs out. Then nothing changes.
    pub fn put(&mut self, id: i32, flow: Flow) -> Result<(), AllocError>
        ensures put { OnOk result (self.new.marks.items ≡ marked id flow self.old.marks.items) }
        ensures unchanged { OnErr result (self.new.marks.items ≡ self.old.marks.items) }
    {
        match flow {
            Flow::Whole | Flow::Held(_) => Ok(()),
            Flow::Cut(_) | Flow::Dropped => match self.marks.push(Mark { id, flow }) {
                Ok(()) => Ok(()),
                Err(_) => Err(AllocError),
            },
        }
    }

    /// Returns the index of the first mark of this id.
    fn index(&self, id: i32) -> Option<usize>
        ensures { result ≡ index_of id self.now.marks.items }
    {
        self.marks.iter().position(|mark| mark.id == id)
    }

    /// Returns what becomes of the reply to the request with this id, and forgets it.
    pub fn take(&mut self, id: i32) -> Flow
        ensures flow { result ≡ flow_at (index_of id self.old.marks.items) self.old.marks.items }
        ensures taken { self.new.marks.items
            ≡ without (index_of id self.old.marks.items) self.old.marks.items }
    {
        match self.index(id) {
            Some(i) => self.marks.remove(i).flow,
            None => Flow::Whole,
        }
    }
}
