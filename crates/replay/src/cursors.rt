//! Which cursors of the server the recorded ones are.

ghost use Rattle.std.specs.Prelude.{◌≡◌, [], OnOk};
ghost use Rattle.replay.specs.Cursors.{id_now, noted};

use std::alloc::{AllocError, Global};
use std::collections::VecDeque;

/// The most cursors that are known besides a new one.
const OTHERS: usize = 65_535;

/// A cursor of the record, and the one of the server that was opened in its place.
#[derive(Clone, Copy)]
struct Cursor {
    /// The id that was recorded.
    recorded: i64,
    /// The id on the server.
    now: i64,
}

/// The cursors of the record whose ids on the server are known, the newest first.
#[derive(Drop)]
pub struct Cursors {
    list: VecDeque<Cursor>,
}

impl Cursors {
    /// Begins without cursors. It takes no memory.
    pub fn new(alloc: Global) -> Cursors
        ensures { result.list.items ≡ [] }
    {
        Cursors {
            list: VecDeque::new(alloc),
        }
    }

    /// Notes that the cursor with this recorded id has the id `now` on the server. Of more than
    /// 65,536 cursors the oldest is forgotten.
    ///
    /// # Errors
    ///
    /// Returns `AllocError` if memory runs out.
    pub fn note(&mut self, recorded: i64, now: i64) -> Result<(), AllocError>
        ensures { OnOk result (self.new.list.items ≡ noted recorded now self.old.list.items) }
    {
        self.list.truncate(OTHERS);
        self.list.push_front(Cursor { recorded, now })?;
        Ok(())
    }

    /// Returns the id on the server of the newest cursor with this recorded id, or the same id if
    /// none is known.
    pub fn id_now(&self, id: i64) -> i64
        ensures { result ≡ id_now self.now.list.items id }
    {
        match self.list.iter().find(|cursor| cursor.recorded == id) {
            Some(cursor) => cursor.now,
            None => id,
        }
    }
}
