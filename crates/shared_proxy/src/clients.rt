//! The connections of clients, by their numbers.

ghost use Rattle.std.specs.Prelude.{◌≡◌, ◌||◌, [], IfOk, IsSome, None, OnOk, false, nat_eq, nat_lt};
ghost use Rattle.indexmap.specs.IndexMap.{Updates, get, index_map_len};
ghost use Rattle.shared_proxy.specs.Clients.{Opens, counted};
ghost use Rattle.shared_proxy.specs.Leaving.{is_told};

use crate::client::Client;
use crate::leave::Leave;
use crate::line::Line;
use indexmap::IndexMap;
use proxy::Watching;
use std::alloc::Global;
use std::io;
use std::io::Write;

/// The most clients at once. A connection to the server takes as many calls.
pub const ROOM: usize = 1024;

/// The connections of clients, by the numbers that they have in the core.
#[derive(Drop)]
pub struct Clients {
    alloc: Global,
    pub map: IndexMap<u64, Client>,
    /// How many are gone, counted up to 2^64 - 1.
    ended: u64,
    watching: Watching,
}

impl Clients {
    /// Begins without clients. It takes no memory.
    pub fn new(alloc: Global, watching: Watching) -> Clients
        ensures none { result.map.entries ≡ [] }
        ensures ended { result.ended ≡ 0 }
        ensures watching { result.watching ≡ watching }
    {
        Clients {
            alloc,
            map: IndexMap::new(alloc),
            ended: 0,
            watching,
        }
    }

    /// Returns true if there is room for one more.
    pub fn has_room(&self) -> bool
        ensures { result ≡ nat_lt (index_map_len self.now.map) 1024 }
    {
        self.map.len() < ROOM
    }

    /// Returns how many are gone.
    pub fn ended(&self) -> u64
        ensures { result ≡ self.now.ended }
    {
        self.ended
    }

    /// Returns true if it is told that connections are new, and why they are over.
    pub fn are_told(&self) -> bool
        ensures { result ≡ self.now.watching.told }
    {
        self.watching.told
    }

    /// Adds the client of this number, and writes that it is new, if that is told.
    ///
    /// # Errors
    ///
    /// Returns an error if memory runs out or writing fails.
    pub fn open<W: Write>(&mut self, number: u64, line: Line, out: &mut W) -> io::Result<()>
        ensures there { OnOk result (IsSome (get nat_eq self.new.map number)) }
        ensures opened { OnOk result (Opens number line self.old.watching
            self.old.map self.new.map) }
        ensures ended { self.new.ended ≡ self.old.ended }
        ensures watching { self.new.watching ≡ self.old.watching }
        ensures silent { OnOk result (self.old.watching.told ≡ false → out.new ≡ out.old) }
    {
        let client = Client::new(self.alloc, number, line, self.watching.watched);
        let _ = self.map.insert(number, client)?;
        if self.watching.told {
            writeln!(out, "{number} new")?;
        }
        Ok(())
    }

    /// Writes why a client is gone, if that is told.
    fn tell<W: Write>(&self, number: u64, leave: Leave, out: &mut W) -> io::Result<()>
        ensures silent { (self.now.watching.told || is_told leave) ≡ false → out.new ≡ out.old }
    {
        if self.watching.told || leave.is_told() {
            writeln!(out, "{number} {leave}")?;
        }
        Ok(())
    }

    /// Closes a client, and writes why, if that is told. Returns it.
    ///
    /// # Errors
    ///
    /// Returns an error if writing fails.
    pub fn close<W: Write>(
        &mut self,
        number: u64,
        leave: Leave,
        out: &mut W,
    ) -> io::Result<Option<Client>>
        ensures was { IfOk result (λ client. client ≡ get nat_eq self.old.map number) }
        ensures gone { Updates nat_eq self.old.map self.new.map number None }
        ensures ended { self.new.ended ≡ counted (get nat_eq self.old.map number) self.old.ended }
        ensures watching { self.new.watching ≡ self.old.watching }
        ensures silent { (self.old.watching.told || is_told leave) ≡ false → out.new ≡ out.old }
    {
        let client = self.map.swap_remove(&number);
        if client.is_some() {
            self.ended = self.ended.saturating_add(1);
            self.tell(number, leave, out)?;
        }
        Ok(client)
    }
}
