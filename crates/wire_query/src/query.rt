//! Reads the query of a command, borrowed from its bytes (MongoDB Wire Protocol manual: OP_QUERY).

ghost use Rattle.std.specs.Prelude.{◌≡◌, ◌+◌, ◌<◌, ◌≤◌, ◌^◌, ◌++◌, length, IfOk, IfErr, IsOk};
ghost use Rattle.std.specs.Prelude.{IsErrOf, OnOk, OnErr};
ghost use Rattle.std.specs.Io.{StartsWith};
ghost use Rattle.bson_elem.specs.{Spells, Tree};
ghost use Rattle.bson_raw.specs.{document_bytes};
ghost use Rattle.wire_msg.specs.{canonical, header_of};
ghost use Rattle.wire_query.specs.declared.fault.QueryFault.{QueryFault};
ghost use Rattle.wire_query.specs.Queries.{message_of, Query};
ghost use Rattle.wire_query.specs.Spelling.{IsQuery, IsSpelledQuery, SpellsQuery};
ghost use Rattle.wire_query.specs.Checks.{ArePartsOf};
ghost use Rattle.wire_query.specs.Faults.{FaultQuery};

use crate::check::check_query;
use crate::database::{DB_LEN, names_database, write_with_database};
use crate::fault::QueryFault;
use crate::write::write_message_front;
use bson_elem::little_u32;
use bson_raw::RawDocument;
use std::alloc::{AllocError, Global};
use std::convert::AsSlice;
use wire_msg::{MAX_MESSAGE_LEN, MsgHeader};

/// The opCode of OP_QUERY.
pub const OP_QUERY: i32 = 2004;

/// The query of a command, borrowed from its bytes. They were checked when it was made.
#[derive(Clone, Copy, Debug)]
pub struct RawQuery<'a> {
    bytes: &'a [u8],
    database: &'a str,
    command: RawDocument<'a>,
    pub ghost spelled: { ∥ IsSpelledQuery bytes.now ∥₁ },
    pub ghost parts: { ArePartsOf bytes.now database.now (document_bytes command) },
}

impl<'a> AsSlice<u8> for RawQuery<'a> {
    ghost use Rattle.wire_query.specs.RawQuery.{raw_query_bytes};

    ghost items = { raw_query_bytes };

    fn as_slice(&self) -> &[u8] {
        self.as_bytes()
    }
}

impl<'a> RawQuery<'a> {
    ghost use Rattle.wire_query.specs.RawQuery.{raw_query_bytes};

    /// Reads `bytes` as the query of a command, of at most `limit` bytes. Finds repeated names by
    /// sorting in memory from `alloc`, so no choice of names makes it slow; if memory runs out,
    /// compares them in pairs.
    ///
    /// # Errors
    ///
    /// Returns the first fault of the bytes and its offset, in the order of the checks.
    pub fn parse(alloc: Global, bytes: &'a [u8], limit: u32) -> Result<RawQuery<'a>, QueryFault>
        requires { limit ≤ MAX_MESSAGE_LEN }
        ensures found { IfOk result (λ q.
            (raw_query_bytes q ≡ bytes.now) × IsQuery limit bytes.now) }
        ensures only { IsQuery limit bytes.now → IsOk result }
        ensures fault { IfErr result (λ f. FaultQuery bytes.now limit f) }
        ensures exact { (f : QueryFault) → FaultQuery bytes.now limit f → IsErrOf result f }
        ensures inside { IfErr result (λ f. f.at ≤ length bytes.now) }
    {
        match check_query(alloc, bytes, limit) {
            Ok((database, command)) => Ok(RawQuery {
                bytes,
                database,
                command,
            }),
            Err(fault) => Err(fault),
        }
    }

    /// Returns the bytes of the query.
    pub fn as_bytes(self) -> &'a [u8]
        ensures { result.now ≡ raw_query_bytes self.entry }
    {
        self.bytes
    }

    /// Returns the header of the query.
    fn header(self) -> MsgHeader
        ensures { result ≡ header_of (raw_query_bytes self.entry) }
    {
        let Some((header, _)) = self.bytes.split_first_chunk::<16>() else {
            unreachable!();
        };
        MsgHeader::read(*header)
    }

    /// Returns requestID.
    pub fn id(self) -> i32
        ensures { (q : Query) → SpellsQuery q (raw_query_bytes self.entry) → result ≡ q.id }
    {
        self.header().id
    }

    /// Returns responseTo.
    pub fn response_to(self) -> i32
        ensures { (q : Query) → SpellsQuery q (raw_query_bytes self.entry)
            → result ≡ q.response_to }
    {
        self.header().response_to
    }

    /// Returns SlaveOk: a secondary may answer.
    pub fn secondary_ok(self) -> bool
        ensures { (q : Query) → SpellsQuery q (raw_query_bytes self.entry)
            → result ≡ q.secondary_ok }
    {
        little_u32(&self.bytes[16..20]) != 0
    }

    /// Returns the database's name.
    pub fn database(self) -> &'a str
        ensures { (q : Query) → SpellsQuery q (raw_query_bytes self.entry)
            → result.now ≡ q.database }
    {
        self.database
    }

    /// Returns the command.
    pub fn body(self) -> RawDocument<'a>
        ensures { (q : Query) → SpellsQuery q (raw_query_bytes self.entry)
            → Spells q.body (document_bytes result) }
    {
        self.command
    }

    /// Appends the message. If memory runs out, `out` may end with some of its bytes.
    fn write_parts(self, out: &mut Vec<u8>) -> Result<(), AllocError>
        ensures added { (q : Query) → SpellsQuery q (raw_query_bytes self.entry)
            → OnOk result (out.new.items ≡ out.old.items ++ canonical (message_of q)) }
        ensures kept { OnErr result (StartsWith out.new.items out.old.items) }
    {
        let body = self.command.as_bytes();
        if names_database(self.command) {
            write_message_front(body.len(), self.id(), self.response_to(), out)?;
            return out.extend_from_slice(body);
        }
        let len = body.len() + DB_LEN + self.database.len();
        write_message_front(len, self.id(), self.response_to(), out)?;
        write_with_database(self.command, self.database, out)
    }

    /// Appends the OP_MSG with the same ids. Its body is the command, with the database's name as
    /// the string `$db` behind its elements, unless it has a `$db` of its own. The message is
    /// shorter than the query.
    ///
    /// # Errors
    ///
    /// Returns `AllocError` if memory runs out. Then `out` is unchanged.
    pub fn write_msg(self, out: &mut Vec<u8>) -> Result<(), AllocError>
        ensures written { (q : Query) → SpellsQuery q (raw_query_bytes self.entry)
            → OnOk result (out.new.items ≡ out.old.items ++ canonical (message_of q)) }
        ensures unchanged { OnErr result (out.new.items ≡ out.old.items) }
    {
        let start = out.len();
        out.try_reserve(self.bytes.len())?;
        match self.write_parts(out) {
            Ok(()) => Ok(()),
            Err(error) => {
                out.truncate(start);
                Err(error)
            }
        }
    }
}
