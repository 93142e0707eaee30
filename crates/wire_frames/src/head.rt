//! The head of a record: its time, the number of its connection, and its direction.

ghost use Rattle.std.specs.Prelude.{◌≡◌, MatchResult};
ghost use Rattle.wire_frames.specs.Heads.{HasHead, HeadFault, IsGoodHead, direction_number};
ghost use Rattle.wire_frames.specs.Heads.{head_bytes};

use crate::fault::{RecordCause, RecordFault, fault_at};
use byteorder::{ByteOrder, LittleEndian};

/// The eight bytes with which a file of records begins. No message begins with them, since they
/// would announce more bytes than the longest message has.
pub const SIGNATURE: [u8; 8] = *b"LUGHREC1";

/// The length of the head of a record, in bytes.
pub const HEAD_LEN: usize = 20;

/// The greatest number of a connection.
const LAST_CONNECTION: u64 = i64::MAX as u64;

/// Which way a message went.
#[derive(Clone, Copy, Debug, PartialEq, Eq)]
pub enum Direction {
    /// From the client to the server.
    ToServer,
    /// From the server to the client.
    FromServer,
}

impl Direction {
    /// Returns the number by which a record has the direction.
    pub fn number(self) -> u32
        ensures { result ≡ direction_number self }
    {
        match self {
            Direction::ToServer => 0,
            Direction::FromServer => 1,
        }
    }
}

/// What stands in front of the message of a record.
#[derive(Clone, Copy, Debug, PartialEq, Eq)]
pub struct RecordHead {
    /// When the last byte of the message passed, in microseconds since 1970 in UTC.
    pub micros: i64,
    /// The number of the connection, from 1.
    pub connection: u64,
    /// Which way the message went.
    pub direction: Direction,
}

impl RecordHead {
    /// Reads a head from its 20 bytes.
    ///
    /// # Errors
    ///
    /// Returns `Connection` at 8 if the number of the connection is below 1, and otherwise
    /// `Direction` at 16 if the direction is neither 0 nor 1.
    pub fn read(bytes: &[u8; 20]) -> Result<RecordHead, RecordFault>
        ensures { MatchResult result
            (λ h. IsGoodHead bytes.now × HasHead bytes.now h)
            (λ f. HeadFault bytes.now f) }
    {
        let connection = LittleEndian::read_u64(&bytes[8..16]);
        if connection < 1 || connection > LAST_CONNECTION {
            return Err(fault_at(8, RecordCause::Connection));
        }
        let direction = match LittleEndian::read_u32(&bytes[16..20]) {
            0 => Direction::ToServer,
            1 => Direction::FromServer,
            _ => return Err(fault_at(16, RecordCause::Direction)),
        };
        Ok(RecordHead {
            micros: LittleEndian::read_i64(&bytes[0..8]),
            connection,
            direction,
        })
    }

    /// Returns the 20 bytes of the head.
    pub fn to_bytes(self) -> [u8; 20]
        ensures { result ≡ head_bytes self }
    {
        let mut bytes = [0; 20];
        LittleEndian::write_i64(&mut bytes[0..8], self.micros);
        LittleEndian::write_u64(&mut bytes[8..16], self.connection);
        LittleEndian::write_u32(&mut bytes[16..20], self.direction.number());
        bytes
    }
}
