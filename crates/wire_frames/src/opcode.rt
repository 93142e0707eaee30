//! The kinds of messages (MongoDB Wire Protocol manual: Opcodes).

ghost use Rattle.std.specs.Prelude.{◌≡◌};
ghost use Rattle.wire_frames.specs.Opcodes.{IsOwnKind, opcode_number};

/// The kind of a message, by the opCode of its header.
#[derive(Clone, Copy, Debug, PartialEq, Eq)]
pub enum Opcode {
    /// OP_REPLY, the answer to an OP_QUERY.
    Reply,
    /// OP_QUERY, the older spelling of a command.
    Query,
    /// OP_COMPRESSED, a message whose bytes behind the header are compressed.
    Compressed,
    /// OP_MSG.
    Msg,
    /// Another opCode, which is none of these.
    Other(i32),
}

impl Opcode {
    /// Returns the kind of messages with this opCode.
    pub fn from_number(number: i32) -> Opcode
        ensures number { opcode_number result ≡ number }
        ensures own { IsOwnKind result }
    {
        match number {
            1 => Opcode::Reply,
            2004 => Opcode::Query,
            2012 => Opcode::Compressed,
            2013 => Opcode::Msg,
            other => Opcode::Other(other),
        }
    }

    /// Returns the opCode.
    pub fn number(self) -> i32
        ensures { result ≡ opcode_number self }
    {
        match self {
            Opcode::Reply => 1,
            Opcode::Query => 2004,
            Opcode::Compressed => 2012,
            Opcode::Msg => 2013,
            Opcode::Other(number) => number,
        }
    }
}
