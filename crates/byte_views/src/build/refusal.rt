//! Why nothing is written.

ghost use Rattle.std.specs.Prelude.{◌≡◌};
ghost use Rattle.byte_views.specs.Refusals.{refusal_number};

/// Why nothing is written.
#[derive(Clone, Copy, Debug, PartialEq, Eq)]
pub enum BuildRefusal {
    /// No kind has this type byte, or a container is to begin of a kind that is neither a document
    /// nor an array.
    Kind,
    /// A name isn't UTF-8, or has a 00.
    Name,
    /// What is given is no value of this kind, or the kind holds a document.
    Value,
    /// A container would be deeper than 200.
    Depth,
    /// The room is too short.
    Room,
    /// More than 2,147,483,647 bytes.
    TooLarge,
    /// The numbers of a builder are out of range, the inner one of two doesn't stand behind the
    /// outer one or isn't one deeper, the ends of what is open would stand behind 2,147,483,647
    /// bytes where a container is ended, or a sequence is to be put behind more bytes than the room
    /// has.
    OutOfRange,
}

impl BuildRefusal {
    /// Returns the number of the refusal.
    pub fn number(self) -> u32
        ensures { result ≡ refusal_number self }
    {
        match self {
            BuildRefusal::Kind => 1,
            BuildRefusal::Name => 2,
            BuildRefusal::Value => 3,
            BuildRefusal::Depth => 4,
            BuildRefusal::Room => 5,
            BuildRefusal::TooLarge => 253,
            BuildRefusal::OutOfRange => 255,
        }
    }
}
