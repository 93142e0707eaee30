//! The opcodes of pickles that are written here, by their names in Python's `pickletools`.

/// Begins what the next opcode that takes all since a mark takes.
pub(crate) const MARK: u8 = b'(';
/// Ends the pickle.
pub(crate) const STOP: u8 = b'.';
/// Takes the last value away.
pub(crate) const POP: u8 = b'0';

/// Tells the version of the protocol, in the byte that follows.
pub(crate) const PROTO: u8 = 0x80;
/// Keeps the last value under the number that follows, and leaves it.
pub(crate) const BINPUT: u8 = b'q';
/// Takes the value that is kept under the number that follows.
pub(crate) const BINGET: u8 = b'h';
/// Takes the function that Python's `copyreg` has under the number of the four bytes that follow.
pub(crate) const EXT4: u8 = 0x84;
/// Calls a function with the arguments of a tuple.
pub(crate) const REDUCE: u8 = b'R';
/// Makes a tuple of all since the mark.
pub(crate) const TUPLE: u8 = b't';
/// Makes a tuple of the last value.
pub(crate) const TUPLE1: u8 = 0x85;
/// Makes a tuple of the last three values.
pub(crate) const TUPLE3: u8 = 0x87;

/// Makes an empty dict.
pub(crate) const EMPTY_DICT: u8 = b'}';
/// Puts all since the mark into a dict: names and values in turn.
pub(crate) const SETITEMS: u8 = b'u';
/// Makes an empty list.
pub(crate) const EMPTY_LIST: u8 = b']';
/// Puts the last value behind those of a list.
pub(crate) const APPEND: u8 = b'a';
/// Puts all since the mark behind the values of a list.
pub(crate) const APPENDS: u8 = b'e';

/// Makes a text, whose number of bytes is the byte that follows.
pub(crate) const SHORT_BINUNICODE: u8 = 0x8C;
/// Makes a text, whose number of bytes has the eight that follow.
pub(crate) const BINUNICODE8: u8 = 0x8D;
/// Makes bytes, whose number is the byte that follows.
pub(crate) const SHORT_BINBYTES: u8 = b'C';
/// Makes bytes, whose number has the eight that follow.
pub(crate) const BINBYTES8: u8 = 0x8E;
/// Makes a double, of eight bytes with the highest first.
pub(crate) const BINFLOAT: u8 = b'G';
/// Makes a number of one byte.
pub(crate) const BININT1: u8 = b'K';
/// Makes a signed number of four bytes.
pub(crate) const BININT: u8 = b'J';
/// Makes a signed number of as many bytes as the next one tells.
pub(crate) const LONG1: u8 = 0x8A;
/// Makes true.
pub(crate) const NEWTRUE: u8 = 0x88;
/// Makes false.
pub(crate) const NEWFALSE: u8 = 0x89;
/// Makes None.
pub(crate) const NONE: u8 = b'N';
