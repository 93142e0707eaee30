//! Reads the numbers at the front of a message, whether the message is good or not.

ghost use Rattle.std.specs.Prelude.{◌≡◌, ◌≤◌, ◌+◌, length};
ghost use Rattle.wire_msg.specs.{header_of};
ghost use Rattle.byte_views.specs.Headers.{count_of, front_numbers, header_shown, number_or_0};

use bson_elem::little_u32;

/// The numbers at the front of a message: those of its header, and flagBits.
#[derive(Clone, Copy)]
#[repr(C)]
pub struct FrontNumbers {
    /// How many of the five numbers the bytes have. The others are 0.
    pub count: u32,
    /// messageLength, as an unsigned number.
    pub length: u32,
    /// requestID.
    pub id: i32,
    /// responseTo.
    pub response_to: i32,
    /// opCode.
    pub opcode: i32,
    /// flagBits.
    pub flag_bits: u32,
}

/// Returns the unsigned number in the four bytes at offset `at`, or 0 if the bytes end before.
fn number_or_0(bytes: &[u8], at: usize) -> u32
    requires { at ≤ 16 }
    ensures { result ≡ number_or_0 bytes.now at }
{
    if bytes.len() < at + 4 {
        return 0;
    }
    little_u32(&bytes[at..at + 4])
}

/// Returns how many of the five numbers at the front the bytes have.
fn count_numbers(bytes: &[u8]) -> u32
    ensures { result ≡ count_of (length bytes.now) }
{
    match bytes.len() {
        0..=3 => 0,
        4..=7 => 1,
        8..=11 => 2,
        12..=15 => 3,
        16..=19 => 4,
        _ => 5,
    }
}

/// Like `front_numbers`, but doesn't say which of them are those of a header.
fn read_numbers(bytes: &[u8]) -> FrontNumbers
    ensures { result ≡ front_numbers bytes.now }
{
    FrontNumbers {
        count: count_numbers(bytes),
        length: number_or_0(bytes, 0),
        id: number_or_0(bytes, 4).cast_signed(),
        response_to: number_or_0(bytes, 8).cast_signed(),
        opcode: number_or_0(bytes, 12).cast_signed(),
        flag_bits: number_or_0(bytes, 16),
    }
}

/// Returns the numbers at the front of a message that `bytes` are or begin with. None of them is
/// checked.
pub fn front_numbers(bytes: &[u8]) -> FrontNumbers
    ensures numbers { result ≡ front_numbers bytes.now }
    ensures header { 16 ≤ length bytes.now → header_shown result ≡ header_of bytes.now }
{
    read_numbers(bytes)
}
