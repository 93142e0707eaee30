//! Computes CRC-32C, the checksum of an OP_MSG.

ghost use Rattle.std.specs.Prelude.{◌≡◌};
ghost use Rattle.wire_frames.specs.Crc32c.{castagnoli, crc32c_of, crc_byte, crc_step};

/// The polynomial 1EDC6F41 (Castagnoli), with its lowest power in the highest bit.
const POLYNOMIAL: u32 = 0x82F6_3B78;

/// Returns the register after one bit of it has left.
#[inline(always)]
fn step(register: u32) -> u32
    ensures { result ≡ crc_step register }
{
    let moved = register >> 1;
    if register & 1 == 1 {
        moved ^ POLYNOMIAL
    } else {
        moved
    }
}

/// Returns the register after a byte.
#[inline(always)]
fn add_byte(register: u32, byte: u8) -> u32
    ensures { result ≡ crc_byte register byte }
{
    let mut register = register ^ u32::from(byte);
    for _ in 0..8_u32 {
        register = step(register);
    }
    register
}

/// Returns the CRC-32C of `bytes`.
pub fn crc32c(bytes: &[u8]) -> u32
    ensures { result ≡ crc32c_of bytes.now }
{
    let mut register = u32::MAX;
    for byte in bytes {
        register = add_byte(register, *byte);
    }
    !register
}
