//! Hexadecimal text as an input, decoded as it comes.

ghost use Rattle.std.specs.Prelude.{[], ◌≡◌, ◌++◌, ◌+◌, ◌∷◌, ◌<◌, ◌^◌, IfErr, IfOk, IfSome};
ghost use Rattle.std.specs.Prelude.{List, OnOk, length, ℕ};
ghost use Rattle.std.specs.Io.KnownBytes.{Consumes, IsAtEnd};
ghost use Rattle.command_run.specs.{IsCutShort};
ghost use Rattle.file_commands.specs.Input.{IsDecoded, byte_behind, fault_of, half_behind};
ghost use Rattle.file_commands.specs.Input.{is_space};
ghost use Rattle.file_commands.specs.Input.{packed};

use crate::source::{PIECE, read_piece};
use command_run::RunEnd;
use std::alloc::{AllocError, Global};
use std::io::Read;

/// Returns true if `b` is a space, a tab, a line feed or a carriage return.
fn is_white_space(b: u8) -> bool
    ensures { result ≡ is_space b }
{
    matches!(b, b' ' | b'\t' | b'\n' | b'\r')
}

/// What hexadecimal text spells, as far as it came.
#[derive(Drop)]
pub struct HexText {
    /// The bytes that the digits spell, two each, up to the first byte of the text that is no digit.
    bytes: Vec<u8>,
    /// The value of the first digit of a byte, whose second one didn't come yet.
    high: Option<u8>,
    /// The number of bytes of the text, without white space.
    count: usize,
    /// The place among them of the first that is no digit.
    other: Option<usize>,
}

impl HexText {
    /// Makes the beginning of a text. It takes no memory.
    fn new(alloc: Global) -> HexText
        ensures { IsDecoded result [] }
    {
        HexText {
            bytes: Vec::new(alloc),
            high: None,
            count: 0,
            other: None,
        }
    }

    /// Takes the next digit, whose value this is. Errs if memory runs out.
    fn take_digit(&mut self, digit: u8) -> Result<(), AllocError>
        requires digit { digit < 16 }
        requires half { IfSome self.old.high (λ high. high < 16) }
        requires counted { self.old.count + 1 < 2 ^ 64 }
        ensures bytes { OnOk result (self.new.bytes.items
            ≡ self.old.bytes.items ++ byte_behind self.old.high digit) }
        ensures high { OnOk result (self.new.high ≡ half_behind self.old.high digit) }
        ensures count { OnOk result (self.new.count ≡ self.old.count + 1) }
        ensures other { self.new.other ≡ self.old.other }
    {
        match self.high {
            None => self.high = Some(digit),
            Some(high) => {
                self.bytes.push(high * 16 + digit)?;
                self.high = None;
            }
        }
        self.count += 1;
        Ok(())
    }

    /// Takes the next byte of the text, which is no white space. Errs if memory runs out.
    fn take(&mut self, b: u8) -> Result<(), AllocError>
        requires decoded { (text : List ℕ) × IsDecoded self.old text }
        requires counted { self.old.count + 1 < 2 ^ 64 }
        ensures decoded { (text : List ℕ) → IsDecoded self.old text
            → OnOk result (IsDecoded self.new (text ++ b ∷ [])) }
        ensures counted { OnOk result (self.new.count ≡ self.old.count + 1) }
    {
        if self.other.is_some() {
            self.count += 1;
            return Ok(());
        }
        let Some(digit) = char::from(b).to_digit(16) else {
            self.other = Some(self.count);
            self.count += 1;
            return Ok(());
        };
        self.take_digit(digit as u8)
    }

    /// Decodes a piece, which follows the text before it. Errs if memory runs out.
    fn decode(&mut self, piece: &[u8]) -> Result<(), AllocError>
        requires decoded { (text : List ℕ) × IsDecoded self.old (packed text) }
        requires counted { self.old.count + length piece.now < 2 ^ 64 }
        ensures { (text : List ℕ) → IsDecoded self.old (packed text)
            → OnOk result (IsDecoded self.new (packed (text ++ piece.now))) }
    {
        for byte in piece {
            if is_white_space(*byte) {
                continue;
            }
            self.take(*byte)?;
        }
        Ok(())
    }

    /// Returns the fault of the text if no more of it comes: the number of its bytes without white
    /// space if that is odd, else the place among them of the first that is no digit.
    pub fn fault(&self) -> Option<usize>
        ensures { (text : List ℕ) → IsDecoded self.now text → result ≡ fault_of text }
    {
        if self.count % 2 == 1 {
            Some(self.count)
        } else {
            self.other
        }
    }

    /// Returns the bytes that the text spells, if it has no fault.
    pub fn bytes(&self) -> &[u8]
        ensures { result.now ≡ self.now.bytes.items }
    {
        &self.bytes
    }
}

/// Reads an input to its end, as hexadecimal text. Errs with the end of the run if reading fails or
/// memory runs out.
///
/// The memory is one piece, and the bytes that the text spells, which take half its room.
pub fn read_hex<R: Read>(alloc: Global, reader: &mut R) -> Result<HexText, RunEnd>
    ensures text { IfOk result (λ hex. IfSome (R.remaining reader.old) (λ input.
        IsDecoded hex (packed input))) }
    ensures whole { OnOk result (IsAtEnd (R.remaining reader.new)) }
    ensures read { (read : List ℕ)
        × Consumes (R.remaining reader.old) (R.remaining reader.new) read }
    ensures stopped { IfErr result (λ end. IsCutShort end) }
{
    let mut hex = HexText::new(alloc);
    let mut room = Vec::new(alloc);
    let Ok(()) = room.resize(PIECE, 0) else {
        return Err(RunEnd::OutOfMemory);
    };
    for _ in 0..u64::MAX {
        let Some(n) = read_piece(hex.count, reader, room.as_mut_slice())? else {
            return Ok(hex);
        };
        let Ok(()) = hex.decode(&room[..n]) else {
            return Err(RunEnd::OutOfMemory);
        };
    }
    Err(RunEnd::Unread)
}
