//! What a command makes of documents or messages whose bytes come in pieces.

ghost use Rattle.std.specs.Prelude.{[], ◌++◌, IfOk, List, OnOk, Option, ℕ};
ghost use Rattle.std.specs.Io.KnownBytes.{Appends};
ghost use Rattle.command_run.specs.{is_there, or_nothing};
ghost use Rattle.file_commands.specs.InputFault.{line_of};
ghost use Rattle.file_commands.specs.Walk.{IsBetween, Tells, Walks};

use crate::input_fault::InputFault;
use std::alloc::Global;
use std::io;
use std::io::Write;

/// Why no more documents or messages are read.
#[derive(Clone, Copy)]
pub enum Stop {
    /// The input has this fault, whatever follows the piece.
    Fault(InputFault),
    /// Memory ran out.
    OutOfMemory,
}

/// Goes over an input piece by piece, and writes a text for each document or message.
pub trait Walk {
    /// Holds what isn't whole yet.
    type Reader: Drop;

    // What is told of bytes, and of the texts that were written for them.
    ghost tells: { Self → Tells Self.Reader };

    /// Makes a reader of an input. It takes no memory.
    fn start(&self, alloc: Global) -> Self::Reader
        ensures { IsBetween (tells self.now) result [] [] };

    /// Goes over `piece`, behind what `reader` holds, and writes the text of each document or
    /// message that becomes whole. Returns why no more are read, if none are: then the reader stands
    /// where that is. Errs if the writer does.
    fn write_piece<W: Write>(
        &self,
        reader: &mut Self::Reader,
        piece: &[u8],
        out: &mut W,
    ) -> io::Result<Option<Stop>>
        requires { (read : List ℕ) × (texts : List ℕ)
            × IsBetween (tells self.now) reader.old read texts }
        ensures { (read texts : List ℕ) → IsBetween (tells self.now) reader.old read texts
            → IfOk result (λ stop. Walks (tells self.now) reader.new (read ++ piece.now) texts stop
            (W.contents out.old) (W.contents out.new)) };

    /// Returns the fault of an input that ends where `reader` stands, if it has one.
    fn fault_at_end(&self, reader: &Self::Reader) -> Option<InputFault>
        ensures { (read texts : List ℕ) → IsBetween (tells self.now) reader.now read texts
            → Tells.ends (tells self.now) reader.now read texts (line_of result) };

    /// Writes what follows the texts of an input that ends, or is at fault, where `reader` stands.
    fn write_closing<W: Write>(&self, reader: &Self::Reader, out: &mut W) -> io::Result<()>
        ensures { (bytes texts : List ℕ) (last : Option (List ℕ))
            → Tells.ends (tells self.now) reader.now bytes texts last
            → OnOk result ((closing : List ℕ)
            × Tells.whole (tells self.now) bytes (texts ++ (closing ++ or_nothing last))
            (is_there last) × Appends (W.contents out.old) (W.contents out.new) closing) };
}
