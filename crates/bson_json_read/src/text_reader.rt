//! Reads documents from an input of several texts, which may come in pieces.

ghost use Rattle.std.specs.Prelude.{◌≡◌, ◌≢◌, ◌⊎◌, ◌+◌, ◌<◌, ◌≤◌, ◌++◌, [], IfErr, IfOk, IfSome};
ghost use Rattle.std.specs.Prelude.{Bool, List, None, Ok, OnErr, OnOk, Some, drop, false, length};
ghost use Rattle.std.specs.Prelude.{take, true, vec_len, ℕ};
ghost use Rattle.bson_json_read.specs.Extents.{HasPassed};
ghost use Rattle.bson_json_read.specs.Frames.{behind_text};
ghost use Rattle.bson_json_read.specs.Pieces.{EndsBetween, EndsIn, IsBegun, IsOpen, MayFollow};
ghost use Rattle.bson_json_read.specs.Pieces.{MovesBy, StandsBehind};
ghost use Rattle.bson_json_read.specs.Places.{place_behind};
ghost use Rattle.bson_json_read.specs.Sequences.{Fails, GivesBytes, IsWritten, fault_here};
ghost use Rattle.bson_json_read.specs.Sequences.{next_in, nothing, utf8_read};
ghost use Rattle.bson_json_read.specs.Values.{Pair};

use crate::extent::{Scan, Scanned, line_len, scan_on};
use crate::fault::Cause;
use crate::frame::Frame;
use crate::place::Place;
use crate::seek::{Sought, seek};
use crate::seen::Seen;
use crate::text_bytes::{write_direct, write_document};
use crate::texts::{NextBytes, TextFault};
use json::Scratch;
use std::alloc::{AllocError, Global};
use std::marker::Model;

/// A text that begins in the held bytes, and whose end wasn't found yet.
#[derive(Clone, Copy)]
pub(crate) struct Begun {
    /// Where reading stands before it.
    frame: Frame,
    /// How many of the held bytes stand before it.
    passed: usize,
    /// How far it was scanned for its end.
    scan: Scan,
}

/// Reads the documents of an input, one after another. The input is Extended JSON texts that are
/// objects, with white space between them, or one JSON array whose items they are. It may come in
/// pieces.
///
/// A text begins with a brace and ends with the brace that closes that one, so that a fault inside it
/// leaves those before it read.
///
/// It holds the bytes that were fed and aren't read yet: those of the text that isn't whole, and what
/// of a piece is behind others. Contracts see them, where reading stands before them, and their line
/// and column.
#[derive(Drop)]
pub struct TextReader {
    /// Some bytes that were read, and the held ones.
    bytes: Vec<u8>,
    /// How many were read.
    at: usize,
    /// The offset of the first of all these in the input.
    start: usize,
    /// The line and the column of the first of all these.
    place: Place,
    /// Where reading stands before the held ones.
    frame: Frame,
    /// The text that is next, if it begins in the held bytes and wasn't whole in the last call.
    begun: Option<Begun>,
    scratch: Scratch,
    seen: Seen,
}

impl Model for TextReader {
    ghost use Rattle.std.specs.Prelude.{◌+◌, ◌<◌, ◌≤◌, ◌^◌, IfSome, drop, length, take};
    ghost use Rattle.bson_json_read.specs.Pieces.{Held, IsBegun};
    ghost use Rattle.bson_json_read.specs.Places.{place_behind};

    ghost Value = { Held };

    ghost view = { λ s. record {
      frame = s.frame;
      place = place_behind s.place.line s.place.column (take s.at s.bytes.items);
      bytes = drop s.at s.bytes.items;
    } };

    ghost invariant = { λ s. record {
      within : s.at ≤ length s.bytes.items;
      offset : s.start + length s.bytes.items + 1 < 2 ^ 64;
      lines : s.place.line ≤ s.start + 1;
      columns : s.place.column ≤ s.start + 1;
      begun : IfSome s.begun (IsBegun s.frame (drop s.at s.bytes.items));
    } };
}

/// Removes the first `count` bytes.
fn remove_front(bytes: &mut Vec<u8>, count: usize)
    requires { count ≤ vec_len bytes.old }
    ensures { bytes.new.items ≡ drop count bytes.old.items }
{
    let len = bytes.len();
    bytes.as_mut_slice().copy_within(count..len, 0);
    bytes.truncate(len - count);
}

/// Returns true if a text of so many bytes may end in the held ones, behind which nothing follows if
/// `last` is true: else more of it may follow the last one.
fn may_end(len: usize, held: usize, last: bool) -> bool
    ensures { result ≡ true → len ≡ held → last ≡ true }
{
    last || len < held
}

impl TextReader {
    /// Makes a reader that holds nothing, before all texts.
    pub fn new(alloc: Global) -> TextReader
        ensures { result ≡ record { frame = Frame.Start; place = (1, 1); bytes = [] } }
    {
        TextReader {
            bytes: Vec::new(alloc),
            at: 0,
            start: 0,
            place: Place::FIRST,
            frame: Frame::Start,
            begun: None,
            scratch: Scratch::new(alloc),
            seen: Seen::new(alloc),
        }
    }

    /// Lets go of the bytes that were read.
    fn let_go(&mut self)
        ensures same { self.new ≡ self.old }
    {
        self.place = self.place.behind(&self.bytes[..self.at]);
        self.start += self.at;
        remove_front(&mut self.bytes, self.at);
        self.at = 0;
    }

    /// Takes all of `piece`, behind what is held.
    ///
    /// # Errors
    ///
    /// Returns `AllocError` if memory runs out, or where the input would have 2^64 - 1 bytes or more.
    /// Nothing is taken then, and nothing changes.
    pub fn feed(&mut self, piece: &[u8]) -> Result<(), AllocError>
        ensures fed { OnOk result (self.new
            ≡ record self.old { bytes = self.old.bytes ++ piece.now }) }
        ensures unchanged { OnErr result (self.new ≡ self.old) }
    {
        self.let_go();
        if piece.len() >= usize::MAX - 1 - (self.start + self.bytes.len()) {
            return Err(AllocError);
        }
        self.bytes.extend_from_slice(piece)
    }

    /// Returns the fault of this cause at an offset of the held bytes.
    fn fault(&self, cause: Cause, offset: usize) -> TextFault
        requires { offset ≤ length self.now.bytes }
        ensures cause { result.cause ≡ cause }
        ensures place { StandsBehind self.now result.place }
    {
        TextFault {
            cause,
            place: self.place.behind(&self.bytes[..self.at + offset]),
        }
    }

    /// Returns the text that is next, if it begins in the held bytes. `last` says that nothing follows
    /// these.
    fn find(&self, last: bool) -> Result<Option<Begun>, TextFault>
        ensures begun { IfOk result (λ found.
            IfSome found (IsBegun self.now.frame self.now.bytes)) }
        ensures ended { result ≡ Ok None → last ≡ true
            → next_in self.now.frame self.now.bytes ≡ nothing }
        ensures open { result ≡ Ok None → EndsBetween self.now.frame self.now.bytes }
        ensures err { IfErr result (λ e. (more : List ℕ) → MayFollow last more
            → next_in self.now.frame (self.now.bytes ++ more) ≡ fault_here e.cause) }
        ensures place { IfErr result (λ e. StandsBehind self.now e.place) }
    {
        if self.begun.is_some() {
            return Ok(self.begun);
        }
        let held = &self.bytes[self.at..];
        let (passed, sought) = seek(self.frame, held);
        match sought {
            Sought::Text(frame) => Ok(Some(Begun {
                frame,
                passed,
                scan: Scan::new(),
            })),
            Sought::Fault(cause) if last || passed < held.len() => Err(self.fault(cause, passed)),
            Sought::Fault(_) => Ok(None),
            Sought::Nothing => Ok(None),
        }
    }

    /// Returns true if the text begins a line, or the input.
    fn begins_line(&self, begun: Begun) -> bool
        requires { begun.passed ≤ length self.now.bytes }
    {
        let before = &self.bytes[self.at..self.at + begun.passed];
        self.start + self.at == 0 || before.contains(&b'\n')
    }

    /// Puts the bytes of the document of a text into `out`, in place of what that holds, if the text
    /// begins a line and ends with the last brace of it, and if its JSON is written directly. Returns
    /// how many bytes the text has then. Else nothing is said of `out`.
    ///
    /// So the end of a text isn't sought where each has a line. A line is tried once, when its end came.
    fn write_line(
        &mut self,
        alloc: Global,
        begun: Begun,
        last: bool,
        out: &mut Vec<u8>,
    ) -> Option<usize>
        requires { IsBegun self.old.frame self.old.bytes begun }
        ensures ends { IfSome result (EndsIn last (drop begun.passed self.old.bytes)) }
        ensures written { IfSome result (λ n. (d : List Pair)
            × (utf8_read (take n (drop begun.passed self.old.bytes)) ≡ Ok d)
            × IsWritten d None out.new.items) }
        ensures kept { self.new ≡ self.old }
    {
        if !self.begins_line(begun) {
            return None;
        }
        let text = &self.bytes[self.at + begun.passed..];
        let len = line_len(text, begun.scan.passed(), last);
        if len == 0 || !may_end(len, text.len(), last) {
            return None;
        }
        if !write_direct(alloc, &text[..len], &mut self.scratch, &mut self.seen, out) {
            return None;
        }
        Some(len)
    }

    /// Returns how many bytes the text has, or how far it was scanned if its end isn't held. `last` says
    /// that nothing follows the held bytes.
    fn whole_len(&self, begun: Begun, last: bool) -> Result<usize, Scan>
        requires { IsBegun self.now.frame self.now.bytes begun }
        ensures ends { IfOk result (EndsIn last (drop begun.passed self.now.bytes)) }
        ensures open { IfErr result (λ scan. (last ≡ false)
            × HasPassed scan (drop begun.passed self.now.bytes)
            × (scan.len ≡ length (drop begun.passed self.now.bytes))) }
    {
        let text = &self.bytes[self.at + begun.passed..];
        match scan_on(begun.scan, text) {
            Scanned::Closed(len) => Ok(len),
            Scanned::Open(_) if last => Ok(text.len()),
            Scanned::Open(scan) => Err(scan),
        }
    }

    /// Moves behind the text, which has so many bytes.
    fn pass(&mut self, begun: Begun, len: usize)
        requires { begun.passed + len ≤ length self.old.bytes }
        ensures moved { MovesBy (begun.passed + len) self.old self.new }
        ensures frame { self.new.frame ≡ behind_text begun.frame }
    {
        self.at += begun.passed;
        self.at += len;
        self.frame = begun.frame.behind_text();
        self.begun = None;
    }

    /// Puts the bytes of the document of the text, which has so many bytes, into `out`, in place of what
    /// that holds, and moves behind it.
    fn write_whole(
        &mut self,
        alloc: Global,
        begun: Begun,
        len: usize,
        out: &mut Vec<u8>,
    ) -> Result<NextBytes, TextFault>
        requires begun { IsBegun self.old.frame self.old.bytes begun }
        requires len { begun.passed + len ≤ length self.old.bytes }
        ensures ok { IfOk result (λ read. (last : Bool)
            → EndsIn last (drop begun.passed self.old.bytes) len → (more : List ℕ)
            → MayFollow last more
            → GivesBytes (next_in self.old.frame (self.old.bytes ++ more)) read out.new.items
            (record { frame = self.new.frame; rest = self.new.bytes ++ more })) }
        ensures some { IfOk result (λ read. read ≢ NextBytes.AtEnd) }
        ensures err { IfErr result (λ e. (e.cause ≡ Cause.OutOfMemory) ⊎ ((last : Bool)
            → EndsIn last (drop begun.passed self.old.bytes) len → (more : List ℕ)
            → MayFollow last more
            → Fails (next_in self.old.frame (self.old.bytes ++ more)) e.cause)) }
        ensures moved { OnOk result (MovesBy (begun.passed + len) self.old self.new) }
        ensures place { IfErr result (λ e. StandsBehind self.old e.place) }
        ensures unchanged { OnErr result (self.new ≡ self.old) }
    {
        let text = &self.bytes[self.at + begun.passed..][..len];
        match write_document(alloc, text, &mut self.scratch, &mut self.seen, out) {
            Ok(refusal) => {
                self.pass(begun, len);
                match refusal {
                    None => Ok(NextBytes::Document),
                    Some(refusal) => Ok(NextBytes::Refused(refusal)),
                }
            }
            Err(fault) => Err(self.fault(fault.cause, begun.passed + fault.offset)),
        }
    }

    /// Reads the next document, if its text is whole in the held bytes, and puts its bytes into `out`,
    /// in place of what that holds. `last` says that nothing follows the held bytes. Returns `None` if
    /// more bytes are wanted, which is only where some may follow.
    ///
    /// # Errors
    ///
    /// Returns the first fault of what is next, or `OutOfMemory` if memory is refused. Then nothing
    /// was read, and it is what is next again. Nothing is said of `out`.
    pub fn next_bytes(
        &mut self,
        alloc: Global,
        last: bool,
        out: &mut Vec<u8>,
    ) -> Result<Option<NextBytes>, TextFault>
        ensures ok { IfOk result (λ found. IfSome found (λ read. (more : List ℕ)
            → MayFollow last more
            → GivesBytes (next_in self.old.frame (self.old.bytes ++ more)) read out.new.items
            (record { frame = self.new.frame; rest = self.new.bytes ++ more }))) }
        ensures ended { result ≡ Ok (Some NextBytes.AtEnd)
            → (last ≡ true) × (self.new ≡ self.old) }
        ensures at_end { last ≡ true → next_in self.old.frame self.old.bytes ≡ nothing
            → result ≡ Ok (Some NextBytes.AtEnd) }
        ensures open { result ≡ Ok None → (last ≡ false) × (self.new ≡ self.old)
            × IsOpen self.old.frame self.old.bytes }
        ensures err { IfErr result (λ e. (e.cause ≡ Cause.OutOfMemory) ⊎ ((more : List ℕ)
            → MayFollow last more
            → Fails (next_in self.old.frame (self.old.bytes ++ more)) e.cause)) }
        ensures moved { OnOk result ((n : ℕ) × MovesBy n self.old self.new) }
        ensures shorter { IfOk result (λ found. IfSome found (λ read. read ≢ NextBytes.AtEnd
            → length self.new.bytes < length self.old.bytes)) }
        ensures place { IfErr result (λ e. StandsBehind self.old e.place) }
        ensures unchanged { OnErr result (self.new ≡ self.old) }
    {
        let Some(begun) = self.find(last)? else {
            return Ok(if last { Some(NextBytes::AtEnd) } else { None });
        };
        if let Some(len) = self.write_line(alloc, begun, last, out) {
            self.pass(begun, len);
            return Ok(Some(NextBytes::Document));
        }
        match self.whole_len(begun, last) {
            Ok(len) => {
                let read = self.write_whole(alloc, begun, len, out)?;
                Ok(Some(read))
            }
            Err(scan) => {
                self.begun = Some(Begun { scan, ..begun });
                Ok(None)
            }
        }
    }
}
