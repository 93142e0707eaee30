//! The bytes that came over a link, and how many of them may be given.

ghost use Rattle.std.specs.Prelude.{◌≡◌, ◌≢◌, ◌≤◌, ◌<◌, ◌+◌, ◌-◌, ◌++◌, ◌↔◌, [], ℕ, List, IfErr};
ghost use Rattle.std.specs.Prelude.{IfOk, IfSome, IsSomeAnd, IsTrue, OnErr, OnOk, false, length};
ghost use Rattle.std.specs.Prelude.{nat_lt, take, true};
ghost use Rattle.std.specs.Io.KnownBytes.{Appends, Keeps};
ghost use Rattle.wire_frames.specs.{frame_bytes};
ghost use Rattle.wire_stream.specs.{bytes_moved};
ghost use Rattle.proxy.specs.HeldParts.{AreParts};

use std::alloc::{AllocError, Global};
use std::io::ErrorKind;
use wire_frames::{FrameFront, RawFrame};
use wire_msg::MAX_MESSAGE_LEN;
use wire_stream::{Link, LinkFault, Moved};

/// The most bytes that are received at once where messages are held.
const ROOM: usize = 65_536;

/// How a link stands with its messages.
#[derive(Clone, Copy)]
pub(crate) enum Standing {
    /// Bytes are given as they come.
    Free,
    /// The bytes of a message are gathered.
    Gathers,
    /// A message is whole, and it wasn't said yet what becomes of it.
    Whole,
}

/// The bytes that came over a link, and how many of them may be given.
#[derive(Drop)]
pub(crate) struct Held<L> {
    pub(crate) link: L,
    /// What came, from the first byte on that wasn't forgotten.
    bytes: Vec<u8>,
    /// Room for a piece. It is empty where messages aren't held.
    piece: Vec<u8>,
    /// How many of the bytes were given.
    start: usize,
    /// How many of the bytes may be given: all up to the message that is held.
    may: usize,
    standing: Standing,
    /// Nothing was ever held or put, so bytes are given as they come.
    plain: bool,
    /// The last call gave nothing, or more may be given since, so more may be done at once.
    pub(crate) again: bool,
    /// How many bytes were given in all.
    pub(crate) given: u64,
    /// How many more may be given. Behind them is the end.
    pub(crate) left: u64,
    ghost parts: { AreParts bytes.items start may standing plain },
}

impl<L: Link + Drop> Held<L> {
    ghost use Rattle.proxy.specs.Holding.{Cuts, Flows, Frees, Gives, HoldMoves, Holds, Passes};
    ghost use Rattle.proxy.specs.Holding.{Pulls, Puts, Skips, new_view, shown, view_of};

    /// Makes what gives bytes as they come, but at most `left`.
    pub(crate) fn new(alloc: Global, link: L, left: u64) -> Held<L>
        ensures view { view_of result ≡ new_view link left }
        ensures plain { result.plain ≡ true }
        ensures again { result.again ≡ false }
        ensures given { result.given ≡ 0 }
    {
        Held {
            link,
            bytes: Vec::new(alloc),
            piece: Vec::new(alloc),
            start: 0,
            may: 0,
            standing: Standing::Free,
            plain: true,
            again: false,
            given: 0,
            left,
        }
    }

    /// Holds each message from now on.
    pub(crate) fn hold(&mut self, alloc: Global) -> Result<(), AllocError>
        ensures view { view_of self.new ≡ view_of self.old }
    {
        self.piece = vec![in alloc; 0u8; ROOM]?;
        self.standing = Standing::Gathers;
        self.plain = false;
        Ok(())
    }

    /// Counts bytes that were given.
    fn count(&mut self, n: usize)
        requires { n ≤ self.old.left }
        ensures link { self.new.link ≡ self.old.link }
        ensures bytes { self.new.bytes ≡ self.old.bytes }
        ensures piece { self.new.piece ≡ self.old.piece }
        ensures start { self.new.start ≡ self.old.start }
        ensures may { self.new.may ≡ self.old.may }
        ensures standing { self.new.standing ≡ self.old.standing }
        ensures plain { self.new.plain ≡ self.old.plain }
        ensures left { self.new.left ≡ self.old.left - n }
    {
        self.given = self.given.saturating_add(n as u64);
        self.left -= n as u64;
    }

    /// Gives bytes that may be given. Returns how many.
    fn give(&mut self, buffer: &mut [u8]) -> usize
        requires { length buffer.old ≤ self.old.left }
        ensures within { result ≤ length buffer.old }
        ensures gives { HoldMoves L.received (Gives (take result buffer.new))
            (view_of self.old) (view_of self.new) }
        ensures plain { self.new.plain ≡ self.old.plain }
        ensures link { self.new.link ≡ self.old.link }
    {
        let n = (self.may - self.start).min(buffer.len());
        buffer[..n].copy_from_slice(&self.bytes[self.start..self.start + n]);
        self.start += n;
        self.count(n);
        n
    }

    /// Gives bytes as they come.
    fn receive(&mut self, buffer: &mut [u8]) -> Result<Moved, LinkFault>
        requires room { length buffer.old ≤ self.old.left }
        requires free { self.old.standing ≡ Standing.Free }
        requires given { self.old.start ≡ self.old.may }
        ensures within { IfOk result (λ moved. bytes_moved moved ≤ length buffer.old) }
        ensures flows { IfOk result (λ moved. HoldMoves L.received
            (Flows (take (bytes_moved moved) buffer.new)) (view_of self.old) (view_of self.new)) }
        ensures plain { self.new.plain ≡ self.old.plain }
        ensures received { OnErr result
            (Keeps (L.received self.old.link) (L.received self.new.link)) }
        ensures sent { Keeps (L.sent self.old.link) (L.sent self.new.link) }
        ensures never { IfErr result (λ fault. fault.kind ≢ ErrorKind.WouldBlock) }
    {
        let moved = self.link.recv(buffer)?;
        if let Moved::Bytes(n) = moved {
            self.count(n);
        }
        Ok(moved)
    }

    /// Gives bytes as they come from now on, and those that are held first.
    fn free(&mut self)
        requires { self.old.plain ≡ false }
        ensures frees { HoldMoves L.received (Frees (view_of self.old).rest)
            (view_of self.old) (view_of self.new) }
        ensures plain { self.new.plain ≡ self.old.plain }
        ensures link { self.new.link ≡ self.old.link }
    {
        self.standing = Standing::Free;
        self.may = self.bytes.len();
        self.again = true;
    }

    /// Forgets the bytes that were given.
    fn forget(&mut self)
        requires given { self.old.start ≡ self.old.may }
        requires held { self.old.standing ≢ Standing.Free }
        ensures view { view_of self.new ≡ view_of self.old }
        ensures plain { self.new.plain ≡ self.old.plain }
        ensures standing { self.new.standing ≡ self.old.standing }
    {
        let _ = self.bytes.drain(..self.may);
        self.start = 0;
        self.may = 0;
    }

    /// Appends the first `n` bytes of the piece, which came.
    fn append_piece(&mut self, n: usize) -> Result<(), LinkFault>
        requires within { n ≤ length self.old.piece.items }
        requires held { self.old.standing ≢ Standing.Free }
        requires plain { self.old.plain ≡ false }
        ensures owed { (view_of self.new).owed ≡ (view_of self.old).owed }
        ensures rest { OnOk result ((view_of self.new).rest
            ≡ (view_of self.old).rest ++ take n self.old.piece.items) }
        ensures left { self.new.left ≡ self.old.left }
        ensures plain { self.new.plain ≡ self.old.plain }
        ensures link { self.new.link ≡ self.old.link }
        ensures never { IfErr result (λ fault. fault.kind ≢ ErrorKind.WouldBlock) }
    {
        self.again = true;
        match self.bytes.extend_from_slice(&self.piece[..n]) {
            Ok(()) => Ok(()),
            Err(_) => Err(LinkFault {
                kind: ErrorKind::OutOfMemory,
            }),
        }
    }

    /// Receives a piece. At the end of the link, the bytes of a message that isn't whole are given
    /// from then on.
    fn gather(&mut self) -> Result<(), LinkFault>
        requires given { self.old.start ≡ self.old.may }
        requires held { self.old.standing ≢ Standing.Free }
        requires plain { self.old.plain ≡ false }
        ensures pulls { OnOk result (Pulls L.received [] (view_of self.old) (view_of self.new)) }
        ensures plain { self.new.plain ≡ self.old.plain }
        ensures sent { Keeps (L.sent self.old.link) (L.sent self.new.link) }
        ensures never { IfErr result (λ fault. fault.kind ≢ ErrorKind.WouldBlock) }
    {
        self.forget();
        match self.link.recv(&mut self.piece)? {
            Moved::Later => Ok(()),
            Moved::Bytes(0) => {
                self.free();
                Ok(())
            }
            Moved::Bytes(n) => self.append_piece(n),
        }
    }

    /// Receives a piece, unless a message is whole or none begins with what came.
    fn advance(&mut self) -> Result<(), LinkFault>
        requires given { self.old.start ≡ self.old.may }
        requires held { self.old.standing ≢ Standing.Free }
        requires plain { self.old.plain ≡ false }
        ensures pulls { OnOk result (Pulls L.received [] (view_of self.old) (view_of self.new)) }
        ensures plain { self.new.plain ≡ self.old.plain }
        ensures sent { Keeps (L.sent self.old.link) (L.sent self.new.link) }
        ensures never { IfErr result (λ fault. fault.kind ≢ ErrorKind.WouldBlock) }
    {
        match RawFrame::front(&self.bytes[self.may..], MAX_MESSAGE_LEN) {
            FrameFront::Open { .. } => return self.gather(),
            FrameFront::Whole { .. } => self.standing = Standing::Whole,
            FrameFront::Bad(_) => self.free(),
        }
        Ok(())
    }

    /// Gives bytes that may be given, or receives a piece and gives nothing.
    pub(crate) fn pull(&mut self, buffer: &mut [u8]) -> Result<Moved, LinkFault>
        ensures within { IfOk result (λ moved. bytes_moved moved ≤ length buffer.old) }
        ensures pulls { IfOk result (λ moved. Pulls L.received (take (bytes_moved moved) buffer.new)
            (view_of self.old) (view_of self.new)) }
        ensures shown { IfOk result (λ moved. Appends (shown L.received self.old)
            (shown L.received self.new) (take (bytes_moved moved) buffer.new)) }
        ensures none_shown { OnErr result
            (Keeps (shown L.received self.old) (shown L.received self.new)) }
        ensures sent { Keeps (L.sent self.old.link) (L.sent self.new.link) }
        ensures never { IfErr result (λ fault. fault.kind ≢ ErrorKind.WouldBlock) }
    {
        self.again = false;
        let room = buffer.len().min(self.left as usize);
        if room == 0 {
            return Ok(Moved::Bytes(0));
        }
        if self.start < self.may {
            return Ok(Moved::Bytes(self.give(&mut buffer[..room])));
        }
        match self.standing {
            Standing::Free => self.receive(&mut buffer[..room]),
            Standing::Gathers => {
                self.advance()?;
                Ok(Moved::Later)
            }
            Standing::Whole => Ok(Moved::Later),
        }
    }

    /// Sends bytes over the link.
    pub(crate) fn send(&mut self, bytes: &[u8]) -> Result<Moved, LinkFault>
        ensures within { IfOk result (λ moved. bytes_moved moved ≤ length bytes.now) }
        ensures some { 0 < length bytes.now → IfOk result (λ moved. moved ≢ Moved.Bytes 0) }
        ensures sent { IfOk result (λ moved. Appends (L.sent self.old.link) (L.sent self.new.link)
            (take (bytes_moved moved) bytes.now)) }
        ensures none_sent { OnErr result (Keeps (L.sent self.old.link) (L.sent self.new.link)) }
        ensures shown { Keeps (shown L.received self.old) (shown L.received self.new) }
        ensures never { IfErr result (λ fault. fault.kind ≢ ErrorKind.WouldBlock) }
    {
        self.link.send(bytes)
    }

    /// Returns the message that is held, if one is and it wasn't said yet what becomes of it.
    pub(crate) fn message(&self) -> Option<RawFrame<'_>>
        ensures held { IfSome result (λ frame. Holds self.now (frame_bytes frame)) }
        ensures all { (message : List ℕ) → Holds self.now message
            → IsSomeAnd result (λ frame. frame_bytes frame ≡ message) }
    {
        match self.standing {
            Standing::Free | Standing::Gathers => None,
            Standing::Whole => match RawFrame::front(&self.bytes[self.may..], MAX_MESSAGE_LEN) {
                FrameFront::Whole { frame, .. } => Some(frame),
                FrameFront::Open { .. } | FrameFront::Bad(_) => None,
            },
        }
    }

    /// Returns the number of bytes of the message that is held, or 0 if none is.
    fn size(&self) -> usize
        ensures held { (message : List ℕ) → Holds self.now message → result ≡ length message }
        ensures none { self.now.standing ≢ Standing.Whole → result ≡ 0 }
        ensures within { self.now.may + result ≤ length self.now.bytes.items }
    {
        match self.message() {
            Some(frame) => frame.as_bytes().len(),
            None => 0,
        }
    }

    /// Gives the message that is held.
    pub(crate) fn pass(&mut self)
        ensures passes { (message : List ℕ) → Holds self.old message
            → HoldMoves L.received (Passes message) (view_of self.old) (view_of self.new) }
        ensures none { self.old.standing ≢ Standing.Whole
            → view_of self.new ≡ view_of self.old }
    {
        self.may += self.size();
        if let Standing::Whole = self.standing {
            self.standing = Standing::Gathers;
        }
        self.again = true;
    }

    /// Gives at most the first `count` bytes of the message that is held, behind those that may be
    /// given, and then tells the end.
    pub(crate) fn cut(&mut self, count: u64)
        ensures { (message : List ℕ) → Holds self.old message
            → HoldMoves L.received (Cuts message count) (view_of self.old) (view_of self.new) }
    {
        let most = (self.may - self.start) as u64 + count.min(self.size() as u64);
        self.pass();
        self.left = self.left.min(most);
    }

    /// Lets go of the message that is held, and gives none of its bytes.
    pub(crate) fn skip(&mut self)
        ensures skips { (message : List ℕ) → Holds self.old message
            → HoldMoves L.received (Skips message) (view_of self.old) (view_of self.new) }
        ensures none { self.old.standing ≢ Standing.Whole
            → view_of self.new ≡ view_of self.old }
    {
        let end = self.may + self.size();
        let _ = self.bytes.drain(self.may..end);
        if let Standing::Whole = self.standing {
            self.standing = Standing::Gathers;
        }
        self.again = true;
    }

    /// Gives these bytes before what is held.
    pub(crate) fn put(&mut self, bytes: &[u8]) -> Result<(), AllocError>
        ensures { OnOk result
            (HoldMoves L.received (Puts bytes.now) (view_of self.old) (view_of self.new)) }
    {
        self.plain = false;
        let behind = self.bytes.split_off(self.may)?;
        self.append(bytes, &behind)
    }

    /// Appends bytes that may be given, and those behind them.
    fn append(&mut self, bytes: &[u8], behind: &[u8]) -> Result<(), AllocError>
        requires plain { self.old.plain ≡ false }
        requires may { self.old.may ≡ length self.old.bytes.items }
        requires all { self.old.standing ≡ Standing.Free → behind.now ≡ [] }
        ensures owed { OnOk result
            ((view_of self.new).owed ≡ (view_of self.old).owed ++ bytes.now) }
        ensures rest { OnOk result ((view_of self.new).rest ≡ behind.now) }
        ensures left { self.new.left ≡ self.old.left }
        ensures link { self.new.link ≡ self.old.link }
    {
        self.bytes.extend_from_slice(bytes)?;
        self.may = self.bytes.len();
        self.again = true;
        self.bytes.extend_from_slice(behind)
    }

    /// Returns true if bytes that may be given weren't yet.
    pub(crate) fn owes(&self) -> bool
        ensures owed { IsTrue result ↔ ((view_of self.now).owed ≢ []) }
        ensures exact { result ≡ nat_lt self.now.start self.now.may }
    {
        self.start < self.may
    }
}
