//! Tells which answers differ.

ghost use Rattle.std.specs.Prelude.{◌≡◌, ◌≤◌, ◌⊎◌, [], List, OnErr, OnOk, drop, length, map, ℕ};
ghost use Rattle.std.specs.Io.KnownBytes.{Appends};
ghost use Rattle.bson_elem.specs.{Tree};
ghost use Rattle.bson_raw.specs.{DocumentSplit};
ghost use Rattle.wire_msg.specs.{IsMessage, Message, SpellsMsg};
ghost use Rattle.replay.specs.Carried.{IsCarried};
ghost use Rattle.replay.specs.Compared.{IsCompared};
ghost use Rattle.replay.specs.Notes.{AreNoted, IsNoted, NotesBoth};
ghost use Rattle.replay.specs.Counts.{AreCounted, HasCounted, IsCounted, one_more};
ghost use Rattle.replay.specs.Held.{IsReply};
ghost use Rattle.replay.specs.LastLines.{fault_line, last_lines};
ghost use Rattle.replay.specs.Same.{AreSameDocuments, AreSameMessages};

use crate::carrying::{carried, note_answer};
use crate::channel::Broken;
use crate::content::{are_same_answers, write_answer};
use crate::cursors::Cursors;
use crate::finding::Finding;
use crate::input_fault::InputFault;
use crate::tally::Tally;
use std::alloc::Global;
use std::io;
use std::io::Write;
use wire_msg::MAX_MESSAGE_LEN;

/// What stands before a recorded answer.
const RECORDED: &[u8] = b"- ";

/// What stands before one of the server.
const RECEIVED: &[u8] = b"+ ";

/// Compares answers, and writes which ones differ.
#[derive(Drop)]
pub struct Teller<'a, W: Write + Drop> {
    alloc: Global,
    /// The names of the fields that aren't compared.
    names: &'a [&'a str],
    out: W,
    tally: Tally,
}

impl<'a, W: Write + Drop> Teller<'a, W> {
    /// Begins to write to `out`. Takes no memory.
    pub fn new(alloc: Global, names: &'a [&'a str], out: W) -> Teller<'a, W>
        ensures tally { result.tally ≡ Tally.NONE }
        ensures names { result.names ≡ names.entry }
        ensures out { result.out ≡ out }
    {
        Teller {
            alloc,
            names,
            out,
            tally: Tally::NONE,
        }
    }

    /// Returns the counts of the answers so far.
    pub fn tally(&self) -> Tally
        ensures tally { result ≡ self.now.tally }
    {
        self.tally
    }

    /// Writes out what was told so far.
    ///
    /// # Errors
    ///
    /// Returns an error if writing fails.
    pub fn flush(&mut self) -> io::Result<()>
        ensures kept { self.new.tally ≡ self.old.tally }
        ensures names { self.new.names ≡ self.old.names }
    {
        self.out.flush()
    }

    /// Writes the line of an answer behind its sign.
    fn write_line(&mut self, sign: &[u8], bytes: &[u8]) -> io::Result<()>
        ensures kept { self.new.tally ≡ self.old.tally }
        ensures names { self.new.names ≡ self.old.names }
    {
        self.out.write_all(sign)?;
        write_answer(self.alloc, self.names, bytes, &mut self.out)?;
        self.out.write_all(b"\n")
    }

    /// Writes what became of the answer to this request, on the connection of this number.
    fn write_head(&mut self, number: u64, what: &str, request: u32) -> io::Result<()>
        ensures kept { self.new.tally ≡ self.old.tally }
        ensures names { self.new.names ≡ self.old.names }
    {
        writeln!(self.out, "{number} {what} id {}", request.cast_signed())
    }

    /// Tells what was found of an answer on the connection of this number, and counts it. Notes the
    /// id on the server of a cursor in an answer that was compared.
    ///
    /// # Errors
    ///
    /// Returns an error if writing fails or memory runs out.
    pub fn tell(&mut self, number: u64, finding: &Finding, cursors: &mut Cursors) -> io::Result<()>
        ensures counted { OnOk result (IsCounted finding.now self.old.tally self.new.tally) }
        ensures noted { OnOk result
            (IsNoted finding.now cursors.old.list.items cursors.new.list.items) }
        ensures names { self.new.names ≡ self.old.names }
    {
        match finding {
            Finding::Compare { recorded, received } => {
                let request = recorded.request;
                self.compare_carried(number, request, &recorded.bytes, &received.bytes, cursors)
            }
            Finding::Missing(recorded) => {
                self.tell_missing(number, recorded.request, &recorded.bytes)
            }
            Finding::Late(received) => self.tell_late(number, received.request, &received.bytes),
            Finding::Unexpected(received) => {
                self.tell_unexpected(number, received.request, &received.bytes)
            }
            Finding::Unrecorded(_) => {
                self.count_unrecorded();
                Ok(())
            }
            Finding::Failed(broken) => self.tell_failed(number, *broken),
        }
    }

    /// Tells what was found on the connection of this number, in order, and counts it. Notes the ids
    /// on the server of the cursors in it. Nothing is left of what was found.
    ///
    /// # Errors
    ///
    /// Returns an error if writing fails or memory runs out.
    pub fn tell_all(
        &mut self,
        number: u64,
        findings: &mut Vec<Finding>,
        cursors: &mut Cursors,
    ) -> io::Result<()>
        ensures counted { OnOk result
            (AreCounted findings.old.items self.old.tally self.new.tally) }
        ensures noted { OnOk result (AreNoted findings.old.items
            cursors.old.list.items cursors.new.list.items) }
        ensures told { OnOk result (findings.new.items ≡ []) }
        ensures names { self.new.names ≡ self.old.names }
    {
        for finding in findings.iter() {
            self.tell(number, finding, cursors)?;
        }
        findings.clear();
        Ok(())
    }

    /// Notes the id on the server of the cursor in a recorded answer, by the one that came in its
    /// place. Then compares that with the recorded one, in which the ids of cursors are those on the
    /// server, and tells that they differ if they do.
    fn compare_carried(
        &mut self,
        number: u64,
        request: u32,
        recorded: &[u8],
        received: &[u8],
        cursors: &mut Cursors,
    ) -> io::Result<()>
        ensures compared { OnOk result ((carried : List ℕ)
            × IsCarried cursors.new.list.items recorded.now carried
            × IsCompared (map (λ n. n.now) self.old.names.now) carried received.now
            self.old.tally self.new.tally) }
        ensures noted { OnOk result (NotesBoth recorded.now received.now
            cursors.old.list.items cursors.new.list.items) }
        ensures one { OnOk result ((self.new.tally
            ≡ record self.old.tally { same = one_more self.old.tally.same })
            ⊎ (self.new.tally
            ≡ record self.old.tally { different = one_more self.old.tally.different })) }
        ensures names { self.new.names ≡ self.old.names }
    {
        note_answer(cursors, recorded, received)?;
        let bytes = carried(self.alloc, cursors, recorded)?;
        self.compare(number, request, &bytes, received)
    }

    /// Compares the recorded answer to this request with the one that came, on the connection of
    /// this number, and tells that they differ if they do.
    ///
    /// # Errors
    ///
    /// Returns an error if writing fails or memory runs out.
    pub fn compare(
        &mut self,
        number: u64,
        request: u32,
        recorded: &[u8],
        received: &[u8],
    ) -> io::Result<()>
        ensures messages { (m n : Message) → SpellsMsg m recorded.now → SpellsMsg n received.now
            → length recorded.now ≤ MAX_MESSAGE_LEN → length received.now ≤ MAX_MESSAGE_LEN
            → OnOk result (HasCounted (AreSameMessages (map (λ n. n.now) self.old.names.now) m n)
            self.old.tally
            self.new.tally) }
        ensures other { ¬ IsMessage MAX_MESSAGE_LEN recorded.now
            → ¬ IsMessage MAX_MESSAGE_LEN received.now → ¬ IsReply recorded.now
            → ¬ IsReply received.now → OnOk result (HasCounted
            (drop 12 recorded.now ≡ drop 12 received.now)
            self.old.tally
            self.new.tally) }
        ensures replies { (ts us : List Tree) (rest other : List ℕ) → IsReply recorded.now
            → IsReply received.now → DocumentSplit (drop 36 recorded.now) ts rest
            → DocumentSplit (drop 36 received.now) us other → OnOk result (HasCounted
            (AreSameDocuments (map (λ n. n.now) self.old.names.now) ts us × (rest ≡ other))
            self.old.tally
            self.new.tally) }
        ensures recorded_alone { (m : Message) → SpellsMsg m recorded.now
            → length recorded.now ≤ MAX_MESSAGE_LEN → ¬ IsMessage MAX_MESSAGE_LEN received.now
            → OnOk result (self.new.tally
            ≡ record self.old.tally { different = one_more self.old.tally.different }) }
        ensures received_alone { (n : Message) → ¬ IsMessage MAX_MESSAGE_LEN recorded.now
            → SpellsMsg n received.now → length received.now ≤ MAX_MESSAGE_LEN
            → OnOk result (self.new.tally
            ≡ record self.old.tally { different = one_more self.old.tally.different }) }
        ensures recorded_reply_alone { IsReply recorded.now → ¬ IsReply received.now → OnOk result
            (self.new.tally
            ≡ record self.old.tally { different = one_more self.old.tally.different }) }
        ensures received_reply_alone { ¬ IsReply recorded.now → IsReply received.now → OnOk result
            (self.new.tally
            ≡ record self.old.tally { different = one_more self.old.tally.different }) }
        ensures failed { OnErr result ((self.new.tally ≡ self.old.tally)
            ⊎ (self.new.tally
            ≡ record self.old.tally { different = one_more self.old.tally.different })) }
        ensures one { OnOk result ((self.new.tally
            ≡ record self.old.tally { same = one_more self.old.tally.same })
            ⊎ (self.new.tally
            ≡ record self.old.tally { different = one_more self.old.tally.different })) }
        ensures names { self.new.names ≡ self.old.names }
    {
        if are_same_answers(self.alloc, self.names, recorded, received)? {
            self.count_same();
            return Ok(());
        }
        self.tell_different(number, request, recorded, received)
    }

    /// Counts an answer that is as it was recorded.
    fn count_same(&mut self)
        ensures counted { self.new.tally
            ≡ record self.old.tally { same = one_more self.old.tally.same } }
        ensures names { self.new.names ≡ self.old.names }
    {
        self.tally.same = self.tally.same.saturating_add(1);
    }

    /// Tells that the answer that came differs from the recorded one.
    fn tell_different(
        &mut self,
        number: u64,
        request: u32,
        recorded: &[u8],
        received: &[u8],
    ) -> io::Result<()>
        ensures counted { self.new.tally
            ≡ record self.old.tally { different = one_more self.old.tally.different } }
        ensures names { self.new.names ≡ self.old.names }
    {
        self.tally.different = self.tally.different.saturating_add(1);
        self.write_head(number, "differs", request)?;
        self.write_line(RECORDED, recorded)?;
        self.write_line(RECEIVED, received)
    }

    /// Tells that no answer came in the place of a recorded one.
    ///
    /// # Errors
    ///
    /// Returns an error if writing fails or memory runs out.
    pub fn tell_missing(&mut self, number: u64, request: u32, recorded: &[u8]) -> io::Result<()>
        ensures counted { self.new.tally
            ≡ record self.old.tally { missing = one_more self.old.tally.missing } }
        ensures names { self.new.names ≡ self.old.names }
    {
        self.tally.missing = self.tally.missing.saturating_add(1);
        self.write_head(number, "missing", request)?;
        self.write_line(RECORDED, recorded)
    }

    /// Tells an answer that came in the place of a recorded one, once that was told as missing.
    ///
    /// # Errors
    ///
    /// Returns an error if writing fails or memory runs out.
    pub fn tell_late(&mut self, number: u64, request: u32, received: &[u8]) -> io::Result<()>
        ensures counted { self.new.tally
            ≡ record self.old.tally { late = one_more self.old.tally.late } }
        ensures names { self.new.names ≡ self.old.names }
    {
        self.tally.late = self.tally.late.saturating_add(1);
        self.write_head(number, "late", request)?;
        self.write_line(RECEIVED, received)
    }

    /// Counts an answer to a request whose answer the record lacks. No line tells it.
    pub fn count_unrecorded(&mut self)
        ensures counted { self.new ≡ record self.old {
          tally =
              record self.old.tally { unrecorded = one_more self.old.tally.unrecorded };
        } }
    {
        self.tally.unrecorded = self.tally.unrecorded.saturating_add(1);
    }

    /// Tells an answer that nothing recorded, and that no request whose answer the record lacks
    /// explains.
    ///
    /// # Errors
    ///
    /// Returns an error if writing fails or memory runs out.
    pub fn tell_unexpected(&mut self, number: u64, request: u32, received: &[u8]) -> io::Result<()>
        ensures counted { self.new.tally
            ≡ record self.old.tally { unexpected = one_more self.old.tally.unexpected } }
        ensures names { self.new.names ≡ self.old.names }
    {
        self.tally.unexpected = self.tally.unexpected.saturating_add(1);
        self.write_head(number, "unexpected", request)?;
        self.write_line(RECEIVED, received)
    }

    /// Tells that a connection failed.
    ///
    /// # Errors
    ///
    /// Returns an error if writing fails.
    pub fn tell_failed(&mut self, number: u64, broken: Broken) -> io::Result<()>
        ensures counted { self.new.tally
            ≡ record self.old.tally { failed = one_more self.old.tally.failed } }
        ensures names { self.new.names ≡ self.old.names }
    {
        self.tally.failed = self.tally.failed.saturating_add(1);
        writeln!(self.out, "{number} failed: {broken}")
    }

    /// Writes the last line, of how many answers there were, and that of a fault of the file, if
    /// there is one.
    ///
    /// # Errors
    ///
    /// Returns an error if writing fails.
    pub fn finish(&mut self, fault: Option<InputFault>) -> io::Result<()>
        ensures lines { OnOk result (Appends (W.contents self.old.out) (W.contents self.new.out)
            (last_lines self.old.tally fault)) }
        ensures kept { self.new.tally ≡ self.old.tally }
        ensures names { self.new.names ≡ self.old.names }
    {
        self.tally.write(&mut self.out)?;
        self.write_fault(fault)?;
        self.out.flush()
    }

    /// Writes the line of a fault of the file, if there is one.
    fn write_fault(&mut self, fault: Option<InputFault>) -> io::Result<()>
        ensures line { OnOk result (Appends (W.contents self.old.out) (W.contents self.new.out)
            (fault_line fault)) }
        ensures kept { self.new.tally ≡ self.old.tally }
        ensures names { self.new.names ≡ self.old.names }
    {
        match fault {
            Some(fault) => writeln!(self.out, "{fault}"),
            None => Ok(()),
        }
    }
}
