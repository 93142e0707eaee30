//! Goes over the records of an input that begins as a file of records does, and over any other
//! input by another walk.

ghost use Rattle.std.specs.Prelude.{◌≡◌, ◌++◌, ◌<◌, IfOk, List, take, ℕ};
ghost use Rattle.file_commands.specs.OrRecordsWalk.{IsSorted, Waits, or_records_tells};
ghost use Rattle.file_commands.specs.Walk.{IsBetween, Walks};
ghost use Rattle.wire_frames.specs.{signature};

use crate::input_fault::InputFault;
use crate::walk::{Stop, Walk};
use std::alloc::Global;
use std::io;
use std::io::Write;
use wire_frames::SIGNATURE;

/// What the first bytes of an input tell.
#[derive(Clone, Copy)]
pub enum Sort {
    /// They are the first `matched` bytes of the signature, and more decide.
    Undecided { matched: usize },
    /// The input is a file of records.
    Records,
    /// It is none.
    Others,
}

/// Returns what a piece tells behind the first `matched` bytes of the signature, and what follows
/// the signature in it.
fn sort_of(matched: usize, piece: &[u8]) -> (Sort, &[u8])
    requires { matched < 8 }
    ensures { IsSorted (take matched signature ++ piece.now) result.0 result.1.now }
{
    let wanted = &SIGNATURE[matched..];
    if let Some(behind) = piece.strip_prefix(wanted) {
        return (Sort::Records, behind);
    }
    if wanted.starts_with(piece) {
        let matched = matched + piece.len();
        return (Sort::Undecided { matched }, &[]);
    }
    (Sort::Others, &[])
}

/// What is held between two pieces.
#[derive(Drop)]
pub struct OrRecordsReader<A, B> {
    /// What the bytes so far tell.
    sort: Sort,
    /// What is held of another input, or of one that isn't decided.
    others: A,
    /// What is held of a file of records.
    records: B,
}

/// Goes over an input by `records` behind a signature, and by `others` where there is none.
#[derive(Drop)]
pub struct OrRecords<E: Walk, U> {
    pub others: E,
    pub records: U,
    pub ghost waits: { Waits (E.tells others) },
}

impl<E: Walk, U: Walk> OrRecords<E, U> {
    /// Feeds a piece, behind the first `matched` bytes of the signature.
    fn write_first<W: Write>(
        &self,
        matched: usize,
        reader: &mut OrRecordsReader<E::Reader, U::Reader>,
        piece: &[u8],
        out: &mut W,
    ) -> io::Result<Option<Stop>>
        requires sort { reader.old.sort ≡ Sort.Undecided matched }
        requires between { (read : List ℕ) × (texts : List ℕ)
            × IsBetween (or_records_tells (E.tells self.now.others) (U.tells self.now.records))
            reader.old read texts }
        ensures { (read texts : List ℕ)
            → IsBetween (or_records_tells (E.tells self.now.others) (U.tells self.now.records))
            reader.old read texts → IfOk result (λ stop.
            Walks (or_records_tells (E.tells self.now.others) (U.tells self.now.records))
            reader.new (read ++ piece.now) texts stop
            (W.contents out.old) (W.contents out.new)) }
    {
        let (sort, behind) = sort_of(matched, piece);
        reader.sort = sort;
        match sort {
            Sort::Records => self.records.write_piece(&mut reader.records, behind, out),
            _ => self.others.write_piece(&mut reader.others, piece, out),
        }
    }
}

impl<E: Walk, U: Walk> Walk for OrRecords<E, U> {
    type Reader = OrRecordsReader<E::Reader, U::Reader>;

    ghost tells = { λ w. or_records_tells (E.tells w.others) (U.tells w.records) };

    fn start(&self, alloc: Global) -> OrRecordsReader<E::Reader, U::Reader> {
        OrRecordsReader {
            sort: Sort::Undecided { matched: 0 },
            others: self.others.start(alloc),
            records: self.records.start(alloc),
        }
    }

    fn write_piece<W: Write>(
        &self,
        reader: &mut OrRecordsReader<E::Reader, U::Reader>,
        piece: &[u8],
        out: &mut W,
    ) -> io::Result<Option<Stop>> {
        match reader.sort {
            Sort::Undecided { matched } => self.write_first(matched, reader, piece, out),
            Sort::Records => self.records.write_piece(&mut reader.records, piece, out),
            Sort::Others => self.others.write_piece(&mut reader.others, piece, out),
        }
    }

    fn fault_at_end(&self, reader: &OrRecordsReader<E::Reader, U::Reader>) -> Option<InputFault> {
        match reader.sort {
            Sort::Records => self.records.fault_at_end(&reader.records),
            _ => self.others.fault_at_end(&reader.others),
        }
    }

    fn write_closing<W: Write>(
        &self,
        reader: &OrRecordsReader<E::Reader, U::Reader>,
        out: &mut W,
    ) -> io::Result<()> {
        match reader.sort {
            Sort::Records => self.records.write_closing(&reader.records, out),
            _ => self.others.write_closing(&reader.others, out),
        }
    }
}
