//! Counts the answers.

ghost use Rattle.std.specs.Prelude.{◌↔◌, IsTrue, OnOk};
ghost use Rattle.std.specs.Io.KnownBytes.{Appends};
ghost use Rattle.replay.specs.Counts.{AreAllSame};
ghost use Rattle.replay.specs.LastLines.{tally_line};

use std::io;
use std::io::Write;

/// How many answers were the same as the recorded ones, and how many weren't. Each recorded answer
/// is in one of the first three counts, and each of the server that isn't beside one of those in
/// one of the next three.
#[derive(Clone, Copy)]
pub struct Tally {
    /// The recorded ones that are the same.
    pub same: u64,
    /// The recorded ones in whose place another one came.
    pub different: u64,
    /// The recorded ones in whose place none came.
    pub missing: u64,
    /// Those of the server to no request whose answer the record lacks.
    pub unexpected: u64,
    /// Those that came in the place of a recorded one once it was counted as missing.
    pub late: u64,
    /// Those to a request whose answer the record lacks.
    pub unrecorded: u64,
    /// The connections that failed.
    pub failed: u64,
}

impl Tally {
    /// The counts before the first answer.
    pub const NONE: Tally = Tally {
        same: 0,
        different: 0,
        missing: 0,
        unexpected: 0,
        late: 0,
        unrecorded: 0,
        failed: 0,
    };

    /// Returns true if all answers are the same, and nothing else was told. A late one is among the
    /// missing ones, and one that wasn't recorded is no difference.
    pub fn is_same(self) -> bool
        ensures { IsTrue result ↔ AreAllSame self }
    {
        self.different == 0 && self.missing == 0 && self.unexpected == 0 && self.failed == 0
    }

    /// Writes the line of the counts.
    ///
    /// # Errors
    ///
    /// Returns an error if writing fails.
    pub fn write<W: Write>(self, out: &mut W) -> io::Result<()>
        ensures { OnOk result
            (Appends (W.contents out.old) (W.contents out.new) (tally_line self)) }
    {
        let Tally {
            same,
            different,
            missing,
            unexpected,
            late,
            unrecorded,
            failed: _,
        } = self;
        let answers = same.saturating_add(different).saturating_add(missing);
        write!(
            out,
            "{answers} answers, {same} same, {different} different, {missing} missing, "
        )?;
        writeln!(
            out,
            "{unexpected} unexpected, {late} late, {unrecorded} unrecorded"
        )?;
        Ok(())
    }
}
