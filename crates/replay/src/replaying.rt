//! Runs a replay, from the first record to the line of its counts.

ghost use Rattle.std.specs.Prelude.{◌≡◌, ◌⊎◌, ◌&&◌, ◌||◌, [], IfOk, None, OnOk, Option, false};
ghost use Rattle.std.specs.Prelude.{is_none, map, not, option_map, true};
ghost use Rattle.std.specs.List.{list_any};
ghost use Rattle.replay.specs.Counts.{HasTold, IsOutcome};
ghost use Rattle.replay.specs.Lanes.{awaits, waits};
ghost use Rattle.replay.specs.Names.{names_in};
ghost use Rattle.replay.specs.declared.input_fault.InputFault.{InputFault};

use crate::fault::ReplayFault;
use crate::input_fault::InputFault;
use crate::options::ReplayOptions;
use crate::pace::{Pace, Timing};
use crate::player::Player;
use crate::records::Records;
use crate::tally::Tally;
use crate::teller::Teller;
use crate::watch::Watch;
use mio::Events;
use sockets::{EVENTS, address_of};
use std::alloc::{AllocError, Global};
use std::fs::File;
use std::io;
use std::io::{BufWriter, ErrorKind, Read, Write};
use std::net::{Net, SocketAddr};
use std::rt::Files;
use std::time::Clock;

/// How many microseconds answers may come in behind the last one that is awaited.
const LINGER: u64 = 200_000;

/// What a replay came to.
#[derive(Clone, Copy)]
pub enum Outcome {
    /// All answers are the same as the recorded ones.
    Same,
    /// Some differ, are missing or are unexpected, or a connection failed.
    Different,
    /// The file isn't one of records, at least from some offset on.
    Fault,
}

/// Returns what a replay came to, by the fault of its file, if there is one, and its counts.
fn outcome_of(fault: Option<InputFault>, tally: Tally) -> Outcome
    ensures { IsOutcome fault tally result }
{
    if fault.is_some() {
        Outcome::Fault
    } else if tally.is_same() {
        Outcome::Same
    } else {
        Outcome::Different
    }
}

/// Returns the names in a text that has commas between them.
fn names_of<'a>(alloc: Global, text: Option<&'a str>) -> Result<Vec<&'a str>, AllocError>
    ensures { IfOk result (λ names. map (λ n. n.now) names.items
        ≡ names_in (option_map (λ t. t.now) text.entry)) }
{
    match text {
        Some(text) => text.split(',').collect(alloc),
        None => Ok(Vec::new(alloc)),
    }
}

/// When the records are taken, and whether any is left.
#[derive(Clone, Copy)]
struct Course {
    watch: Watch,
    pace: Pace,
    /// No record is left.
    is_over: bool,
}

impl Course {
    /// Returns true if the next record may be taken once its time has come.
    fn may_go_on(&self, player: &Player) -> bool
        ensures { result ≡ (not (list_any waits player.now.lanes.conns.items)
            && not (is_none self.now.pace.speed && list_any awaits player.now.lanes.conns.items)) }
    {
        let lanes = player.lanes();
        self.pace.may_go_on(lanes.is_sent(), lanes.awaits())
    }

    /// Returns true if no record is left, all requests were sent, and no answer is awaited.
    fn is_done(&self, player: &Player) -> bool
        ensures { result ≡ (self.now.is_over && not (list_any waits player.now.lanes.conns.items)
            && not (list_any awaits player.now.lanes.conns.items)) }
    {
        self.is_over && player.lanes().is_sent() && !player.lanes().awaits()
    }

    /// Takes the record that is held, unless its time hasn't come. Returns that time then.
    fn take_one<R: Net + Clock, F: Read + Drop, W: Write + Drop>(
        &mut self,
        rt: &R,
        records: &mut Records<F>,
        player: &mut Player,
        teller: &mut Teller<'_, W>,
    ) -> io::Result<Option<u64>>
        ensures course { (self.new.is_over ≡ self.old.is_over)
            × (self.new.watch ≡ self.old.watch) }
        ensures fault { records.new.fault ≡ records.old.fault }
        ensures told { OnOk result (HasTold teller.old.tally teller.new.tally) }
        ensures held { IfOk result (λ due. ((due ≡ None) × (records.new.reading.held ≡ []))
            ⊎ (records.new ≡ records.old)) }
    {
        let Some(record) = records.record() else {
            return Ok(None);
        };
        // Times before 1970 are negative.
        let micros = record.head().micros.abs_diff(i64::MIN);
        match self.pace.take(self.watch.now(rt)?, micros) {
            Timing::Now(taken) => {
                player.take(rt, record, taken, teller)?;
                records.release();
                Ok(None)
            }
            Timing::At(due) => Ok(Some(due)),
        }
    }

    /// Reads on until a record is held. Returns false if there are no more.
    fn read_one<F: Read + Drop>(&mut self, records: &mut Records<F>) -> Result<bool, ReplayFault>
        ensures over { IfOk result (λ has_one.
            self.new.is_over ≡ (self.old.is_over || not has_one)) }
        ensures others { self.new ≡ record self.old { is_over = self.new.is_over } }
    {
        match records.read_one() {
            Ok(has_one) => {
                self.is_over = self.is_over || !has_one;
                Ok(has_one)
            }
            Err(error) => Err(ReplayFault::Records(error)),
        }
    }

    /// Takes records, as many as may be taken now. Returns the time of the next one, if that hasn't
    /// come.
    #[tactic(auto, using(crate::proofs::Counting::told_none, crate::proofs::Counting::told_both))]
    fn take_some<R: Net + Clock, F: Read + Drop, W: Write + Drop>(
        &mut self,
        rt: &R,
        records: &mut Records<F>,
        player: &mut Player,
        teller: &mut Teller<'_, W>,
    ) -> Result<Option<u64>, ReplayFault>
        ensures { OnOk result (HasTold teller.old.tally teller.new.tally) }
    {
        for _ in 0..u64::MAX {
            if !self.may_go_on(player) || !self.read_one(records)? {
                break;
            }
            if let Some(due) = self.take_one(rt, records, player, teller)? {
                return Ok(Some(due));
            }
        }
        Ok(None)
    }

    /// Takes all records, up to the last answer that is awaited. Ends well only if no record is left,
    /// all requests were sent, and no answer is awaited.
    #[tactic(auto, using(crate::proofs::Counting::told_none, crate::proofs::Counting::told_both))]
    fn play<R: Net + Clock, F: Read + Drop, W: Write + Drop>(
        &mut self,
        rt: &R,
        events: &mut Events<Global>,
        records: &mut Records<F>,
        player: &mut Player,
        teller: &mut Teller<'_, W>,
    ) -> Result<(), ReplayFault>
        ensures done { OnOk result ((self.new.is_over ≡ true)
            × (list_any waits player.new.lanes.conns.items ≡ false)
            × (list_any awaits player.new.lanes.conns.items ≡ false)) }
        ensures told { OnOk result (HasTold teller.old.tally teller.new.tally) }
    {
        for _ in 0..u64::MAX {
            let until = self.take_some(rt, records, player, teller)?;
            if self.is_done(player) {
                return Ok(());
            }
            player.turn(rt, events, until, teller)?;
        }
        Err(ReplayFault::Io(io::Error::from(ErrorKind::Interrupted)))
    }

    /// Takes answers that come in late.
    #[tactic(auto, using(crate::proofs::Counting::told_none, crate::proofs::Counting::told_both))]
    fn linger<R: Net + Clock, W: Write + Drop>(
        &self,
        rt: &R,
        events: &mut Events<Global>,
        player: &mut Player,
        teller: &mut Teller<'_, W>,
    ) -> io::Result<()>
        ensures { OnOk result (HasTold teller.old.tally teller.new.tally) }
    {
        let end = self.watch.now(rt)?.saturating_add(LINGER);
        for _ in 0..u64::MAX {
            if self.watch.now(rt)? >= end {
                break;
            }
            player.turn(rt, events, Some(end), teller)?;
        }
        Ok(())
    }
}

/// Plays the records, and tells what came of it.
#[tactic(auto, using(crate::proofs::Counting::told_none, crate::proofs::Counting::told_both))]
fn play_all<R: Net + Clock, F: Read + Drop, W: Write + Drop>(
    rt: &R,
    course: Course,
    events: &mut Events<Global>,
    records: &mut Records<F>,
    player: &mut Player,
    teller: &mut Teller<'_, W>,
) -> Result<Outcome, ReplayFault>
    ensures told { OnOk result (HasTold teller.old.tally teller.new.tally) }
    ensures ends { IfOk result (λ outcome.
        IsOutcome records.new.fault teller.new.tally outcome) }
{
    let mut course = course;
    course.play(rt, events, records, player, teller)?;
    course.linger(rt, events, player, teller)?;
    player.finish(teller)?;
    let fault = records.fault();
    teller.finish(fault)?;
    Ok(outcome_of(fault, teller.tally()))
}

/// Plays these records to the server at an address, at a pace.
fn play_records<R: Net + Clock, F: Read + Drop, W: Write + Drop>(
    rt: &R,
    alloc: Global,
    server: SocketAddr,
    pace: Pace,
    records: &mut Records<F>,
    teller: &mut Teller<'_, W>,
) -> Result<Outcome, ReplayFault>
    ensures told { OnOk result (HasTold teller.old.tally teller.new.tally) }
    ensures ends { IfOk result (λ outcome.
        IsOutcome records.new.fault teller.new.tally outcome) }
{
    let watch = Watch::start(rt)?;
    let mut events = Events::with_capacity(alloc, EVENTS)?;
    let mut player = Player::new(rt, alloc, server, watch)?;
    let course = Course {
        watch,
        pace,
        is_over: false,
    };
    play_all(rt, course, &mut events, records, &mut player, teller)
}

/// Plays the records that a reader gives, to the server at an address.
fn play_to<R: Net + Clock, F: Read + Drop, W: Write + Drop>(
    rt: &R,
    alloc: Global,
    server: SocketAddr,
    pace: Pace,
    reader: F,
    teller: &mut Teller<'_, W>,
) -> Result<Outcome, ReplayFault>
    ensures told { OnOk result (HasTold teller.old.tally teller.new.tally) }
    ensures ends { IfOk result (λ outcome. (fault : Option InputFault)
        × IsOutcome fault teller.new.tally outcome) }
{
    match Records::new(alloc, reader) {
        Ok(mut records) => play_records(rt, alloc, server, pace, &mut records, teller),
        Err(error) => Err(ReplayFault::Records(error)),
    }
}

/// Plays the records that a reader gives.
fn run_over<R: Net + Clock, F: Read + Drop, W: Write + Drop>(
    rt: &R,
    alloc: Global,
    options: ReplayOptions<'_>,
    reader: F,
    out: W,
) -> Result<Outcome, ReplayFault> {
    let server = match address_of(rt, options.address) {
        Ok(server) => server,
        Err(error) => return Err(ReplayFault::Address(error)),
    };
    let names = names_of(alloc, options.ignore)?;
    let pace = Pace::new(options.speed);
    let out = BufWriter::new(alloc, out)?;
    let mut teller = Teller::new(alloc, names.as_slice(), out);
    play_to(rt, alloc, server, pace, reader, &mut teller)
}

/// Sends what the clients of a file of records sent to the server, each connection of the file over
/// one of its own, and writes to `out` which answers differ from the recorded ones.
///
/// # Errors
///
/// Returns a fault if the file can't be read, the server has no address, writing or waiting fails,
/// or memory runs out. A connection that fails is told.
pub fn run<R: Net + Files + Input + Clock, W: Write + Drop>(
    rt: &R,
    alloc: Global,
    options: ReplayOptions<'_>,
    out: W,
) -> Result<Outcome, ReplayFault> {
    if options.file == "-" {
        return run_over(rt, alloc, options, rt.reader(), out);
    }
    match File::open(rt, options.file) {
        Ok(file) => run_over(rt, alloc, options, file, out),
        Err(error) => Err(ReplayFault::Records(error)),
    }
}
