//! Plays scripts: makes the events that their lines name happen in a world, one after another.

ghost use Rattle.std.specs.Prelude.{◌≡◌, IfOk, OnOk};
ghost use Rattle.script_lines.specs.{lines_left};
ghost use Rattle.wire_play.specs.Played.{EventPlayed, LinePlayed, LinesPlayed, OverText, SetupText};
ghost use Rattle.wire_play.specs.Scripts.{PlaysIn, TextUpTo, Writes};

use crate::closing::write_closing;
use crate::named::{HandlerName, Line, Setup};
use crate::parse::parse_line;
use crate::reports::write_result;
use script_lines::{LineError, Lines};
use std::alloc::Global;
use std::io;
use std::io::Write;
use wire_peer::{Count, Echo, Handler};
use wire_world::{Event, SetupRefusal, World, WorldLimits, WorldRefusal};

/// Why the rest of a script's text wasn't written.
#[derive(Clone, Copy, Debug, PartialEq, Eq)]
pub enum PlayStop {
    /// The writer failed.
    Failed,
    /// Memory ran out.
    OutOfMemory,
}

impl From<io::Error> for PlayStop {
    ghost use Rattle.wire_play.specs.declared.playing.PlayStop.TheVariants.{Failed};

    ghost from_gives = { λ _ stop. stop ≡ Failed };

    fn from(_error: io::Error) -> PlayStop {
        PlayStop::Failed
    }
}

/// Makes an event happen, and writes the line of its result. If memory runs out, flushes the
/// output, which ends with that line, and returns the error.
fn play_event<H: Handler, W: Write>(
    world: &mut World<H>,
    event: &Event<'_>,
    out: &mut W,
) -> Result<(), PlayStop>
    ensures limits { world.new.limits ≡ world.old.limits }
    ensures played { OnOk result
        (EventPlayed H.does H.stops world.old.limits world.old.state event.now world.new.state
        (W.contents out.old) (W.contents out.new)) }
{
    let ended = world.step(event);
    write_result(&ended, out)?;
    if let Err(WorldRefusal::OutOfMemory) = ended {
        out.flush()?;
        return Err(PlayStop::OutOfMemory);
    }
    Ok(())
}

/// Makes the event of a line happen, and writes the line of its result. Returns false if the line
/// names no event.
fn play_line<H: Handler, W: Write>(
    alloc: Global,
    world: &mut World<H>,
    line: &[u8],
    out: &mut W,
) -> Result<bool, PlayStop>
    ensures limits { world.new.limits ≡ world.old.limits }
    ensures played { IfOk result
        (LinePlayed H.does H.stops world.old.limits world.old.state line.now world.new.state
        (W.contents out.old) (W.contents out.new)) }
{
    match parse_line(alloc, line) {
        Ok(Line::Event(event)) => {
            play_event(world, &event.as_event(), out)?;
            Ok(true)
        }
        Ok(Line::World(_)) => Ok(false),
        Err(LineError::Malformed) => Ok(false),
        Err(LineError::OutOfMemory) => Err(PlayStop::OutOfMemory),
    }
}

/// Plays lines, up to the first one that names no event. Returns the number of that line.
fn play_lines<H: Handler, W: Write>(
    alloc: Global,
    world: &mut World<H>,
    lines: Lines<'_>,
    out: &mut W,
) -> Result<Option<usize>, PlayStop>
    ensures limits { world.new.limits ≡ world.old.limits }
    ensures played { IfOk result
        (λ fault. LinesPlayed H.does H.stops world.old.limits world.old.state
        (lines_left lines.entry)
        world.new.state fault (W.contents out.old) (W.contents out.new)) }
{
    for line in lines {
        if !play_line(alloc, world, line.text, out)? {
            return Ok(Some(line.number));
        }
    }
    Ok(None)
}

/// Plays lines in a world, and writes its calls and its log after them. Returns the number of the
/// line at fault.
fn play_world<H: Handler, W: Write>(
    alloc: Global,
    world: &mut World<H>,
    lines: Lines<'_>,
    out: &mut W,
) -> Result<Option<usize>, PlayStop>
    ensures { IfOk result (λ fault. Writes
        (λ text. PlaysIn H.does H.stops world.old.limits world.old.state
        (lines_left lines.entry) text fault)
        (W.contents out.old) (W.contents out.new)) }
{
    out.write_all(b"world\n")?;
    match play_lines(alloc, world, lines, out)? {
        Some(number) => Ok(Some(number)),
        None => {
            write_closing(world, out)?;
            Ok(None)
        }
    }
}

/// Plays lines in a new world over `handler`. Returns the number of the line at fault, which is
/// `number`, that of the world's own line, if a limit is out of range.
fn play_over<H: Handler + Drop, W: Write>(
    alloc: Global,
    handler: H,
    limits: WorldLimits,
    number: usize,
    lines: Lines<'_>,
    out: &mut W,
) -> Result<Option<usize>, PlayStop>
    ensures { IfOk result (λ fault. Writes
        (λ text. OverText H.does H.stops handler limits number (lines_left lines.entry) text fault)
        (W.contents out.old) (W.contents out.new)) }
{
    match World::new(alloc, handler, limits) {
        Ok(mut world) => play_world(alloc, &mut world, lines, out),
        Err(SetupRefusal::OutOfMemory) => Err(PlayStop::OutOfMemory),
        Err(_) => Ok(Some(number)),
    }
}

/// Plays lines in the world that the line before them makes. Returns the number of the line at
/// fault.
fn play_setup<W: Write>(
    alloc: Global,
    setup: Setup,
    number: usize,
    lines: Lines<'_>,
    out: &mut W,
) -> Result<Option<usize>, PlayStop>
    ensures { IfOk result (λ fault. Writes
        (λ text. SetupText setup number (lines_left lines.entry) text fault)
        (W.contents out.old) (W.contents out.new)) }
{
    match setup.handler {
        HandlerName::Echo => play_over(alloc, Echo, setup.limits, number, lines, out),
        HandlerName::Count => play_over(alloc, Count, setup.limits, number, lines, out),
    }
}

/// Plays a script: writes a line for the world, a line for each event, and then the calls and the
/// log. Returns the number of the line at fault, if there is one. Nothing is written for that
/// line, or after it.
///
/// # Errors
///
/// Returns `Failed` if the writer fails, and `OutOfMemory` if memory runs out. If it runs out in
/// an event, the output is flushed up to the line of that event.
pub fn play<W: Write>(alloc: Global, script: &[u8], out: &mut W) -> Result<Option<usize>, PlayStop>
    ensures { IfOk result (λ fault. Writes (λ text. TextUpTo script.now text fault)
        (W.contents out.old) (W.contents out.new)) }
{
    let mut lines = Lines::new(script);
    let Some(line) = lines.next() else {
        return Ok(Some(1));
    };
    match parse_line(alloc, line.text) {
        Ok(Line::World(setup)) => play_setup(alloc, setup, line.number, lines, out),
        Ok(Line::Event(event)) => {
            // The line names an event, and so no world.
            let _ = event.as_event();
            Ok(Some(line.number))
        }
        Err(LineError::Malformed) => Ok(Some(line.number)),
        Err(LineError::OutOfMemory) => Err(PlayStop::OutOfMemory),
    }
}
