//! `client_examples pair SEED [CALLS]` runs a client and a server in one process, with bytes in
//! flight between them in memory, in an order of steps that is drawn from the seed: calls of each
//! kind, bytes that are sent and arrive in pieces, answers in any order, and sometimes a cut of both
//! ways. It makes at most so many calls, 8 if none are told. It prints a line for each call with its
//! kind, its state and the number of its replies, and a last line.
//!
//! Whatever the order is, the headline holds of the run: each call that is told as done holds exactly
//! the answers of an entry of its own in the server's log, with its payload. The contract of `run`
//! says so as `HaveRun`, by both laws on ends that are apart: that on runs of pairs, and that on
//! owners who each tell what they did. The premise of the second one, that bytes arrive in order, is
//! proved here, since the bytes in flight are the program's own.
//!
//! Read first: `ends` and `runs`, then `specs/Owning.antt` and `specs/Pairs.antt`.

mod calls;
mod ends;
mod lines;
mod runs;
mod way;

ghost use Rattle.std.specs.Prelude.{OnOk};
ghost use Rattle.std.specs.Io.KnownBytes.{Appends};
ghost use Rattle.client_examples.specs.Lines.{run_text};
ghost use Rattle.client_examples.specs.Pairs.{HaveRun};
ghost use Rattle.client_examples.specs.declared.pair.ends.Ends.{Ends};

use anyhow::{Result, bail};
use lines::write_run;
use runs::run;
use std::alloc::Global;
use std::env::Args;
use std::io;
use std::io::Write;
use wire_peer::{Count, Handler};

/// How many calls are made if the command line says nothing of it.
const CALLS: u16 = 8;

/// Runs the two ends, and writes a line for each call and a last one.
fn report<H: Handler + Drop, W: Write>(
    alloc: Global,
    handler: H,
    seed: u64,
    calls: u16,
    out: &mut W,
) -> Result<()>
    ensures { OnOk result ((ends : Ends H) × HaveRun H.does H.stops handler ends
        × Appends (W.contents out.old) (W.contents out.new) (run_text ends)) }
{
    let ends = run(alloc, handler, seed, calls)?;
    write_run(&ends, out)
}

/// Runs the example by the words behind its name.
pub(crate) fn run_words<R: Print + AllocGlobal>(rt: &R, mut words: Args) -> Result<()> {
    let Some(word) = words.next() else {
        bail!("usage: client_examples pair SEED [CALLS]");
    };
    let Ok(seed) = word.as_str().parse::<u64>() else {
        bail!("the seed is no number from 0 to 18446744073709551615");
    };
    let calls = match words.next() {
        Some(word) => word.as_str().parse::<u16>(),
        None => Ok(CALLS),
    };
    let Ok(calls) = calls else {
        bail!("the number of calls is no number from 0 to 65535");
    };
    report(rt.alloc(), Count, seed, calls, &mut io::writer(rt))
}
