//! Does with a request what a script says, and with its reply.

#![tactic(auto, using(crate::proofs::Runs::run_on, crate::proofs::Runs::run_none))]

ghost use Rattle.std.specs.Prelude.{◌≡◌, ◌≤◌, ℕ, List, [], IfOk, None, Ok, OnErr, OnOk, Some};
ghost use Rattle.std.specs.Prelude.{false, length, min, pos, true};
ghost use Rattle.proxy.specs.Holding.{Holds};
ghost use Rattle.wire_share.specs.Acts.{MovesDown, Sends};
ghost use Rattle.wire_share.specs.Cores.{CoreDoes, Shares};
ghost use Rattle.wire_share.specs.Running.{IsRun, output_to, seen};
ghost use Rattle.wire_share.specs.declared.client.Client as connections;
ghost use Rattle.shared_proxy.specs.Clients.{SameRequest};
ghost use Rattle.shared_proxy.specs.Lines.{limited};
ghost use Rattle.shared_proxy.specs.Steering.{HoldsNone, PassesSo, SameButFlow};

use crate::client::Client;
use crate::leave::Leave;
use proxy::{Direction, Fate, Sink, fate_of};
use script_rules::{Flow, Script};
use std::alloc::Global;
use std::io;
use std::io::Write;
use std::rt::Files;
use std::time::Clock;
use wire_frames::{FrameFront, RawFrame};
use wire_msg::MAX_MESSAGE_LEN;
use wire_share::Core;

/// What becomes of a client whose request was steered.
#[derive(Clone, Copy)]
pub enum Steered {
    /// It goes on.
    Again,
    /// Its request is held for so many milliseconds.
    Held(u64),
    /// It is over.
    Over(Leave),
}

/// Gives the message that a client's line holds to the sink: one that isn't passed on.
fn show<R: Files + Clock, W: Write>(
    number: u64,
    client: &Client,
    sink: &mut Sink<'_, R>,
    out: &mut W,
) -> io::Result<()>
    ensures none { HoldsNone client.now.line
        → (result ≡ Ok tt) × (sink.new ≡ sink.old) × (out.new ≡ out.old) }
{
    match client.line.message() {
        Some(frame) => sink.put(number, Direction::There, frame, out),
        None => Ok(()),
    }
}

/// Has a request pass, and notes what becomes of it and of its reply.
fn pass(client: &mut Client, flow: Flow, cut_up: Option<u64>)
    ensures passes { (message : List ℕ) → Holds client.old.line.link.held message
        → PassesSo message flow cut_up client.old client.new }
    ensures delayed { client.new.steering.delayed ≡ client.old.steering.delayed }
{
    client.steering.flow = flow;
    client.steering.cut_up = cut_up;
    client.line.pass();
}

/// Does with the request that a client's line holds, if it holds one, what the script says.
///
/// # Errors
///
/// Returns an error if memory runs out, or the sink or writing fails.
pub fn steer<R: Files + Clock, W: Write>(
    alloc: Global,
    number: u64,
    client: &mut Client,
    script: &mut Script,
    sink: &mut Sink<'_, R>,
    out: &mut W,
) -> io::Result<Steered>
    ensures { HoldsNone client.old.line → (result ≡ Ok Steered.Again)
        × (client.new ≡ client.old) × (script.new ≡ script.old) }
{
    let (id, fate) = match client.line.message() {
        Some(frame) => (frame.header().id, fate_of(alloc, script, frame)?),
        None => return Ok(Steered::Again),
    };
    match fate {
        Fate::Pass(flow) => {
            pass(client, flow, None);
            Ok(Steered::Again)
        }
        Fate::CutUp(count) => {
            pass(client, Flow::Whole, Some(count));
            Ok(Steered::Again)
        }
        Fate::Delay(millis) => {
            writeln!(out, "{number} delay {millis} id {id}")?;
            client.steering.delayed = true;
            Ok(Steered::Held(millis))
        }
        Fate::HangUp => {
            show(number, client, sink, out)?;
            Ok(Steered::Over(Leave::HungUp(id)))
        }
        Fate::Reply(bytes) => {
            show(number, client, sink, out)?;
            writeln!(out, "{number} reply to {id}")?;
            client.line.skip();
            client.steering.reply = bytes;
            Ok(Steered::Again)
        }
    }
}

/// Lets a request go on that was held for some time.
pub fn release(client: &mut Client)
    ensures released { client.new.steering.delayed ≡ false }
    ensures passes { (message : List ℕ) → Holds client.old.line.link.held message
        → client.old.steering.delayed ≡ true
        → PassesSo message Flow.Whole None client.old client.new }
    ensures others { client.old.steering.delayed ≡ false → client.new ≡ client.old }
{
    if client.steering.delayed {
        client.steering.delayed = false;
        pass(client, Flow::Whole, None);
    }
}

/// Gives the reply that a client doesn't get whole to the sink. Returns its size, and the id that it
/// answers.
fn show_reply<R: Files + Clock, W: Write>(
    core: &Core,
    number: u64,
    sink: &mut Sink<'_, R>,
    out: &mut W,
) -> io::Result<(usize, i32)>
    ensures none { output_to ((seen core.now).downs number) ≡ []
        → (result ≡ Ok (0, pos 0)) × (sink.new ≡ sink.old) × (out.new ≡ out.old) }
{
    match RawFrame::front(core.output(number), MAX_MESSAGE_LEN) {
        FrameFront::Whole { frame, .. } => {
            sink.put(number, Direction::Back, frame, out)?;
            Ok((frame.as_bytes().len(), frame.header().response_to))
        }
        FrameFront::Open { .. } | FrameFront::Bad(_) => Ok((0, 0)),
    }
}

/// Lets go of the reply that a client was to get.
fn drop_reply<R: Files + Clock, W: Write>(
    core: &mut Core,
    number: u64,
    sink: &mut Sink<'_, R>,
    out: &mut W,
) -> io::Result<()>
    ensures run { IsRun core.old core.new }
    ensures dropped { (x : connections.Client) → (seen core.old).downs number ≡ Some x
        → OnOk result (CoreDoes (Shares (MovesDown number (Sends x.downstream.conn.output)))
        (seen core.old) (seen core.new)) }
    ensures unchanged { OnErr result (core.new ≡ core.old) }
{
    let (size, to) = show_reply(core, number, sink, out)?;
    writeln!(out, "{number} drop {size} to {to}")?;
    let all = core.output(number).len();
    core.sent(number, all);
    Ok(())
}

/// Has only so many bytes of the reply sent that a client is to get.
fn cut_reply<R: Files + Clock, W: Write>(
    core: &Core,
    number: u64,
    client: &mut Client,
    count: u64,
    sink: &mut Sink<'_, R>,
    out: &mut W,
) -> io::Result<()>
    ensures cut { OnOk result (client.new.line ≡ limited
        (min count (length (output_to ((seen core.now).downs number)))) client.old.line) }
    ensures unchanged { OnErr result (client.new.line ≡ client.old.line) }
    ensures request { SameRequest client.old client.new }
{
    let size = core.output(number).len() as u64;
    if count < size {
        let _ = show_reply(core, number, sink, out)?;
    }
    client.line.limit_sending(count.min(size));
    Ok(())
}

/// Does with the reply that a client is to get what the rule says that its request met.
///
/// # Errors
///
/// Returns an error if memory runs out, or the sink or writing fails.
pub fn steer_reply<R: Files + Clock, W: Write>(
    core: &mut Core,
    number: u64,
    client: &mut Client,
    sink: &mut Sink<'_, R>,
    out: &mut W,
) -> io::Result<()>
    ensures run { IsRun core.old core.new }
    ensures whole { client.new.steering.flow ≡ Flow.Whole }
    ensures same { SameButFlow client.old client.new }
    ensures sent { client.old.steering.flow ≡ Flow.Whole
        → (core.new ≡ core.old) × (client.new.line ≡ client.old.line) }
    ensures dropped { (x : connections.Client) → client.old.steering.flow ≡ Flow.Dropped
        → (seen core.old).downs number ≡ Some x
        → OnOk result (CoreDoes (Shares (MovesDown number (Sends x.downstream.conn.output)))
        (seen core.old) (seen core.new)) }
    ensures cut { (count : ℕ) → client.old.steering.flow ≡ Flow.Cut count → OnOk result
        (client.new.line ≡ limited (min count
        (length (output_to ((seen core.old).downs number)))) client.old.line) }
{
    let flow = client.steering.flow;
    client.steering.flow = Flow::Whole;
    match flow {
        Flow::Whole | Flow::Held(_) => Ok(()),
        Flow::Cut(count) => cut_reply(core, number, client, count, sink, out),
        Flow::Dropped => drop_reply(core, number, sink, out),
    }
}
