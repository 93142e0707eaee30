//! A run: steps in an order that is drawn from a seed.

ghost use Rattle.std.specs.Prelude.{IfOk, OnOk};
ghost use Rattle.wire_msg.specs.{BufCarries, body_alone};
ghost use Rattle.client_examples.specs.Asking.{call_body};
ghost use Rattle.client_examples.specs.Pairs.{HaveRun, Moves};

use crate::pair::ends::Ends;
use bson_doc::{Bson, RawDocumentBuf};
use rand_core::utils::NextWord;
use rand_pcg::Pcg32;
use std::alloc::{AllocError, Global};
use wire_model::pair_laws::channels_hold;
use wire_msg::PayloadBuf;
use wire_peer::{CallKind, Handler};

/// The stream of the generator.
const STREAM: u64 = 54;

/// How many steps a run has for each call.
const STEPS_A_CALL: u32 = 100;

/// Returns a kind of call, one for each remainder of `word` by 3.
fn kind_of(word: u32) -> CallKind {
    match word % 3 {
        0 => CallKind::Plain,
        1 => CallKind::Exhaust,
        _ => CallKind::Unacknowledged,
    }
}

/// Returns the payload `{"s": number}`. In an exhaust call it asks for `number` replies. Errs if
/// memory runs out.
fn payload_of(alloc: Global, number: u8) -> Result<PayloadBuf, AllocError>
    ensures { IfOk result (λ payload. BufCarries payload (body_alone (call_body number))) }
{
    let Ok(mut body) = RawDocumentBuf::new(alloc) else {
        return Err(AllocError);
    };
    let appended = body.append("s", &Bson::Int32(i32::from(number)));
    // A body so short is refused only if memory runs out.
    let Ok(()) = appended else {
        return Err(AllocError);
    };
    match PayloadBuf::new(alloc, body.as_raw()) {
        Ok(payload) => Ok(payload),
        Err(_) => Err(AllocError),
    }
}

/// Makes a call, whose kind and number of replies `word` says, if fewer than `most` were made. Errs
/// if memory runs out.
fn call<H: Handler + Drop>(
    alloc: Global,
    ends: &mut Ends<H>,
    most: usize,
    word: u32,
) -> Result<(), AllocError>
    ensures { OnOk result (Moves H.does H.stops ends.old ends.new) }
{
    if ends.calls.len() >= most {
        return Ok(());
    }
    let payload = payload_of(alloc, (1 + word / 3 % 4) as u8)?;
    ends.call(kind_of(word), payload.as_payload())
}

/// Cuts both ways for one word in about 64.
fn cut<H: Handler + Drop>(ends: &mut Ends<H>, word: u32)
    ensures { Moves H.does H.stops ends.old ends.new }
{
    if word % 64 == 0 {
        let bytes = ((word >> 6) % 64) as usize;
        ends.cut(bytes, bytes);
    }
}

/// Does what `word` says at one of the ends, or cuts both ways, once in about a thousand words.
/// Makes no call where `most` were made. Errs if memory runs out.
fn step<H: Handler + Drop>(
    alloc: Global,
    ends: &mut Ends<H>,
    most: usize,
    word: u32,
) -> Result<(), AllocError>
    ensures { OnOk result (Moves H.does H.stops ends.old ends.new) }
{
    let rest = word >> 4;
    let bytes = (rest % 64) as usize;
    match word % 16 {
        0 | 1 => call(alloc, ends, most, rest),
        2..=4 => ends.send_up(bytes),
        5..=7 => ends.feed_server(bytes),
        8 | 9 => ends.answer(bytes % 4),
        10 | 11 => ends.send_down(bytes),
        12 | 13 => ends.feed_client(bytes),
        14 => ends.collect(),
        _ => {
            cut(ends, rest);
            Ok(())
        }
    }
}

/// Makes two ends, and does steps in an order that is drawn from `seed`, a hundred for each of
/// `calls`, which are the most that are made. Then it tells both ends that no more bytes come.
/// Returns the ends. Errs if memory runs out.
pub(crate) fn run<H: Handler + Drop>(
    alloc: Global,
    handler: H,
    seed: u64,
    calls: u16,
) -> Result<Ends<H>, AllocError>
    ensures { IfOk result (λ ends. HaveRun H.does H.stops handler ends) }
{
    let mut ends = Ends::new(alloc, handler)?;
    let mut words = Pcg32::new(seed, STREAM);
    for _ in 0..u32::from(calls) * STEPS_A_CALL {
        step(alloc, &mut ends, usize::from(calls), words.next_word())?;
    }
    ends.end();
    channels_hold::<H>();
    Ok(ends)
}
