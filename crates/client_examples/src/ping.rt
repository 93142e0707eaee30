//! `client_examples ping ADDRESS` connects to a server over TCP, pings it, and prints the body of
//! the reply.

ghost use Rattle.std.specs.Prelude.{◌≡◌, ◌∷◌, List, OnOk, Some, slice_get};
ghost use Rattle.bson_text.specs.{document_text};
ghost use Rattle.text_writer.specs.{WritesOut};
ghost use Rattle.wire_model.specs.{ClientAct, Record};
ghost use Rattle.wire_model.specs.Owners.{Calls};
ghost use Rattle.wire_end.specs.{EndRuns};
ghost use Rattle.wire_msg.specs.{Content};
ghost use Rattle.wire_peer.specs.declared.calls.CallKind.TheVariants.{Plain};

use anyhow::{Result, bail};
use bson_raw::RawDocument;
use bson_text::dump_to;
use std::env::Args;
use std::io;
use std::io::Write;
use std::net::{Net, TcpStream};
use wire_end::ClientEnd;
use wire_msg::{MAX_MESSAGE_LEN, Payload, PayloadBuf};
use wire_peer::{CallNo, Client};
use wire_stream::{Link, TcpLink};

/// `{"ping": 1, "$db": "admin"}`.
const PING: &[u8] = b"\x1e\0\0\0\x10ping\0\x01\0\0\0\x02$db\0\x06\0\0\0admin\0\0";

/// Makes the call, waits for its reply, and writes the body of that.
fn ping<L: Link + Drop, W: Write>(
    end: &mut ClientEnd<L>,
    payload: Payload<'_>,
    out: &mut W,
) -> Result<()>
    ensures { OnOk result ((call : CallNo) × (acts : List ClientAct)
        × EndRuns L.sent L.received end.old (Calls Plain payload.entry call ∷ acts) end.new
        × (x : Record) × (slice_get end.new.own.records call.number ≡ Some x)
        × (reply : Content) × (slice_get x.parts 0 ≡ Some reply)
        × WritesOut W.contents out.old out.new (document_text reply.body)) }
{
    let call = end.call(payload)?;
    end.flush()?;
    end.next_reply()?;
    if let Some(record) = end.record(call.number)
        && let Some(reply) = record.parts.first()
    {
        return Ok(dump_to(reply.as_payload().body(), out)?);
    }
    bail!("the call has no reply")
}

/// Runs the example by the words behind its name.
pub(crate) fn run_words<R: Net + Print + AllocGlobal>(rt: &R, mut words: Args) -> Result<()> {
    let alloc = rt.alloc();
    let Some(address) = words.next() else {
        bail!("usage: client_examples ping ADDRESS");
    };
    let Ok(body) = RawDocument::from_bytes(PING) else {
        bail!("PING is no document");
    };
    let payload = PayloadBuf::new(alloc, body)?;
    let stream = TcpStream::connect(rt, address.as_str())?;
    let client = Client::new(alloc, 1, 1, MAX_MESSAGE_LEN)?;
    let mut end = ClientEnd::new(alloc, 1, client, TcpLink::new(stream))?;
    ping(&mut end, payload.as_payload(), &mut io::writer(rt))
}
