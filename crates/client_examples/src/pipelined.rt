//! `client_examples pipelined ADDRESS` connects to a server over TCP, makes 100 calls before it
//! takes a reply, and prints a line for each reply when it comes. The server may answer in any
//! order: each reply goes to its own call.

ghost use Rattle.std.specs.Prelude.{◌≡◌, ◌<◌, ℕ, OnOk, Some, slice_get, true};
ghost use Rattle.wire_model.specs.{Done, Record};

use anyhow::{Result, bail};
use bson_raw::RawDocument;
use std::env::Args;
use std::io;
use std::io::Write;
use std::net::{Net, TcpStream};
use wire_end::{CallState, ClientEnd, Next};
use wire_msg::{MAX_MESSAGE_LEN, Payload, PayloadBuf};
use wire_peer::Client;
use wire_stream::{Link, TcpLink};

/// How many calls are outstanding at once.
const CALLS: u64 = 100;

/// `{"ping": 1, "$db": "admin"}`.
const PING: &[u8] = b"\x1e\0\0\0\x10ping\0\x01\0\0\0\x02$db\0\x06\0\0\0admin\0\0";

/// Returns true if all the calls are done.
fn are_done<L: Link + Drop>(end: &ClientEnd<L>) -> bool
    ensures { result ≡ true → (n : ℕ) → n < CALLS → (x : Record)
        × (slice_get end.now.own.records n ≡ Some x) × (x.state ≡ Done) }
{
    for number in 0..CALLS {
        match end.record(number) {
            Some(record) if record.state == CallState::Done => {}
            _ => return false,
        }
    }
    true
}

/// Makes the calls, sends all their requests, and writes a line for each reply that comes. Each
/// call is done then.
fn pipeline<L: Link + Drop>(
    end: &mut ClientEnd<L>,
    payload: Payload<'_>,
    out: &mut impl Write,
) -> Result<()>
    ensures { OnOk result ((n : ℕ) → n < CALLS → (x : Record)
        × (slice_get end.new.own.records n ≡ Some x) × (x.state ≡ Done)) }
{
    for _ in 0..CALLS {
        end.call(payload)?;
    }
    end.flush()?;
    for _ in 0..CALLS {
        if let Next::Reply(reply) = end.next_reply()? {
            writeln!(out, "call {} has its reply", reply.call)?;
        }
    }
    if !are_done(end) {
        bail!("a call has no reply");
    }
    Ok(())
}

/// Runs the example by the words behind its name.
pub(crate) fn run_words<R: Net + Print + AllocGlobal>(rt: &R, mut words: Args) -> Result<()> {
    let alloc = rt.alloc();
    let Some(address) = words.next() else {
        bail!("usage: client_examples pipelined ADDRESS");
    };
    let Ok(body) = RawDocument::from_bytes(PING) else {
        bail!("PING is no document");
    };
    let payload = PayloadBuf::new(alloc, body)?;
    let stream = TcpStream::connect(rt, address.as_str())?;
    let client = Client::new(alloc, 1, CALLS as usize, MAX_MESSAGE_LEN)?;
    let mut end = ClientEnd::new(alloc, 1, client, TcpLink::new(stream))?;
    pipeline(&mut end, payload.as_payload(), &mut io::writer(rt))
}
