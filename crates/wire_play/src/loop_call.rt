//! One call over a connection of the program with itself: its client asks, its server answers, and
//! the client takes the reply.

ghost use Rattle.std.specs.Prelude.{◌≡◌, ◌≢◌, ◌+◌, ◌++◌, ◌∷◌, ◌↔◌, ℕ, [], List, Err, IfErr, IfOk};
ghost use Rattle.std.specs.Prelude.{IsTrue, OnOk, Some, false, map, pos, slice_get};
ghost use Rattle.std.specs.Io.KnownBytes.{Appends};
ghost use Rattle.bson_elem.specs.{Spells, Tree};
ghost use Rattle.bson_raw.specs.{document_bytes};
ghost use Rattle.command_run.specs.{is_done};
ghost use Rattle.wire_play.specs.Calling.{AreComplete, call_body};
ghost use Rattle.wire_play.specs.Loopback.{AreNew, GetsReply, IsEchoed, arrived, echo_does};
ghost use Rattle.wire_play.specs.Loopback.{echo_stops, request_bytes};
ghost use Rattle.wire_model.specs.{ClientAct, Record, ServerAct};
ghost use Rattle.wire_model.specs.Owners.{Calls, Collects, SendsUp, TakesDown};
ghost use Rattle.wire_end.specs.{EndRuns, ServerEndRuns};
ghost use Rattle.wire_msg.specs.{BufCarries, Carries, Content, Message, body_alone};
ghost use Rattle.wire_peer.specs.{buf_content, log_of};
ghost use Rattle.wire_peer.specs.declared.call_table.ReadyReply.{ReadyReply};
ghost use Rattle.wire_peer.specs.declared.calls.CallKind.TheVariants.{Plain};

use bson_doc::{Bson, RawDocumentBuf};
use bson_raw::RawDocument;
use command_run::RunEnd;
use std::alloc::{AllocError, Global};
use wire_end::{CallRecord, ClientEnd, EndFault, Next, NextRequest, RequestFault, ServerEnd};
use wire_msg::{MAX_MESSAGE_LEN, Payload, PayloadBuf};
use wire_peer::{AnswerRefusal, CallNo, CallRefusal, Client, Echo, Logged, Server, ServerCause};
use wire_stream::{Flushed, Link, LinkFault};

/// The two ends of the connection, and the log of the server's handler.
#[derive(Drop)]
pub(crate) struct Loopback<L> {
    pub(crate) client: ClientEnd<L>,
    pub(crate) server: ServerEnd<L>,
    pub(crate) logged: Logged<Echo>,
}

impl<L: Link + Drop> Loopback<L> {
    /// Returns a client and a server that have made and answered nothing, each with its link. Errs
    /// if memory runs out.
    pub(crate) fn new(alloc: Global, near: L, far: L) -> Result<Loopback<L>, AllocError>
        ensures { IfOk result (λ loopback.
            AreNew near far loopback.client loopback.server loopback.logged) }
    {
        let Ok(client) = Client::new(alloc, 1, 1, MAX_MESSAGE_LEN) else {
            unreachable!()
        };
        let Ok(server) = Server::new(alloc, 1, 1, MAX_MESSAGE_LEN) else {
            return Err(AllocError);
        };
        Ok(Loopback {
            client: ClientEnd::new(alloc, 1, client, near)?,
            server: ServerEnd::new(alloc, server, far)?,
            logged: Logged::new(alloc, Echo),
        })
    }

    /// Makes the call of number `k`, answers it, and waits for its reply. Errs if the reply carries
    /// anything but what was sent, if a link failed or ended, if an end was closed, or if memory
    /// ran out.
    pub(crate) fn call(&mut self, alloc: Global, k: u8) -> Result<CallNo, RunEnd>
        requires { AreComplete k self.old.client }
        ensures number { IfOk result (λ call. (call.number ≡ k) × (call.id ≡ pos (k + 1))) }
        ensures complete { OnOk result (AreComplete (k + 1) self.new.client) }
        ensures client { OnOk result ((acts : List ClientAct)
            × EndRuns L.sent L.received self.old.client acts self.new.client) }
        ensures server { OnOk result ((acts : List ServerAct)
            × ServerEndRuns echo_does echo_stops L.sent L.received self.old.server self.old.logged
            acts self.new.server self.new.logged) }
        ensures sent { OnOk result (Appends (L.sent self.old.client.link)
            (L.sent self.new.client.link) (request_bytes k)) }
        ensures echoed { OnOk result (IsEchoed (log_of self.old.logged.entries.items)
            (log_of self.new.logged.entries.items)) }
        ensures reply { OnOk result
            (GetsReply k (L.received self.old.client.link) (L.received self.new.client.link)
            (arrived self.old.client) (arrived self.new.client)) }
        ensures stopped { IfErr result (λ end. is_done end ≡ false) }
        ensures unread { result ≢ Err RunEnd.Unread }
    {
        let payload = payload_of(alloc, k)?;
        let sent = payload.as_payload();
        let call = ask(&mut self.client, sent)?;
        answer(&mut self.server, &mut self.logged)?;
        take_reply(&mut self.client, call.number, sent.body())?;
        Ok(call)
    }
}

/// Returns the payload of a call, whose body is `{"n": number}`. Errs if memory runs out.
fn payload_of(alloc: Global, number: u8) -> Result<PayloadBuf, RunEnd>
    ensures body { IfOk result (λ payload. BufCarries payload (body_alone (call_body number))) }
    ensures stopped { IfErr result (λ end. is_done end ≡ false) }
    ensures unread { result ≢ Err RunEnd.Unread }
{
    let Ok(mut body) = RawDocumentBuf::new(alloc) else {
        return Err(RunEnd::OutOfMemory);
    };
    // A body so short is refused only if memory runs out.
    let Ok(()) = body.append("n", &Bson::Int32(i32::from(number))) else {
        return Err(RunEnd::OutOfMemory);
    };
    match PayloadBuf::new(alloc, body.as_raw()) {
        Ok(payload) => Ok(payload),
        Err(_) => Err(RunEnd::OutOfMemory),
    }
}

/// Returns whether all was sent that waited. Errs if not.
fn whole(flushed: Result<Flushed, LinkFault>) -> Result<(), RunEnd>
    ensures all { OnOk result (flushed ≡ Ok Flushed.All) }
    ensures stopped { IfErr result (λ end. is_done end ≡ false) }
    ensures unread { result ≢ Err RunEnd.Unread }
{
    match flushed {
        Ok(Flushed::All) => Ok(()),
        Ok(Flushed::Later) | Err(_) => Err(RunEnd::InOut),
    }
}

/// Makes a call, and sends its request. Errs if the link failed or memory ran out.
fn ask<L: Link + Drop>(end: &mut ClientEnd<L>, payload: Payload<'_>) -> Result<CallNo, RunEnd>
    ensures asked { IfOk result (λ call. (gone : List ℕ) × EndRuns L.sent L.received end.old
        (Calls Plain payload.entry call ∷ SendsUp gone ∷ []) end.new) }
    ensures sent { OnOk result (end.new.own.client.requests.output ≡ []) }
    ensures stopped { IfErr result (λ end. is_done end ≡ false) }
    ensures unread { result ≢ Err RunEnd.Unread }
{
    let call = match end.call(payload) {
        Ok(call) => call,
        Err(CallRefusal::OutOfMemory) => return Err(RunEnd::OutOfMemory),
        Err(_) => return Err(RunEnd::InOut),
    };
    whole(end.flush())?;
    Ok(call)
}

/// Receives a request, answers it, and sends the reply. Errs if the link failed or ended, if the
/// server was closed, or if memory ran out.
fn answer<L: Link + Drop>(end: &mut ServerEnd<L>, logged: &mut Logged<Echo>) -> Result<(), RunEnd>
    ensures ran { OnOk result ((acts : List ServerAct) × ServerEndRuns echo_does echo_stops
        L.sent L.received end.old logged.old acts end.new logged.new) }
    ensures echoed { OnOk result
        (IsEchoed (log_of logged.old.entries.items) (log_of logged.new.entries.items)) }
    ensures sent { OnOk result (end.new.server.output ≡ []) }
    ensures stopped { IfErr result (λ end. is_done end ≡ false) }
    ensures unread { result ≢ Err RunEnd.Unread }
{
    match end.next_request() {
        Ok(NextRequest::Waits) => {}
        Err(RequestFault::OutOfMemory) => return Err(RunEnd::OutOfMemory),
        Ok(_) | Err(_) => return Err(RunEnd::InOut),
    }
    match end.answer(0, logged) {
        Ok(_) => {}
        Err(AnswerRefusal::OutOfMemory | AnswerRefusal::NowClosed(ServerCause::NoMemory)) => {
            return Err(RunEnd::OutOfMemory);
        }
        Err(_) => return Err(RunEnd::InOut),
    }
    whole(end.flush())
}

/// Waits for the reply to the call of this number. Errs if it carries anything but `body`, if the
/// link failed or ended, if what came closed the client, or if memory ran out.
fn take_reply<L: Link + Drop>(
    end: &mut ClientEnd<L>,
    call: u64,
    body: RawDocument<'_>,
) -> Result<(), RunEnd>
    ensures took { OnOk result ((pieces : List (List ℕ)) × (reply : ReadyReply) × (m : Message)
        × EndRuns L.sent L.received end.old (map TakesDown pieces ++ Collects reply m ∷ [])
        end.new) }
    ensures body { (t : Tree) → Spells t (document_bytes body.entry)
        → OnOk result ((x : Record) × (slice_get end.new.own.records call ≡ Some x)
        × (x.parts ≡ body_alone t ∷ [])) }
    ensures stopped { IfErr result (λ end. is_done end ≡ false) }
    ensures unread { result ≢ Err RunEnd.Unread }
{
    match end.next_reply() {
        Ok(Next::Reply(_)) => {}
        Err(EndFault::OutOfMemory) => return Err(RunEnd::OutOfMemory),
        Ok(Next::Later) | Err(_) => return Err(RunEnd::InOut),
    }
    match end.record(call) {
        Some(record) if is_answered(record, body) => Ok(()),
        _ => Err(RunEnd::InOut),
    }
}

/// Returns true only if the only part of a call is `body`, without a document sequence.
fn is_answered(call: &CallRecord, body: RawDocument<'_>) -> bool
    ensures { (t : Tree) → Spells t (document_bytes body.entry) → IsTrue result
        → map buf_content call.now.parts.items ≡ body_alone t ∷ [] }
{
    match call.parts.as_slice() {
        [part] => is_alone(part.as_payload(), body),
        _ => false,
    }
}

/// Returns true if a payload is `body` and no document sequence.
fn is_alone(payload: Payload<'_>, body: RawDocument<'_>) -> bool
    ensures { (c : Content) (t : Tree) → Carries payload.entry c
        → Spells t (document_bytes body.entry)
        → (IsTrue result ↔ (c ≡ body_alone t)) }
{
    payload.body().as_bytes() == body.as_bytes() && payload.sequences().next().is_none()
}
