//! The two ends, and the two ways between them.

ghost use Rattle.std.specs.Prelude.{◌≡◌, IfOk, MatchResult, OnErr, OnOk};
ghost use Rattle.wire_peer.specs.{IsCallRefusal, IsCalled, called, content_of};
ghost use Rattle.client_examples.specs.Pairs.{Moves, Reached};

use crate::pair::calls::{give, lose_all, new_record};
use crate::pair::way::Way;
use std::alloc::{AllocError, Global};
use wire_end::CallRecord;
use wire_msg::{MAX_MESSAGE_LEN, Payload};
use wire_peer::{
    AnswerRefusal, CallKind, CallNo, CallRefusal, Client, ClientState, Handler, Logged, Server,
    ServerState,
};

/// A client with the records of its calls, a server with its handler and the log of that, and the
/// bytes in flight between them.
#[derive(Drop)]
pub(crate) struct Ends<H> {
    pub(crate) client: Client,
    pub(crate) up: Way,
    pub(crate) down: Way,
    pub(crate) server: Server,
    pub(crate) logged: Logged<H>,
    pub(crate) calls: Vec<CallRecord>,
}

/// Makes a call of this kind.
fn call_as(client: &mut Client, kind: CallKind, payload: Payload<'_>) -> Result<CallNo, CallRefusal>
    ensures called { MatchResult result
        (λ no. IsCalled client.old kind (content_of payload.entry) no
        × (client.new ≡ called client.old kind (content_of payload.entry) no))
        (λ e. IsCallRefusal client.old kind (content_of payload.entry) e) }
    ensures unchanged { OnErr result (client.new ≡ client.old) }
{
    match kind {
        CallKind::Plain => client.call(payload),
        CallKind::Exhaust => client.call_exhaust(payload),
        CallKind::Unacknowledged => client.send_unacknowledged(payload),
    }
}

impl<H: Handler + Drop> Ends<H> {
    /// Returns the ends of a connection over which nothing went. At most four calls are
    /// outstanding, and at most four requests wait. Errs if memory runs out.
    pub(crate) fn new(alloc: Global, handler: H) -> Result<Ends<H>, AllocError>
        ensures { IfOk result (λ ends. Reached H.does H.stops handler ends) }
    {
        let Ok(client) = Client::new(alloc, 1, 4, MAX_MESSAGE_LEN) else {
            unreachable!()
        };
        let Ok(server) = Server::new(alloc, 1, 4, MAX_MESSAGE_LEN) else {
            return Err(AllocError);
        };
        Ok(Ends {
            client,
            up: Way::new(alloc),
            down: Way::new(alloc),
            server,
            logged: Logged::new(alloc, handler),
            calls: Vec::new(alloc),
        })
    }

    /// Makes a call of this kind, unless the client refuses it. Errs if memory runs out.
    pub(crate) fn call(&mut self, kind: CallKind, payload: Payload<'_>) -> Result<(), AllocError>
        ensures { OnOk result (Moves H.does H.stops self.old self.new) }
    {
        let alloc = *self.calls.allocator();
        self.calls.try_reserve(1)?;
        let record = new_record(alloc, kind, payload)?;
        match call_as(&mut self.client, kind, payload) {
            Ok(_) => self.calls.push_reserved(record),
            Err(CallRefusal::OutOfMemory) => return Err(AllocError),
            Err(_) => {}
        }
        Ok(())
    }

    /// Puts up to `most` bytes of the client's output in flight. Errs if memory runs out.
    pub(crate) fn send_up(&mut self, most: usize) -> Result<(), AllocError>
        ensures { OnOk result (Moves H.does H.stops self.old self.new) }
    {
        let output = self.client.output();
        let n = most.min(output.len());
        self.up.put(&output[..n])?;
        self.client.sent(n);
        Ok(())
    }

    /// Puts up to `most` bytes of the server's output in flight. Errs if memory runs out.
    pub(crate) fn send_down(&mut self, most: usize) -> Result<(), AllocError>
        ensures { OnOk result (Moves H.does H.stops self.old self.new) }
    {
        let output = self.server.output();
        let n = most.min(output.len());
        self.down.put(&output[..n])?;
        self.server.sent(n);
        Ok(())
    }

    /// Feeds the server up to `most` of the bytes in flight, if it takes bytes. Errs if memory runs
    /// out.
    pub(crate) fn feed_server(&mut self, most: usize) -> Result<(), AllocError>
        ensures { OnOk result (Moves H.does H.stops self.old self.new) }
    {
        let ServerState::Open = self.server.state() else {
            return Ok(());
        };
        if self.server.is_full() {
            return Ok(());
        }
        let Ok(taken) = self.server.feed(self.up.coming(most)) else {
            return Err(AllocError);
        };
        self.up.arrived(taken);
        Ok(())
    }

    /// Feeds the client up to `most` of the bytes in flight, if it takes bytes. Errs if memory runs
    /// out.
    pub(crate) fn feed_client(&mut self, most: usize) -> Result<(), AllocError>
        ensures { OnOk result (Moves H.does H.stops self.old self.new) }
    {
        if self.client.reply().is_some() || self.client.state() != ClientState::Open {
            return Ok(());
        }
        let Ok(taken) = self.client.feed(self.down.coming(most)) else {
            return Err(AllocError);
        };
        self.down.arrived(taken);
        Ok(())
    }

    /// Has the server answer the request at `index` of those that wait, if there is one. Errs if
    /// memory runs out for the entry.
    pub(crate) fn answer(&mut self, index: usize) -> Result<(), AllocError>
        ensures { OnOk result (Moves H.does H.stops self.old self.new) }
    {
        if let Err(AnswerRefusal::OutOfMemory) = self.server.answer(index, &mut self.logged) {
            return Err(AllocError);
        }
        Ok(())
    }

    /// Adds a copy of the reply that is ready, if one is, to the record of its call, and lets go of
    /// it. Errs if memory runs out.
    pub(crate) fn collect(&mut self) -> Result<(), AllocError>
        ensures { OnOk result (Moves H.does H.stops self.old self.new) }
    {
        let Some(reply) = self.client.reply() else {
            return Ok(());
        };
        give(&mut self.calls, reply)?;
        self.client.release();
        Ok(())
    }

    /// Cuts both ways. Of the bytes in flight, at most `up` and `down` still arrive.
    pub(crate) fn cut(&mut self, up: usize, down: usize)
        ensures { Moves H.does H.stops self.old self.new }
    {
        self.up.cut(up);
        self.down.cut(down);
    }

    /// Tells both ends that no more bytes come. The calls that are pending are lost.
    pub(crate) fn end(&mut self)
        ensures { Moves H.does H.stops self.old self.new }
    {
        self.server.end();
        self.client.end();
        lose_all(&mut self.calls);
    }
}
