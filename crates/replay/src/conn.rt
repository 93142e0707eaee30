//! A connection of the record, and the one to the server over which its requests go.

ghost use Rattle.std.specs.Prelude.{◌≡◌, ◌⊎◌, ◌++◌, ◌==◌, ◌∷◌, [], false, IfSome, List, None};
ghost use Rattle.std.specs.Prelude.{Ok, OnOk, Some, is_none, is_some, length, not, option_map, ℕ};
ghost use Rattle.wire_frames.specs.{IsWholeFrame, frame_bytes};
ghost use Rattle.replay.specs.Gives.{GivesOver};
ghost use Rattle.replay.specs.MatchingRuns.{Act, Does, DoesSome, expect, meet};
ghost use Rattle.replay.specs.Matchings.{first_due, left_over, nothing, seen};
ghost use Rattle.replay.specs.Paces.{least};
ghost use Rattle.replay.specs.Stalls.{is_late, stalled};
ghost use Rattle.replay.specs.Talks.{IsAnswer, asking, closing, due_of, is_ended, losing};
ghost use Rattle.replay.specs.Talks.{request_in};
ghost use Rattle.replay.specs.declared.answers.Answer.{Answer};

use crate::channel::{Broken, Channel, Coming, Sent};
use crate::dialog::Dialog;
use crate::finding::Finding;
use crate::pace::{Taken, earlier};
use std::alloc::{AllocError, Global};
use std::io::ErrorKind;
use wire_frames::RawFrame;
use wire_stream::{Link, LinkFault};

/// The most messages that are taken of a connection that failed. The system holds fewer.
const HELD: u32 = 1 << 20;

/// A connection of the record, and the one to the server.
#[derive(Drop)]
pub struct Conn<L: Link + Drop> {
    /// The number of the recorded connection.
    pub number: u64,
    /// The connection to the server, as long as something may go over it.
    channel: Option<Channel<L>>,
    /// Why nothing goes over it, if it is so and wasn't found yet.
    untold: Option<Broken>,
    dialog: Dialog,
    /// Up to when the server has to take more of what is to be sent, if that wasn't sent.
    stall: Option<Stall>,
    /// More may be there than the last turn took.
    has_more: bool,
}

/// What is to be sent and wasn't.
#[derive(Clone, Copy)]
struct Stall {
    /// For how many microseconds the server may take nothing of it.
    patience: u64,
    /// Up to when it has to take some.
    due: u64,
}

/// Returns what is left to be sent after a call that sent `sent`, before which this was. The server
/// has to take more of it within `patience` from now on, or from when it took some last.
fn stall_after(sent: Sent, before: Option<Stall>, now: u64, patience: u64) -> Option<Stall>
    ensures { result ≡ stalled sent before now patience }
{
    match sent {
        Sent::All => None,
        Sent::Nothing if before.is_some() => before,
        Sent::Nothing | Sent::Part => Some(Stall {
            patience,
            due: now.saturating_add(patience),
        }),
    }
}

/// Returns true if it was the server that ended a connection.
fn is_ended(broken: Broken) -> bool
    ensures { result ≡ is_ended broken }
{
    matches!(broken, Broken::Ended)
}

impl<L: Link + Drop> Conn<L> {
    /// Begins a connection of this number, over one to the server, unless there is none, for a
    /// reason that is found later. It takes no memory.
    fn new(
        alloc: Global,
        number: u64,
        channel: Option<Channel<L>>,
        untold: Option<Broken>,
    ) -> Conn<L>
        ensures number { result.number ≡ number }
        ensures channel { result.channel ≡ channel }
        ensures untold { result.untold ≡ untold }
        ensures seen { seen result.dialog.matching ≡ nothing }
        ensures idle { (result.stall ≡ None) × (result.has_more ≡ false) }
    {
        Conn {
            number,
            channel,
            untold,
            dialog: Dialog::new(alloc),
            stall: None,
            has_more: false,
        }
    }

    /// Begins a connection of this number over one to the server. It takes no memory.
    pub fn over(alloc: Global, number: u64, channel: Channel<L>) -> Conn<L>
        ensures number { result.number ≡ number }
        ensures channel { result.channel ≡ Some channel }
        ensures seen { seen result.dialog.matching ≡ nothing }
    {
        Conn::new(alloc, number, Some(channel), None)
    }

    /// Begins a connection of this number to which there is none to the server, for this reason,
    /// which is found with the first record of it. It takes no memory.
    pub fn lost(alloc: Global, number: u64, broken: Broken) -> Conn<L>
        ensures number { result.number ≡ number }
        ensures channel { result.channel ≡ None }
        ensures untold { result.untold ≡ Some broken }
        ensures seen { seen result.dialog.matching ≡ nothing }
    {
        Conn::new(alloc, number, None, Some(broken))
    }

    /// Returns true if recorded answers are awaited.
    pub fn awaits(&self) -> bool
        ensures { result ≡ not (length (seen self.now.dialog.matching).awaited == 0) }
    {
        self.dialog.awaits()
    }

    /// Returns true if it is to take another turn at once.
    pub fn has_more(&self) -> bool
        ensures { result ≡ self.now.has_more }
    {
        self.has_more
    }

    /// Returns true if something is left to be sent.
    pub fn waits(&self) -> bool
        ensures { result ≡ is_some self.now.stall }
    {
        self.stall.is_some()
    }

    /// Returns true if all that is to be sent was sent.
    pub fn is_sent(&self) -> bool
        ensures { result ≡ is_none self.now.stall }
    {
        self.stall.is_none()
    }

    /// Finds that nothing more goes over the connection, if it is so and wasn't found, and that the
    /// awaited answers are missing.
    fn lose(&mut self, findings: &mut Vec<Finding>) -> Result<(), AllocError>
        ensures does { OnOk result (Does (losing self.old.untold)
            (seen self.old.dialog.matching) (seen self.new.dialog.matching)
            findings.old.items findings.new.items) }
        ensures others { self.new ≡ record self.old { untold = None; dialog = self.new.dialog } }
    {
        if let Some(broken) = self.untold.take() {
            findings.push(Finding::Failed(broken))?;
        }
        self.dialog.give_up(u64::MAX, findings)
    }

    /// Closes the connection, over which nothing more goes. It is found if answers are awaited or a
    /// request wasn't sent whole, or if it wasn't the server that ended it.
    fn close(&mut self, broken: Broken, findings: &mut Vec<Finding>) -> Result<(), AllocError>
        ensures does { OnOk result
            (Does (closing (seen self.old.dialog.matching) self.old.stall broken)
            (seen self.old.dialog.matching) (seen self.new.dialog.matching)
            findings.old.items findings.new.items) }
        ensures closed { self.new.channel ≡ None }
        ensures sent { self.new.stall ≡ None }
        ensures number { self.new.number ≡ self.old.number }
        ensures more { self.new.has_more ≡ self.old.has_more }
    {
        let is_told = self.awaits() || !self.is_sent() || !is_ended(broken);
        self.channel = None;
        self.untold = Some(broken);
        self.stall = None;
        if is_told {
            self.lose(findings)?;
        }
        Ok(())
    }

    /// Returns why nothing more goes over the connection, on which sending failed.
    fn unsent(&self, fault: LinkFault) -> Broken
        ensures { (result ≡ Broken.Sending fault) ⊎ (result ≡ Broken.Unconnected fault) }
    {
        match &self.channel {
            Some(channel) => channel.cause(fault, Broken::Sending(fault)),
            None => Broken::Sending(fault),
        }
    }

    /// Takes the answers that came before sending failed, and closes the connection.
    fn fail(&mut self, fault: LinkFault, findings: &mut Vec<Finding>) -> Result<(), AllocError>
        ensures does { OnOk result
            (DoesSome (seen self.old.dialog.matching) (seen self.new.dialog.matching)
            findings.old.items findings.new.items) }
        ensures closed { OnOk result (self.new.channel ≡ None) }
        ensures number { self.new.number ≡ self.old.number }
    {
        self.take_held(findings)?;
        let broken = self.unsent(fault);
        self.close(broken, findings)?;
        Ok(())
    }

    /// Sends what waits to be sent. The server has to take more of the rest within `patience`, which
    /// begins anew whenever it took some.
    fn flush(
        &mut self,
        now: u64,
        patience: u64,
        findings: &mut Vec<Finding>,
    ) -> Result<(), AllocError>
        ensures does { OnOk result
            (DoesSome (seen self.old.dialog.matching) (seen self.new.dialog.matching)
            findings.old.items findings.new.items) }
        ensures given { OnOk result (GivesOver (λ c. L.sent c.link) (λ c. c.waiting)
            self.old.channel self.new.channel []) }
        ensures number { self.new.number ≡ self.old.number }
    {
        let Some(channel) = &mut self.channel else {
            return Ok(());
        };
        match channel.flush() {
            Ok(sent) => {
                self.stall = stall_after(sent, self.stall, now, patience);
            }
            Err(fault) => self.fail(fault, findings)?,
        }
        Ok(())
    }

    /// Sends a recorded request as these bytes. Of what can't be sent at once, the server has to take
    /// some within some time. It is found if nothing goes over the connection.
    ///
    /// # Errors
    ///
    /// Returns `AllocError` if memory runs out.
    pub fn send(
        &mut self,
        frame: RawFrame<'_>,
        sent: &[u8],
        taken: Taken,
        findings: &mut Vec<Finding>,
    ) -> Result<(), AllocError>
        ensures lost { self.old.channel ≡ None → OnOk result (Does (losing self.old.untold)
            (seen self.old.dialog.matching) (seen self.new.dialog.matching)
            findings.old.items findings.new.items) }
        ensures given { OnOk result (GivesOver (λ c. L.sent c.link) (λ c. c.waiting)
            self.old.channel self.new.channel sent.now) }
        ensures number { self.new.number ≡ self.old.number }
    {
        match &mut self.channel {
            Some(channel) => channel.push(sent)?,
            None => return self.lose(findings),
        }
        self.dialog.ask(frame, taken, findings)?;
        self.flush(taken.now, taken.patience(None), findings)?;
        Ok(())
    }

    /// Awaits a recorded answer for as long as the record took for it, and some time more, or
    /// compares it, if its counterpart came. If nothing more comes, it is missing at once.
    ///
    /// # Errors
    ///
    /// Returns `AllocError` if memory runs out.
    pub fn expect(
        &mut self,
        frame: RawFrame<'_>,
        taken: Taken,
        findings: &mut Vec<Finding>,
    ) -> Result<(), AllocError>
        ensures does { OnOk result ((answer : Answer) × (acts : List Act)
            × IsAnswer self.old.dialog.recorded.list.items (frame_bytes frame.entry)
            (due_of (request_in self.old.dialog.recorded.list.items (frame_bytes frame.entry)) taken
            self.old.dialog.asked.requests.items) answer
            × Does (expect answer ∷ acts)
            (seen self.old.dialog.matching) (seen self.new.dialog.matching)
            findings.old.items findings.new.items) }
        ensures channel { self.new.channel ≡ self.old.channel }
        ensures number { self.new.number ≡ self.old.number }
    {
        self.dialog.expect(frame, taken, findings)?;
        if self.channel.is_none() && self.awaits() {
            self.lose(findings)?;
        }
        Ok(())
    }

    /// Takes the message that came, and lets go of it in the connection.
    fn take_message(&mut self, findings: &mut Vec<Finding>) -> Result<(), AllocError>
        ensures does { OnOk result
            (DoesSome (seen self.old.dialog.matching) (seen self.new.dialog.matching)
            findings.old.items findings.new.items) }
        ensures given { GivesOver (λ c. L.sent c.link) (λ c. c.waiting)
            self.old.channel self.new.channel [] }
        ensures number { self.new.number ≡ self.old.number }
    {
        let Some(channel) = &mut self.channel else {
            return Ok(());
        };
        let Some(frame) = channel.message() else {
            return Ok(());
        };
        self.dialog.meet(frame, findings)?;
        channel.release();
        Ok(())
    }

    /// Receives until a message is whole.
    fn receive(&mut self) -> Result<Coming, AllocError>
        ensures given { GivesOver (λ c. L.sent c.link) (λ c. c.waiting)
            self.old.channel self.new.channel [] }
        ensures none { self.old.channel ≡ None → result ≡ Ok Coming.Later }
        ensures others { self.new ≡ record self.old { channel = self.new.channel } }
    {
        match &mut self.channel {
            Some(channel) => channel.receive(),
            None => Ok(Coming::Later),
        }
    }

    /// Takes all messages that came.
    fn take_held(&mut self, findings: &mut Vec<Finding>) -> Result<(), AllocError>
        ensures does { OnOk result
            (DoesSome (seen self.old.dialog.matching) (seen self.new.dialog.matching)
            findings.old.items findings.new.items) }
        ensures number { self.new.number ≡ self.old.number }
    {
        for _ in 0..HELD {
            match self.receive()? {
                Coming::Message => self.take_message(findings)?,
                Coming::Later | Coming::Over(_) => break,
            }
        }
        Ok(())
    }

    /// Takes a message that came, if one did, and notes whether more may be there. If nothing more
    /// comes, closes the connection.
    ///
    /// # Errors
    ///
    /// Returns `AllocError` if memory runs out.
    pub fn step(&mut self, findings: &mut Vec<Finding>) -> Result<(), AllocError>
        ensures does { OnOk result
            (DoesSome (seen self.old.dialog.matching) (seen self.new.dialog.matching)
            findings.old.items findings.new.items) }
        ensures given { OnOk result (GivesOver (λ c. L.sent c.link) (λ c. c.waiting)
            self.old.channel self.new.channel []) }
        ensures number { self.new.number ≡ self.old.number }
    {
        self.has_more = false;
        match self.receive()? {
            Coming::Message => {
                self.has_more = true;
                self.take_message(findings)?;
                Ok(())
            }
            Coming::Over(broken) => {
                self.close(broken, findings)?;
                Ok(())
            }
            Coming::Later => Ok(()),
        }
    }

    /// Sends what waits to be sent.
    ///
    /// # Errors
    ///
    /// Returns `AllocError` if memory runs out.
    pub fn resume(&mut self, now: u64, findings: &mut Vec<Finding>) -> Result<(), AllocError>
        ensures does { OnOk result
            (DoesSome (seen self.old.dialog.matching) (seen self.new.dialog.matching)
            findings.old.items findings.new.items) }
        ensures given { OnOk result (GivesOver (λ c. L.sent c.link) (λ c. c.waiting)
            self.old.channel self.new.channel []) }
        ensures number { self.new.number ≡ self.old.number }
    {
        if let Some(stall) = self.stall {
            self.flush(now, stall.patience, findings)?;
        }
        Ok(())
    }

    /// Closes the connection if the server took nothing of what is to be sent for too long.
    /// Otherwise finds the answers that are missing by then, and gives them up.
    ///
    /// # Errors
    ///
    /// Returns `AllocError` if memory runs out.
    pub fn expire(&mut self, now: u64, findings: &mut Vec<Finding>) -> Result<(), AllocError>
        ensures does { OnOk result
            (DoesSome (seen self.old.dialog.matching) (seen self.new.dialog.matching)
            findings.old.items findings.new.items) }
        ensures given { OnOk result (GivesOver (λ c. L.sent c.link) (λ c. c.waiting)
            self.old.channel self.new.channel []) }
        ensures number { self.new.number ≡ self.old.number }
    {
        if self.is_late(now) {
            let kind = ErrorKind::TimedOut;
            self.fail(LinkFault { kind }, findings)?;
        } else {
            self.dialog.give_up(now, findings)?;
        }
        Ok(())
    }

    /// Returns true if the server took nothing of what is to be sent for too long by now.
    fn is_late(&self, now: u64) -> bool
        ensures { result ≡ is_late now self.now.stall }
    {
        match self.stall {
            Some(stall) => stall.due <= now,
            None => false,
        }
    }

    /// Returns the first moment up to which an answer is awaited, or bytes have to be sent.
    pub fn least_due(&self) -> Option<u64>
        ensures { result ≡ least (first_due (seen self.now.dialog.matching).awaited)
            (option_map (λ stall. stall.due) self.now.stall) }
    {
        earlier(self.dialog.due_first(), self.stall.map(|stall| stall.due))
    }

    /// Finds of the answers that are left at the end whether the record lacks them, or whether they
    /// are unexpected.
    ///
    /// # Errors
    ///
    /// Returns `AllocError` if memory runs out.
    pub fn finish(&mut self, findings: &mut Vec<Finding>) -> Result<(), AllocError>
        ensures found { OnOk result (findings.new.items ≡ findings.old.items ++ left_over
            (seen self.old.dialog.matching).open_ids (seen self.old.dialog.matching).early) }
        ensures others { self.new ≡ record self.old { dialog = self.new.dialog } }
    {
        self.dialog.finish(findings)
    }
}
