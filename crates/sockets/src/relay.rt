//! Two links, and the ways between them.

ghost use Rattle.std.specs.Prelude.{◌≡◌, IfOk};
ghost use Rattle.sockets.specs.RelayActs.{Turns, new_relay, tells};

use crate::tap::Tap;
use crate::turned::{RelayFault, Turned};
use crate::way::{EndSending, Way};
use std::alloc::{AllocError, Global};
use std::marker::Model;

/// Passes bytes between two links, both ways. Contracts see it as the record `RelayView`.
#[derive(Drop)]
pub struct Relay<N, F> {
    near: N,
    far: F,
    there: Way,
    back: Way,
}

impl<N, F> Model for Relay<N, F> {
    ghost use Rattle.sockets.specs.RelayActs.{RelayView};

    ghost Value = { RelayView N F };

    ghost view = { λ s. record { near = s.near; far = s.far; there = s.there; back = s.back } };
}

impl<N: EndSending + Drop, F: EndSending + Drop> Relay<N, F> {
    /// Makes a relay between two links. Takes memory for what the ways hold; no other call takes
    /// any.
    ///
    /// # Errors
    ///
    /// Returns `AllocError` if memory runs out. The links are dropped then.
    pub fn new(alloc: Global, near: N, far: F) -> Result<Relay<N, F>, AllocError>
        ensures { IfOk result (λ relay. relay ≡ new_relay near far) }
    {
        let there = Way::new(alloc)?;
        let back = Way::new(alloc)?;
        Ok(Relay {
            near,
            far,
            there,
            back,
        })
    }

    /// Returns the near link.
    pub fn near(&self) -> &N
        ensures { result.now ≡ self.now.near }
    {
        &self.near
    }

    /// Returns the near link, to do something with it between turns.
    pub fn near_mut(&mut self) -> &mut N
        ensures { result.now ≡ self.old.near }
    {
        &mut self.near
    }

    /// Returns the far link, to do something with it between turns.
    pub fn far_mut(&mut self) -> &mut F
        ensures { result.now ≡ self.old.far }
    {
        &mut self.far
    }

    /// Returns the far link.
    pub fn far(&self) -> &F
        ensures { result.now ≡ self.now.far }
    {
        &self.far
    }

    /// Takes a step on each way.
    fn step<A: Tap, B: Tap>(
        &mut self,
        there_tap: &mut A,
        back_tap: &mut B,
    ) -> Result<Turned, RelayFault>
        ensures { Turns (tells N.received N.sent N.ends N.waits N.failures N.endings)
            (tells F.received F.sent F.ends F.waits F.failures F.endings)
            1 result self.old self.new
            (A.seen there_tap.old) (A.seen there_tap.new)
            (B.seen back_tap.old) (B.seen back_tap.new) }
    {
        let there = self.there.step(&mut self.near, &mut self.far, there_tap)?;
        let back = self.back.step(&mut self.far, &mut self.near, back_tap)?;
        Ok(there.and(back))
    }

    /// Takes a turn of at most `steps` steps on each way. `there` sees what comes over the near link,
    /// and `back` what comes over the far one.
    ///
    /// # Errors
    ///
    /// Returns what a link failed at. Nothing is lost, and nothing is sent twice.
    pub fn turn<A: Tap, B: Tap>(
        &mut self,
        steps: u32,
        there: &mut A,
        back: &mut B,
    ) -> Result<Turned, RelayFault>
        ensures { Turns (tells N.received N.sent N.ends N.waits N.failures N.endings)
            (tells F.received F.sent F.ends F.waits F.failures F.endings)
            steps result self.old self.new
            (A.seen there.old) (A.seen there.new) (B.seen back.old) (B.seen back.new) }
    {
        for i in 0..steps {
            match self.step(there, back)? {
                Turned::Again => {}
                over => return Ok(over),
            }
        }
        Ok(Turned::Again)
    }
}
