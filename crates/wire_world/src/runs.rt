//! Runs of a new world over a list of events.

ghost use Rattle.std.specs.Prelude.{◌≡◌, IfOk, MatchResult};
ghost use Rattle.wire_model.specs.{AreGood, GoesOnFromEach, Headline, IdsApart, QuietIsDone};
ghost use Rattle.wire_model.specs.{RawAnswerOwn, RawGiveOwn, Run, UncutIsOpen, opening};
ghost use Rattle.wire_world.specs.Setups.{IsSetupRefusal};

use crate::worlds::World;
use std::alloc::Global;
use wire_model::{Event, SetupRefusal, WorldLimits};
use wire_peer::Handler;

impl<H: Handler + Drop> World<H> {
    /// Makes a world, and makes the events happen in it, one after another.
    fn run_events(
        alloc: Global,
        handler: H,
        limits: WorldLimits,
        events: &[Event<'_>],
    ) -> Result<World<H>, SetupRefusal>
        ensures { MatchResult result
            (λ w. AreGood limits × (w.limits ≡ limits)
            × Run H.does H.stops limits (opening limits handler) events.now w.state)
            (λ refusal. IsSetupRefusal limits refusal) }
    {
        let mut world = World::new(alloc, handler, limits)?;
        for event in events {
            let _ = world.step(event);
        }
        Ok(world)
    }

    /// Makes a world, and makes the events happen in it, one after another. An event that is
    /// refused doesn't stop the run.
    ///
    /// # Errors
    ///
    /// Returns what `World::new` returns.
    pub fn run(
        alloc: Global,
        handler: H,
        limits: WorldLimits,
        events: &[Event<'_>],
    ) -> Result<World<H>, SetupRefusal>
        ensures run { MatchResult result
            (λ w. AreGood limits × (w.limits ≡ limits)
            × Run H.does H.stops limits (opening limits handler) events.now w.state)
            (λ refusal. IsSetupRefusal limits refusal) }
        ensures headline { IfOk result (λ w. Headline H.does H.stops handler w.state) }
        ensures goes_on { IfOk result
            (λ w. GoesOnFromEach H.does H.stops limits handler events.now w.state) }
        ensures quiet { IfOk result (λ w. QuietIsDone w.state) }
        ensures uncut { IfOk result (λ w. UncutIsOpen w.state) }
        ensures ids { IfOk result (λ w. IdsApart w.state) }
        ensures entries { IfOk result (λ w.
            (ran : Run H.does H.stops limits (opening limits handler) events.now w.state)
            × (shown : Headline H.does H.stops handler w.state)
            × RawAnswerOwn H.does H.stops limits handler events.now w.state ran shown.m) }
        ensures replies { IfOk result (λ w.
            (ran : Run H.does H.stops limits (opening limits handler) events.now w.state)
            × (shown : Headline H.does H.stops handler w.state)
            × RawGiveOwn H.does H.stops limits handler events.now w.state ran shown.m) }
    {
        World::run_events(alloc, handler, limits, events)
    }
}
