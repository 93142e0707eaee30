//! Names what a line of a script can say.

ghost use Rattle.wire_play.specs.Lent.{Lends};

use wire_model::{Event, WorldLimits};
use wire_msg::PayloadBuf;
use wire_peer::CallKind;

/// The handlers that a script can name.
#[derive(Clone, Copy, Debug, PartialEq, Eq)]
pub enum HandlerName {
    /// `echo`
    Echo,
    /// `count`
    Count,
}

/// The handler and the limits of a script's world. The numbers may be out of range.
#[derive(Clone, Copy, Debug, PartialEq, Eq)]
pub struct Setup {
    /// The handler of its requests.
    pub handler: HandlerName,
    /// Its limits.
    pub limits: WorldLimits,
}

/// An event that owns its bytes.
#[derive(Drop)]
pub enum ScriptEvent {
    /// An event without bytes.
    Bare(Event<'static>),
    /// A call of this kind with this payload, over this connection.
    Call(u64, CallKind, PayloadBuf),
    /// Bytes that are fed to the server of this raw connection.
    Raw(u64, Vec<u8>),
}

impl ScriptEvent {
    /// Borrows the event.
    pub fn as_event(&self) -> Event<'_>
        ensures { Lends self.now result }
    {
        match self {
            ScriptEvent::Bare(event) => *event,
            ScriptEvent::Call(connection, kind, payload) => {
                Event::Call(*connection, *kind, payload.as_payload())
            }
            ScriptEvent::Raw(connection, bytes) => Event::Raw(*connection, bytes),
        }
    }
}

/// What a line of a script says.
#[derive(Drop)]
pub enum Line {
    /// The world, by its handler and limits.
    World(Setup),
    /// An event in the world.
    Event(ScriptEvent),
}
