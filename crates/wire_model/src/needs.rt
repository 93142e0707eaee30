//! What an event needs of its connection.

ghost use Rattle.std.specs.Prelude.{◌≡◌, true};
ghost use Rattle.wire_model.specs.Needing.{needs_of, no_needs};

use crate::events::Event;

/// What an event needs of the connection of this number.
#[derive(Clone, Copy, Debug, PartialEq, Eq)]
pub struct Needs {
    /// The connection's number.
    pub connection: u64,
    /// It must have a client of ours, and not be raw.
    pub client: bool,
    /// It must be raw.
    pub raw: bool,
    /// The pool must have lent it.
    pub loan: bool,
    /// The way up must not be cut.
    pub up: bool,
    /// The way down must not be cut.
    pub down: bool,
}

/// Returns the needs of an event that needs only that the connection is there.
fn no_needs(connection: u64) -> Needs
    ensures { result ≡ no_needs connection }
{
    Needs {
        connection,
        client: false,
        raw: false,
        loan: false,
        up: false,
        down: false,
    }
}

impl Needs {
    /// Returns these needs, and that the connection has a client of ours.
    fn of_ours(self) -> Needs
        ensures { result ≡ record self { client = true } }
    {
        Needs {
            client: true,
            ..self
        }
    }

    /// Returns these needs, and that the connection is raw.
    fn of_raw(self) -> Needs
        ensures { result ≡ record self { raw = true } }
    {
        Needs { raw: true, ..self }
    }

    /// Returns these needs, and that the connection is lent.
    fn lent(self) -> Needs
        ensures { result ≡ record self { loan = true } }
    {
        Needs { loan: true, ..self }
    }

    /// Returns these needs, and that the way up isn't cut.
    fn way_up(self) -> Needs
        ensures { result ≡ record self { up = true } }
    {
        Needs { up: true, ..self }
    }

    /// Returns these needs, and that the way down isn't cut.
    fn way_down(self) -> Needs
        ensures { result ≡ record self { down = true } }
    {
        Needs { down: true, ..self }
    }
}

impl Event<'_> {
    /// Returns what the event needs of its connection, or `None` if it has none.
    pub fn needs(&self) -> Option<Needs>
        ensures { result ≡ needs_of self.now }
    {
        let needs = match *self {
            Event::Open | Event::Clear | Event::Restart | Event::RawOpen => return None,
            Event::Return(c) => no_needs(c).of_ours().lent(),
            Event::Call(c, _, _) => no_needs(c).of_ours().lent().way_up().way_down(),
            Event::Up(c, _) => no_needs(c).of_ours().way_up(),
            Event::Down(c, _) => no_needs(c).of_ours().way_down(),
            Event::Answer(c, _) => no_needs(c),
            Event::CutUp(c) => no_needs(c).way_up(),
            Event::CutDown(c) => no_needs(c).of_ours().way_down(),
            Event::Raw(c, _) => no_needs(c).of_raw().way_up(),
            Event::RawTake(c, _) => no_needs(c).of_raw().way_down(),
        };
        Some(needs)
    }
}
