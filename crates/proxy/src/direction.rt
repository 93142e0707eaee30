//! Which way messages go.

ghost use Rattle.std.specs.Prelude.{◌≡◌};
ghost use Rattle.proxy.specs.Told.{sign_of, word_of};

/// Which way messages go.
#[derive(Clone, Copy, Debug, PartialEq, Eq)]
pub enum Direction {
    /// To the server.
    There,
    /// From the server.
    Back,
}

impl Direction {
    /// Returns the sign that stands before a message.
    pub fn sign(self) -> char
        ensures { result ≡ sign_of self }
    {
        match self {
            Direction::There => '>',
            Direction::Back => '<',
        }
    }

    /// Returns the word for it.
    pub fn word(self) -> &'static str
        ensures { result.now ≡ word_of self }
    {
        match self {
            Direction::There => "there",
            Direction::Back => "back",
        }
    }
}
