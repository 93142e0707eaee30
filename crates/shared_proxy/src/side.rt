//! Which connection takes a turn.

ghost use Rattle.std.specs.Prelude.{◌≡◌};
ghost use Rattle.shared_proxy.specs.Sides.{token_of};

/// A connection, by its number.
#[derive(Clone, Copy)]
pub enum Side {
    /// That of a client.
    Client(u64),
    /// One to the server.
    Server(u64),
}

impl Side {
    /// Returns the token under which it is registered.
    pub fn token(self) -> usize
        ensures { result ≡ token_of self }
    {
        match self {
            Side::Client(number) => (number as usize).saturating_mul(2),
            Side::Server(number) => (number as usize).saturating_mul(2).saturating_add(1),
        }
    }

    /// Returns the connection that is registered under this token.
    pub fn of_token(token: usize) -> Side
        ensures { token_of result ≡ token }
    {
        let number = (token / 2) as u64;
        if token % 2 == 0 {
            Side::Client(number)
        } else {
            Side::Server(number)
        }
    }
}
