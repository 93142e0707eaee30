//! Watches standard input for its end.

ghost use Rattle.std.specs.Prelude.{◌≡◌, ◌⊎◌, ◌↔◌, IsTrue, None, false};

use crate::acceptor::Acceptor;
use crate::polling;
use mio::unix::SourceFd;
use mio::{Events, Interest, Token};
use std::alloc::Global;
use std::io::{BufRead, ErrorKind, Input};

/// The descriptor of standard input.
const STDIN: i32 = 0;

/// Returns true if more may come after an error of this kind, as where another program took what came
/// over a pipe that both have.
fn may_go_on(kind: ErrorKind) -> bool
    ensures { IsTrue result ↔ ((kind ≡ ErrorKind.WouldBlock) ⊎ (kind ≡ ErrorKind.Interrupted)) }
{
    matches!(kind, ErrorKind::WouldBlock | ErrorKind::Interrupted)
}

/// Standard input, which is read and let go until it ends, if its end is waited for.
#[derive(Drop)]
pub struct Stdin<I> {
    /// What reads it, if its end is waited for.
    reader: Option<I>,
    token: Token,
    ended: bool,
}

impl<I: BufRead + Drop> Stdin<I> {
    /// Begins to watch standard input under this token, if there is a `reader`, which reads it. If
    /// the system can't tell of its events, it is a file, which is over when it is opened.
    pub fn new(reader: Option<I>, acceptor: &Acceptor, token: Token) -> Stdin<I>
        ensures reader { result.reader ≡ reader }
    {
        let ended = match &reader {
            Some(_) => acceptor
                .poll
                .registry()
                .register(&mut SourceFd(&STDIN), token, Interest::READABLE)
                .is_err(),
            None => false,
        };
        Stdin {
            reader,
            token,
            ended,
        }
    }

    /// Returns true if standard input has ended, and its end is waited for.
    pub fn has_ended(&self) -> bool
        ensures unwatched { self.now.reader ≡ None → result ≡ false }
    {
        self.reader.is_some() && self.ended
    }

    /// Takes what came over standard input, if one of these events is of it.
    pub fn see(&mut self, acceptor: &Acceptor, events: &Events<Global>)
        ensures unwatched { self.old.reader ≡ None → self.new ≡ self.old }
    {
        if events.iter().any(|event| event.token() == self.token) {
            self.take(acceptor);
        }
    }

    /// Lets go of what came, after an event, and has the next event told.
    fn take(&mut self, acceptor: &Acceptor)
        ensures { self.old.reader ≡ None → self.new ≡ self.old }
    {
        let Some(reader) = &mut self.reader else {
            return;
        };
        let (came, ended) = match reader.fill_buf() {
            Ok(bytes) => (bytes.len(), bytes.is_empty()),
            Err(error) => (0, !may_go_on(error.kind())),
        };
        reader.consume(came);
        let watched = acceptor
            .poll
            .registry()
            .reregister(&mut SourceFd(&STDIN), self.token, Interest::READABLE);
        self.ended = ended || watched.is_err();
    }
}

/// Begins to watch standard input under the token `STDIN` of this crate, if its end is waited for.
pub fn watch_stdin<R: Input>(rt: &R, is_waited_for: bool, acceptor: &Acceptor) -> Stdin<R::Reader>
    ensures { is_waited_for ≡ false → result.reader ≡ None }
{
    let reader = if is_waited_for {
        Some(rt.reader())
    } else {
        None
    };
    Stdin::new(reader, acceptor, polling::STDIN)
}
