//! What a proxy is to do.

ghost use Rattle.std.specs.Prelude.{◌≡◌, ◌||◌, is_some};
ghost use Rattle.proxy.specs.Told.{shows};

/// How the messages that pass are shown.
#[derive(Clone, Copy)]
pub enum Show {
    /// Not at all.
    Nothing,
    /// The text of each, in a line for each of its parts.
    Text,
    /// A line for each, of canonical Extended JSON.
    Json,
}

/// What a proxy is to do.
#[derive(Clone, Copy)]
pub struct Options<'a> {
    /// The address to listen at.
    pub listen: &'a str,
    /// The address of the server.
    pub upstream: &'a str,
    /// How messages are shown.
    pub show: Show,
    /// The number of connections to serve.
    pub connections: u64,
    /// End when standard input does.
    pub until_stdin_closes: bool,
    /// The file to write the port to.
    pub port_file: Option<&'a str>,
    /// The file of the script, whose rules `run` is given.
    pub script: Option<&'a str>,
    /// The seed from which it is drawn where connections are cut.
    pub seed: Option<u64>,
    /// The file of records, in which messages are kept.
    pub record: Option<&'a str>,
    /// The most bytes of that file.
    pub limit: u64,
    /// The number of connections to the server that the requests of all clients share; without it
    /// each client has one of its own. `run` of this crate doesn't look at it.
    pub share: Option<u64>,
}

/// What is told of connections beside their faults.
#[derive(Clone, Copy)]
pub struct Watching {
    /// It is told that they are new, and how they ended.
    pub told: bool,
    /// Their messages are shown or recorded.
    pub watched: bool,
}

impl Show {
    /// Returns true if messages are shown.
    pub(crate) fn shows(self) -> bool
        ensures { result ≡ shows self }
    {
        match self {
            Show::Nothing => false,
            Show::Text | Show::Json => true,
        }
    }
}

impl Options<'_> {
    /// Returns what is told of connections.
    pub fn watching(self) -> Watching
        ensures told { result.told ≡ shows self.entry.show }
        ensures watched { result.watched ≡ (shows self.entry.show || is_some self.entry.record) }
    {
        let told = self.show.shows();
        Watching {
            told,
            watched: told || self.record.is_some(),
        }
    }
}
