//! Describes the command line: a table of the subcommands, with their operands and their options.

ghost use Rattle.std.specs.Prelude.{◌≡◌, IfOk};
ghost use Rattle.clap.specs.Words.{kind_of};
ghost use Rattle.command_words.specs.Tables.{IsTable, line_app};
ghost use Rattle.bsonproxy.specs.Choices.{MakeChoices, kind_of_clash};
ghost use Rattle.bsonproxy.specs.CommandLine.{command_line};

use clap::Error;
use clap::error::ErrorKind;
use command_words::{Form, Kind, Row, Table, refusal};
use std::alloc::{AllocError, Global};

/// What help says at its end.
const AFTER_HELP: &str = "Examples:
  bsonproxy serve --text 127.0.0.1:27018 127.0.0.1:27017
      Shows what passes between a driver at port 27018 and a server
  bsonproxy serve --record records 127.0.0.1:27018 127.0.0.1:27017
      Writes it to a file
  bsonproxy replay records 127.0.0.1:27017
      Sends the requests of that file, and tells which answers differ

Exit status:
  0  all is good
  1  answers differ, or the file has a fault
  2  the command line or the script is wrong
  3  reading, writing or the network failed
  4  memory ran out";

/// The operand LISTEN of `serve`.
const LISTEN: Row<'static> = Row {
    name: "listen",
    kind: Kind::Operand,
    value: "LISTEN",
    help: "The address to listen at, as 127.0.0.1:27018; port 0 takes a free one",
};

/// The operand UPSTREAM of `serve`.
const UPSTREAM: Row<'static> = Row {
    name: "upstream",
    kind: Kind::Operand,
    value: "UPSTREAM",
    help: "The address of the server, as 127.0.0.1:27017",
};

/// The flag `--text` of `serve`.
const TEXT: Row<'static> = Row {
    name: "text",
    kind: Kind::Flag,
    value: "",
    help: "Write the text of each message",
};

/// The flag `--json` of `serve`.
const JSON: Row<'static> = Row {
    name: "json",
    kind: Kind::Flag,
    value: "",
    help: "Write each message as a line of canonical Extended JSON",
};

/// The option `--record` of `serve`.
const RECORD: Row<'static> = Row {
    name: "record",
    kind: Kind::Text,
    value: "FILE",
    help: "Write each message to FILE, with its time, its connection and its direction",
};

/// The option `--limit` of `serve`.
const LIMIT: Row<'static> = Row {
    name: "limit",
    kind: Kind::Number(0, u64::MAX),
    value: "N",
    help: "With --record, end the file before it has more than N bytes",
};

/// The option `--share` of `serve`.
const SHARE: Row<'static> = Row {
    name: "share",
    kind: Kind::Number(1, 1024),
    value: "N",
    help: "Pass the requests of all clients over N shared connections, 1 to 1024",
};

/// The option `--connections` of `serve`.
const CONNECTIONS: Row<'static> = Row {
    name: "connections",
    kind: Kind::Number(0, u64::MAX),
    value: "N",
    help: "End after this many connections; without it the proxy goes on",
};

/// The flag `--until-stdin-closes` of `serve`.
const UNTIL_STDIN_CLOSES: Row<'static> = Row {
    name: "until-stdin-closes",
    kind: Kind::Flag,
    value: "",
    help: "End when standard input does",
};

/// The option `--port-file` of `serve`.
const PORT_FILE: Row<'static> = Row {
    name: "port-file",
    kind: Kind::Text,
    value: "FILE",
    help: "Write the port and a line feed to FILE once the proxy listens",
};

/// The option `--script` of `serve`.
const SCRIPT: Row<'static> = Row {
    name: "script",
    kind: Kind::Text,
    value: "FILE",
    help: "Do with requests and their replies what the rules of FILE say",
};

/// The option `--seed` of `serve`.
const SEED: Row<'static> = Row {
    name: "seed",
    kind: Kind::Number(0, u64::MAX),
    value: "S",
    help: "Cut each connection behind a number of bytes that is drawn from S",
};

/// The operand FILE of `replay`.
const FILE: Row<'static> = Row {
    name: "file",
    kind: Kind::Operand,
    value: "FILE",
    help: "The file of records to read, or - for standard input",
};

/// The operand ADDRESS of `replay`.
const ADDRESS: Row<'static> = Row {
    name: "address",
    kind: Kind::Operand,
    value: "ADDRESS",
    help: "The address of the server, as 127.0.0.1:27017",
};

/// The option `--ignore` of `replay`.
const IGNORE: Row<'static> = Row {
    name: "ignore",
    kind: Kind::Text,
    value: "NAMES",
    help: "Don't compare fields of these names, which have commas between",
};

/// The option `--speed` of `replay`.
const SPEED: Row<'static> = Row {
    name: "speed",
    kind: Kind::Number(1, u64::MAX),
    value: "P",
    help: "Send at P percent of the recorded speed, and not as fast as answers come",
};

/// The subcommand that passes connections to a server and back.
const SERVE: Form<'static> = Form {
    name: "serve",
    about: "Passes connections to a server and back, and shows or records their messages",
    rows: &[
        LISTEN,
        UPSTREAM,
        TEXT,
        JSON,
        RECORD,
        LIMIT,
        SHARE,
        CONNECTIONS,
        UNTIL_STDIN_CLOSES,
        PORT_FILE,
        SCRIPT,
        SEED,
    ],
};

/// The subcommand that sends what a record's clients sent.
const REPLAY: Form<'static> = Form {
    name: "replay",
    about: "Sends what clients sent in a record to a server, and tells which answers differ",
    rows: &[FILE, ADDRESS, IGNORE, SPEED],
};

/// Returns the whole command line.
pub fn table() -> Table<'static>
    ensures table { IsTable result }
    ensures line { line_app result ≡ command_line }
    ensures choices { MakeChoices result.forms.now }
{
    Table {
        name: "bsonproxy",
        about: "Passes MongoDB wire messages on, shows, records and replays them",
        after_help: AFTER_HELP,
        forms: &[SERVE, REPLAY],
    }
}

/// Why the words of `serve` that `clap` accepts are at fault.
#[derive(Clone, Copy)]
pub enum Clash {
    /// It has `--text` beside `--json`.
    TextBesideJson,
    /// It has `--limit` without `--record`.
    RecordWanted,
}

/// Makes the error of a clash, in the form of `clap`'s own.
pub fn error_of(alloc: Global, clash: Clash) -> Result<Error, AllocError>
    ensures { IfOk result (λ e. kind_of e ≡ kind_of_clash clash) }
{
    let twice = "the argument '--text' cannot be used with '--json'";
    let lacking = "the following required arguments were not provided:\n  --record <FILE>";
    let (kind, why) = match clash {
        Clash::TextBesideJson => (ErrorKind::ArgumentConflict, twice),
        Clash::RecordWanted => (ErrorKind::MissingRequiredArgument, lacking),
    };
    refusal(alloc, &SERVE, "bsonproxy serve", kind, why)
}
