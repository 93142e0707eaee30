//! Describes the command line: a table of the subcommands, with their operands and their flags.

ghost use Rattle.std.specs.Prelude.{◌≡◌, IfOk};
ghost use Rattle.clap.specs.Words.{kind_of};
ghost use Rattle.command_words.specs.Tables.{IsTable, line_app};
ghost use Rattle.bsonwire.specs.Choices.{MakeChoices, kind_of_clash};
ghost use Rattle.bsonwire.specs.CommandLine.{command_line};

use clap::Error;
use clap::error::ErrorKind;
use command_words::{Form, Kind, Row, Table, refusal};
use std::alloc::{AllocError, Global};

/// What help says at its end.
const AFTER_HELP: &str = "Examples:
  echo 160000000268656c6c6f0006000000776f726c640000 | bsonwire dump --hex -
      Writes the text of a document
  bsonwire check --salvage dump.bson
      Says which documents of a damaged file are good, and where its gaps are
  bsonwire canon --salvage dump.bson > rest.bson
      Writes what can be read of a damaged file
  bsonwire json --relaxed dump.bson
      Writes each document as JSON, one a line

Exit status:
  0  all is good
  1  the input has a fault
  2  the command line is wrong
  3  reading, writing or the network failed
  4  memory ran out";

/// The operand FILE.
const FILE: Row<'static> = Row {
    name: "file",
    kind: Kind::Operand,
    value: "FILE",
    help: "The file to read, or - for standard input",
};

/// The operand SCRIPT of `play`.
const SCRIPT: Row<'static> = Row {
    name: "file",
    kind: Kind::Operand,
    value: "SCRIPT",
    help: "The script to run, or - for standard input; docs/SCRIPTS.md is its language",
};

/// The operand N of `loop`.
const CALLS: Row<'static> = Row {
    name: "calls",
    kind: Kind::Count,
    value: "N",
    help: "How many calls to make, 1 to 100",
};

/// The flag `--quiet` of each that reads a file.
const QUIET: Row<'static> = Row {
    name: "quiet",
    kind: Kind::Flag,
    value: "",
    help: "Draw no line of progress",
};

/// The flag `--hex` of each that reads bytes.
const HEX: Row<'static> = Row {
    name: "hex",
    kind: Kind::Flag,
    value: "",
    help: "Read hexadecimal text",
};

/// The flag `--offsets` of `dump`.
const OFFSETS: Row<'static> = Row {
    name: "offsets",
    kind: Kind::Flag,
    value: "",
    help: "Write the offset of what a line shows before it, and a tab",
};

/// The flag `--salvage` of `check`.
const CHECK_SALVAGE: Row<'static> = Row {
    name: "salvage",
    kind: Kind::Flag,
    value: "",
    help: "Go on behind faults, and write the gaps; a document has at most 16793600 bytes then",
};

/// The flag `--salvage` of `canon`.
const CANON_SALVAGE: Row<'static> = Row {
    name: "salvage",
    kind: Kind::Flag,
    value: "",
    help: "Write those behind faults too, of at most 16793600 bytes, and no fault",
};

/// The flag `--json` of `msg`.
const JSON_LINES: Row<'static> = Row {
    name: "json",
    kind: Kind::Flag,
    value: "",
    help: "Write each message as a JSON object, one a line",
};

/// The flag `--relaxed` of `msg`.
const MSG_RELAXED: Row<'static> = Row {
    name: "relaxed",
    kind: Kind::Flag,
    value: "",
    help: "With --json, write relaxed Extended JSON",
};

/// The flag `--any` of `msg`.
const ANY: Row<'static> = Row {
    name: "any",
    kind: Kind::Flag,
    value: "",
    help: "Write messages of any opCode, check their checksums, and go on behind faults inside one",
};

/// The flag `--relaxed` of `json`.
const RELAXED: Row<'static> = Row {
    name: "relaxed",
    kind: Kind::Flag,
    value: "",
    help: "Write relaxed Extended JSON, which doesn't tell the kind of each value",
};

/// The flag `--array` of `json`.
const ARRAY: Row<'static> = Row {
    name: "array",
    kind: Kind::Flag,
    value: "",
    help: "Write one array of all documents, or of all records",
};

/// The subcommand that writes the text of documents.
const DUMP: Form<'static> = Form {
    name: "dump",
    about: "Writes the text of each document",
    rows: &[FILE, QUIET, HEX, OFFSETS],
};

/// The subcommand that says of documents whether they are in canonical form.
const CHECK: Form<'static> = Form {
    name: "check",
    about: "Says of each document whether it is in canonical form",
    rows: &[FILE, QUIET, HEX, CHECK_SALVAGE],
};

/// The subcommand that writes the canonical form of documents.
const CANON: Form<'static> = Form {
    name: "canon",
    about: "Writes the canonical form of each document, with --hex in hexadecimal digits",
    rows: &[FILE, QUIET, HEX, CANON_SALVAGE],
};

/// The subcommand that reads messages.
const MSG: Form<'static> = Form {
    name: "msg",
    about: "Writes the text of each message; FILE may also be a file of records",
    rows: &[FILE, QUIET, HEX, JSON_LINES, MSG_RELAXED, ANY],
};

/// The subcommand that writes Extended JSON.
const JSON: Form<'static> = Form {
    name: "json",
    about: "Writes each document as MongoDB Extended JSON, canonical and one a line; \
            FILE may also be a file of records",
    rows: &[FILE, QUIET, HEX, RELAXED, ARRAY],
};

/// The subcommand that writes the documents of Extended JSON.
const BSON: Form<'static> = Form {
    name: "bson",
    about: "Writes the documents of Extended JSON, which is one object after another or an array",
    rows: &[FILE, QUIET],
};

/// The subcommand that runs a script.
const PLAY: Form<'static> = Form {
    name: "play",
    about: "Runs a script of calls, cuts and restarts, and writes what happened",
    rows: &[SCRIPT, QUIET],
};

/// The subcommand that makes calls over a connection of its own.
const LOOP: Form<'static> = Form {
    name: "loop",
    about: "Makes calls to itself over TCP, at 127.0.0.1",
    rows: &[CALLS],
};

/// Returns the whole command line.
pub fn table() -> Table<'static>
    ensures table { IsTable result }
    ensures line { line_app result ≡ command_line }
    ensures choices { MakeChoices result.forms.now }
{
    Table {
        name: "bsonwire",
        about: "Reads BSON documents and MongoDB wire messages",
        after_help: AFTER_HELP,
        forms: &[DUMP, CHECK, CANON, MSG, JSON, BSON, PLAY, LOOP],
    }
}

/// Why the words of a subcommand that `clap` accepts are at fault.
#[derive(Clone, Copy)]
pub enum Clash {
    /// `msg` has `--relaxed` without `--json`.
    JsonWanted,
    /// `check` has `--salvage` beside `--hex`.
    CheckSalvagesText,
    /// `canon` has `--salvage` beside `--hex`.
    CanonSalvagesText,
    /// `msg` has `--any` beside `--json`.
    AnyBesideJson,
}

/// Makes the error of a clash, in the form of `clap`'s own.
pub fn error_of(alloc: Global, clash: Clash) -> Result<Error, AllocError>
    ensures { IfOk result (λ e. kind_of e ≡ kind_of_clash clash) }
{
    let wanted = "the following required arguments were not provided:\n  --json";
    let salvage = "the argument '--salvage' cannot be used with '--hex'";
    let any = "the argument '--any' cannot be used with '--json'";
    let conflict = ErrorKind::ArgumentConflict;
    let missing = ErrorKind::MissingRequiredArgument;
    let (form, path, kind, why) = match clash {
        Clash::JsonWanted => (&MSG, "bsonwire msg", missing, wanted),
        Clash::CheckSalvagesText => (&CHECK, "bsonwire check", conflict, salvage),
        Clash::CanonSalvagesText => (&CANON, "bsonwire canon", conflict, salvage),
        Clash::AnyBesideJson => (&MSG, "bsonwire msg", conflict, any),
    };
    refusal(alloc, form, path, kind, why)
}
