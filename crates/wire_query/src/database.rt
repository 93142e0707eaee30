//! Names the database in the body of a message (MongoDB's OP_MSG specification: Global Command
//! Arguments).

ghost use Rattle.std.specs.Prelude.{◌≡◌, ◌+◌, ◌<◌, ◌^◌, ◌++◌, length, OnOk, OnErr};
ghost use Rattle.std.specs.Io.{StartsWith};
ghost use Rattle.bson_elem.specs.{Spells, Tree, document, elements};
ghost use Rattle.bson_raw.specs.{document_bytes};
ghost use Rattle.wire_query.specs.Database.{db_element, names_database, with_db_appended};

use crate::write::write_u32;
use bson_raw::RawDocument;
use std::alloc::AllocError;

/// The number of bytes of the element `$db` beside the database's name: the type byte, the
/// element's name with its 00, and the length and the 00 of the string.
pub(crate) const DB_LEN: usize = 10;

/// Returns true if the command has a top-level element `$db`.
pub(crate) fn names_database(command: RawDocument<'_>) -> bool
    ensures { (t : Tree) → Spells t (document_bytes command.entry)
        → result ≡ names_database t }
{
    command.get("$db").is_some()
}

/// Appends the element `$db`. If memory runs out, `out` may end with some of its bytes.
fn write_db(database: &str, out: &mut Vec<u8>) -> Result<(), AllocError>
    requires { length database.now < 2 ^ 31 }
    ensures added { OnOk result (out.new.items ≡ out.old.items ++ db_element database.now) }
    ensures kept { OnErr result (StartsWith out.new.items out.old.items) }
{
    out.extend_from_slice(b"\x02$db\0")?;
    write_u32(database.len() as u32 + 1, out)?;
    out.extend_from_slice(database.as_bytes())?;
    out.extend_from_slice(&[0])
}

/// Appends the command with the element `$db` behind its others. If memory runs out, `out` may end
/// with some of its bytes.
pub(crate) fn write_with_database(
    command: RawDocument<'_>,
    database: &str,
    out: &mut Vec<u8>,
) -> Result<(), AllocError>
    requires { length (document_bytes command) + length database.now < 2 ^ 31 }
    ensures added { (t : Tree) → Spells t (document_bytes command.entry) → OnOk result
        (out.new.items ≡ out.old.items ++ document (elements (with_db_appended database.now t))) }
    ensures kept { OnErr result (StartsWith out.new.items out.old.items) }
{
    let bytes = command.as_bytes();
    write_u32((bytes.len() + DB_LEN + database.len()) as u32, out)?;
    // between the length and the last 00
    out.extend_from_slice(&bytes[4..bytes.len() - 1])?;
    write_db(database, out)?;
    out.extend_from_slice(&[0])
}
