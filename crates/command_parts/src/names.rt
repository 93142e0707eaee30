//! Tells which command a request asks for.

ghost use Rattle.std.specs.Prelude.{◌≡◌};
ghost use Rattle.bson_elem.specs.{Spells, Tree};
ghost use Rattle.bson_raw.specs.{document_bytes};
ghost use Rattle.command_parts.specs.Names.{first_name};

use bson_raw::RawDocument;

/// Returns the name of the command that a body asks for, which is the name of its first field.
pub fn name_of(body: RawDocument<'_>) -> &str
    ensures { (t : Tree) → Spells t (document_bytes body.entry) → result.now ≡ first_name t }
{
    match body.iter().next() {
        Some((name, _)) => name,
        None => "",
    }
}
