//! The iterator over the pairs of a document.

ghost use Rattle.std.specs.Prelude.{◌≡◌, length, map, string_bytes};
ghost use Rattle.std.specs.Iterator.{at_most};

use crate::bson_values::Bson;
use crate::documents::Document;
use std::marker::Model;

/// An iterator over the pairs of a document, in order.
#[derive(Debug, Drop)]
pub struct DocumentIter<'a> {
    names: &'a [String],
    values: &'a [Bson],
}

impl<'a> Model for DocumentIter<'a> {
    ghost use Rattle.std.specs.Prelude.{◌≡◌, ℕ, List, length, map, string_bytes};
    ghost use Rattle.bson_raw.specs.{TreeValue};
    ghost use Rattle.bson_doc.specs.Bson.{value_of};
    ghost use Rattle.bson_doc.specs.Document.{paired};
    ghost use Rattle.bson_doc.specs.Codes.{coded_pairs};

    ghost Value = { List (List ℕ × TreeValue) };

    ghost coded = { coded_pairs };

    ghost view = { λ s. paired (map string_bytes s.names.now) (map value_of s.values.now) };

    ghost invariant = { λ s. length s.names.now ≡ length s.values.now };
}

impl<'a> DocumentIter<'a> {
    ghost use Rattle.bson_doc.specs.Bson.{value_of};
    ghost use Rattle.bson_doc.specs.Document.{paired};

    /// Returns an iterator over these names and values.
    pub(crate) fn of_parts(names: &'a [String], values: &'a [Bson]) -> DocumentIter<'a>
        requires { length names.now ≡ length values.now }
        ensures { result ≡ paired (map string_bytes names.now) (map value_of values.now) }
    {
        DocumentIter { names, values }
    }
}

impl<'a> Iterator for DocumentIter<'a> {
    ghost use Rattle.bson_doc.specs.DocumentIter.{GivesFirst};

    type Item = (&'a str, &'a Bson);

    ghost remaining = { λ s. at_most (length s) };

    ghost next_gives = { GivesFirst };

    fn next(&mut self) -> Option<(&'a str, &'a Bson)> {
        let (name, names) = self.names.split_first()?;
        let Some((value, values)) = self.values.split_first() else {
            unreachable!();
        };
        self.names = names;
        self.values = values;
        Some((name.as_str(), value))
    }
}

impl<'a> IntoIterator for &'a Document {
    type Item = (&'a str, &'a Bson);

    type IntoIter = DocumentIter<'a>;

    ghost into_iter_gives = { λ document iter. iter ≡ document.now };

    fn into_iter(self) -> DocumentIter<'a> {
        self.iter()
    }
}
