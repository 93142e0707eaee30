//! Documents that own their names and values.

ghost use Rattle.std.specs.Prelude.{◌≡◌, ◌↔◌, ◌<◌, ◌++◌, ◌∷◌, [], length, map, option_map, None};
ghost use Rattle.std.specs.Prelude.{IfOk, IfErr, IsOk, IsSome, IsTrue, OnErr, OnOk, false};
ghost use Rattle.std.specs.Prelude.{string_bytes, vec_capacity, vec_len};
ghost use Rattle.std.specs.List.{IsDistinct, list_any};
ghost use Rattle.std.specs.Str.{bytes_eq};

use crate::bson_values::Bson;
use crate::copying::{push_copy, with_names};
use crate::iter::DocumentIter;
use crate::name_list::NameList;
use std::alloc::{AllocError, AllocFailed, Global};
use std::marker::Model;
use std::mem;

/// A document: pairs of a name and a value, in order. No two pairs have one name.
#[derive(Debug, Drop)]
#[cycle(bson)]
pub struct Document {
    names: NameList,
    values: Vec<Bson>,
}

impl Model for Document {
    ghost use Rattle.std.specs.Prelude.{◌≡◌, ℕ, List, length, map, string_bytes};
    ghost use Rattle.bson_raw.specs.{TreeValue};
    ghost use Rattle.bson_doc.specs.Depths.{tree_depth};
    ghost use Rattle.bson_doc.specs.Document.{paired, tree_of};
    ghost use Rattle.bson_doc.specs.Codes.{coded_pairs};

    ghost Value = { List (List ℕ × TreeValue) };

    ghost coded = { coded_pairs };

    ghost use Rattle.bson_doc.specs.Bson.{value_of};

    ghost view = { λ d. paired (map string_bytes d.names) (map value_of d.values.items) };

    ghost invariant = { λ d. length d.names ≡ length d.values.items };

    ghost size = { λ ps. tree_depth (tree_of ps) };

    ghost use Rattle.bson_doc.specs.Sizes.{document_deeper};

    ghost size_decreases = { λ d h. document_deeper d.names d.values.items h };
}

/// Makes room for a value, and appends its name, which isn't there.
fn push_name(
    name: String,
    names: &mut NameList,
    values: &mut Vec<Bson>,
) -> Result<(), AllocFailed<String>>
    requires { list_any (λ k. bytes_eq (string_bytes name) (string_bytes k)) names.old ≡ false }
    ensures appended { OnOk result (names.new ≡ names.old ++ name ∷ []) }
    ensures room { OnOk result (vec_len values.new < vec_capacity values.new) }
    ensures same { OnErr result (names.new ≡ names.old) }
    ensures values { values.new.items ≡ values.old.items }
    ensures back { IfErr result (λ e. e.value ≡ name) }
{
    if values.try_reserve(1).is_err() {
        return Err(AllocFailed { value: name });
    }
    names.append(name)
}

/// Appends a name, which isn't there, and its value. Both are unchanged if memory is refused.
fn push_pair(
    name: String,
    value: Bson,
    names: &mut NameList,
    values: &mut Vec<Bson>,
) -> Result<(), AllocFailed<(String, Bson)>>
    requires { list_any (λ k. bytes_eq (string_bytes name) (string_bytes k)) names.old ≡ false }
    ensures name { OnOk result (names.new ≡ names.old ++ name ∷ []) }
    ensures value { OnOk result (values.new.items ≡ values.old.items ++ value ∷ []) }
    ensures same_names { OnErr result (names.new ≡ names.old) }
    ensures same_values { OnErr result (values.new.items ≡ values.old.items) }
    ensures back { IfErr result (λ e. e.value ≡ (name, value)) }
{
    if let Err(e) = push_name(name, names, values) {
        return Err(AllocFailed {
            value: (e.value, value),
        });
    }
    match values.push(value) {
        Ok(()) => Ok(()),
        Err(_) => unreachable!(),
    }
}

impl Document {
    ghost use Rattle.bson_doc.specs.Bson.{value_of};
    ghost use Rattle.bson_doc.specs.Document.{paired, value_named, put, without};

    /// Returns a document with no pairs. It takes no memory.
    pub fn new(alloc: Global) -> Document
        ensures { result ≡ [] }
    {
        Document {
            names: NameList::new(alloc),
            values: Vec::new(alloc),
        }
    }

    /// Returns the document of these names and their values.
    pub(crate) fn of_parts(names: NameList, values: Vec<Bson>) -> Document
        requires { length names ≡ length values.items }
        ensures { result ≡ paired (map string_bytes names) (map value_of values.items) }
    {
        Document { names, values }
    }

    /// Returns the allocator that the document takes its memory from.
    pub(crate) fn allocator(&self) -> Global {
        *self.values.allocator()
    }

    /// Returns the number of pairs.
    pub fn len(&self) -> usize
        ensures { result ≡ length self.now }
    {
        self.values.len()
    }

    /// Returns true if there are no pairs.
    pub fn is_empty(&self) -> bool
        ensures { IsTrue result ↔ (length self.now ≡ 0) }
    {
        self.len() == 0
    }

    /// Returns the value of the pair with this name, if there is one. It compares the name with at
    /// most 16 others, or with a logarithm of their number, so that no choice of names makes it
    /// slow.
    pub fn get(&self, name: &str) -> Option<&Bson>
        ensures { option_map (λ v. value_of v.now) result ≡ value_named name.now self.now }
    {
        let index = self.names.get_index_of(name)?;
        Some(&self.values[index])
    }

    /// Returns true if a pair has this name.
    pub fn contains_key(&self, name: &str) -> bool
        ensures { IsTrue result ↔ IsSome (value_named name.now self.now) }
    {
        self.get(name).is_some()
    }

    /// Sets the value of a name, and returns the value that it had. A name that is there keeps its
    /// index, and no memory is taken for it. A new name goes last.
    ///
    /// # Errors
    ///
    /// Returns the name and the value if the name is new and memory is refused.
    pub fn insert(
        &mut self,
        name: String,
        value: Bson,
    ) -> Result<Option<Bson>, AllocFailed<(String, Bson)>>
        ensures ok { OnOk result (self.new ≡ put (string_bytes name) (value_of value) self.old) }
        ensures before { IfOk result (λ before.
            option_map value_of before ≡ value_named (string_bytes name) self.old) }
        ensures present { IsSome (value_named (string_bytes name) self.old) → IsOk result }

        ensures err { OnErr result (self.new ≡ self.old) }
        ensures back { IfErr result (λ e. e.value ≡ (name, value)) }
    {
        match self.names.get_index_of(name.as_str()) {
            Some(index) => {
                let before = mem::replace(&mut self.values[index], value);
                Ok(Some(before))
            }
            None => {
                push_pair(name, value, &mut self.names, &mut self.values)?;
                Ok(None)
            }
        }
    }

    /// Removes the pair with this name, and returns its value. The pairs after it close up, so a
    /// call takes time in proportion to the number of pairs.
    pub fn remove(&mut self, name: &str) -> Option<Bson>
        ensures after { self.new ≡ without name.now self.old }
        ensures value { option_map value_of result ≡ value_named name.now self.old }
    {
        let index = self.names.get_index_of(name)?;
        self.names.remove(index);
        Some(self.values.remove(index))
    }

    /// Returns the names, in order.
    pub fn keys(&self) -> &[String]
        ensures { map string_bytes result.now ≡ map (λ p. p.0) self.now }
    {
        self.names.as_slice()
    }

    /// Returns the values, in order.
    pub fn values(&self) -> &[Bson]
        ensures { map value_of result.now ≡ map (λ p. p.1) self.now }
    {
        &self.values
    }

    /// Returns an iterator over the pairs, in order.
    pub fn iter(&self) -> DocumentIter<'_>
        ensures pairs { result ≡ self.now }
        ensures distinct { IsDistinct bytes_eq (map (λ p. p.0) self.now) }
    {
        DocumentIter::of_parts(self.names.as_slice(), &self.values)
    }

    /// Returns a copy of the document.
    ///
    /// # Errors
    ///
    /// Returns `AllocError` if memory is refused.
    #[cycle(copy)]
    pub fn try_clone(&self) -> Result<Document, AllocError>
        ensures { IfOk result (λ copy. copy ≡ self.now) }
    {
        let mut values = Vec::with_capacity(self.allocator(), self.values.len())?;
        for value in self.values.iter() {
            push_copy(value.try_clone(), &mut values)?;
        }
        with_names(&self.names, values)
    }
}

impl PartialEq for Document {
    ghost use Rattle.std.specs.Cmp.{partial_equiv_from_equiv};
    ghost use Rattle.bson_doc.specs.Codes.{coded_pairs};
    ghost use Rattle.bson_doc.specs.Same.{same, same_equiv};

    ghost eq = { same coded_pairs };

    ghost laws = { partial_equiv_from_equiv (same_equiv coded_pairs) };

    #[cycle(same)]
    fn eq(&self, other: &Document) -> bool {
        if self.names.as_slice() != other.names.as_slice() {
            return false;
        }
        for (i, value) in self.values.iter().enumerate() {
            if !value.eq(&other.values[i]) {
                return false;
            }
        }
        true
    }
}
