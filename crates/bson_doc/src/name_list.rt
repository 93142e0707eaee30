//! The names of a document, in order, and the index of each.

ghost use Rattle.std.specs.Prelude.{◌≡◌, ◌≤◌, ◌++◌, ◌<◌, ◌∷◌, [], IfErr, IfOk, IfSome, OnErr, OnOk};
ghost use Rattle.std.specs.Prelude.{List, String, false, get_or, is_some, length, map, remove};
ghost use Rattle.std.specs.Prelude.{string_bytes};
ghost use Rattle.std.specs.List.{IsDistinct, list_any};
ghost use Rattle.std.specs.Str.{bytes_eq};
ghost use Rattle.std.specs.String.{string_eq};
ghost use Rattle.std.specs.declared.alloc.Global.{Global};
ghost use Rattle.bson_doc.specs.NameList.{ArePlaces, IsIndex, index_of};

use crate::name_table::NameTable;
use std::alloc::{AllocError, AllocFailed, Global};
use std::collections::BTreeMap;
use std::fmt;
use std::marker::Model;

/// The most names among which one is found by comparing it with each.
const FEW: usize = 16;

/// By what the index of a name is found.
#[derive(Drop)]
pub(crate) enum Places {
    /// By comparing it with each name.
    InTurn,
    /// By its hash.
    Table(NameTable),
    /// By its order among copies of the names: these were chosen to have hashes that are alike.
    Tree(BTreeMap<String, usize>),
}

/// Names in order, each of them once.
#[derive(Drop)]
pub(crate) struct NameList {
    list: Vec<String>,
    places: Places,
}

impl Model for NameList {
    ghost use Rattle.std.specs.Prelude.{List, String};
    ghost use Rattle.std.specs.declared.alloc.Global.{Global};
    ghost use Rattle.std.specs.List.{IsDistinct};
    ghost use Rattle.std.specs.String.{string_eq};
    ghost use Rattle.bson_doc.specs.NameList.{ArePlaces};

    ghost Value = { List (String Global) };

    ghost view = { λ d. d.list.items };

    ghost invariant = { λ d. IsDistinct string_eq d.list.items × ArePlaces d.places d.list.items };
}

/// Returns the index of a name, if it is there, by comparing it with each in turn.
fn place(names: &[String], name: &str) -> Option<usize>
    ensures { result ≡ index_of name.now names.now }
{
    names.iter().position(|own| own.as_str() == name)
}

/// Returns a tree that tells the index of each of the names. No two of them are alike.
fn indexed(alloc: Global, names: &[String]) -> Result<BTreeMap<String, usize>, AllocError>
    requires { IsDistinct string_eq names.now }
    ensures { IfOk result (λ tree. IsIndex tree names.now) }
{
    let mut tree = BTreeMap::new(alloc);
    for (i, name) in names.iter().enumerate() {
        tree.insert(name.clone()?, i)?;
    }
    Ok(tree)
}

/// Puts a name behind `names` into their tree.
fn put_into_tree(
    names: &[String],
    name: &String,
    tree: &mut BTreeMap<String, usize>,
) -> Result<(), AllocError>
    requires new { list_any (λ k. bytes_eq (string_bytes name.now) (string_bytes k)) names.now
        ≡ false }
    requires indexed { IsIndex tree.old names.now }
    ensures ok { OnOk result (IsIndex tree.new (names.now ++ name.now ∷ [])) }
    ensures err { OnErr result (IsIndex tree.new names.now) }
{
    tree.insert(name.clone()?, names.len())?;
    Ok(())
}

/// Returns the tree of `names` and a name behind them.
fn tree_with(
    alloc: Global,
    names: &[String],
    name: &String,
) -> Result<BTreeMap<String, usize>, AllocError>
    requires distinct { IsDistinct string_eq names.now }
    requires new { list_any (λ k. bytes_eq (string_bytes name.now) (string_bytes k)) names.now
        ≡ false }
    ensures { IfOk result (λ tree. IsIndex tree (names.now ++ name.now ∷ [])) }
{
    let mut tree = indexed(alloc, names)?;
    put_into_tree(names, name, &mut tree)?;
    Ok(tree)
}

/// Returns the places of `names` and a name behind them: a table of `slots` slots, or a tree if the
/// slot of the name is full.
fn table_with(
    alloc: Global,
    names: &[String],
    name: &String,
    slots: usize,
) -> Result<Places, AllocError>
    requires distinct { IsDistinct string_eq names.now }
    requires new { list_any (λ k. bytes_eq (string_bytes name.now) (string_bytes k)) names.now
        ≡ false }
    requires room { length names.now < slots }
    ensures { IfOk result (λ p. ArePlaces p (names.now ++ name.now ∷ [])) }
{
    let mut table = NameTable::of(alloc, names, slots)?;
    if table.put(names, name) {
        return Ok(Places::Table(table));
    }
    Ok(Places::Tree(tree_with(alloc, names, name)?))
}

/// Makes the places of `names` those of these and a name behind them. If memory is refused, they
/// stay those of `names`.
fn put_place(
    alloc: Global,
    names: &[String],
    name: &String,
    places: &mut Places,
) -> Result<(), AllocError>
    requires distinct { IsDistinct string_eq names.now }
    requires new { list_any (λ k. bytes_eq (string_bytes name.now) (string_bytes k)) names.now
        ≡ false }
    requires places { ArePlaces places.old names.now }
    ensures ok { OnOk result (ArePlaces places.new (names.now ++ name.now ∷ [])) }
    ensures err { OnErr result (ArePlaces places.new names.now) }
{
    match places {
        Places::InTurn => {
            if names.len() >= FEW {
                *places = table_with(alloc, names, name, names.len() + FEW)?;
            }
            Ok(())
        }
        Places::Table(table) => {
            if names.len() == table.slots() {
                *places = table_with(alloc, names, name, names.len().saturating_mul(4))?;
            } else if !table.put(names, name) {
                *places = Places::Tree(tree_with(alloc, names, name)?);
            }
            Ok(())
        }
        Places::Tree(tree) => put_into_tree(names, name, tree),
    }
}

/// Takes the name at `index` of `names`, which is `name`, out of their tree, and makes each index
/// behind it one less.
fn take_from_tree(name: &str, index: usize, tree: &mut BTreeMap<String, usize>)
    ensures { (names : List (String Global)) (k : String Global) → IsDistinct string_eq names
        → index < length names → get_or names index k ≡ k → name.now ≡ string_bytes k
        → IsIndex tree.old names → IsIndex tree.new (remove names index) }
{
    tree.remove(name);
    tree.retain(|_, at| {
        if *at > index {
            *at -= 1;
        }
        true
    });
}

/// Returns the index of a name among `names`, whose places are known, if it is there.
fn index_by(places: &Places, names: &[String], name: &str) -> Option<usize>
    requires distinct { IsDistinct string_eq names.now }
    requires places { ArePlaces places.now names.now }
    ensures { result ≡ index_of name.now names.now }
{
    match places {
        Places::InTurn => place(names, name),
        Places::Table(table) => table.get_index_of(names, name),
        Places::Tree(tree) => tree.get(name).copied(),
    }
}

/// Returns a copy of the places of names, as those of `copies` of them.
fn copied(alloc: Global, places: &Places, copies: &[String]) -> Result<Places, AllocError>
    requires { IsDistinct string_eq copies.now }
    ensures { (names : List (String Global))
        → map string_bytes copies.now ≡ map string_bytes names → ArePlaces places.now names
        → IfOk result (λ p. ArePlaces p copies.now) }
{
    match places {
        Places::InTurn => Ok(Places::InTurn),
        Places::Table(table) => Ok(Places::Table(table.try_clone(alloc)?)),
        Places::Tree(_) => Ok(Places::Tree(indexed(alloc, copies)?)),
    }
}

impl NameList {
    ghost use Rattle.bson_doc.specs.NameList.{index_of};

    /// Returns a list of no names. It takes no memory.
    pub(crate) fn new(alloc: Global) -> NameList
        ensures { result ≡ [] }
    {
        NameList {
            list: Vec::new(alloc),
            places: Places::InTurn,
        }
    }

    /// Returns the names, in order.
    pub(crate) fn as_slice(&self) -> &[String]
        ensures names { result.now ≡ self.now }
        ensures distinct { IsDistinct string_eq self.now }
    {
        &self.list
    }

    /// Returns the index of a name, if it is there.
    pub(crate) fn get_index_of(&self, name: &str) -> Option<usize>
        ensures index { result ≡ index_of name.now self.now }
        ensures found { is_some result
            ≡ list_any (λ k. bytes_eq name.now (string_bytes k)) self.now }
        ensures within { IfSome result (λ i. i < length self.now) }
    {
        index_by(&self.places, &self.list, name)
    }

    /// Returns true if a name is there.
    pub(crate) fn contains(&self, name: &str) -> bool
        ensures { result ≡ list_any (λ k. bytes_eq name.now (string_bytes k)) self.now }
    {
        self.get_index_of(name).is_some()
    }

    /// Appends a name that isn't there.
    ///
    /// # Errors
    ///
    /// Returns the name if memory is refused. The names are unchanged then.
    pub(crate) fn append(&mut self, name: String) -> Result<(), AllocFailed<String>>
        requires { list_any (λ k. bytes_eq (string_bytes name) (string_bytes k)) self.old ≡ false }
        ensures ok { OnOk result (self.new ≡ self.old ++ name ∷ []) }
        ensures err { OnErr result (self.new ≡ self.old) }
        ensures back { IfErr result (λ e. e.value ≡ name) }
    {
        let alloc = *self.list.allocator();
        if self.list.try_reserve(1).is_err() {
            return Err(AllocFailed { value: name });
        }
        if put_place(alloc, &self.list, &name, &mut self.places).is_err() {
            return Err(AllocFailed { value: name });
        }
        match self.list.push(name) {
            Ok(()) => Ok(()),
            Err(_) => unreachable!(),
        }
    }

    /// Removes the name at `index`. Those after it close up, and the place of each name is visited.
    pub(crate) fn remove(&mut self, index: usize)
        requires { index < length self.old }
        ensures { self.new ≡ remove self.old index }
    {
        let name = self.list.remove(index);
        match &mut self.places {
            Places::InTurn => {}
            Places::Table(table) => table.refill(&self.list),
            Places::Tree(tree) => take_from_tree(name.as_str(), index, tree),
        }
    }

    /// Returns a copy of the names.
    ///
    /// # Errors
    ///
    /// Returns `AllocError` if memory is refused.
    pub(crate) fn try_clone(&self) -> Result<NameList, AllocError>
        ensures { IfOk result (λ copy. map string_bytes copy ≡ map string_bytes self.now) }
    {
        let list = self.list.clone()?;
        let places = copied(*list.allocator(), &self.places, &list)?;
        Ok(NameList { list, places })
    }
}

impl fmt::Debug for NameList {
    fn fmt<W: fmt::Write>(&self, f: &mut fmt::Formatter<W>) -> fmt::Result {
        f.debug_set().entries(self.list.iter()).finish()
    }
}
