//! The index of each name of a list, found by a hash of the name.

ghost use Rattle.std.specs.Prelude.{◌≡◌, ◌≤◌, ◌<◌, ◌+◌, ◌++◌, ◌∷◌, ℕ, List, [], get_or, length};
ghost use Rattle.std.specs.Prelude.{map, IfOk, IsFalse, IsTrue, string_bytes, vec_len};
ghost use Rattle.std.specs.List.{IsDistinct};
ghost use Rattle.std.specs.String.{string_eq};
ghost use Rattle.bson_doc.specs.NameSlots as spec;
ghost use Rattle.bson_doc.specs.NameSlots.{HasNames};

use std::alloc::{AllocError, Global};
use std::hash::{FoldHasher, Hasher};

/// The most names of one slot. Of a million names whose hashes are spread, the fullest slot has
/// about ten. So a slot with this many has names that were chosen for it.
const MOST: usize = 16;

/// The names of a list in slots, by their hashes. A slot knows its last name, and a name the one
/// before it in its slot. There are as many slots as names may come.
#[derive(Drop)]
pub(crate) struct NameTable {
    /// For each slot, one more than the index of its last name, or 0.
    last: Vec<usize>,
    /// For each index of a name, one more than that of the name before it in its slot, or 0.
    before: Vec<usize>,
    pub ghost as_many: { vec_len before ≡ vec_len last },
    pub ghost some: { 0 < vec_len last },
}

/// Returns the slot of a name in a table of `slots` slots.
fn slot_of(name: &str, slots: usize) -> usize
    requires { 0 < slots }
    ensures slot { result ≡ spec.slot_of slots name.now }
    ensures within { result < slots }
{
    let mut hasher = FoldHasher::default();
    hasher.write(name.as_bytes());
    hasher.finish() as usize & (slots - 1)
}

impl NameTable {
    ghost use Rattle.bson_doc.specs.NameList.{IsTable, index_of};

    /// Returns a table of no names.
    fn new(alloc: Global, slots: usize) -> Result<NameTable, AllocError>
        requires { 0 < slots }
        ensures none { IfOk result (λ t. (names : List (List ℕ))
            → HasNames slots t.last.items t.before.items 0 names) }
        ensures room { IfOk result (λ t. vec_len t.last ≡ slots) }
    {
        let last = vec![in alloc; 0; slots]?;
        let before = vec![in alloc; 0; slots]?;
        Ok(NameTable { last, before })
    }

    /// Returns the table of `names`, which has `slots` slots.
    pub(crate) fn of(alloc: Global, names: &[String], slots: usize) -> Result<NameTable, AllocError>
        requires some { 0 < slots }
        requires room { length names.now ≤ slots }
        ensures names { IfOk result (λ t. IsTable t names.now) }
        ensures room { IfOk result (λ t. vec_len t.last ≡ slots) }
    {
        let mut table = NameTable::new(alloc, slots)?;
        table.put_all(names);
        Ok(table)
    }

    /// Returns the number of slots, which is the most names that the table may have.
    pub(crate) fn slots(&self) -> usize
        ensures { result ≡ vec_len self.now.last }
    {
        self.last.len()
    }

    /// Puts the name at `index`, behind those before it, into its slot.
    fn put_at(&mut self, slot: usize, index: usize)
        requires slot { slot < vec_len self.old.last }
        requires room { index < vec_len self.old.last }
        ensures put { (names : List (List ℕ))
            → HasNames (vec_len self.old.last) self.old.last.items self.old.before.items index names
            → slot ≡ spec.slot_of (vec_len self.old.last) (get_or names index [])
            → HasNames (vec_len self.old.last) self.new.last.items self.new.before.items (index + 1)
            names }
        ensures room { vec_len self.new.last ≡ vec_len self.old.last }
    {
        self.before[index] = self.last[slot];
        self.last[slot] = index + 1;
    }

    /// Puts the names into a table of none.
    fn put_all(&mut self, names: &[String])
        requires none { (all : List (List ℕ))
            → HasNames (vec_len self.old.last) self.old.last.items self.old.before.items 0 all }
        requires room { length names.now ≤ vec_len self.old.last }
        ensures put { IsTable self.new names.now }
        ensures room { vec_len self.new.last ≡ vec_len self.old.last }
    {
        for (index, name) in names.iter().enumerate() {
            let slot = slot_of(name.as_str(), self.last.len());
            self.put_at(slot, index);
        }
    }

    /// Makes the table that of `names`, whatever it had before. It takes no memory.
    pub(crate) fn refill(&mut self, names: &[String])
        requires { length names.now ≤ vec_len self.old.last }
        ensures { IsTable self.new names.now }
    {
        self.last.fill(0);
        self.put_all(names);
    }

    /// Returns true if as many names are in the slot as may be.
    fn is_full(&self, names: &[String], slot: usize) -> bool
        requires has { IsTable self.now names.now }
        requires slot { slot < vec_len self.now.last }
    {
        let mut last = self.last[slot];
        for _ in 0..MOST {
            if last == 0 {
                return false;
            }
            last = self.before[last - 1];
        }
        true
    }

    /// Puts a name behind `names`, which the table has. Returns false if its slot is full.
    pub(crate) fn put(&mut self, names: &[String], name: &String) -> bool
        requires has { IsTable self.old names.now }
        requires room { length names.now < vec_len self.old.last }
        ensures put { IsTrue result → IsTable self.new (names.now ++ name.now ∷ []) }
        ensures full { IsFalse result → IsTable self.new names.now }
    {
        let slot = slot_of(name.as_str(), self.last.len());
        if self.is_full(names, slot) {
            return false;
        }
        self.put_at(slot, names.len());
        true
    }

    /// Returns the index of a name among `names`, which the table has, if it is there.
    pub(crate) fn get_index_of(&self, names: &[String], name: &str) -> Option<usize>
        requires has { IsTable self.now names.now }
        requires distinct { IsDistinct string_eq names.now }
        ensures { result ≡ index_of name.now names.now }
    {
        let mut last = self.last[slot_of(name, self.last.len())];
        while last > 0 {
            if names[last - 1].as_str() == name {
                return Some(last - 1);
            }
            last = self.before[last - 1];
        }
        None
    }

    /// Returns a copy of the table.
    pub(crate) fn try_clone(&self, alloc: Global) -> Result<NameTable, AllocError>
        ensures last { IfOk result (λ t. t.last.items ≡ self.now.last.items) }
        ensures before { IfOk result (λ t. t.before.items ≡ self.now.before.items) }
    {
        let last = Vec::from_slice(alloc, &self.last)?;
        let before = Vec::from_slice(alloc, &self.before)?;
        Ok(NameTable { last, before })
    }
}
