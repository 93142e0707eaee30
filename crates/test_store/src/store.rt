//! Holds documents by namespace, and the cursors over what was found.

ghost use Rattle.std.specs.Prelude.{◌≡◌, ◌≤◌, ◌<◌, ◌++◌, ◌∷◌, [], IfErr, IfOk, MatchOption, None};
ghost use Rattle.std.specs.Prelude.{OnErr, OnOk, Some, length, map};
ghost use Rattle.bson_doc.specs.{value_of};
ghost use Rattle.test_store.specs.Held.{closed_at, collection_index, collection_of, cursor_index};
ghost use Rattle.test_store.specs.Held.{cursor_of, documents_in, empty_store, has_database};
ghost use Rattle.test_store.specs.Held.{held_indexes, id_if_left, with_indexes_of};
ghost use Rattle.test_store.specs.Held.{index_of_value, is_open, namespace_of, open_at, opened};
ghost use Rattle.test_store.specs.Held.{opened_id, store_of, with_any, with_documents, with_left};
ghost use Rattle.test_store.specs.Held.{with_replaced, without_collection, without_database};
ghost use Rattle.test_store.specs.Indexes.{index_view};
ghost use Rattle.test_store.specs.Taking.{IsNextBatch, IsOpenAt};

use crate::indexes::{Index, first_indexes};
use crate::namespace::{Namespace, NamespaceBuf};
use bson_doc::Bson;
use doc_query::{CommandError, Failure};
use doc_stages::next_batch;
use std::alloc::{AllocError, Global};

/// What is held of a namespace.
#[derive(Debug, Drop)]
pub struct Collection {
    /// The namespace.
    pub namespace: NamespaceBuf,
    /// The indexes, in the order in which they were made.
    pub indexes: Vec<Index>,
    /// The documents, in the order in which they were inserted.
    pub documents: Vec<Bson>,
}

/// The documents that were found and not yet given. The cursor is closed if there are none.
#[derive(Debug, Drop)]
pub struct Cursor {
    /// The namespace that they were found in.
    pub namespace: NamespaceBuf,
    /// The documents.
    pub left: Vec<Bson>,
}

/// What the server holds.
#[derive(Debug, Drop)]
pub struct Store {
    /// The collections, in the order in which they were made.
    pub(crate) collections: Vec<Collection>,
    /// The cursors. The id of each is its index, counted from `FIRST_CURSOR_ID`.
    pub(crate) cursors: Vec<Cursor>,
}

/// The id of the first cursor. A driver may send a smaller number back as an int32.
const FIRST_CURSOR_ID: i64 = 1 << 32;

/// Returns the index of the first collection with this namespace.
fn index_of(collections: &[Collection], namespace: Namespace<'_>) -> Option<usize>
    ensures { result ≡ collection_index (namespace_of namespace.entry)
        (map collection_of collections.now) }
{
    for (i, collection) in collections.iter().enumerate() {
        if collection.namespace.is(namespace) {
            return Some(i);
        }
    }
    None
}

/// Returns true if one of the collections is of this database.
pub(crate) fn has_database(collections: &[Collection], database: &str) -> bool
    ensures { result ≡ has_database database.now (map collection_of collections.now) }
{
    for collection in collections {
        if collection.namespace.database.as_str() == database {
            return true;
        }
    }
    false
}

impl Store {
    /// Makes a store without documents. Takes no memory.
    pub fn new(alloc: Global) -> Store
        ensures { store_of result ≡ empty_store }
    {
        Store {
            collections: Vec::new(alloc),
            cursors: Vec::new(alloc),
        }
    }

    /// Returns the allocator that the store takes its memory from.
    pub(crate) fn allocator(&self) -> Global {
        *self.collections.allocator()
    }

    /// Returns the documents of a namespace, in the order in which they were inserted.
    pub(crate) fn documents(&self, namespace: Namespace<'_>) -> &[Bson]
        ensures { map value_of result.now
            ≡ documents_in (namespace_of namespace.entry) (store_of self.now).collections }
    {
        match index_of(&self.collections, namespace) {
            Some(i) => &self.collections[i].documents,
            None => &[],
        }
    }

    /// Adds the collection of a namespace, with these indexes and documents.
    fn push_collection(
        &mut self,
        namespace: Namespace<'_>,
        indexes: Vec<Index>,
        documents: Vec<Bson>,
    ) -> Result<(), AllocError>
        ensures pushed { OnOk result ((store_of self.new).collections
            ≡ (store_of self.old).collections ++ record {
              namespace = namespace_of namespace.entry;
              indexes = map index_view indexes.items;
              documents = map value_of documents.items;
            } ∷ []) }
        ensures unchanged { OnErr result
            ((store_of self.new).collections ≡ (store_of self.old).collections) }
        ensures cursors { (store_of self.new).cursors ≡ (store_of self.old).cursors }
    {
        match namespace.to_buf(self.allocator()) {
            Ok(namespace) => {
                self.collections.push(Collection {
                    namespace,
                    indexes,
                    documents,
                })?;
                Ok(())
            }
            Err(refused) => {
                drop(indexes);
                drop(documents);
                Err(refused)
            }
        }
    }

    /// Inserts documents into a namespace, after those that are there, and makes its collection if
    /// there is none.
    fn insert(
        &mut self,
        namespace: Namespace<'_>,
        mut documents: Vec<Bson>,
    ) -> Result<(), AllocError>
        ensures inserted { OnOk result ((store_of self.new).collections
            ≡ with_documents (namespace_of namespace.entry) (map value_of documents.items)
            (store_of self.old).collections) }
        ensures unchanged { OnErr result
            ((store_of self.new).collections ≡ (store_of self.old).collections) }
        ensures cursors { (store_of self.new).cursors ≡ (store_of self.old).cursors }
    {
        match index_of(&self.collections, namespace) {
            Some(i) => {
                let appended = self.collections[i].documents.append(&mut documents);
                drop(documents);
                appended
            }
            None => match first_indexes(self.allocator()) {
                Ok(indexes) => self.push_collection(namespace, indexes, documents),
                Err(refused) => {
                    drop(documents);
                    Err(refused)
                }
            },
        }
    }

    /// Inserts documents into a namespace, after those that are there, unless there are none.
    ///
    /// # Errors
    ///
    /// Returns `AllocError` if memory runs out. Then the held documents are unchanged.
    pub(crate) fn insert_any(
        &mut self,
        namespace: Namespace<'_>,
        documents: Vec<Bson>,
    ) -> Result<(), AllocError>
        ensures inserted { OnOk result ((store_of self.new).collections
            ≡ with_any (namespace_of namespace.entry) (map value_of documents.items)
            (store_of self.old).collections) }
        ensures unchanged { OnErr result
            ((store_of self.new).collections ≡ (store_of self.old).collections) }
        ensures cursors { (store_of self.new).cursors ≡ (store_of self.old).cursors }
    {
        if documents.is_empty() {
            drop(documents);
            return Ok(());
        }
        self.insert(namespace, documents)
    }

    /// Puts these documents in the place of those of a namespace.
    ///
    /// # Errors
    ///
    /// Returns `AllocError` if memory runs out. Then the held documents are unchanged.
    pub(crate) fn put_documents(
        &mut self,
        namespace: Namespace<'_>,
        documents: Vec<Bson>,
    ) -> Result<(), AllocError>
        ensures replaced { OnOk result ((store_of self.new).collections
            ≡ with_replaced (namespace_of namespace.entry) (map value_of documents.items)
            (store_of self.old).collections) }
        ensures unchanged { OnErr result
            ((store_of self.new).collections ≡ (store_of self.old).collections) }
        ensures cursors { (store_of self.new).cursors ≡ (store_of self.old).cursors }
    {
        match index_of(&self.collections, namespace) {
            Some(i) => {
                self.collections[i].documents = documents;
                Ok(())
            }
            None => self.insert_any(namespace, documents),
        }
    }

    /// Returns the indexes of a namespace, in the order in which they were made, if there is a
    /// collection.
    pub(crate) fn indexes(&self, namespace: Namespace<'_>) -> Option<&[Index]>
        ensures { MatchOption result
            (held_indexes (namespace_of namespace.entry) (store_of self.now).collections ≡ None)
            (λ is. held_indexes (namespace_of namespace.entry) (store_of self.now).collections
            ≡ Some (map index_view is.now)) }
    {
        let i = index_of(&self.collections, namespace)?;
        Some(self.collections[i].indexes.as_slice())
    }

    /// Puts these indexes in the place of those of a namespace, and makes its collection if there
    /// is none.
    ///
    /// # Errors
    ///
    /// Returns `AllocError` if memory runs out. Then what is held is unchanged.
    pub(crate) fn put_indexes(
        &mut self,
        namespace: Namespace<'_>,
        indexes: Vec<Index>,
    ) -> Result<(), AllocError>
        ensures replaced { OnOk result ((store_of self.new).collections
            ≡ with_indexes_of (namespace_of namespace.entry) (map index_view indexes.items)
            (store_of self.old).collections) }
        ensures unchanged { OnErr result
            ((store_of self.new).collections ≡ (store_of self.old).collections) }
        ensures cursors { (store_of self.new).cursors ≡ (store_of self.old).cursors }
    {
        match index_of(&self.collections, namespace) {
            Some(i) => {
                self.collections[i].indexes = indexes;
                Ok(())
            }
            None => {
                let documents = Vec::new(self.allocator());
                self.push_collection(namespace, indexes, documents)
            }
        }
    }

    /// Drops the documents of a namespace.
    ///
    /// # Errors
    ///
    /// Returns `NamespaceNotFound` if it has none.
    pub(crate) fn drop_collection(&mut self, namespace: Namespace<'_>) -> Result<(), CommandError>
        ensures dropped { OnOk result
            (without_collection (namespace_of namespace.entry) (store_of self.old).collections
            ≡ Some (store_of self.new).collections) }
        ensures none { IfErr result (λ e. (e ≡ CommandError.NamespaceNotFound)
            × (without_collection (namespace_of namespace.entry) (store_of self.old).collections
            ≡ None)) }
        ensures unchanged { OnErr result
            ((store_of self.new).collections ≡ (store_of self.old).collections) }
        ensures cursors { (store_of self.new).cursors ≡ (store_of self.old).cursors }
    {
        match index_of(&self.collections, namespace) {
            Some(i) => {
                drop(self.collections.remove(i));
                Ok(())
            }
            None => Err(CommandError::NamespaceNotFound),
        }
    }

    /// Drops all collections of this database.
    pub(crate) fn drop_database(&mut self, database: &str)
        ensures dropped { (store_of self.new).collections
            ≡ without_database database.now (store_of self.old).collections }
        ensures cursors { (store_of self.new).cursors ≡ (store_of self.old).cursors }
    {
        self.collections.retain(|collection| collection.namespace.database.as_str() != database);
    }

    /// Opens a cursor over the documents that were found, unless there are none. Returns its id,
    /// or 0 if none was opened.
    ///
    /// # Errors
    ///
    /// Returns `AllocError` if memory runs out. Then the cursors are unchanged.
    pub(crate) fn open_cursor(
        &mut self,
        namespace: Namespace<'_>,
        left: Vec<Bson>,
    ) -> Result<i64, AllocError>
        ensures id { IfOk result
            (λ id. id ≡ opened_id (map value_of left.items) (store_of self.old).cursors) }
        ensures opened { OnOk result ((store_of self.new).cursors
            ≡ opened (namespace_of namespace.entry) (map value_of left.items)
            (store_of self.old).cursors) }
        ensures unchanged { OnErr result
            ((store_of self.new).cursors ≡ (store_of self.old).cursors) }
        ensures collections { (store_of self.new).collections ≡ (store_of self.old).collections }
    {
        if left.is_empty() {
            drop(left);
            return Ok(0);
        }
        let Some(id) = FIRST_CURSOR_ID.checked_add(self.cursors.len() as i64) else {
            drop(left);
            return Err(AllocError);
        };
        match namespace.to_buf(self.allocator()) {
            Ok(namespace) => {
                self.cursors.push(Cursor { namespace, left })?;
                Ok(id)
            }
            Err(refused) => {
                drop(left);
                Err(refused)
            }
        }
    }

    /// Returns the index of the open cursor with this id and this namespace.
    fn open_cursor_index(&self, id: i64, namespace: Namespace<'_>) -> Option<usize>
        ensures { MatchOption result
            (open_at (namespace_of namespace.entry) (cursor_index id) (store_of self.now).cursors
            ≡ None)
            (λ i. IsOpenAt (namespace_of namespace.entry) id self.now.cursors.items i) }
    {
        let index = index_of_id(id)?;
        let cursor = self.cursors.get(index)?;
        if cursor.namespace.is(namespace) && !cursor.left.is_empty() {
            Some(index)
        } else {
            None
        }
    }
}

impl Store {
    /// Closes the open cursor of this namespace whose id is a value. Returns true if there is one.
    pub(crate) fn close_cursor(&mut self, id: &Bson, namespace: Namespace<'_>) -> bool
        ensures closed { result ≡ is_open (namespace_of namespace.entry)
            (index_of_value (value_of id.now)) (store_of self.old).cursors }
        ensures cursors { (store_of self.new).cursors
            ≡ closed_at (namespace_of namespace.entry) (index_of_value (value_of id.now))
            (store_of self.old).cursors }
        ensures collections { (store_of self.new).collections ≡ (store_of self.old).collections }
    {
        let Bson::Int64(id) = id else {
            return false;
        };
        match self.open_cursor_index(*id, namespace) {
            Some(index) => {
                let alloc = self.allocator();
                self.cursors[index].left = Vec::new(alloc);
                true
            }
            None => false,
        }
    }
}

/// Returns the index of the cursor with this id.
fn index_of_id(id: i64) -> Option<usize>
    ensures { result ≡ cursor_index id }
{
    if id < FIRST_CURSOR_ID {
        None
    } else {
        Some((id - FIRST_CURSOR_ID) as usize)
    }
}

/// Returns the id of a cursor that has these documents left, or 0 if there are none.
fn id_if_left(id: i64, left: &[Bson]) -> i64
    ensures { result ≡ id_if_left id (map value_of left.now) }
{
    if left.is_empty() { 0 } else { id }
}

impl Store {
    /// Removes the next batch of documents, at most `count`, from the cursor with this id and this
    /// namespace. Returns them, and the id of the cursor, or 0 if it has no more.
    ///
    /// # Errors
    ///
    /// Returns `CursorNotFound` if there is no such open cursor, and otherwise `OutOfMemory` if
    /// memory runs out. Then the cursors are unchanged.
    pub(crate) fn next_batch(
        &mut self,
        id: i64,
        namespace: Namespace<'_>,
        count: usize,
    ) -> Result<(Vec<Bson>, i64), Failure>
        ensures cursors { IsNextBatch (namespace_of namespace.entry) id count
            (store_of self.old).cursors result
            (store_of self.new).cursors }
        ensures collections { (store_of self.new).collections ≡ (store_of self.old).collections }
    {
        let Some(index) = self.open_cursor_index(id, namespace) else {
            return Err(Failure::Refused(CommandError::CursorNotFound));
        };
        let Ok(batch) = next_batch(&mut self.cursors[index].left, count) else {
            return Err(Failure::OutOfMemory);
        };
        let id = id_if_left(id, &self.cursors[index].left);
        Ok((batch, id))
    }
}
