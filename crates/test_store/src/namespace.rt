//! Names a database and a collection in it: a namespace.

ghost use Rattle.std.specs.Prelude.{◌≡◌, ◌++◌, codes, IfOk, OnOk, string_bytes};
ghost use Rattle.test_store.specs.Held.{is_same_namespace, namespace_buf, namespace_of};
ghost use Rattle.test_store.specs.Held.{namespace_text};

use std::alloc::{AllocError, Global};

/// The names of a database and of a collection in it, borrowed.
#[derive(Clone, Copy)]
pub struct Namespace<'a> {
    /// The name of the database.
    pub database: &'a str,
    /// The name of the collection.
    pub collection: &'a str,
}

/// The names of a database and of a collection in it.
#[derive(Debug, Drop)]
pub struct NamespaceBuf {
    /// The name of the database.
    pub database: String,
    /// The name of the collection.
    pub collection: String,
}

impl Namespace<'_> {
    /// Copies the names.
    ///
    /// # Errors
    ///
    /// Returns `AllocError` if memory runs out.
    pub fn to_buf(self, alloc: Global) -> Result<NamespaceBuf, AllocError>
        ensures { IfOk result (λ b. namespace_buf b ≡ namespace_of self.entry) }
    {
        let database = String::from_str(alloc, self.database)?;
        match String::from_str(alloc, self.collection) {
            Ok(collection) => Ok(NamespaceBuf {
                database,
                collection,
            }),
            Err(refused) => {
                drop(database);
                Err(refused)
            }
        }
    }

    /// Appends the two names with a full stop between them.
    ///
    /// # Errors
    ///
    /// Returns `AllocError` if memory runs out.
    pub fn push_to(self, text: &mut String) -> Result<(), AllocError>
        ensures { OnOk result (string_bytes text.new
            ≡ string_bytes text.old ++ namespace_text (namespace_of self.entry)) }
    {
        text.push_str(self.database)
            .and(text.push_str("."))
            .and(text.push_str(self.collection))
    }

    /// Returns the two names with a full stop between them.
    ///
    /// # Errors
    ///
    /// Returns `AllocError` if memory runs out.
    pub fn to_text(self, alloc: Global) -> Result<String, AllocError>
        ensures { IfOk result (λ s. string_bytes s ≡ namespace_text (namespace_of self.entry)) }
    {
        let mut text = String::new(alloc);
        self.push_to(&mut text).and(Ok(text))
    }
}

impl NamespaceBuf {
    /// Returns true if the names are those of `namespace`.
    pub fn is(&self, namespace: Namespace<'_>) -> bool
        ensures { result ≡ is_same_namespace (namespace_of namespace.entry)
            (namespace_buf self.now) }
    {
        self.database.as_str() == namespace.database
            && self.collection.as_str() == namespace.collection
    }
}
