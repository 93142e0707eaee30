//! Says why a command isn't carried out.

ghost use Rattle.std.specs.Prelude.{◌≡◌};

use std::alloc::AllocError;

/// What a sort is by.
const UNSORTED: &str =
    "documents are sorted by numbers, strings, booleans, dates, ObjectIds and null alone";

/// What a filter is made of.
const OPERATORS: &str =
    "a filter must ask for values or $eq, $ne, $gt, $gte, $lt, $lte, $in, $nin, $exists, $and, $or";

/// What a projection is made of.
const PROJECTED: &str =
    "a projection must name fields of the document itself, each with 1, true, 0 or false";

/// What is wrong with a command, or with what it asks for.
#[derive(Clone, Copy, Debug)]
pub enum CommandError {
    /// `$db` isn't a string.
    Database,
    /// The field `insert` isn't a string.
    Insert,
    /// The field `find` isn't a string.
    Find,
    /// The field `drop` isn't a string.
    Drop,
    /// The field `getMore` isn't an int64.
    GetMore,
    /// The field `collection` isn't a string.
    Collection,
    /// The field `delete` isn't a string.
    Delete,
    /// The field `aggregate` isn't a string.
    Aggregate,
    /// The pipeline isn't an array of stages that are carried out.
    Stage,
    /// The field `cursor` isn't a document.
    Cursor,
    /// The field `count` isn't a string.
    Count,
    /// A statement of delete hasn't just the fields `q` and `limit`, of which this is 0 or 1.
    Deletes,
    /// The field `update` isn't a string.
    Update,
    /// A statement of update isn't one, or has other fields than `q`, `u`, `multi` and `upsert`.
    Updates,
    /// A statement of update would insert a document by a filter with a field that isn't carried
    /// out there.
    Upsert,
    /// The `_id` of a document that a statement of update would insert is taken.
    Duplicate,
    /// A statement of update puts a document in the place of many.
    Many,
    /// An update has other operators than `$set`, `$unset` and `$inc`, or fields beside them.
    Modifiers,
    /// A step of a path of an update begins with `$`.
    Path,
    /// A step of a path of an update is empty.
    EmptyStep,
    /// A path of an update has more than 200 steps.
    Steps,
    /// Two paths of an update are one, or one is the beginning of the other.
    Conflict,
    /// A path of an update leads through a value that is no document and no array, or into an array
    /// by what is no index.
    NotViable,
    /// A path of an update names an element too far behind the end of an array.
    Backfill,
    /// `$inc` adds something else than a number, or to something else.
    Increment,
    /// The sum that `$inc` makes is no int64.
    Overflow,
    /// An update would change an `_id`.
    ImmutableId,
    /// An update would insert a document with an `_id` that no document may have.
    InvalidId,
    /// The field `killCursors` isn't a string.
    KillCursors,
    /// The field `cursors` isn't an array.
    Cursors,
    /// A name is repeated in the body, or in a document inside.
    Repeated,
    /// What the command brings isn't 1 to 100,000 documents, or a name is repeated in one.
    Documents,
    /// The field `ordered` isn't a boolean.
    Ordered,
    /// The filter isn't a document, or a name is repeated in it.
    Filter,
    /// The filter has an operator or an operand that isn't carried out.
    Operator,
    /// `$and` of a filter isn't an array.
    AndArray,
    /// `$or` of a filter isn't an array.
    OrArray,
    /// `$and` or `$or` of a filter joins no filters.
    NoClauses,
    /// `$and` or `$or` of a filter joins something else than documents.
    Clause,
    /// The list of `$in` or `$nin` has a document of operators.
    NestedOperator,
    /// The filter would compare a decimal128.
    Decimal,
    /// The field `sort` isn't a document, or a name is repeated in it.
    Sort,
    /// A field of the sort isn't a key with a direction.
    Direction,
    /// A document has a value that isn't compared in a field by which they are sorted.
    Unsorted,
    /// The field `projection` isn't a document, or a name is repeated in it.
    Projection,
    /// A field of the projection names no field of the document itself, or asks for something else
    /// than that it is included or excluded.
    Projected,
    /// A field is included by a projection that excludes.
    Inclusion,
    /// A field is excluded by a projection that includes.
    Exclusion,
    /// The number of documents to skip isn't a whole number.
    Skip,
    /// The most documents to find isn't a whole number.
    Limit,
    /// The number of documents in the first batch isn't a whole number.
    FirstBatchSize,
    /// The field `singleBatch` isn't a boolean.
    SingleBatch,
    /// The field `nameOnly` isn't a boolean.
    NameOnly,
    /// The field `createIndexes` isn't a string.
    CreateIndexes,
    /// The field `indexes` isn't an array.
    Indexes,
    /// What is asked for is no index that can be made.
    Index,
    /// Another index has this name.
    IndexName,
    /// Another index has this key.
    IndexKey,
    /// The field `listIndexes` isn't a string.
    ListIndexes,
    /// The number of documents in a later batch isn't a whole number that is at least 1.
    NextBatchSize,
    /// No open cursor has this id and this namespace.
    CursorNotFound,
    /// No collection has this namespace.
    NamespaceNotFound,
}

impl CommandError {
    ghost use Rattle.doc_query.specs.Errors.{code_name_of, code_of, words_of};

    /// Returns the number of the error.
    pub fn code(self) -> i32
        ensures { result ≡ code_of self }
    {
        match self {
            CommandError::CursorNotFound => 43,
            CommandError::NamespaceNotFound => 26,
            CommandError::Direction => 15975,
            CommandError::Inclusion => 31253,
            CommandError::Exclusion => 31254,
            CommandError::Conflict => 40,
            CommandError::EmptyStep => 56,
            CommandError::Steps => 15,
            CommandError::NotViable => 28,
            CommandError::Backfill => 34,
            CommandError::Increment => 14,
            CommandError::Overflow => 2,
            CommandError::AndArray
            | CommandError::OrArray
            | CommandError::NoClauses
            | CommandError::Clause
            | CommandError::NestedOperator => 2,
            CommandError::ImmutableId => 66,
            CommandError::InvalidId => 53,
            CommandError::Duplicate => 11000,
            CommandError::Index => 67,
            CommandError::IndexName => 86,
            CommandError::IndexKey => 85,
            _ => 9,
        }
    }

    /// Returns the name of the error, which goes with its number.
    pub fn code_name(self) -> &'static str
        ensures { result.now ≡ code_name_of self }
    {
        match self {
            CommandError::CursorNotFound => "CursorNotFound",
            CommandError::NamespaceNotFound => "NamespaceNotFound",
            CommandError::Direction => "Location15975",
            CommandError::Inclusion => "Location31253",
            CommandError::Exclusion => "Location31254",
            CommandError::Conflict => "ConflictingUpdateOperators",
            CommandError::EmptyStep => "EmptyFieldName",
            CommandError::Steps => "Overflow",
            CommandError::NotViable => "PathNotViable",
            CommandError::Backfill => "CannotBackfillArray",
            CommandError::Increment => "TypeMismatch",
            CommandError::Overflow => "BadValue",
            CommandError::AndArray
            | CommandError::OrArray
            | CommandError::NoClauses
            | CommandError::Clause
            | CommandError::NestedOperator => "BadValue",
            CommandError::ImmutableId => "ImmutableField",
            CommandError::InvalidId => "InvalidIdField",
            CommandError::Duplicate => "DuplicateKey",
            CommandError::Index => "CannotCreateIndex",
            CommandError::IndexName => "IndexKeySpecsConflict",
            CommandError::IndexKey => "IndexOptionsConflict",
            _ => "FailedToParse",
        }
    }

    /// Returns what is wrong, in words that name the field.
    pub fn words(self) -> &'static str
        ensures { result.now ≡ words_of self }
    {
        match self {
            CommandError::Database => "the field '$db' must be a string",
            CommandError::Insert => "the field 'insert' must be a string",
            CommandError::Find => "the field 'find' must be a string",
            CommandError::Drop => "the field 'drop' must be a string",
            CommandError::GetMore => "the field 'getMore' must be an int64",
            CommandError::Collection => "the field 'collection' must be a string",
            CommandError::KillCursors => "the field 'killCursors' must be a string",
            CommandError::Cursors => "the field 'cursors' must be an array",
            CommandError::Repeated => "a document of the command has a name twice",
            CommandError::Delete => "the field 'delete' must be a string",
            CommandError::Aggregate => "the field 'aggregate' must be a string",
            CommandError::Stage => {
                "the stages must be $match, $skip, $limit and {$group: {_id: 1, n: {$sum: 1}}}"
            }
            CommandError::Cursor => "the field 'cursor' must be a document",
            CommandError::Count => "the field 'count' must be a string",
            CommandError::Deletes =>
                "a statement must have a filter 'q' and a 'limit' of 0 or 1 alone",
            CommandError::Update => "the field 'update' must be a string",
            CommandError::Updates => {
                "a statement must have a filter 'q', an update 'u', and 'multi' and 'upsert' alone"
            }
            CommandError::Upsert =>
                "a filter with $and, $or, $in, a path or a field without a name can't be upserted",
            CommandError::Duplicate => "E11000 duplicate key error index: _id_",
            CommandError::Many => "multi update is not supported for replacement-style update",
            CommandError::Modifiers => {
                "an update must be a document, or have the operators $set, $unset and $inc alone"
            }
            CommandError::Path => "a path of an update must have no '$' at the beginning of a step",
            CommandError::EmptyStep => "a path of an update must have no empty step",
            CommandError::Steps => "a path of an update must have at most 200 steps",
            CommandError::Conflict =>
                "no path of an update may be another one, or the beginning of another one",
            CommandError::NotViable => {
                "Cannot create a field in a value that is no document, or by a name in an array"
            }
            CommandError::Backfill => "can't backfill more than 1500000 elements",
            CommandError::Increment => "$inc must add an int32, an int64 or a double to one",
            CommandError::Overflow => "the sum that $inc makes must be an int64",
            CommandError::InvalidId => {
                "The '_id' value cannot be of type array, regex or undefined"
            }
            CommandError::ImmutableId => "an update must not change the immutable field '_id'",
            CommandError::Documents => {
                "the command must bring from 1 to 100000 documents, with no name twice in one"
            }
            CommandError::Ordered => "the field 'ordered' must be a boolean",
            CommandError::Filter => "a filter must be a document with no name twice",
            CommandError::Operator => OPERATORS,
            CommandError::AndArray => "$and must be an array",
            CommandError::OrArray => "$or must be an array",
            CommandError::NoClauses => "$and/$or/$nor must be a nonempty array",
            CommandError::Clause => "$or/$and/$nor entries need to be full objects",
            CommandError::NestedOperator => "cannot nest $ under $in",
            CommandError::Decimal => "a filter must compare no decimal128",
            CommandError::Sort => "the field 'sort' must be a document with no name twice",
            CommandError::Direction => {
                "$sort key ordering must be 1 (for ascending) or -1 (for descending)"
            }
            CommandError::Unsorted => UNSORTED,
            CommandError::Projection =>
                "the field 'projection' must be a document with no name twice",
            CommandError::Projected => PROJECTED,
            CommandError::Inclusion => "Cannot do inclusion on a field in exclusion projection",
            CommandError::Exclusion => "Cannot do exclusion on a field in inclusion projection",
            CommandError::Skip => "the field 'skip' must be a whole number",
            CommandError::Limit => "the field 'limit' must be a whole number",
            CommandError::SingleBatch => "the field 'singleBatch' must be a boolean",
            CommandError::NameOnly => "the field 'nameOnly' must be a boolean or a whole number",
            CommandError::CreateIndexes => "the field 'createIndexes' must be a string",
            CommandError::Indexes => "the field 'indexes' must be an array",
            CommandError::Index => {
                "an index has 'key' with directions 1 and -1, 'name', 'v', 'ns' and 'background' alone"
            }
            CommandError::IndexName => "another index has this name",
            CommandError::IndexKey => "another index has this key",
            CommandError::ListIndexes => "the field 'listIndexes' must be a string",
            CommandError::FirstBatchSize => "the field 'batchSize' must be a whole number",
            CommandError::NextBatchSize => "the field 'batchSize' must be a whole number from 1 on",
            CommandError::CursorNotFound =>
                "no open cursor of this namespace has the id in 'getMore'",
            CommandError::NamespaceNotFound => "ns not found",
        }
    }
}

/// Why a command has no answer of its own.
#[derive(Clone, Copy, Debug)]
pub enum Failure {
    /// The answer is this error.
    Refused(CommandError),
    /// Memory ran out.
    OutOfMemory,
}

impl From<CommandError> for Failure {
    ghost use Rattle.doc_query.specs.declared.failure.Failure.TheVariants.{Refused};

    ghost from_gives = { λ e failure. failure ≡ Refused e };

    fn from(error: CommandError) -> Failure {
        Failure::Refused(error)
    }
}

impl From<AllocError> for Failure {
    ghost use Rattle.doc_query.specs.declared.failure.Failure.TheVariants.{OutOfMemory};

    ghost from_gives = { λ _ failure. failure ≡ OutOfMemory };

    fn from(_error: AllocError) -> Failure {
        Failure::OutOfMemory
    }
}
