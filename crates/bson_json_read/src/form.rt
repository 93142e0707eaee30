//! The forms of objects that stand for values, and their names.

ghost use Rattle.std.specs.Prelude.{◌≡◌, Some};
ghost use Rattle.bson_json_read.specs.Forms.{begins_with_dollar, form_named};

use std::fmt;

/// A form of objects that stand for one value, by its name.
#[derive(Clone, Copy, PartialEq, Eq)]
pub enum Form {
    /// `$oid`
    ObjectId,
    /// `$symbol`
    Symbol,
    /// `$numberInt`
    Int32,
    /// `$numberLong`
    Int64,
    /// `$numberDouble`
    Double,
    /// `$numberDecimal`
    Decimal128,
    /// `$binary`
    Binary,
    /// `$uuid`
    Uuid,
    /// `$code`, with or without `$scope`
    Code,
    /// `$timestamp`
    Timestamp,
    /// `$regularExpression`
    Regex,
    /// `$dbPointer`
    DbPointer,
    /// `$date`
    DateTime,
    /// `$minKey`
    MinKey,
    /// `$maxKey`
    MaxKey,
    /// `$undefined`
    Undefined,
}

impl Form {
    ghost use Rattle.bson_json_read.specs.Forms.{form_name};

    /// Returns the name of the form.
    pub fn name(self) -> &'static str
        ensures name { result.now ≡ form_name self }
        ensures tells { form_named result.now ≡ Some self }
    {
        match self {
            Form::ObjectId => "$oid",
            Form::Symbol => "$symbol",
            Form::Int32 => "$numberInt",
            Form::Int64 => "$numberLong",
            Form::Double => "$numberDouble",
            Form::Decimal128 => "$numberDecimal",
            Form::Binary => "$binary",
            Form::Uuid => "$uuid",
            Form::Code => "$code",
            Form::Timestamp => "$timestamp",
            Form::Regex => "$regularExpression",
            Form::DbPointer => "$dbPointer",
            Form::DateTime => "$date",
            Form::MinKey => "$minKey",
            Form::MaxKey => "$maxKey",
            Form::Undefined => "$undefined",
        }
    }
}

impl fmt::Debug for Form {
    fn fmt<W: fmt::Write>(&self, f: &mut fmt::Formatter<W>) -> fmt::Result {
        f.write_str(self.name())
    }
}

/// Returns the form of this name, if there is one.
#[tactic(auto, using(crate::proofs::FormNames::not_named))]
#[inline(always)]
pub(crate) fn form_of_name(name: &str) -> Option<Form>
    ensures { result ≡ form_named name.now }
{
    if begins_with_dollar(name.as_bytes()) {
        form_in_table(name)
    } else {
        None
    }
}

/// Returns true if the first byte is `$`, as that of each name of a form is.
#[inline(always)]
fn begins_with_dollar(name: &[u8]) -> bool
    ensures { result ≡ begins_with_dollar name.now }
{
    !name.is_empty() && name[0] == b'$'
}

/// Returns the form of this name, if there is one.
#[inline(never)]
fn form_in_table(name: &str) -> Option<Form>
    ensures { result ≡ form_named name.now }
{
    match name {
        "$oid" => Some(Form::ObjectId),
        "$symbol" => Some(Form::Symbol),
        "$numberInt" => Some(Form::Int32),
        "$numberLong" => Some(Form::Int64),
        "$numberDouble" => Some(Form::Double),
        "$numberDecimal" => Some(Form::Decimal128),
        "$binary" => Some(Form::Binary),
        "$uuid" => Some(Form::Uuid),
        "$code" => Some(Form::Code),
        "$timestamp" => Some(Form::Timestamp),
        "$regularExpression" => Some(Form::Regex),
        "$dbPointer" => Some(Form::DbPointer),
        "$date" => Some(Form::DateTime),
        "$minKey" => Some(Form::MinKey),
        "$maxKey" => Some(Form::MaxKey),
        "$undefined" => Some(Form::Undefined),
        _ => None,
    }
}
