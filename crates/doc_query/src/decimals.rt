//! Tells if a value holds a decimal128, which isn't compared.

ghost use Rattle.std.specs.Prelude.{◌≡◌, map};
ghost use Rattle.std.specs.List.{list_any};
ghost use Rattle.bson_doc.specs.{value_of};
ghost use Rattle.doc_query.specs.Decimals.{holds_decimal};

use bson_doc::Bson;

/// Returns true if one of these values holds a decimal128.
#[cycle(decimals)]
fn any_holds(values: &[Bson]) -> bool
    ensures { result ≡ list_any holds_decimal (map value_of values.now) }
{
    for value in values {
        if holds_decimal(value) {
            return true;
        }
    }
    false
}

/// Returns true if a value is a decimal128, or holds one at any depth.
#[cycle(decimals)]
#[tactic(auto, using(crate::proofs::HeldDecimals::within_document, crate::proofs::HeldDecimals::within_array))]
pub fn holds_decimal(value: &Bson) -> bool
    ensures { result ≡ holds_decimal (value_of value.now) }
{
    match value {
        Bson::Decimal128(_) => true,
        Bson::Document(document) => any_holds(document.values()),
        Bson::Array(array) => any_holds(array.as_slice()),
        Bson::CodeWithScope { scope, .. } => any_holds(scope.values()),
        _ => false,
    }
}
