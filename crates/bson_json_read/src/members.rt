//! The members of an object, by their names.

ghost use Rattle.std.specs.Prelude.{◌≡◌, option_map};
ghost use Rattle.json.specs.Find.{as_array, as_object};
ghost use Rattle.json.specs.Value.{items_view, members_view, value_view};
ghost use Rattle.bson_json_read.specs.Forms.{both, form_in, sole};

use crate::form::{Form, form_of_name};
use json::Value;

/// Returns the members, if the value is an object.
pub(crate) fn as_members<'v, 'a>(value: &'v Value<'a>) -> Option<&'v [(&'a str, Value<'a>)]>
    ensures { option_map (λ ms. members_view ms.now) result ≡ as_object (value_view value.now) }
{
    match value {
        Value::Object(members) => Some(members.as_slice()),
        _ => None,
    }
}

/// Returns the items, if the value is an array.
pub(crate) fn as_items<'v, 'a>(value: &'v Value<'a>) -> Option<&'v [Value<'a>]>
    ensures { option_map (λ js. items_view js.now) result ≡ as_array (value_view value.now) }
{
    match value {
        Value::Array(items) => Some(items.as_slice()),
        _ => None,
    }
}

/// Returns the form that the first name of a form among the members tells.
pub(crate) fn form_among<'a>(members: &[(&'a str, Value<'a>)]) -> Option<Form>
    ensures { result ≡ form_in (members_view members.now) }
{
    for member in members {
        if let Some(form) = form_of_name(member.0) {
            return Some(form);
        }
    }
    None
}

/// Returns the value of this name, if no other member is there.
#[tactic(auto, using(crate::proofs::Pairs::sole_one, crate::proofs::Pairs::sole_other))]
pub(crate) fn sole_value<'v, 'a>(
    members: &'v [(&'a str, Value<'a>)],
    name: &str,
) -> Option<&'v Value<'a>>
    ensures { option_map (λ v. value_view v.now) result
        ≡ sole name.now (members_view members.now) }
{
    if members.len() != 1 {
        return None;
    }
    let only = &members[0];
    if only.0 == name { Some(&only.1) } else { None }
}

/// Returns the values of these two names, if they alone are there, in either order.
#[tactic(auto, using(crate::proofs::Pairs::both_two, crate::proofs::Pairs::both_other))]
pub(crate) fn both_values<'v, 'a>(
    members: &'v [(&'a str, Value<'a>)],
    a: &str,
    b: &str,
) -> Option<(&'v Value<'a>, &'v Value<'a>)>
    ensures { option_map (λ p. (value_view p.0.now, value_view p.1.now)) result
        ≡ both a.now b.now (members_view members.now) }
{
    if members.len() != 2 {
        return None;
    }
    let (first, second) = (&members[0], &members[1]);
    if first.0 == a {
        if second.0 == b {
            return Some((&first.1, &second.1));
        }
        return None;
    }
    if first.0 == b && second.0 == a {
        return Some((&second.1, &first.1));
    }
    None
}
