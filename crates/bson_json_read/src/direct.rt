//! Writes documents straight from the tokens of their JSON, where that takes one look at each: no
//! name stands twice in an object, and each object of a form has the members in the order in which
//! they are usually written. Each function returns false for anything else, which says nothing of
//! the text.
//!
//! The tokens of a text whose strings have no escape are read where they stand, and those of
//! another one from the kit's tape.

ghost use Rattle.std.specs.Prelude.{◌≡◌, ◌<◌, ◌∷◌, ◌+◌, ◌++◌, ◌^◌, [], ℕ, List, IfSome};
ghost use Rattle.std.specs.Prelude.{IsTrue, None, Ok, Some, false, option_map, vec_len};
ghost use Rattle.std.specs.Fmt.{decimal};
ghost use Rattle.json.specs.Lex.{tokens};
ghost use Rattle.json.specs.Reads.{token_of};
ghost use Rattle.json.specs.Token as token;
ghost use Rattle.bson_elem.specs.{document};
ghost use Rattle.bson_raw.specs.{TreeValue};
ghost use Rattle.bson_doc.specs.Unwritable as unwritable;
ghost use Rattle.bson_doc.specs.Values.{element_bytes};
ghost use Rattle.bson_json_read.specs.Direct.{IsDocumentPut, PutsLeaf, ReadsForm, ReadsItems};
ghost use Rattle.bson_json_read.specs.Direct.{ReadsMembers, ReadsValue};
ghost use Rattle.bson_json_read.specs.Forms.{form_named};
ghost use Rattle.bson_json_read.specs.Leaf.{leaf_of};
ghost use Rattle.bson_json_read.specs.Numbers.{integer_of};
ghost use Rattle.bson_json_read.specs.Seen.{IsSeen, Keeps, code_of};
ghost use Rattle.bson_json_read.specs.Sources.{left_of};
ghost use Rattle.bson_json_read.specs.Table.{binary_texts, date_value};
ghost use Rattle.bson_json_read.specs.Texts.{document_in};
ghost use Rattle.bson_json_read.specs.Values.{number_read};

use crate::bracket::Bracket;
use crate::bytes::{read_base64, read_subtype};
use crate::cursor::Cursor;
use crate::element::{Leaf, begin, finish, put_binary, put_head, put_leaf, put_string};
use crate::form::{Form, form_of_name};
use crate::nodes::Nodes;
use crate::number::{read_finite, read_i32, read_i64};
use crate::seen::{Seen, code_of};
use crate::source::Source;
use crate::wrapped::text_leaf;
use crate::zero::has_zero;
use bson_elem::Kind;
use bson_raw::double_to_bytes;
use itoa::Buffer;
use json::{Scratch, Tape, Token};
use memchr::memchr;
use std::alloc::Global;

/// Appends the value of an object of this form, whose name was taken, if the value is a text.
#[tactic(auto, using(crate::proofs::Written::text_form))]
fn write_text_form<'t, 'a>(
    form: Form,
    name: &str,
    left: &mut Source<'t, 'a>,
    out: &mut Vec<u8>,
) -> bool
    ensures { IsTrue result → ReadsForm form name.now (left_of left.old) (left_of left.new)
        out.old.items out.new.items }
{
    let Some(text) = left.text() else {
        return false;
    };
    match text_leaf(form, text) {
        Some(leaf) => left.take(Bracket::EndObject) && put_leaf(name, leaf, out),
        None => false,
    }
}

/// Takes the next member, if it has this name and is a text.
#[inline(always)]
fn text_named<'t, 'a>(name: &str, left: &mut Source<'t, 'a>) -> Option<&'a str>
    ensures { IfSome result (λ s. left_of left.old
        ≡ token.key name.now ∷ token.string s.now ∷ left_of left.new) }
{
    left.pass_comma();
    match left.name() {
        Some(next) if next == name => left.text(),
        _ => None,
    }
}

/// Returns the date of so many milliseconds.
fn date_of(text: &str) -> Option<Leaf>
    ensures { IfSome result (λ l.
        option_map date_value (integer_of (2 ^ 63) text.now) ≡ Some (leaf_of l)) }
{
    match read_i64(text) {
        Some(ms) => Some(Leaf::DateTime(ms)),
        None => None,
    }
}

/// Appends the date of an object of `$date` whose value is one of `$numberLong`.
#[tactic(auto, using(crate::proofs::Written::long_date))]
fn write_long_date<'t, 'a>(name: &str, left: &mut Source<'t, 'a>, out: &mut Vec<u8>) -> bool
    ensures { IsTrue result → ReadsForm Form.DateTime name.now (left_of left.old) (left_of left.new)
        out.old.items out.new.items }
{
    if !left.take(Bracket::BeginObject) {
        return false;
    }
    let Some(text) = text_named("$numberLong", left) else {
        return false;
    };
    if !left.take(Bracket::EndObject) || !left.take(Bracket::EndObject) {
        return false;
    }
    match date_of(text) {
        Some(date) => put_leaf(name, date, out),
        None => false,
    }
}

/// Appends the binary of these texts under a name.
fn put_binary_of(alloc: Global, name: &str, base64: &str, subtype: &str, out: &mut Vec<u8>) -> bool
    ensures { IsTrue result → (v : TreeValue) × (binary_texts (base64.now, subtype.now) ≡ Some v)
        × (out.new.items ≡ out.old.items ++ element_bytes name.now v) }
{
    let Some(subtype) = read_subtype(subtype) else {
        return false;
    };
    match read_base64(alloc, base64) {
        Ok(Some(bytes)) => put_binary(name, subtype, &bytes, out),
        _ => false,
    }
}

/// Appends the binary of an object of `$binary`.
fn write_binary<'t, 'a>(
    alloc: Global,
    name: &str,
    left: &mut Source<'t, 'a>,
    out: &mut Vec<u8>,
) -> bool
    ensures { IsTrue result → ReadsForm Form.Binary name.now (left_of left.old) (left_of left.new)
        out.old.items out.new.items }
{
    if !left.take(Bracket::BeginObject) {
        return false;
    }
    let Some(base64) = text_named("base64", left) else {
        return false;
    };
    let Some(subtype) = text_named("subType", left) else {
        return false;
    };
    if !left.take(Bracket::EndObject) || !left.take(Bracket::EndObject) {
        return false;
    }
    put_binary_of(alloc, name, base64, subtype, out)
}

/// Appends the value of an object of this form, whose name was taken.
fn write_form<'t, 'a>(
    alloc: Global,
    form: Form,
    name: &str,
    left: &mut Source<'t, 'a>,
    out: &mut Vec<u8>,
) -> bool
    ensures { IsTrue result → ReadsForm form name.now (left_of left.old) (left_of left.new)
        out.old.items out.new.items }
{
    match form {
        Form::Binary => write_binary(alloc, name, left, out),
        Form::DateTime if left.is_at_object() => write_long_date(name, left, out),
        _ => write_text_form(form, name, left, out),
    }
}

/// Appends the pair of a member of the document that begins at `offset`.
#[cycle(write)]
#[inline(always)]
fn write_member<'t, 'a>(
    alloc: Global,
    offset: usize,
    name: &str,
    left: &mut Source<'t, 'a>,
    room: u32,
    seen: &mut Seen,
    out: &mut Vec<u8>,
) -> bool
    ensures free { IsTrue result → unwritable.has_zero name.now ≡ false }
    ensures formless { IsTrue result → form_named name.now ≡ None }
    ensures reads { IsTrue result → ReadsValue room name.now (left_of left.old) (left_of left.new)
        out.old.items out.new.items }
    ensures code { IsTrue result → IsSeen seen.old seen.new (code_of offset name.now) }
{
    if has_zero(name.as_bytes()) || form_of_name(name).is_some() {
        return false;
    }
    seen.put(code_of(offset, name)) && write_value(alloc, name, left, room, seen, out)
}

/// Appends the document that has no pair. So many documents and arrays may be nested, with it.
fn write_empty(room: u32, out: &mut Vec<u8>) -> bool
    ensures room { IsTrue result → 0 < room }
    ensures bytes { IsTrue result → out.new.items ≡ out.old.items ++ document [] }
    ensures short { IsTrue result → vec_len out.new < vec_len out.old + 2 ^ 31 }
{
    let start = out.len();
    room > 0 && begin(out) && finish(start, out)
}

/// Appends the document of the members that are next, of which the first has this name. So many
/// documents and arrays may be nested, with it.
#[cycle(write)]
fn write_members<'t, 'a>(
    alloc: Global,
    first: &'a str,
    left: &mut Source<'t, 'a>,
    room: u32,
    seen: &mut Seen,
    out: &mut Vec<u8>,
) -> bool
    ensures reads { IsTrue result → ReadsMembers room (token.key first.now ∷ left_of left.old)
        (left_of left.new) out.old.items out.new.items }
    ensures kept { IsTrue result → Keeps seen.old seen.new }
    ensures short { IsTrue result → vec_len out.new < vec_len out.old + 2 ^ 31 }
{
    let start = out.len();
    let offset = seen.offset(start);
    if room == 0 || !begin(out) {
        return false;
    }
    let mut name = first;
    // A member takes a token at least.
    for _ in 0..left.most() {
        if !write_member(alloc, offset, name, left, room - 1, seen, out) {
            return false;
        }
        if left.take(Bracket::EndObject) {
            return finish(start, out);
        }
        left.pass_comma();
        let Some(next) = left.name() else {
            return false;
        };
        name = next;
    }
    false
}

/// Appends the element of the item at `index` of an array.
#[cycle(write)]
#[inline(always)]
fn write_item<'t, 'a>(
    alloc: Global,
    index: usize,
    left: &mut Source<'t, 'a>,
    room: u32,
    seen: &mut Seen,
    out: &mut Vec<u8>,
) -> bool
    ensures reads { IsTrue result → ReadsValue room (decimal index) (left_of left.old)
        (left_of left.new) out.old.items out.new.items }
    ensures kept { IsTrue result → Keeps seen.old seen.new }
{
    let mut digits = Buffer::new();
    write_value(alloc, digits.format(index), left, room, seen, out)
}

/// Appends the array of the items that are next. So many documents and arrays may be nested, with
/// it.
#[cycle(write)]
fn write_items<'t, 'a>(
    alloc: Global,
    left: &mut Source<'t, 'a>,
    room: u32,
    seen: &mut Seen,
    out: &mut Vec<u8>,
) -> bool
    ensures reads { IsTrue result →
        ReadsItems room (left_of left.old) (left_of left.new) out.old.items out.new.items }
    ensures kept { IsTrue result → Keeps seen.old seen.new }
{
    let start = out.len();
    if room == 0 || !begin(out) {
        return false;
    }
    // An item takes a token at least.
    for index in 0..left.most() {
        if left.take(Bracket::EndArray) {
            return finish(start, out);
        }
        left.pass_comma();
        if !write_item(alloc, index, left, room - 1, seen, out) {
            return false;
        }
    }
    false
}

/// Appends the element of an object, whose first member or end is next.
#[cycle(write)]
#[inline(always)]
#[tactic(auto, using(crate::proofs::Written::by_form, crate::proofs::Written::as_document, crate::proofs::Written::as_empty))]
fn write_object<'t, 'a>(
    alloc: Global,
    name: &str,
    left: &mut Source<'t, 'a>,
    room: u32,
    seen: &mut Seen,
    out: &mut Vec<u8>,
) -> bool
    ensures reads { IsTrue result → ReadsValue room name.now (token.begin_object ∷ left_of left.old)
        (left_of left.new) out.old.items out.new.items }
    ensures kept { IsTrue result → Keeps seen.old seen.new }
{
    if left.take(Bracket::EndObject) {
        return put_head(Kind::Document, name, out) && write_empty(room, out);
    }
    let Some(key) = left.name() else {
        return false;
    };
    match form_of_name(key) {
        Some(form) => write_form(alloc, form, name, left, out),
        None => {
            put_head(Kind::Document, name, out) && write_members(alloc, key, left, room, seen, out)
        }
    }
}

/// Appends the element of an array, whose items are next.
#[cycle(write)]
#[tactic(auto, using(crate::proofs::Written::as_array))]
fn write_array<'t, 'a>(
    alloc: Global,
    name: &str,
    left: &mut Source<'t, 'a>,
    room: u32,
    seen: &mut Seen,
    out: &mut Vec<u8>,
) -> bool
    ensures reads { IsTrue result → ReadsValue room name.now (token.begin_array ∷ left_of left.old)
        (left_of left.new) out.old.items out.new.items }
    ensures kept { IsTrue result → Keeps seen.old seen.new }
{
    put_head(Kind::Array, name, out) && write_items(alloc, left, room, seen, out)
}

/// Returns the value of a number that isn't too large.
#[inline(always)]
fn plain_number(text: &str) -> Option<Leaf>
    ensures { IfSome result (λ l. number_read text.now ≡ Ok (leaf_of l)) }
{
    if let Some(number) = read_i32(text) {
        return Some(Leaf::Int32(number));
    }
    if let Some(number) = read_i64(text) {
        return Some(Leaf::Int64(number));
    }
    match read_finite(text) {
        Some(number) => Some(Leaf::Double(double_to_bytes(number))),
        None => None,
    }
}

/// Appends the element of a number, a truth value or null.
#[inline(always)]
fn write_word(token: Token<'_>, name: &str, out: &mut Vec<u8>) -> bool
    ensures { IsTrue result →
        PutsLeaf (token_of token.entry) name.now out.old.items out.new.items }
{
    match token {
        Token::Number(text) => match plain_number(text) {
            Some(number) => put_leaf(name, number, out),
            None => false,
        },
        Token::Bool(truth) => put_leaf(name, Leaf::Boolean(truth), out),
        Token::Null => put_leaf(name, Leaf::Null, out),
        _ => false,
    }
}

/// Appends the element of the value that is next, in which at most `room` documents and arrays may
/// be nested.
#[cycle(write)]
#[inline(always)]
#[tactic(auto, using(crate::proofs::Written::of_leaf, crate::proofs::Written::of_string))]
fn write_value<'t, 'a>(
    alloc: Global,
    name: &str,
    left: &mut Source<'t, 'a>,
    room: u32,
    seen: &mut Seen,
    out: &mut Vec<u8>,
) -> bool
    ensures reads { IsTrue result → ReadsValue room name.now (left_of left.old) (left_of left.new)
        out.old.items out.new.items }
    ensures kept { IsTrue result → Keeps seen.old seen.new }
{
    if left.take(Bracket::BeginObject) {
        return write_object(alloc, name, left, room, seen, out);
    }
    if left.take(Bracket::BeginArray) {
        return write_array(alloc, name, left, room, seen, out);
    }
    if let Some(text) = left.text() {
        return put_string(name, text, out);
    }
    match left.word() {
        Some(word) => write_word(word, name, out),
        None => false,
    }
}

/// Appends the document of an object whose first member or end is next.
#[tactic(auto, using(crate::proofs::Written::empty_members))]
fn write_outermost<'t, 'a>(
    alloc: Global,
    left: &mut Source<'t, 'a>,
    seen: &mut Seen,
    out: &mut Vec<u8>,
) -> bool
    ensures reads { IsTrue result →
        ReadsMembers 200 (left_of left.old) (left_of left.new) out.old.items out.new.items }
    ensures short { IsTrue result → vec_len out.new < vec_len out.old + 2 ^ 31 }
{
    if left.take(Bracket::EndObject) {
        return write_empty(200, out);
    }
    let Some(first) = left.name() else {
        return false;
    };
    write_members(alloc, first, left, 200, seen, out)
}

/// Appends the document of a text whose tokens these are.
#[tactic(auto, using(crate::proofs::Written::of_text))]
fn write_tokens<'t, 'a>(
    alloc: Global,
    left: &mut Source<'t, 'a>,
    seen: &mut Seen,
    out: &mut Vec<u8>,
) -> bool
    ensures put { IsTrue result → (text : List ℕ) → left_of left.old ≡ tokens text
        → IsDocumentPut (document_in text) out.old.items out.new.items }
    ensures short { IsTrue result → vec_len out.new < vec_len out.old + 2 ^ 31 }
{
    left.take(Bracket::BeginObject) && write_outermost(alloc, left, seen, out) && left.is_at_end()
}

/// Appends the document of a text whose strings have no escape, like `write_text`.
fn write_plain_text(alloc: Global, text: &str, seen: &mut Seen, out: &mut Vec<u8>) -> bool
    ensures put { IsTrue result → IsDocumentPut (document_in text.now) out.old.items out.new.items }
    ensures short { IsTrue result → vec_len out.new < vec_len out.old + 2 ^ 31 }
{
    // A member takes five bytes, with a comma.
    seen.begin_text(text.len() / 5)
        && write_tokens(alloc, &mut Source::Text(Cursor::new(text)), seen, out)
}

/// Appends the document of a text, like `write_text`, by way of a tape.
fn write_tape<'a>(
    alloc: Global,
    text: &'a str,
    scratch: &'a mut Scratch,
    seen: &mut Seen,
    out: &mut Vec<u8>,
) -> bool
    ensures put { IsTrue result → IsDocumentPut (document_in text.now) out.old.items out.new.items }
    ensures short { IsTrue result → vec_len out.new < vec_len out.old + 2 ^ 31 }
{
    let Ok(tape) = Tape::parse(text, scratch, Vec::new(alloc)) else {
        return false;
    };
    let nodes = tape.nodes();
    // A name takes two nodes, with its value.
    seen.begin_text(nodes.len() / 2)
        && write_tokens(alloc, &mut Source::Tape(Nodes::new(nodes)), seen, out)
}

/// Puts the bytes of a text's document into `out`, in place of what that holds, if the text is one
/// of those that are written so. Else it returns false, and nothing is said of what `out` holds.
pub(crate) fn write_text<'a>(
    alloc: Global,
    text: &'a str,
    scratch: &'a mut Scratch,
    seen: &mut Seen,
    out: &mut Vec<u8>,
) -> bool
    ensures put { IsTrue result → IsDocumentPut (document_in text.now) [] out.new.items }
    ensures short { IsTrue result → vec_len out.new < 2 ^ 31 }
{
    out.clear();
    if memchr(b'\\', text.as_bytes()).is_some() {
        return write_tape(alloc, text, scratch, seen, out);
    }
    write_plain_text(alloc, text, seen, out)
}
