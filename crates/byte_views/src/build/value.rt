//! The bytes of a value that holds no document.

ghost use Rattle.std.specs.Prelude.{◌≡◌, ◌≤◌, ◌<◌, ◌+◌, ◌^◌, ◌%◌, ◌/◌, ◌++◌, FitsSigned};
ghost use Rattle.std.specs.Prelude.{MatchOption, length, min};
ghost use Rattle.std.specs.Int.{w32, w64, cast_signed};
ghost use Rattle.bson_elem.specs.{binary, boolean_form, cstring, form_of, int32_form, int64_form};
ghost use Rattle.bson_elem.specs.{boolean_value, leaf_bytes, little, number_value, string};
ghost use Rattle.bson_elem.specs.{timestamp_form, timestamp_value};
ghost use Rattle.bson_elem.specs.Spelling.{AreBytes, IsBinary, IsOfForm, IsName, IsText};
ghost use Rattle.byte_views.specs.Numbers.{given_leaf};
ghost use Rattle.byte_views.specs.Placing.{placed};
ghost use Rattle.byte_views.specs.Values.{value_bytes};

use crate::build::given::{ValueNumbers, is_name, is_text};
use crate::build::place::put;
use bson_elem::{Kind, MAX_LEN};

/// A value that holds no document, as its bytes are put together. A number stands in the value
/// itself, so that it is written without a loop.
#[derive(Clone, Copy)]
pub(crate) enum Value<'a> {
    /// A boolean.
    Byte(u8),
    /// An int32, or four bytes that the length of a container will take the place of.
    Four(u32),
    /// A double, an int64 or a datetime.
    Eight(u64),
    /// The increment and the seconds of a timestamp.
    Timestamp(u32, u32),
    /// The bytes of an object id or of a decimal128, or none.
    Bytes(&'a [u8]),
    /// The text of a string, and the bytes behind it: in a pointer the id, and else none.
    Text(&'a [u8], &'a [u8]),
    /// The subtype and the data of a binary.
    Binary(u8, &'a [u8]),
    /// The pattern and the options of a regular expression.
    Regex(&'a [u8], &'a [u8]),
}

const NOTHING: &[u8] = &[];

/// Returns the sum of `counted` and of the lengths of two parts, or 2 to the 31 if it is above
/// that.
#[inline(always)]
fn sum_len(counted: usize, first: &[u8], second: &[u8]) -> usize
    requires { counted ≤ 9 }
    ensures { result ≡ min (counted + length first.now + length second.now) (2 ^ 31) }
{
    if first.len() > MAX_LEN || second.len() > MAX_LEN {
        return MAX_LEN + 1;
    }
    (counted + first.len() + second.len()).min(MAX_LEN + 1)
}

/// Writes a timestamp to offset `at` of `room`.
#[inline(always)]
fn put_timestamp(room: &mut [u8], at: usize, increment: u32, seconds: u32)
    requires { at + 8 ≤ length room.old }
    ensures { room.new ≡ placed at (little increment ++ little seconds) room.old }
{
    let at = put(room, at, &increment.to_le_bytes());
    put(room, at, &seconds.to_le_bytes());
}

/// Writes a string and what is behind it to offset `at` of `room`.
#[inline(always)]
fn put_text(room: &mut [u8], at: usize, text: &[u8], behind: &[u8])
    requires within { at + length (string text.now ++ behind.now) ≤ length room.old }
    requires short { length text.now + 1 < 2 ^ 31 }
    ensures { room.new ≡ placed at (string text.now ++ behind.now) room.old }
{
    let size = text.len() as u32 + 1;
    let at = put(room, at, &size.to_le_bytes());
    let at = put(room, at, text);
    let at = put(room, at, &[0]);
    put(room, at, behind);
}

/// Writes a binary to offset `at` of `room`.
fn put_binary(room: &mut [u8], at: usize, subtype: u8, bytes: &[u8])
    requires within { at + length (binary subtype bytes.now) ≤ length room.old }
    requires short { length (binary subtype bytes.now) < 2 ^ 31 }
    ensures { room.new ≡ placed at (binary subtype bytes.now) room.old }
{
    let size = bytes.len() as u32;
    if subtype == 2 {
        let at = put(room, at, &(size + 4).to_le_bytes());
        let at = put(room, at, &[2]);
        let at = put(room, at, &size.to_le_bytes());
        put(room, at, bytes);
    } else {
        let at = put(room, at, &size.to_le_bytes());
        let at = put(room, at, &[subtype]);
        put(room, at, bytes);
    }
}

/// Writes a regular expression to offset `at` of `room`.
fn put_regex(room: &mut [u8], at: usize, pattern: &[u8], options: &[u8])
    requires within { at + length (cstring pattern.now ++ cstring options.now) ≤ length room.old }
    ensures { room.new ≡ placed at (cstring pattern.now ++ cstring options.now) room.old }
{
    let at = put(room, at, pattern);
    let at = put(room, at, &[0]);
    let at = put(room, at, options);
    put(room, at, &[0]);
}

impl Value<'_> {
    /// Returns the number of the bytes, or 2 to the 31 if it is above that.
    #[inline(always)]
    pub(crate) fn len(&self) -> usize
        ensures { result ≡ min (length (value_bytes self.now)) (2 ^ 31) }
    {
        match *self {
            Value::Byte(_) => 1,
            Value::Four(_) => 4,
            Value::Eight(_) | Value::Timestamp(_, _) => 8,
            Value::Bytes(bytes) => sum_len(0, bytes, NOTHING),
            Value::Text(text, behind) => sum_len(5, text, behind),
            Value::Binary(subtype, data) => {
                sum_len(if subtype == 2 { 9 } else { 5 }, data, NOTHING)
            }
            Value::Regex(pattern, options) => sum_len(2, pattern, options),
        }
    }

    /// Writes the bytes to offset `at` of `room`.
    #[inline(always)]
    pub(crate) fn put(&self, room: &mut [u8], at: usize)
        requires within { at + length (value_bytes self.now) ≤ length room.old }
        requires short { length (value_bytes self.now) < 2 ^ 31 }
        ensures { room.new ≡ placed at (value_bytes self.now) room.old }
    {
        match *self {
            Value::Byte(byte) => {
                put(room, at, &[byte]);
            }
            Value::Four(number) => {
                put(room, at, &number.to_le_bytes());
            }
            Value::Eight(number) => {
                put(room, at, &number.to_le_bytes());
            }
            Value::Timestamp(increment, seconds) => put_timestamp(room, at, increment, seconds),
            Value::Bytes(bytes) => {
                put(room, at, bytes);
            }
            Value::Text(text, behind) => put_text(room, at, text, behind),
            Value::Binary(subtype, data) => put_binary(room, at, subtype, data),
            Value::Regex(pattern, options) => put_regex(room, at, pattern, options),
        }
    }
}

/// Returns an int32, if the number is one.
#[inline(always)]
fn int32(bits: u64) -> Option<Value<'static>>
    ensures { MatchOption result (FitsSigned w32 (cast_signed w64 bits) → ⊥)
        (λ v. FitsSigned w32 (cast_signed w64 bits)
        × (value_bytes v ≡ leaf_bytes int32_form (number_value (cast_signed w64 bits)))) }
{
    match i32::try_from(bits.cast_signed()) {
        Ok(number) => Some(Value::Four(number.cast_unsigned())),
        Err(_) => None,
    }
}

/// Returns an int64 or a datetime.
#[inline(always)]
fn int64(bits: u64) -> Value<'static>
    ensures fits { FitsSigned w64 (cast_signed w64 bits) }
    ensures is { value_bytes result ≡ leaf_bytes int64_form (number_value (cast_signed w64 bits)) }
{
    Value::Eight(bits)
}

/// Returns a boolean.
#[inline(always)]
fn boolean(truth: bool) -> Value<'static>
    ensures { value_bytes result ≡ leaf_bytes boolean_form (boolean_value truth) }
{
    Value::Byte(truth as u8)
}

/// Returns a timestamp.
#[inline(always)]
fn timestamp(bits: u64) -> Value<'static>
    ensures { value_bytes result
        ≡ leaf_bytes timestamp_form (timestamp_value (bits % 2 ^ 32) (bits / 2 ^ 32)) }
{
    let increment = (bits % 0x1_0000_0000) as u32;
    let seconds = (bits / 0x1_0000_0000) as u32;
    Value::Timestamp(increment, seconds)
}

/// Returns a string alone, if the text is one.
#[inline(always)]
fn string(text: &[u8]) -> Option<Value<'_>>
    ensures { MatchOption result (IsText text.now → ⊥)
        (λ v. IsText text.now × (value_bytes v ≡ string text.now)) }
{
    if !is_text(text) {
        return None;
    }
    Some(Value::Text(text, NOTHING))
}

/// Returns this number of bytes, if there are as many.
#[inline(always)]
fn exactly(count: usize, bytes: &[u8]) -> Option<Value<'_>>
    ensures { MatchOption result (AreBytes count bytes.now → ⊥)
        (λ v. AreBytes count bytes.now × (value_bytes v ≡ bytes.now)) }
{
    if bytes.len() != count {
        return None;
    }
    Some(Value::Bytes(bytes))
}

/// Returns a pointer, if the text and the data are one.
fn pointer<'a>(text: &'a [u8], id: &'a [u8]) -> Option<Value<'a>>
    ensures { MatchOption result (IsText text.now × AreBytes 12 id.now → ⊥)
        (λ v. (IsText text.now × AreBytes 12 id.now)
        × (value_bytes v ≡ string text.now ++ id.now)) }
{
    if !is_text(text) || id.len() != 12 {
        return None;
    }
    Some(Value::Text(text, id))
}

/// Returns a binary, if the subtype and the data are one.
fn binary(subtype: u32, bytes: &[u8]) -> Option<Value<'_>>
    ensures { MatchOption result (IsBinary subtype bytes.now → ⊥)
        (λ v. IsBinary subtype bytes.now × (value_bytes v ≡ binary subtype bytes.now)) }
{
    let most = if subtype == 2 { MAX_LEN - 4 } else { MAX_LEN };
    if subtype > 255 || bytes.len() > most {
        return None;
    }
    Some(Value::Binary(subtype as u8, bytes))
}

/// Returns a regular expression, if the pattern and the options are names.
fn regex<'a>(pattern: &'a [u8], options: &'a [u8]) -> Option<Value<'a>>
    ensures { MatchOption result (IsName pattern.now × IsName options.now → ⊥)
        (λ v. (IsName pattern.now × IsName options.now)
        × (value_bytes v ≡ cstring pattern.now ++ cstring options.now)) }
{
    if !is_name(pattern) || !is_name(options) {
        return None;
    }
    Some(Value::Regex(pattern, options))
}

/// Returns the value of this kind that is given, or `None` if it isn't one or holds a document.
#[inline(always)]
pub(crate) fn leaf_value<'a>(
    kind: Kind,
    numbers: ValueNumbers,
    text: &'a [u8],
    rest: &'a [u8],
) -> Option<Value<'a>>
    ensures { let leaf = given_leaf numbers text.now rest.now kind in
        MatchOption result (IsOfForm (form_of kind) leaf → ⊥)
        (λ v. IsOfForm (form_of kind) leaf
        × (value_bytes v ≡ leaf_bytes (form_of kind) leaf)) }
{
    match kind {
        Kind::Undefined | Kind::Null | Kind::MinKey | Kind::MaxKey => exactly(0, NOTHING),
        Kind::Double => Some(Value::Eight(numbers.bits)),
        Kind::Boolean => Some(boolean(numbers.bits != 0)),
        Kind::Int32 => int32(numbers.bits),
        Kind::Int64 | Kind::DateTime => Some(int64(numbers.bits)),
        Kind::Timestamp => Some(timestamp(numbers.bits)),
        Kind::String | Kind::Code | Kind::Symbol => string(text),
        Kind::ObjectId => exactly(12, rest),
        Kind::Decimal128 => exactly(16, rest),
        Kind::DbPointer => pointer(text, rest),
        Kind::Binary => binary(numbers.subtype, rest),
        Kind::Regex => regex(text, rest),
        Kind::Document | Kind::Array | Kind::CodeWithScope => None,
    }
}
