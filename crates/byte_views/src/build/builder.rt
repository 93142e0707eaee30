//! A document or an array that is built, pair by pair, in the room of a caller.

ghost use Rattle.std.specs.Prelude.{◌≡◌, ◌≤◌, ◌^◌, List, ℕ, true, false, length, min};
ghost use Rattle.std.specs.Fmt.{decimal};
ghost use Rattle.bson_elem.specs.{Tree};
ghost use Rattle.bson_elem.specs.Kinds.{kind_of};
ghost use Rattle.bson_elem.specs.Spelling.{IsName};
ghost use Rattle.byte_views.specs.Appends.{AppendsLeaf, IsAppended, IsPushed, IsPushedNamed};
ghost use Rattle.byte_views.specs.Builders.{Builds, IsInRange, in_array, pair_bytes};
ghost use Rattle.byte_views.specs.BuildFilling.{HasPlace, IsLeafPushed, filled};
ghost use Rattle.byte_views.specs.Values.{value_bytes};

use crate::build::built::Built;
use crate::build::given::{ValueNumbers, is_name};
use crate::build::place::put;
use crate::build::refusal::BuildRefusal;
use crate::build::value::{Value, leaf_value};
use bson_elem::{Kind, MAX_DEPTH, MAX_LEN};
use itoa::Buffer;

/// A document or an array that is built. The room that it is built in is its caller's.
#[derive(Clone, Copy)]
#[repr(C)]
pub struct Builder {
    /// The offset of its first byte.
    pub start: usize,
    /// The offset after its last pair.
    pub end: usize,
    /// The number of its pairs.
    pub count: usize,
    /// Its depth; the outermost document has depth 1.
    pub depth: u32,
    /// The type byte of a document or an array.
    pub kind: u32,
}

/// Returns the name of the pair at this index of an array.
fn index_name(digits: &mut Buffer, index: usize) -> &[u8]
    ensures text { result.now ≡ decimal index }
    ensures name { IsName result.now }
{
    digits.format(index).as_bytes()
}

impl Builder {
    /// Returns true if the numbers are in range.
    #[inline(always)]
    pub(crate) fn is_in_range(&self) -> bool
        ensures yes { result ≡ true → IsInRange self.now }
        ensures no { result ≡ false → IsInRange self.now → ⊥ }
    {
        if self.end > MAX_LEN || self.end < 4 || self.start > self.end - 4 {
            return false;
        }
        self.count <= self.end && self.depth >= 1 && self.depth <= MAX_DEPTH
    }

    /// Returns true if an array is built.
    fn is_array(&self) -> bool
        ensures { result ≡ in_array self.now }
    {
        self.kind == 4
    }

    /// Appends the kind and the name of a pair, and the place of its value, which has `len` bytes.
    #[inline(always)]
    fn push_head(&mut self, room: &mut [u8], kind: Kind, name: &[u8], len: usize) -> Built
        requires in_range { IsInRange self.old }
        requires few { len ≤ 2 ^ 31 }
        ensures pushed { (value : List ℕ) → len ≡ min (length value) (2 ^ 31)
            → IsPushed room.old self.old (pair_bytes kind name.now value)
            (filled result self.new value room.new) self.new result }
        ensures has_place { HasPlace result self.new len room.new }
    {
        if name.len() > MAX_LEN {
            return Built::refused(BuildRefusal::TooLarge);
        }
        let size = name.len() + 2 + len;
        let wanted = self.end + size + self.depth as usize;
        if wanted > MAX_LEN {
            return Built::refused(BuildRefusal::TooLarge);
        }
        if wanted > room.len() {
            return Built::no_room(wanted);
        }
        let at = put(room, self.end, &[kind.byte()]);
        let at = put(room, at, name);
        put(room, at, &[0]);
        self.end += size;
        self.count += 1;
        Built::done(wanted)
    }

    /// Appends like `push_head`, under the next index of the array that is built.
    // Not inlined, so that a pair of a document doesn't pay for the room of the digits.
    #[inline(never)]
    fn push_item_head(&mut self, room: &mut [u8], kind: Kind, len: usize) -> Built
        requires in_range { IsInRange self.old }
        requires few { len ≤ 2 ^ 31 }
        ensures name { IsName (decimal self.old.count) }
        ensures pushed { (value : List ℕ) → len ≡ min (length value) (2 ^ 31)
            → IsPushed room.old self.old (pair_bytes kind (decimal self.old.count) value)
            (filled result self.new value room.new) self.new result }
        ensures has_place { HasPlace result self.new len room.new }
    {
        let mut digits = Buffer::new();
        let index = index_name(&mut digits, self.count);
        self.push_head(room, kind, index, len)
    }

    /// Appends like `push_head`, in an array under the next index, and else under `name`.
    // Not inlined, since it has a caller for each form of a value.
    #[inline(never)]
    fn push_named_head(&mut self, room: &mut [u8], kind: Kind, name: &[u8], len: usize) -> Built
        requires in_range { IsInRange self.old }
        requires few { len ≤ 2 ^ 31 }
        ensures pushed { (value : List ℕ) → len ≡ min (length value) (2 ^ 31)
            → IsPushedNamed room.old self.old kind name.now value
            (filled result self.new value room.new) self.new result }
        ensures has_place { HasPlace result self.new len room.new }
    {
        if self.is_array() {
            return self.push_item_head(room, kind, len);
        }
        if !is_name(name) {
            return Built::refused(BuildRefusal::Name);
        }
        self.push_head(room, kind, name, len)
    }

    /// Appends a pair of this kind and value, in an array under the next index, and else under
    /// `name`.
    #[inline(always)]
    pub(crate) fn push_named(
        &mut self,
        room: &mut [u8],
        kind: Kind,
        name: &[u8],
        value: &Value<'_>,
    ) -> Built
        requires { IsInRange self.old }
        ensures { IsPushedNamed room.old self.old kind name.now (value_bytes value.now)
            room.new self.new result }
    {
        let len = value.len();
        let built = self.push_named_head(room, kind, name, len);
        if built.refusal == 0 {
            value.put(room, self.end - len);
        }
        built
    }

    /// Appends a pair of the value of this kind that is given, if it is one.
    #[inline(always)]
    fn push_leaf(
        &mut self,
        room: &mut [u8],
        kind: Kind,
        name: &[u8],
        numbers: &ValueNumbers,
        text: &[u8],
        rest: &[u8],
    ) -> Built
        requires { IsInRange self.old }
        ensures { IsLeafPushed room.old self.old kind name.now numbers.now text.now rest.now
            room.new self.new result }
    {
        match leaf_value(kind, *numbers, text, rest) {
            Some(value) => self.push_named(room, kind, name, &value),
            None => Built::refused(BuildRefusal::Value),
        }
    }

    /// Appends a pair like `push_leaf`.
    // The kinds that are frequent have a copy of `push_leaf` each, in which the kind is known:
    // there the value stays in registers, and a number is written by one store.
    #[inline(always)]
    fn push_kind(
        &mut self,
        room: &mut [u8],
        kind: Kind,
        name: &[u8],
        numbers: &ValueNumbers,
        text: &[u8],
        rest: &[u8],
    ) -> Built
        requires { IsInRange self.old }
        ensures { IsLeafPushed room.old self.old kind name.now numbers.now text.now rest.now
            room.new self.new result }
    {
        match kind {
            Kind::Int32 => self.push_leaf(room, kind, name, numbers, text, rest),
            Kind::Double | Kind::Int64 | Kind::DateTime => {
                self.push_leaf(room, kind, name, numbers, text, rest)
            }
            Kind::String => self.push_leaf(room, kind, name, numbers, text, rest),
            _ => self.push_leaf(room, kind, name, numbers, text, rest),
        }
    }
}

/// Returns the kind with this type byte.
#[inline(always)]
fn kind_from(number: u32) -> Option<Kind>
    ensures { result ≡ kind_of number }
{
    if number > 255 {
        return None;
    }
    Kind::from_byte(number as u8)
}

/// Appends a pair, as `append` does.
fn append_pair(
    room: &mut [u8],
    builder: &mut Builder,
    name: &[u8],
    numbers: &ValueNumbers,
    text: &[u8],
    rest: &[u8],
) -> Built
    ensures { IsAppended room.old builder.old name.now numbers.now text.now rest.now
        room.new builder.new result }
{
    if !builder.is_in_range() {
        return Built::refused(BuildRefusal::OutOfRange);
    }
    let kind = match kind_from(numbers.kind) {
        Some(kind) => kind,
        None => return Built::refused(BuildRefusal::Kind),
    };
    builder.push_kind(room, kind, name, numbers, text, rest)
}

/// Appends a pair of this `name` to what `builder` builds in `room`. Its value is of the kind that
/// `numbers` tell, and holds no document; its parts are those numbers, `text` and `rest`, as an
/// element shows them. In an array the name is the index, and the given one isn't looked at.
/// The name may be there already.
pub fn append(
    room: &mut [u8],
    builder: &mut Builder,
    name: &[u8],
    numbers: &ValueNumbers,
    text: &[u8],
    rest: &[u8],
) -> Built
    ensures appended { IsAppended room.old builder.old name.now numbers.now text.now rest.now
        room.new builder.new result }
    ensures pairs { (t : Tree) → Builds room.old builder.old t → result.refusal ≡ 0
        → AppendsLeaf room.new builder.old name.now numbers.now text.now rest.now builder.new t }
{
    append_pair(room, builder, name, numbers, text, rest)
}
