//! One element of a document, as parts of the caller's bytes and as numbers.

ghost use Rattle.std.specs.Prelude.{◌≡◌, ◌+◌, ◌-◌, ◌<◌, ◌^◌};
ghost use Rattle.bson_elem.specs.declared.fault.BsonFault.{BsonFault};
ghost use Rattle.bson_elem.specs.Items.{LendsFramed, item_kind, item_value};
ghost use Rattle.byte_views.specs.Elements.{bare, fault_element, no_element, value_place};
ghost use Rattle.byte_views.specs.Elements.{wrong_element};
ghost use Rattle.byte_views.specs.Views.{view};

use crate::fault::FirstFault;
use crate::view::View;
use bson_elem::{BsonFault, Item};

/// An element: its kind, its name and its value; or that there is none.
#[derive(Clone, Copy)]
#[repr(C)]
pub struct Element {
    /// The first fault of the element, by the number of its cause, from 1 to 11. The number is 255
    /// if the iterator's offsets are out of range.
    pub fault: FirstFault,
    /// The type byte of the kind, or 0 if there is no element.
    pub kind: u32,
    /// The subtype of a binary, or 0.
    pub subtype: u32,
    /// An int32, an int64 or a datetime, as the 64 bits of a signed number; the 64 bits of a
    /// double; a boolean, as 0 or 1; a timestamp, its seconds in the upper half and its increment
    /// in the lower; or 0.
    pub bits: u64,
    /// The name.
    pub name: View,
    /// The text of a string, a code or a symbol, the namespace of a DBPointer, or a pattern.
    pub text: View,
    /// The data of a binary, the document of a document, an array or a code with scope, the
    /// bytes of a double, an ObjectId, a decimal128 or of the ObjectId in a DBPointer, or options.
    pub bytes: View,
}

impl Element {
    /// Returns an element of the kind with this type byte, with nothing in it.
    #[inline(always)]
    pub(crate) fn bare(name: View, byte: u8) -> Element
        ensures { result ≡ bare name byte }
    {
        Element {
            fault: FirstFault::none(),
            kind: u32::from(byte),
            subtype: 0,
            bits: 0,
            name,
            text: View::NONE,
            bytes: View::NONE,
        }
    }

    /// Returns that there is no element.
    pub(crate) fn none() -> Element
        ensures { result ≡ no_element }
    {
        Element::bare(View::NONE, 0)
    }

    /// Returns that the element has the fault `found`.
    pub(crate) fn of_fault(found: BsonFault) -> Element
        ensures { result ≡ fault_element found }
    {
        Element {
            fault: FirstFault {
                number: u32::from(found.cause.number()),
                offset: found.at,
            },
            ..Element::none()
        }
    }

    /// Returns that the offsets of the iterator are out of range.
    pub(crate) fn wrong() -> Element
        ensures { result ≡ wrong_element }
    {
        Element {
            fault: FirstFault {
                number: 255,
                offset: 0,
            },
            ..Element::none()
        }
    }

    /// Returns the element with this number.
    #[inline(always)]
    fn with_bits(self, bits: u64) -> Element
        ensures { result ≡ record self { bits = bits } }
    {
        Element { bits, ..self }
    }

    /// Returns the element with this text.
    #[inline(always)]
    fn with_text(self, offset: usize, length: usize) -> Element
        ensures { result ≡ record self { text = view offset length } }
    {
        Element {
            text: View::new(offset, length),
            ..self
        }
    }

    /// Returns the element with these bytes.
    #[inline(always)]
    fn with_bytes(self, offset: usize, length: usize) -> Element
        ensures { result ≡ record self { bytes = view offset length } }
    {
        Element {
            bytes: View::new(offset, length),
            ..self
        }
    }

    /// Returns the element with the bytes that end at offset `next`.
    #[inline(always)]
    fn with_last_bytes(self, next: usize, length: usize) -> Element
        ensures { result ≡ record self { bytes = view (next - length) length } }
    {
        self.with_bytes(next.saturating_sub(length), length)
    }

    /// Returns the element with this `value`, which begins at offset `from`. The element's type
    /// byte is `byte`, and what follows it begins at offset `next`.
    #[inline(always)]
    pub(crate) fn of_item(
        name: View,
        byte: u8,
        value: Item<'_>,
        from: usize,
        next: usize,
    ) -> Element
        requires low { from < 2 ^ 63 }
        requires lent { LendsFramed value }
        ensures { result ≡ value_place from next (item_kind value.entry)
            (bare name byte) (item_value next value.entry) }
    {
        let bare = Element::bare(name, byte);
        match value {
            Item::Double(bytes) => bare
                .with_bits(u64::from_le_bytes(bytes))
                .with_bytes(from, 8),
            Item::String(text) | Item::Code(text) | Item::Symbol(text) => {
                bare.with_text(from + 4, text.len())
            }
            Item::Document(bytes) | Item::Array(bytes) => bare.with_last_bytes(next, bytes.len()),
            Item::Binary { subtype, bytes } => Element {
                subtype: u32::from(subtype),
                ..bare.with_last_bytes(next, bytes.len())
            },
            Item::Undefined | Item::Null | Item::MinKey | Item::MaxKey => bare.with_bytes(from, 0),
            Item::ObjectId(_) => bare.with_bytes(from, 12),
            Item::Boolean(truth) => bare.with_bits(u64::from(truth)),
            Item::DateTime(number) | Item::Int64(number) => bare.with_bits(number.cast_unsigned()),
            Item::Regex { pattern, options } => bare
                .with_text(from, pattern.len())
                .with_bytes(from + pattern.len() + 1, options.len()),
            Item::DbPointer { namespace, .. } => bare
                .with_text(from + 4, namespace.len())
                .with_last_bytes(next, 12),
            Item::CodeWithScope { code, scope } => bare
                .with_text(from + 8, code.len())
                .with_last_bytes(next, scope.len()),
            Item::Int32(number) => bare.with_bits(i64::from(number).cast_unsigned()),
            Item::Timestamp { increment, seconds } => {
                bare.with_bits(u64::from(seconds) * 0x1_0000_0000 + u64::from(increment))
            }
            Item::Decimal128(_) => bare.with_bytes(from, 16),
        }
    }
}
