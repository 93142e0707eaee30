//! Documents of one element for each kind of value that holds no document, worked out by hand from
//! the standard (bsonspec.org, version 1.1) and the table of kinds.

use bson_raw::RawBson;

const ONE: [u8; 8] = [0, 0, 0, 0, 0, 0, 0xf0, 0x3f];

const ID: [u8; 12] = [0, 1, 2, 3, 4, 5, 6, 7, 8, 9, 10, 11];

const DIGITS: [u8; 16] = [1, 0, 0, 0, 0, 0, 0, 0, 0, 0, 0, 0, 0, 0, 0x40, 0x30];

/// The digits of a document of one element, which is named "v", and its text.
pub const EACH_KIND: [(&str, &str); 22] = [
    (
        "10000000 01 7600 000000000000f03f 00",
        "document 16\n  \"v\" double 000000000000f03f\n",
    ),
    (
        "0e000000 02 7600 02000000 6300 00",
        "document 14\n  \"v\" string \"c\"\n",
    ),
    (
        "0f000000 05 7600 02000000 00 aabb 00",
        "document 15\n  \"v\" binary 00 2 aabb\n",
    ),
    (
        "0d000000 05 7600 00000000 00 00",
        "document 13\n  \"v\" binary 00 0\n",
    ),
    (
        "0e000000 05 7600 01000000 ff 00 00",
        "document 14\n  \"v\" binary ff 1 00\n",
    ),
    (
        "13000000 05 7600 06000000 02 02000000 aabb 00",
        "document 19\n  \"v\" binary 02 2 aabb\n",
    ),
    ("08000000 06 7600 00", "document 8\n  \"v\" undefined\n"),
    (
        "14000000 07 7600 000102030405060708090a0b 00",
        "document 20\n  \"v\" objectid 000102030405060708090a0b\n",
    ),
    (
        "09000000 08 7600 01 00",
        "document 9\n  \"v\" boolean true\n",
    ),
    (
        "09000000 08 7600 00 00",
        "document 9\n  \"v\" boolean false\n",
    ),
    (
        "10000000 09 7600 ffffffffffffffff 00",
        "document 16\n  \"v\" datetime -1\n",
    ),
    ("08000000 0a 7600 00", "document 8\n  \"v\" null\n"),
    (
        "0e000000 0b 7600 612e6200 6900 00",
        "document 14\n  \"v\" regex \"a.b\" \"i\"\n",
    ),
    (
        "1a000000 0c 7600 02000000 6300 000102030405060708090a0b 00",
        "document 26\n  \"v\" dbpointer \"c\" 000102030405060708090a0b\n",
    ),
    (
        "0e000000 0d 7600 02000000 6300 00",
        "document 14\n  \"v\" code \"c\"\n",
    ),
    (
        "0e000000 0e 7600 02000000 6300 00",
        "document 14\n  \"v\" symbol \"c\"\n",
    ),
    (
        "0c000000 10 7600 00000080 00",
        "document 12\n  \"v\" int32 -2147483648\n",
    ),
    (
        "10000000 11 7600 01000000 02000000 00",
        "document 16\n  \"v\" timestamp 2 1\n",
    ),
    (
        "10000000 12 7600 0000000000000080 00",
        "document 16\n  \"v\" int64 -9223372036854775808\n",
    ),
    (
        "18000000 13 7600 01000000000000000000000000004030 00",
        "document 24\n  \"v\" decimal128 01000000000000000000000000004030\n",
    ),
    ("08000000 ff 7600 00", "document 8\n  \"v\" minkey\n"),
    ("08000000 7f 7600 00", "document 8\n  \"v\" maxkey\n"),
];

/// The value of each of these documents.
pub const VALUES: [RawBson<'static>; 22] = [
    RawBson::Double(ONE),
    RawBson::String("c"),
    RawBson::Binary {
        subtype: 0,
        bytes: b"\xaa\xbb",
    },
    RawBson::Binary {
        subtype: 0,
        bytes: b"",
    },
    RawBson::Binary {
        subtype: 0xff,
        bytes: b"\0",
    },
    RawBson::Binary {
        subtype: 2,
        bytes: b"\xaa\xbb",
    },
    RawBson::Undefined,
    RawBson::ObjectId(ID),
    RawBson::Boolean(true),
    RawBson::Boolean(false),
    RawBson::DateTime(-1),
    RawBson::Null,
    RawBson::Regex {
        pattern: "a.b",
        options: "i",
    },
    RawBson::DbPointer {
        namespace: "c",
        id: ID,
    },
    RawBson::Code("c"),
    RawBson::Symbol("c"),
    RawBson::Int32(-2147483648),
    RawBson::Timestamp {
        increment: 1,
        seconds: 2,
    },
    RawBson::Int64(-9223372036854775808),
    RawBson::Decimal128(DIGITS),
    RawBson::MinKey,
    RawBson::MaxKey,
];
