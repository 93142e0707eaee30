//! The brackets of JSON texts (RFC 8259, section 2).

ghost use Rattle.std.specs.Prelude.{◌≡◌};
ghost use Rattle.bson_json_read.specs.Brackets as spec;

/// A bracket that begins or ends an object or an array.
#[derive(Clone, Copy)]
pub(crate) enum Bracket {
    BeginObject,
    EndObject,
    BeginArray,
    EndArray,
}

impl Bracket {
    /// Returns its byte.
    #[inline(always)]
    pub(crate) fn byte(self) -> u8
        ensures { result ≡ spec.byte_of self }
    {
        match self {
            Bracket::BeginObject => b'{',
            Bracket::EndObject => b'}',
            Bracket::BeginArray => b'[',
            Bracket::EndArray => b']',
        }
    }
}
