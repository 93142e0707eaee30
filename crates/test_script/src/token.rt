//! Cuts a line into its words, one at a time.

ghost use Rattle.std.specs.Prelude.{◌≡◌, ◌≤◌, length};
ghost use Rattle.test_script.specs.Tokens.{begins_object, begins_value, behind, past_spaces};
ghost use Rattle.test_script.specs.Tokens.{plain_len, word_in, word_len};

use bson_json_read::text_extent;

/// Returns the text without the spaces at its start.
fn past_spaces(text: &[u8]) -> &[u8]
    ensures { result.now ≡ past_spaces text.now }
{
    let mut rest = text;
    while let Some((b' ', behind)) = rest.split_first() {
        rest = behind;
    }
    rest
}

/// Returns how many bytes stand before the first space.
fn plain_len(text: &[u8]) -> usize
    ensures len { result ≡ plain_len text.now }
    ensures inside { result ≤ length text.now }
{
    let mut rest = text;
    let mut len = 0;
    while let Some((b, behind)) = rest.split_first() {
        if *b == b' ' {
            return len;
        }
        len += 1;
        rest = behind;
    }
    len
}

/// Returns true if the text begins with a brace.
pub(crate) fn begins_object(text: &[u8]) -> bool
    ensures { result ≡ begins_object text.now }
{
    match text.first() {
        Some(first) => *first == b'{',
        None => false,
    }
}

/// Returns true if the text begins as a document or a text in quotes does.
pub(crate) fn begins_value(text: &[u8]) -> bool
    ensures { result ≡ begins_value text.now }
{
    match text.first() {
        Some(first) => *first == b'{' || *first == b'"',
        None => false,
    }
}

/// Returns how many bytes the word has with which the text begins.
fn word_len(text: &[u8]) -> usize
    ensures len { result ≡ word_len text.now }
    ensures inside { result ≤ length text.now }
{
    if begins_object(text) {
        text_extent(text)
    } else {
        plain_len(text)
    }
}

/// Cuts off the first word, which is empty if there is none. Returns it, and what stands behind it.
pub(crate) fn cut_word(text: &[u8]) -> (&[u8], &[u8])
    ensures word { result.0.now ≡ word_in text.now }
    ensures behind { result.1.now ≡ behind text.now }
{
    let text = past_spaces(text);
    let len = word_len(text);
    (&text[..len], &text[len..])
}
