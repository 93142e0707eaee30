//! How far a text in braces reaches.

ghost use Rattle.std.specs.Prelude.{◌≡◌, ◌-◌, ◌<◌, ◌≤◌, ◌^◌, List, ℕ, false, get_or, length};
ghost use Rattle.bson_json_read.specs.Extents.{HasPassed, IsScanned, IsStepped, closes, open_next};
ghost use Rattle.bson_json_read.specs.Extents.{text_len, within_next};

use crate::run::plain_end;
use memchr::{memchr, memrchr};

/// Where a scan stands in a text.
#[derive(Clone, Copy)]
pub(crate) enum Within {
    /// Between strings.
    Code,
    /// In a string.
    Quoted,
    /// Behind a backslash in a string.
    Escaped,
}

impl Within {
    /// Returns where a scan stands behind a byte.
    fn behind(self, b: u8) -> Within
        ensures { result ≡ within_next self b }
    {
        match (self, b) {
            (Within::Code, b'"') | (Within::Escaped, _) => Within::Quoted,
            (Within::Quoted, b'"') | (Within::Code, _) => Within::Code,
            (Within::Quoted, b'\\') => Within::Escaped,
            (Within::Quoted, _) => Within::Quoted,
        }
    }
}

/// Where a scan of a text stands that found no end yet.
#[derive(Clone, Copy)]
pub(crate) struct Scan {
    within: Within,
    /// How many braces are open.
    braces: usize,
    /// How many bytes were passed.
    len: usize,
}

/// What a scan found.
#[derive(Clone, Copy)]
pub(crate) enum Scanned {
    /// The text ends behind so many bytes.
    Closed(usize),
    /// It goes on.
    Open(Scan),
}

impl Scan {
    /// Begins a scan of a text.
    pub(crate) fn new() -> Scan
        ensures { (text : List ℕ) → HasPassed result text }
    {
        Scan {
            within: Within::Code,
            braces: 0,
            len: 0,
        }
    }

    /// Returns how many bytes were passed.
    pub(crate) fn passed(self) -> usize {
        self.len
    }

    /// Returns true if a byte closes the outermost open brace.
    fn closes(self, b: u8) -> bool
        ensures { result ≡ closes self.within self.braces b }
    {
        matches!(self.within, Within::Code) && b == b'}' && self.braces <= 1
    }

    /// Returns how many braces are open behind a byte that closes none but inner ones.
    fn braces_behind(self, b: u8) -> usize
        requires few { self.braces < 2 ^ 63 }
        requires inner { closes self.within self.braces b ≡ false }
        ensures { result ≡ open_next self.within self.braces b }
    {
        match (self.within, b) {
            (Within::Code, b'{') => self.braces + 1,
            (Within::Code, b'}') => self.braces - 1,
            _ => self.braces,
        }
    }

    /// Passes the next byte of `text`.
    fn step(self, text: &[u8]) -> Scanned
        requires passed { HasPassed self text.now }
        requires more { self.len < length text.now }
        ensures { IsStepped self text.now result }
    {
        let b = text[self.len];
        if self.closes(b) {
            return Scanned::Closed(self.len + 1);
        }
        Scanned::Open(Scan {
            within: self.within.behind(b),
            braces: self.braces_behind(b),
            len: self.len + 1,
        })
    }

    /// Passes the bytes of a string up to its next quote, backslash or control byte, if the scan stands
    /// in one.
    fn past_plain(self, text: &[u8]) -> Scan
        requires { HasPassed self text.now }
        ensures passed { HasPassed result text.now }
        ensures further { self.len ≤ result.len }
    {
        let Within::Quoted = self.within else {
            return self;
        };
        Scan {
            within: self.within,
            braces: self.braces,
            len: plain_end(text, self.len),
        }
    }
}

/// Scans on in a text, of which `scan` has passed some, for its end.
pub(crate) fn scan_on(scan: Scan, text: &[u8]) -> Scanned
    requires { HasPassed scan text.now }
    ensures { IsScanned text.now result }
{
    let mut at = scan.past_plain(text);
    while at.len < text.len() {
        match at.step(text) {
            Scanned::Closed(len) => return Scanned::Closed(len),
            Scanned::Open(next) => at = next.past_plain(text),
        }
    }
    Scanned::Open(at)
}

/// Returns how many bytes the text has that begins here: to the brace that closes its first one, or
/// all, where none does.
pub fn text_extent(rest: &[u8]) -> usize
    ensures len { result ≡ text_len rest.now }
    ensures inside { result ≤ length rest.now }
    ensures some { 0 < length rest.now → 0 < result }
{
    match scan_on(Scan::new(), rest) {
        Scanned::Closed(len) => len,
        Scanned::Open(_) => rest.len(),
    }
}

/// The most bytes of a line that is read as a text before its end is sought.
const LONG: usize = 1 << 20;

/// Returns how many bytes of the line that begins here end with its last brace. They are none if the
/// line is long, if its end is one of the first `seen` bytes, or if that didn't come yet: `last` says
/// that nothing follows `rest`.
pub(crate) fn line_len(rest: &[u8], seen: usize, last: bool) -> usize
    ensures inside { result ≤ length rest.now }
    ensures brace { 0 < result → get_or rest.now (result - 1) 0 ≡ 125 }
{
    let front = &rest[..rest.len().min(LONG)];
    let len = match memchr(b'\n', front) {
        Some(len) => len,
        None => front.len(),
    };
    let has_end = len < front.len() || (last && len < LONG);
    if !has_end || len < seen {
        return 0;
    }
    match memrchr(b'}', &front[..len]) {
        Some(brace) => brace + 1,
        None => 0,
    }
}
