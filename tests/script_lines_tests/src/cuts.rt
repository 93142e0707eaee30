//! Tests of scripts that are cut into lines.

use script_lines::{Lines, NumberedLine};

/// A script, and its lines that are read, with their numbers.
type Row<'a> = (&'a [u8], &'a [(usize, &'a [u8])]);

const ROWS: [Row<'static>; 13] = [
    (b"", &[]),
    (b"\n", &[]),
    (b"\r\n\n", &[]),
    (b"#\n# open", &[]),
    (b"open", &[(1, b"open")]),
    (b"open\n", &[(1, b"open")]),
    (b"open\r\n", &[(1, b"open")]),
    (b"open\r", &[(1, b"open\r")]),
    (b"\r", &[(1, b"\r")]),
    (b"a\r\r\n b", &[(1, b"a\r"), (2, b" b")]),
    (b"a\rb\n\n c\n", &[(1, b"a\rb"), (3, b" c")]),
    (
        b"#\n\n\r\nopen\n #\nclear",
        &[(4, b"open"), (5, b" #"), (6, b"clear")],
    ),
    (b"\n\nopen\n\n#\n", &[(3, b"open")]),
];

/// Returns true if the line has this number and this text.
fn is_line(line: NumberedLine<'_>, number: usize, text: &[u8]) -> bool {
    line.number == number && line.text == text
}

/// Returns true if these are the lines of the script, and no more come after them.
fn has_lines(script: &[u8], wanted: &[(usize, &[u8])]) -> bool {
    let mut lines = Lines::new(script);
    for (number, text) in wanted {
        match lines.next() {
            Some(line) if is_line(line, *number, text) => {}
            _ => return false,
        }
    }
    lines.next().is_none() && lines.next().is_none()
}

#[test]
fn scripts_are_cut_into_lines(rt: HostRuntime) {
    for (script, wanted) in &ROWS {
        assert!(rt; has_lines(script, wanted));
    }
}
