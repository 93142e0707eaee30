//! A reader that fails.

use std::io;
use std::io::Read;

/// A reader that gives one byte and then fails, with a code of the system where there is one.
#[derive(Drop)]
pub struct Broken {
    pub given: bool,
    pub code: Option<i32>,
}

impl Read for Broken {
    fn read(&mut self, buf: &mut [u8]) -> io::Result<usize> {
        match buf.first_mut() {
            Some(first) if !self.given => {
                *first = b'0';
                self.given = true;
                Ok(1)
            }
            _ => Err(match self.code {
                Some(code) => io::Error::from_raw_os_error(code),
                None => io::Error::other("broken"),
            }),
        }
    }
}
