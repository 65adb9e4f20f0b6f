//! Random numbers of a test.

use std::io;
use std::io::ErrorKind;
use std::random::RandomSource;

/// A source of bytes that are all alike, or that fails by an error of this kind.
#[derive(Drop)]
pub struct Numbers {
    pub byte: u8,
    pub fails: Option<ErrorKind>,
}

/// A source that does not fail.
pub const NUMBERS: Numbers = Numbers {
    byte: 7,
    fails: None,
};

impl RandomSource for Numbers {
    fn fill_bytes(&self, buf: &mut [u8]) -> io::Result<()> {
        match self.fails {
            Some(kind) => Err(io::Error::from(kind)),
            None => {
                buf.fill(self.byte);
                Ok(())
            }
        }
    }
}
