// A reader and a writer of std that move one byte a call.

use std::io;
use std::io::{Read, Write};

/// Gives bytes.
#[derive(Drop)]
pub struct Giver<'a> {
    pub rest: &'a [u8],
}

impl Read for Giver<'_> {
    fn read(&mut self, into: &mut [u8]) -> io::Result<usize> {
        let count = into.len().min(1);
        self.rest.read(&mut into[..count])
    }
}

/// Takes bytes.
#[derive(Drop)]
pub struct Taker<'a> {
    pub taken: &'a mut Vec<u8>,
}

impl Write for Taker<'_> {
    fn write(&mut self, piece: &[u8]) -> io::Result<usize> {
        let count = piece.len().min(1);
        self.taken.write(&piece[..count])
    }

    fn flush(&mut self) -> io::Result<()> {
        Ok(())
    }
}
