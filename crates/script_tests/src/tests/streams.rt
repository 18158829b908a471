//! Readers and writers that give or take little, and fail at one of their calls.

use std::alloc::Global;
use std::io;
use std::io::{ErrorKind, Read, Write};

/// Gives one byte a call, and fails at one of its calls with this kind of error.
#[derive(Drop)]
pub(super) struct Drip<'a> {
    pub(super) rest: &'a [u8],
    pub(super) calls: usize,
    pub(super) failing: usize,
    pub(super) kind: ErrorKind,
}

impl Read for Drip<'_> {
    fn read(&mut self, buf: &mut [u8]) -> io::Result<usize> {
        let call = self.calls;
        self.calls = call.saturating_add(1);
        if call == self.failing {
            return Err(io::Error::from(self.kind));
        }
        match (self.rest.split_first(), buf.is_empty()) {
            (Some((byte, rest)), false) => {
                buf[0] = *byte;
                self.rest = rest;
                Ok(1)
            }
            _ => Ok(0),
        }
    }
}

/// Gives one end of a line a call, without an end.
#[derive(Drop)]
pub(super) struct Endless {
    pub(super) reads: usize,
}

impl Read for Endless {
    fn read(&mut self, buf: &mut [u8]) -> io::Result<usize> {
        self.reads = self.reads.saturating_add(1);
        if buf.is_empty() {
            return Ok(0);
        }
        buf[0] = b'\n';
        Ok(1)
    }
}

/// How a writer ends: it fails with an error of this kind, or takes nothing.
pub(super) type End = Option<ErrorKind>;

/// Takes one byte a call, and ends at one of its calls.
#[derive(Drop)]
pub(super) struct Sips {
    pub(super) taken: Vec<u8>,
    pub(super) calls: usize,
    ending: usize,
    end: End,
}

impl Sips {
    /// Ends at the call with this number, from 0.
    pub(super) fn until(alloc: Global, ending: usize, end: End) -> Sips {
        Sips {
            taken: Vec::new(alloc),
            calls: 0,
            ending,
            end,
        }
    }

    /// Counts a call; whether it is the one at which the writer ends.
    fn is_last(&mut self) -> bool {
        let call = self.calls;
        self.calls = call.saturating_add(1);
        call == self.ending
    }
}

impl Write for Sips {
    fn write(&mut self, buf: &[u8]) -> io::Result<usize> {
        let ends = self.is_last();
        match (buf.first(), self.end) {
            (None, _) => Ok(0),
            (Some(_), None) if ends => Ok(0),
            (Some(_), Some(kind)) if ends => Err(io::Error::from(kind)),
            (Some(byte), _) => {
                self.taken.push(*byte)?;
                Ok(1)
            }
        }
    }

    fn flush(&mut self) -> io::Result<()> {
        match (self.is_last(), self.end) {
            (true, Some(kind)) => Err(io::Error::from(kind)),
            _ => Ok(()),
        }
    }
}
