// A reader and writer of std's that does what is listed.
use std::io;
use std::io::{ErrorKind, Read, Write};

/// What one call does: it moves at most so many bytes, or it fails.
pub type Step = Result<usize, ErrorKind>;

/// A reader and writer whose calls do what is listed, in order; a call past the list moves nothing.
#[derive(Debug, Drop)]
pub struct Faulty<'a> {
    pub steps: &'a [Step],
    /// How many calls were made.
    pub calls: usize,
}

impl<'a> Faulty<'a> {
    fn step(&mut self) -> io::Result<usize> {
        let step = self.steps.get(self.calls).copied().unwrap_or(Ok(0));
        self.calls = self.calls.saturating_add(1);
        match step {
            Ok(count) => Ok(count),
            Err(kind) => Err(io::Error::from(kind)),
        }
    }
}

impl<'a> Read for Faulty<'a> {
    fn read(&mut self, buf: &mut [u8]) -> io::Result<usize> {
        let count = self.step()?.min(buf.len());
        buf[..count].fill(b'r');
        Ok(count)
    }
}

impl<'a> Write for Faulty<'a> {
    fn write(&mut self, buf: &[u8]) -> io::Result<usize> {
        Ok(self.step()?.min(buf.len()))
    }

    fn flush(&mut self) -> io::Result<()> {
        self.step()?;
        Ok(())
    }
}
