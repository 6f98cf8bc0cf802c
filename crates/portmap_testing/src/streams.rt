//! Readers and writers that return scripted results, or fail.
ghost use Rattle.std.specs.Prelude.{◌≤◌, IfOk};

use std::io;
use std::io::{ErrorKind, Read, Write};

#[derive(Clone, Copy)]
pub enum CallOutcome {
    Count(usize),
    Error(ErrorKind),
}

/// A stream that returns results from a list, and counts its calls.
#[derive(Drop)]
pub struct Script<'a> {
    outcomes: &'a [CallOutcome],
    pub asked: usize,
}

pub fn scripted(outcomes: &[CallOutcome]) -> Script<'_> {
    Script { outcomes, asked: 0 }
}

impl<'a> Script<'a> {
    fn next(&mut self, most: usize) -> io::Result<usize>
        ensures { IfOk result (λ n. n ≤ most) }
    {
        let outcome = self.outcomes.get(self.asked).copied();
        self.asked = self.asked.saturating_add(1);
        match outcome {
            Some(CallOutcome::Count(n)) => Ok(n.min(most)),
            Some(CallOutcome::Error(kind)) => Err(io::Error::from(kind)),
            None => Ok(0),
        }
    }
}

impl<'a> Read for Script<'a> {
    fn read(&mut self, buffer: &mut [u8]) -> io::Result<usize> {
        self.next(buffer.len())
    }
}

impl<'a> Write for Script<'a> {
    fn write(&mut self, bytes: &[u8]) -> io::Result<usize> {
        self.next(bytes.len())
    }

    fn flush(&mut self) -> io::Result<()> {
        Ok(())
    }
}

/// A stream whose reads and flushes fail. Writes succeed, and their bytes are lost.
#[derive(Drop)]
pub struct Broken;

impl Read for Broken {
    fn read(&mut self, _buffer: &mut [u8]) -> io::Result<usize> {
        Err(io::Error::from(ErrorKind::Other))
    }
}

impl Write for Broken {
    fn write(&mut self, buffer: &[u8]) -> io::Result<usize> {
        Ok(buffer.len())
    }

    fn flush(&mut self) -> io::Result<()> {
        Err(io::Error::from(ErrorKind::Other))
    }
}

/// A stream that returns these bytes, as many as fit, and accepts all writes. The first `failing` reads fail with
/// `kind`.
#[derive(Drop)]
pub struct Giving<'a> {
    pub failing: u32,
    pub kind: ErrorKind,
    pub bytes: &'a [u8],
}

impl Read for Giving<'_> {
    fn read(&mut self, buffer: &mut [u8]) -> io::Result<usize> {
        if self.failing > 0 {
            self.failing -= 1;
            return Err(io::Error::from(self.kind));
        }
        self.bytes.read(buffer)
    }
}

impl Write for Giving<'_> {
    fn write(&mut self, bytes: &[u8]) -> io::Result<usize> {
        Ok(bytes.len())
    }

    fn flush(&mut self) -> io::Result<()> {
        Ok(())
    }
}
