//! Why a recording fails.
ghost use Rattle.std.specs.Prelude.{◌≡◌, codes, IfNone, IfOk, None};

use portmap_link::NoMemory;
use std::io;
use std::io::ErrorKind;

/// The reason for which a recording has failed.
#[derive(Clone, Copy, PartialEq, Eq)]
pub enum WriteFault {
    /// The system has refused to make a file or to write to it, with this error number.
    System(i32),
    /// More would wait to be written than the limit allows.
    TooMuch,
    /// At the end of the daemon the last write takes too long.
    TooLong,
    /// The next entries, or the next file, do not continue the run that was written.
    NoRun,
    NoMemory,
}

pub const WORDS_MOST: usize = 128;

const TOO_MUCH: &[u8] = b"more than 16 MiB wait to be written";

const TOO_LONG: &[u8] = b"the last write takes longer than 5 seconds";

const NO_RUN: &[u8] = b"what is to be recorded is no run of the port mapper";

const OUT_OF_MEMORY: &[u8] = b"out of memory";

impl WriteFault {
    pub fn of(error: &io::Error) -> WriteFault {
        match error.raw_os_error() {
            Some(code) => WriteFault::System(code),
            None if error.kind() == ErrorKind::OutOfMemory => WriteFault::NoMemory,
            // A thread can't be started.
            None if error.kind() == ErrorKind::WouldBlock => WriteFault::System(libc::EAGAIN),
            None => WriteFault::System(libc::EIO),
        }
    }

    /// Returns the text for the fault. A text of the system is put into the buffer.
    pub fn words<'a>(self, buffer: &'a mut [u8; WORDS_MOST]) -> &'a [u8]
        ensures too_much { self ≡ WriteFault.TooMuch → result.now ≡ codes "more than 16 MiB wait to be written" }
        ensures too_long { self ≡ WriteFault.TooLong → result.now ≡ codes "the last write takes longer than 5 seconds" }
        ensures no_run { self ≡ WriteFault.NoRun
            → result.now ≡ codes "what is to be recorded is no run of the port mapper" }
        ensures memory { self ≡ WriteFault.NoMemory → result.now ≡ codes "out of memory" }
    {
        match self {
            WriteFault::System(code) => {
                let count = os::error_text(code, buffer);
                buffer.get(..count).unwrap_or(b"")
            }
            WriteFault::TooMuch => TOO_MUCH,
            WriteFault::TooLong => TOO_LONG,
            WriteFault::NoRun => NO_RUN,
            WriteFault::NoMemory => OUT_OF_MEMORY,
        }
    }
}

impl From<NoMemory> for WriteFault {
    ghost use Rattle.std.specs.Prelude.{◌≡◌};
    ghost use Rattle.portmap_operator.specs.declared.write_fault.WriteFault.TheVariants as fault;

    ghost from_gives = { λ _ f. f ≡ fault.NoMemory };

    fn from(_: NoMemory) -> WriteFault {
        WriteFault::NoMemory
    }
}
