ghost use Rattle.std.specs.Prelude.{◌≡◌, ◌<◌, true, length};
ghost use Rattle.std.specs.IoError.{error_kind};
ghost use Rattle.portmap_link.specs.Device.{PullConsumes, PutAppends, pull_is_fault, put_is_fault};
ghost use Rattle.portmap_link.specs.Adapters.{pull_of, put_of, is_passing};

pub use crate::adapters::reader::Reading;
pub use crate::adapters::stream::Both;
pub use crate::adapters::writer::Writing;
use crate::{Pull, Put};
use std::io;
use std::io::{ErrorKind, Read, Write};

mod reader;
mod stream;
mod writer;

fn read_once<R: Read>(inner: &mut R, failed: &mut bool, buffer: &mut [u8]) -> Pull
    requires { 0 < length buffer.old }
    ensures bytes { PullConsumes (R.remaining inner.old) (R.remaining inner.new) result buffer.new }
    ensures fault { failed.new ≡ pull_is_fault result }
    ensures for_good { failed.old ≡ true → failed.new ≡ true }
    ensures untouched { failed.old ≡ true → inner.new ≡ inner.old }
{
    if *failed {
        return Pull::Fault;
    }
    let answer = pull_from(inner.read(buffer));
    *failed = answer == Pull::Fault;
    answer
}

fn write_once<W: Write>(inner: &mut W, failed: &mut bool, bytes: &[u8]) -> Put
    requires { 0 < length bytes.now }
    ensures bytes { PutAppends (W.contents inner.old) (W.contents inner.new) result bytes.now }
    ensures fault { failed.new ≡ put_is_fault result }
    ensures for_good { failed.old ≡ true → failed.new ≡ true }
    ensures untouched { failed.old ≡ true → inner.new ≡ inner.old }
{
    if *failed {
        return Put::Fault;
    }
    let answer = put_from(inner.write(bytes));
    *failed = answer == Put::Fault;
    answer
}

/// Converts the result of a read into a buffer with room. A read of 0 bytes is the end of the input.
pub fn pull_from(outcome: io::Result<usize>) -> Pull
    ensures { result ≡ pull_of outcome }
{
    match outcome {
        Ok(0) => Pull::End,
        Ok(n) => Pull::Piece(n),
        Err(error) if is_passing(&error) => Pull::Later,
        Err(_) => Pull::Fault,
    }
}

/// Converts the result of a write of at least one byte. A write of 0 bytes is a failure.
pub fn put_from(outcome: io::Result<usize>) -> Put
    ensures { result ≡ put_of outcome }
{
    match outcome {
        Ok(0) => Put::Fault,
        Ok(n) => Put::Wrote(n),
        Err(error) if is_passing(&error) => Put::Later,
        Err(_) => Put::Fault,
    }
}

// The call may be repeated: a signal interrupted it, or the device would block.
fn is_passing(error: &io::Error) -> bool
    ensures { result ≡ is_passing (error_kind error.now) }
{
    matches!(error.kind(), ErrorKind::Interrupted | ErrorKind::WouldBlock)
}
