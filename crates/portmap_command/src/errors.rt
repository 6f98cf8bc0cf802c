//! Texts for standard error. If no more can be written, a prefix of a text is printed.
ghost use Rattle.std.specs.Prelude.{◌≡◌, ◌<◌, ◌≤◌, ◌++◌, true, false};
ghost use Rattle.std.specs.Fmt.{decimal};
ghost use Rattle.std.specs.List.{flat_map};
ghost use Rattle.portmap_link.specs.Adapters.{writing_inner};
ghost use Rattle.portmap_command.specs.Errors.{IsPrinted, IsWritten, IsSpent, file_line, reason_line};
ghost use Rattle.portmap_command.specs.declared.actions.TheConstants.{REFUSED};

use crate::actions::REFUSED;
use itoa::Buffer;
use portmap_link::{Writing, write_reply};
use std::io::Write;

/// The limit on puts of each piece of a text.
const PUTS_MOST: u64 = 1000;

/// Writes a text. Returns whether all of it was written. A failure of `errors` changes nothing else.
pub fn say<E: Write>(errors: &mut Writing<E>, text: &[u8]) -> bool
    ensures written { IsWritten text.now result (E.contents (writing_inner errors.old))
        (E.contents (writing_inner errors.new)) }
    ensures spent { result ≡ false → IsSpent errors.new }
{
    match write_reply(errors, text, PUTS_MOST) {
        Ok(()) => true,
        Err(_) => false,
    }
}

/// Writes a text that is given in pieces. Returns whether all of it was written.
pub fn say_all<E: Write>(errors: &mut Writing<E>, pieces: &[&[u8]]) -> bool
    ensures written { IsWritten (flat_map (λ piece. piece.now) pieces.now) result
        (E.contents (writing_inner errors.old)) (E.contents (writing_inner errors.new)) }
    ensures spent { result ≡ false → IsSpent errors.new }
{
    for piece in pieces {
        if !say(errors, piece) {
            return false;
        }
    }
    true
}

/// Writes a text with a number in it. Returns whether all of it was written.
pub fn say_number<E: Write>(
    errors: &mut Writing<E>,
    prefix: &[u8],
    number: u64,
    suffix: &[u8],
) -> bool
    ensures written { IsWritten (prefix.now ++ decimal number ++ suffix.now) result
        (E.contents (writing_inner errors.old)) (E.contents (writing_inner errors.new)) }
    ensures spent { result ≡ false → IsSpent errors.new }
{
    let mut digits = Buffer::new();
    let digits = digits.format(number).as_bytes();
    say_all(errors, &[prefix, digits, suffix])
}

pub fn say_path<E: Write>(errors: &mut Writing<E>, prefix: &[u8], path: &[u8], suffix: &[u8])
    ensures { IsPrinted E.contents (prefix.now ++ path.now ++ suffix.now) errors.old errors.new }
{
    let _ = say_all(errors, &[prefix, path, suffix]);
}

/// Names the file of an action that ended with `status`. Does nothing if the status is below `REFUSED` or the output
/// failed.
pub fn name_file<E: Write>(errors: &mut Writing<E>, path: &[u8], status: u8, is_written: bool)
    ensures named { REFUSED ≤ status → is_written ≡ true
        → IsPrinted E.contents (file_line path.now) errors.old errors.new }
    ensures silent { status < REFUSED → errors.new ≡ errors.old }
    ensures unwritten { is_written ≡ false → errors.new ≡ errors.old }
{
    if is_written && status >= REFUSED {
        say_path(errors, b"epmd: in ", path, b"\n");
    }
}

/// Writes why a file or a folder cannot be opened.
pub fn say_reason<E: Write>(errors: &mut Writing<E>, path: &[u8], reason: &[u8])
    ensures { IsPrinted E.contents (reason_line path.now reason.now) errors.old errors.new }
{
    let _ = say_all(errors, &[b"epmd: ", path, b": ", reason, b"\n"]);
}
