//! Typed lines.
ghost use Rattle.std.specs.Prelude.{◌≡◌, ◌≤◌, IfOk, length};
ghost use Rattle.portmap_command.specs.Meaning.{CanServe};

use super::printed::meant;
use portmap_command::program::asked;
use portmap_command::words::{Command, WordFault};
use std::alloc::Global;
use std::env::{Env, FillError};

/// A typed line: variables, the program's own name and its words, with blanks between them. `''` is the empty word.
/// Other bytes are those of `meant`.
#[derive(Clone, Copy)]
struct Typed<'a>(&'a str);

fn mean(bytes: &mut [u8])
    ensures { length bytes.new ≡ length bytes.old }
{
    for byte in bytes.iter_mut() {
        *byte = meant(*byte);
    }
}

/// Copies the text, if there is one.
fn give(text: Option<&str>, buffer: &mut [u8]) -> Result<usize, FillError>
    ensures { IfOk result (λ n. n ≤ length buffer.new) }
{
    let bytes = match text {
        None => return Err(FillError::NotPresent),
        Some("''") => b"".as_slice(),
        Some(text) => text.as_bytes(),
    };
    let prefix = buffer.get_mut(..bytes.len()).ok_or(FillError::TooLong)?;
    prefix.copy_from_slice(bytes);
    mean(prefix);
    Ok(bytes.len())
}

impl Env for Typed<'_> {
    fn arg(&self, i: usize, buffer: &mut [u8]) -> Result<usize, FillError> {
        let words = self.0.split_whitespace();
        give(words.skip_while(|word| word.contains('=')).nth(i), buffer)
    }

    fn var(&self, name: &str, buffer: &mut [u8]) -> Result<usize, FillError> {
        for word in self.0.split_whitespace() {
            if let Some((first, value)) = word.split_once('=') {
                if first == name {
                    return give(Some(value), buffer);
                }
            }
        }
        Err(FillError::NotPresent)
    }

    fn var_at(&self, _i: usize, _buffer: &mut [u8]) -> Result<usize, FillError> {
        Err(FillError::NotPresent)
    }
}

/// Reads a typed line. `words` gets its words.
pub fn read(alloc: Global, line: &str, words: &mut Vec<String>) -> Result<Command, WordFault>
    ensures { IfOk result (λ command. CanServe command) }
{
    asked(&(Typed(line), alloc), alloc, words)
}

pub fn command(alloc: Global, line: &str) -> Result<Command, WordFault>
    ensures { IfOk result (λ command. CanServe command) }
{
    read(alloc, line, &mut Vec::new(alloc))
}
