//! How a table writes bytes, and how an action ended.
use std::alloc::{AllocError, Global};

/// Returns the byte that a byte of a table means: `~` is a blank, `|` is an end of line, and `?` is 0xFF, which is in
/// no UTF-8.
pub fn meant(byte: u8) -> u8 {
    match byte {
        b'~' => b' ',
        b'|' => b'\n',
        b'?' => 0xFF,
        _ => byte,
    }
}

pub fn bytes_of(alloc: Global, text: &str) -> Result<Vec<u8>, AllocError> {
    let mut bytes = Vec::new(alloc);
    for byte in text.bytes() {
        bytes.push(meant(byte))?;
    }
    Ok(bytes)
}

/// Returns how an action ends: the status, then `out` with the output and `err` with the errors, unless they are empty.
/// In it `|` is an end of line, and `\u{a6}` is a `|`.
pub fn ending(
    alloc: Global,
    status: u8,
    output: &[u8],
    errors: &[u8],
) -> Result<String, AllocError> {
    let mut printed = format!(in alloc; "{status}")?;
    for (word, bytes) in [("out", output), ("err", errors)] {
        if !bytes.is_empty() {
            let text = String::from_utf8_lossy(alloc, bytes)?;
            write!(printed, " {word} {text}")?;
        }
    }
    let printed = printed.as_str().replace(alloc, "|", "\u{a6}")?;
    printed.as_str().replace(alloc, "\n", "|")
}
