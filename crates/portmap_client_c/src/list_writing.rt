//! Writes the reply to NAMES_REQ into the caller's buffer. Its size is computed first, without allocation.
ghost use Rattle.std.specs.Prelude.{◌≡◌, ◌*◌, ◌≤◌, ◌^◌, IfOk, length};
ghost use Rattle.std.specs.List.{flat_map};
ghost use Rattle.portmap_wire.specs.List.{names_line, names_reply};
ghost use Rattle.portmap_client_c.specs.Writing.{PutsList};

use crate::lists::HEAD;
use crate::status::{EPMD_BUFFER_TOO_SMALL, EPMD_NO_MEMORY};
use crate::writing::put;
use itoa::Buffer;
use portmap_wire::{Line, NAMES_LINE_REST, NoMemory, put_names_line};
use std::alloc::Global;

/// The number of digits that `NAMES_LINE_REST` includes.
const DIGITS_MOST: usize = 5;

fn line_size(line: &Line) -> usize
    ensures exact { result ≡ length (names_line line.now) }
    ensures most { result ≤ 1040 }
{
    NAMES_LINE_REST - DIGITS_MOST + Buffer::new().format(line.port).len() + line.name.bytes().len()
}

/// Returns the size of the lines, without the port before them. A list that was read has at most 2^24 bytes, and no
/// more lines than bytes.
fn lines_size(lines: &[Line]) -> usize
    requires { length lines.now ≤ 2 ^ 24 }
    ensures exact { result ≡ length (flat_map names_line lines.now) }
    ensures most { result ≤ 1040 * 2 ^ 24 }
{
    let mut size = 0;
    for line in lines {
        size += line_size(line);
    }
    size
}

fn list_bytes(alloc: Global, port: u32, lines: &[Line]) -> Result<Vec<u8>, NoMemory>
    ensures { IfOk result (λ v. v.items ≡ names_reply port lines.now) }
{
    let mut out = Vec::from_slice(alloc, &port.to_be_bytes())?;
    for line in lines {
        put_names_line(&mut out, &line.name, line.port)?;
    }
    Ok(out)
}

pub(crate) fn put_list(
    alloc: Global,
    port: u32,
    lines: &[Line],
    out: &mut [u8],
    size: &mut usize,
) -> i32
    requires { length lines.now ≤ 2 ^ 24 }
    ensures { PutsList port lines.now out.old out.new size.new result }
{
    *size = HEAD + lines_size(lines);
    if out.len() < *size {
        return EPMD_BUFFER_TOO_SMALL;
    }
    match list_bytes(alloc, port, lines) {
        Ok(bytes) => put(&bytes, &[], out),
        Err(_) => {
            *size = 0;
            EPMD_NO_MEMORY
        }
    }
}
