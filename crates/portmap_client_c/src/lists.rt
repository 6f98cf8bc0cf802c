//! Reads the two lists of names. The caller's bytes are all that the port mapper sent.
ghost use Rattle.std.specs.Prelude.{◌≡◌, ◌≢◌, ◌↔◌, ◌+◌, ◌<◌, ◌≤◌, ◌++◌, ℕ, List, drop, length, max, position};
ghost use Rattle.std.specs.Prelude.{slice_index_or, IfSome, IfNone, IfOk, IfErr};
ghost use Rattle.portmap_wire.specs.Reply.{be4};
ghost use Rattle.portmap_wire.specs.ListReading.{IsStrange, ReadsLine, is_newline};
ghost use Rattle.portmap_client_c.specs.Status.{line_status};
ghost use Rattle.portmap_client_c.specs.declared.status.TheConstants.{EPMD_NO_MEMORY};
ghost use Rattle.portmap_client_c.specs.Lists.{HasLine, IsLineFault, IsNextLine, IsOneLine, IsReadingFault};

use crate::node::{EpmdLine, EpmdText};
use crate::status::{EPMD_LIST_END, EPMD_OK, EPMD_SHORT, EPMD_STRANGE_LINE, line_status};
use portmap_wire::{Line, ListFault, read_dump, read_names};
use std::alloc::Global;

/// The number of bytes before the lines of a list: the port of the port mapper.
pub(crate) const HEAD: usize = 4;

/// Reads the first bytes of the reply to NAMES_REQ or DUMP_REQ: the port of the port mapper. Sets `at` to the offset of
/// the lines or of the text.
#[unsafe(no_mangle)]
pub extern "C" fn epmd_read_list(bytes: &[u8], port: &mut u32, at: &mut usize) -> i32
    ensures found { result ≡ EPMD_OK → (at.new ≡ 4) × (bytes.now ≡ be4 port.new ++ drop 4 bytes.now) }
    ensures short { result ≢ EPMD_OK → (result ≡ EPMD_SHORT) × (length bytes.now < 4) }
    ensures unchanged { result ≢ EPMD_OK → (at.new ≡ at.old) × (port.new ≡ port.old) }
{
    match read_dump(bytes) {
        Ok((own, _)) => {
            *port = own;
            *at = HEAD;
            EPMD_OK
        }
        Err(_) => EPMD_SHORT,
    }
}

fn line_size(text: &[u8]) -> Option<usize>
    ensures { result ≡ position is_newline text.now }
{
    text.iter().position(|b| *b == b'\n')
}

fn first_line(lines: Vec<Line>) -> Option<Line>
    ensures found { IfSome result (λ line. (0 < length lines.items) × (line ≡ slice_index_or lines.items 0 line)) }
    ensures none { IfNone result (length lines.items ≡ 0) }
{
    let mut lines = lines;
    if lines.is_empty() {
        return None;
    }
    Some(lines.remove(0))
}

/// Reads a list of one line. The line follows the first four bytes.
fn one_line(alloc: Global, list: &[u8]) -> Result<Line, ListFault>
    requires { 4 ≤ length list.now }
    ensures found { IfOk result (λ line. (text : List ℕ) → IsOneLine (drop 4 list.now) text → ReadsLine text line) }
    ensures fault { IfErr result (λ fault. (text : List ℕ) → IsOneLine (drop 4 list.now) text
        → IsReadingFault text fault) }
{
    match read_names(alloc, list) {
        Ok((_, lines)) => match first_line(lines) {
            Some(line) => Ok(line),
            None => Err(ListFault::Short),
        },
        Err(fault) => Err(fault),
    }
}

/// Reads the line at offset `at`, and returns the offset of the next line.
fn line_at(alloc: Global, bytes: &[u8], at: usize) -> Result<(EpmdLine, usize), ListFault>
    requires { (4 ≤ at) × (at < length bytes.now) }
    ensures found { IfOk result (λ found. IsNextLine bytes.now at found.1 found.0) }
    ensures fault { IfErr result (λ fault. IsLineFault (drop at bytes.now) (line_status fault)) }
{
    let (_, text) = bytes.split_at(at);
    let Some(size) = line_size(text) else {
        return Err(ListFault::StrangeLine(0));
    };
    match one_line(alloc, &bytes[at - HEAD..at + size + 1]) {
        Ok(line) => {
            let name = EpmdText {
                at: at + 5,
                size: line.name.bytes().len(),
            };
            let line = EpmdLine {
                name,
                port: line.port,
            };
            Ok((line, at + size + 1))
        }
        Err(fault) => Err(fault),
    }
}

/// Reads the line of the reply to NAMES_REQ at offset `at`. An offset below 4 is that of the first line. With
/// `EPMD_OK`, `at` is set to the offset of the next line.
#[unsafe(no_mangle)]
pub extern "C" fn epmd_read_names_line(
    alloc: Global,
    bytes: &[u8],
    at: &mut usize,
    line: &mut EpmdLine,
) -> i32
    ensures short { (result ≡ EPMD_SHORT) ↔ (length bytes.now < 4) }
    ensures end { result ≡ EPMD_LIST_END → length bytes.now ≤ max 4 at.old }
    ensures found { result ≡ EPMD_OK → IsNextLine bytes.now (max 4 at.old) at.new line.new }
    ensures strange { result ≡ EPMD_STRANGE_LINE → IsStrange (drop (max 4 at.old) bytes.now) }
    // Memory is allocated last, and none is kept.
    ensures memory { result ≡ EPMD_NO_MEMORY → HasLine (drop (max 4 at.old) bytes.now) }
    ensures no_other { result ≢ EPMD_OK → result ≢ EPMD_SHORT → result ≢ EPMD_STRANGE_LINE → result ≢ EPMD_LIST_END
        → result ≡ EPMD_NO_MEMORY }
    ensures unchanged { result ≢ EPMD_OK → (at.new ≡ at.old) × (line.new ≡ line.old) }
{
    if bytes.len() < HEAD {
        return EPMD_SHORT;
    }
    let start = (*at).max(HEAD);
    if start >= bytes.len() {
        return EPMD_LIST_END;
    }
    match line_at(alloc, bytes, start) {
        Ok((found, next)) => {
            *line = found;
            *at = next;
            EPMD_OK
        }
        Err(fault) => line_status(fault),
    }
}
