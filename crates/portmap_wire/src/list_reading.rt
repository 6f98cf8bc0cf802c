ghost use Rattle.std.specs.Prelude.{◌≡◌, ◌++◌, ◌<◌, ℕ, List, [], length, position, IfOk, IfSome, IfErr, MatchBool};
ghost use Rattle.std.specs.Prelude.{MatchOption, None, Err};
ghost use Rattle.std.specs.Str.Parse.{AllDigits};
ghost use Rattle.portmap_wire.specs.Reply.{be4};
ghost use Rattle.portmap_wire.specs.ListReading.{WritesPort, EndsInDigits, HasShape, HasNoReading, ReadsLine};
ghost use Rattle.portmap_wire.specs.ListReading.{is_newline, HasNoNewline, IsCut, ListsTo, IsLines, Lists, IsList};
ghost use Rattle.portmap_wire.specs.ListReading.{StrangeIn, IsLinesFault, IsListFault, LinesHaveOneReading};
ghost use Rattle.portmap_wire.specs.ListReading.{ListsHaveOneReading, NamesAreReadBack};

use crate::NoMemory;
use crate::list::Line;
use crate::name::{Name, NameFault, is_name};
use std::alloc::{AllocFailed, Global};

#[derive(Clone, Copy, Debug, PartialEq, Eq)]
pub enum ListFault {
    /// There are fewer than 4 bytes.
    Short,
    /// The index, from 0, of the first line that is not a line of a name or is not ended by byte 10.
    StrangeLine(usize),
    NoMemory,
}

impl From<NoMemory> for ListFault {
    ghost use Rattle.std.specs.Prelude.{◌≡◌};
    ghost use Rattle.portmap_wire.specs.declared.list_reading.ListFault.TheVariants as fault;

    ghost from_gives = { λ _ e. e ≡ fault.NoMemory };

    fn from(_refused: NoMemory) -> ListFault {
        ListFault::NoMemory
    }
}

impl<T: Drop> From<AllocFailed<T>> for ListFault {
    ghost use Rattle.std.specs.Prelude.{◌≡◌};
    ghost use Rattle.portmap_wire.specs.declared.list_reading.ListFault.TheVariants as fault;

    ghost from_gives = { λ _ e. e ≡ fault.NoMemory };

    fn from(_refused: AllocFailed<T>) -> ListFault {
        ListFault::NoMemory
    }
}

fn digits_start(text: &[u8]) -> usize
    ensures { EndsInDigits text.now result }
{
    let mut start = text.len();
    while start > 0 && text[start - 1] >= b'0' && text[start - 1] <= b'9' {
        start -= 1;
    }
    start
}

fn port_of(digits: &[u8]) -> Option<u16>
    requires { AllDigits 10 digits.now }
    ensures found { IfSome result (λ port. WritesPort digits.now port) }
    ensures none { result ≡ None → (port : ℕ) → WritesPort digits.now port → ⊥ }
{
    if digits.is_empty() || digits.len() > 5 {
        return None;
    }
    let mut value: u32 = 0;
    for digit in digits {
        value = value * 10 + u32::from(*digit - b'0');
    }
    u16::try_from(value).ok()
}

/// Splits a line into name and port. Any bytes pass as a name.
fn split_line(text: &[u8]) -> Option<(&[u8], u16)>
    ensures found { IfSome result (λ f. HasShape text.now f.0.now f.1) }
    ensures none { result ≡ None → (name : List ℕ) (port : ℕ) → HasShape text.now name port → ⊥ }
{
    let (front, digits) = text.split_at(digits_start(text));
    let Some(head) = front.strip_suffix(b" at port ") else {
        return None;
    };
    let Some(name) = head.strip_prefix(b"name ") else {
        return None;
    };
    match port_of(digits) {
        Some(port) => Some((name, port)),
        None => None,
    }
}

fn read_line(alloc: Global, text: &[u8]) -> Result<Option<Line>, NoMemory>
    ensures { IfOk result (λ found. MatchOption found (HasNoReading text.now) (λ line. ReadsLine text.now line)) }
{
    let Some((name, port)) = split_line(text) else {
        return Ok(None);
    };
    match Name::read(alloc, name) {
        Ok(name) => Ok(Some(Line { name, port })),
        Err(fault) => match fault {
            NameFault::NoMemory => Err(NoMemory),
            _ => Ok(None),
        },
    }
}

fn first_newline(text: &[u8]) -> Option<usize>
    ensures { result ≡ position is_newline text.now }
{
    text.iter().position(|b| *b == b'\n')
}

fn cut_line(text: &[u8]) -> Option<(&[u8], &[u8])>
    ensures found { IfSome result (λ cut. IsCut text.now cut.0.now cut.1.now) }
    ensures none { result ≡ None → HasNoNewline text.now }
{
    match first_newline(text) {
        Some(end) => {
            let (front, back) = text.split_at(end);
            let (_, after) = back.split_at(1);
            Some((front, after))
        }
        None => None,
    }
}

fn is_line(text: &[u8]) -> bool
    ensures { MatchBool result ((line : Line) × ReadsLine text.now line) (HasNoReading text.now) }
{
    match split_line(text) {
        Some(found) => is_name(found.0),
        None => false,
    }
}

fn first_strange(text: &[u8]) -> Option<usize>
    ensures found { IfSome result (λ at. StrangeIn text.now at) }
    ensures none { result ≡ None → IsLines text.now }
{
    let mut count = 0;
    let mut rest = text;
    while !rest.is_empty() {
        match cut_line(rest) {
            Some((front, after)) if is_line(front) => {
                rest = after;
                count += 1;
            }
            _ => return Some(count),
        }
    }
    None
}

/// Returns the fault after memory ran out: a strange line takes precedence over `NoMemory`.
fn without_memory(text: &[u8]) -> ListFault
    ensures fault { IsLinesFault text.now result }
    ensures memory { result ≡ ListFault.NoMemory → IsLines text.now }
{
    match first_strange(text) {
        Some(at) => ListFault::StrangeLine(at),
        None => ListFault::NoMemory,
    }
}

fn collect_lines(alloc: Global, text: &[u8]) -> Result<Vec<Line>, ListFault>
    ensures found { IfOk result (λ lines. ListsTo text.now lines.items []) }
    ensures fault { IfErr result (λ fault. IsLinesFault text.now fault) }
{
    let mut lines = Vec::new(alloc);
    let mut rest = text;
    while !rest.is_empty() {
        let strange = ListFault::StrangeLine(lines.len());
        let Some((front, after)) = cut_line(rest) else {
            return Err(strange);
        };
        let Some(line) = read_line(alloc, front)? else {
            return Err(strange);
        };
        lines.push(line)?;
        rest = after;
    }
    Ok(lines)
}

/// Reads the lines of `text`. A strange line takes precedence over `NoMemory`.
fn read_lines(alloc: Global, text: &[u8]) -> Result<Vec<Line>, ListFault>
    ensures found { IfOk result (λ lines. ListsTo text.now lines.items []) }
    ensures fault { IfErr result (λ fault. IsLinesFault text.now fault) }
    ensures memory { result ≡ Err ListFault.NoMemory → IsLines text.now }
{
    match collect_lines(alloc, text) {
        Err(ListFault::NoMemory) => Err(without_memory(text)),
        other => other,
    }
}

/// Returns the port at the beginning of a list and the text after it. The text is not checked.
pub fn read_dump(bytes: &[u8]) -> Result<(u32, &[u8]), ListFault>
    ensures found { IfOk result (λ d. bytes.now ≡ be4 d.0 ++ d.1.now) }
    ensures short { IfErr result (λ fault. (fault ≡ ListFault.Short) × (length bytes.now < 4)) }
{
    match bytes {
        [a, b, c, d, text @ ..] => Ok((u32::from_be_bytes([*a, *b, *c, *d]), text)),
        _ => Err(ListFault::Short),
    }
}

/// Returns the port and the lines of a reply to NAMES_REQ, which must fill `bytes`.
///
/// Byte 10 ends a line. The last ` at port ` in a line separates name and port. `NoMemory` is the last fault: it is
/// returned only if `bytes` are a list.
pub fn read_names(alloc: Global, bytes: &[u8]) -> Result<(u32, Vec<Line>), ListFault>
    ensures found { IfOk result (λ list. Lists bytes.now list.0 list.1.items) }
    ensures fault { IfErr result (λ fault. IsListFault bytes.now fault) }
    ensures short { length bytes.now < 4 → result ≡ Err ListFault.Short }
    ensures memory { result ≡ Err ListFault.NoMemory → IsList bytes.now }
{
    let (port, text) = read_dump(bytes)?;
    let lines = read_lines(alloc, text)?;
    Ok((port, lines))
}

/// Law: a text is the line of at most one name and port.
pub fn lines_have_one_reading()
    ensures { LinesHaveOneReading }
{}

/// Law: bytes are at most one list. If they are a list, their only possible fault is `NoMemory`.
pub fn lists_have_one_reading()
    ensures { ListsHaveOneReading }
{}

/// Law: the output of `write_names` is read back as its arguments, and as nothing else.
pub fn names_are_read_back()
    ensures { NamesAreReadBack }
{}
