//! Bytes as they are printed, with escapes for what a terminal may obey.
ghost use Rattle.std.specs.Prelude.{◌≡◌, ◌<◌, ◌≤◌, ◌^◌, ◌++◌, get_or, length, IfOk, IfSome, OnOk};
ghost use Rattle.portmap_record.specs.Transcript.{hex_digits};
ghost use Rattle.portmap_operator.specs.Showing.{ControlsAreEscaped, PlainTextStays, character, continues, escape};
ghost use Rattle.portmap_operator.specs.Showing.{front, is_hidden, is_of_three, is_within, more, shown};

use portmap_core::NoMemory;
use std::alloc::Global;

const HEX_DIGITS: [u8; 16] = *b"0123456789abcdef";

fn is_within(code: u32, least: u32, most: u32) -> bool
    ensures { result ≡ is_within code least most }
{
    least <= code && code <= most
}

/// Returns the byte at `place`, or 0 after the end. A 0 continues no character.
fn byte_at(bytes: &[u8], place: usize) -> u32
    ensures value { result ≡ get_or bytes.now place 0 }
    ensures small { result < 2 ^ 8 }
    ensures there { 0 < result → place < length bytes.now }
{
    match bytes.get(place) {
        Some(byte) => u32::from(*byte),
        None => 0,
    }
}

fn continues(byte: u32) -> bool
    ensures { result ≡ continues byte }
{
    is_within(byte, 128, 191)
}

fn is_of_three(code: u32) -> bool
    ensures { result ≡ is_of_three code }
{
    is_within(code, 2048, 55_295) || is_within(code, 57_344, 65_535)
}

fn character(bytes: &[u8]) -> Option<(u32, usize)>
    requires { 0 < length bytes.now }
    ensures is { result ≡ character bytes.now }
    ensures small { IfSome result (λ found. found.0 < 2 ^ 24) }
    ensures fits { IfSome result (λ found. (0 < found.1) × (found.1 ≤ length bytes.now)) }
{
    let a = byte_at(bytes, 0);
    let b = byte_at(bytes, 1);
    let c = byte_at(bytes, 2);
    let d = byte_at(bytes, 3);
    let two = a % 32 * 64 + b % 64;
    let three = a % 16 * 4096 + b % 64 * 64 + c % 64;
    let four = a % 8 * 262_144 + b % 64 * 4096 + c % 64 * 64 + d % 64;
    if a < 128 {
        return Some((a, 1));
    }
    if is_within(a, 192, 223) && continues(b) && 128 <= two {
        return Some((two, 2));
    }
    if is_within(a, 224, 239) && continues(b) && continues(c) && is_of_three(three) {
        return Some((three, 3));
    }
    let is_four = is_within(a, 240, 247) && continues(b) && continues(c) && continues(d);
    if is_four && is_within(four, 65_536, 1_114_111) {
        return Some((four, 4));
    }
    None
}

/// Returns true for controls except the end of a line, for characters without width, and for marks of direction.
fn is_hidden(code: u32) -> bool
    ensures { result ≡ is_hidden code }
{
    is_within(code, 0, 9)
        || is_within(code, 11, 31)
        || is_within(code, 127, 159)
        || code == 173
        || code == 1564
        || code == 6158
        || is_within(code, 8203, 8207)
        || is_within(code, 8232, 8238)
        || is_within(code, 8288, 8303)
        || code == 65_279
        || is_within(code, 65_529, 65_531)
        || is_within(code, 917_504, 917_759)
}

fn put_hex(text: &mut Vec<u8>, byte: u32) -> Result<(), NoMemory>
    requires { byte < 2 ^ 8 }
    ensures { OnOk result (text.new.items ≡ text.old.items ++ hex_digits byte) }
{
    let high = HEX_DIGITS[(byte / 16) as usize];
    let low = HEX_DIGITS[(byte % 16) as usize];
    text.extend_from_slice(&[high, low])
}

/// Appends an escape with as many digits as Python uses: two, four or eight.
fn put_escape(text: &mut Vec<u8>, code: u32) -> Result<(), NoMemory>
    requires { code < 2 ^ 24 }
    ensures { OnOk result (text.new.items ≡ text.old.items ++ escape code) }
{
    if code < 256 {
        text.extend_from_slice(b"\\x")?;
        return put_hex(text, code);
    }
    if code < 65_536 {
        text.extend_from_slice(b"\\u")?;
    } else {
        text.extend_from_slice(b"\\U00")?;
        put_hex(text, code / 65_536)?;
    }
    put_hex(text, code / 256 % 256)?;
    put_hex(text, code % 256)
}

/// Appends what is printed of the first character, or of the first byte if no character begins there. Returns how many
/// more bytes belong to it.
fn put_front(text: &mut Vec<u8>, bytes: &[u8]) -> Result<usize, NoMemory>
    requires { 0 < length bytes.now }
    ensures text { OnOk result (text.new.items ≡ text.old.items ++ front bytes.now) }
    ensures more { IfOk result (λ count. count ≡ more bytes.now) }
{
    match character(bytes) {
        None => {
            put_escape(text, u32::from(bytes[0]))?;
            Ok(0)
        }
        Some((code, size)) => {
            if is_hidden(code) {
                put_escape(text, code)?;
            } else {
                text.extend_from_slice(&bytes[..size])?;
            }
            Ok(size - 1)
        }
    }
}

/// Returns `bytes` as they are printed. Characters that a terminal may obey, and bytes that are not UTF-8, are escaped
/// as epmd-log does it.
pub fn shown(alloc: Global, bytes: &[u8]) -> Result<Vec<u8>, NoMemory>
    ensures { IfOk result (λ text. text.items ≡ shown bytes.now) }
{
    let mut text = Vec::new(alloc);
    put_shown(&mut text, bytes)?;
    Ok(text)
}

/// Appends `bytes` as they are printed.
#[tactic(auto, using(crate::proofs::Escaping::steps))]
pub(crate) fn put_shown(text: &mut Vec<u8>, bytes: &[u8]) -> Result<(), NoMemory>
    ensures { OnOk result (text.new.items ≡ text.old.items ++ shown bytes.now) }
{
    let mut more = 0;
    for place in 0..bytes.len() {
        if more > 0 {
            more -= 1;
        } else {
            more = put_front(text, &bytes[place..])?;
        }
    }
    Ok(())
}

/// Printable ASCII and ends of lines are printed unchanged.
pub fn plain_text_stays()
    ensures { PlainTextStays }
{}

/// A printed text has no ASCII controls except ends of lines.
pub fn controls_are_escaped()
    ensures { ControlsAreEscaped }
{}
