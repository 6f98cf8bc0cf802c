//! The addresses on which a daemon listens, as text.
ghost use Rattle.std.specs.Prelude.{◌≡◌, ◌++◌, [], ◌∷◌, IfSome, IfOk, OnOk};
ghost use Rattle.portmap_command.specs.Addresses.{WritesAddress, WritesAddresses, ListensOn, listening, with, anywhere};

use crate::numbers::read_byte;
use portmap_link::NoMemory;
use std::alloc::Global;

/// Every address of the host.
pub const ANYWHERE: [u8; 4] = [0, 0, 0, 0];

pub const LOOPBACK: [u8; 4] = [127, 0, 0, 1];

/// Returns the bytes before and after the first separator.
fn split_at_first(text: &[u8], separator: u8) -> Option<(&[u8], &[u8])>
    ensures { IfSome result (λ halves. text.now ≡ halves.0.now ++ separator ∷ halves.1.now) }
{
    let end = text.iter().position(|byte| *byte == separator)?;
    let (prefix, back) = text.split_at(end);
    let (_, after) = back.split_at(1);
    Some((prefix, after))
}

fn read_address(text: &[u8]) -> Option<[u8; 4]>
    ensures { IfSome result (λ address. WritesAddress text.now address) }
{
    let (first, behind) = split_at_first(text, b'.')?;
    let (second, behind) = split_at_first(behind, b'.')?;
    let (third, fourth) = split_at_first(behind, b'.')?;
    Some([
        read_byte(first)?,
        read_byte(second)?,
        read_byte(third)?,
        read_byte(fourth)?,
    ])
}

/// Returns the addresses of a list with commas, or `None` if the text is not such a list.
fn read_addresses(alloc: Global, text: &[u8]) -> Result<Option<Vec<[u8; 4]>>, NoMemory>
    ensures { IfOk result (λ read. IfSome read (λ addresses. WritesAddresses text.now addresses.items)) }
{
    let mut addresses = Vec::new(alloc);
    let mut rest = text;
    while let Some((prefix, after)) = split_at_first(rest, b',') {
        let Some(address) = read_address(prefix) else {
            return Ok(None);
        };
        addresses.push(address)?;
        rest = after;
    }
    let Some(address) = read_address(rest) else {
        return Ok(None);
    };
    addresses.push(address)?;
    Ok(Some(addresses))
}

/// Appends an address, unless it is there.
fn add(addresses: &mut Vec<[u8; 4]>, address: [u8; 4]) -> Result<(), NoMemory>
    ensures { OnOk result (addresses.new.items ≡ with addresses.old.items address) }
{
    if !addresses.contains(&address) {
        addresses.push(address)?;
    }
    Ok(())
}

pub fn everywhere(alloc: Global) -> Result<Vec<[u8; 4]>, NoMemory>
    ensures { IfOk result (λ addresses. addresses.items ≡ anywhere ∷ []) }
{
    let mut addresses = Vec::new(alloc);
    addresses.push(ANYWHERE)?;
    Ok(addresses)
}

fn listening(alloc: Global, listed: &[[u8; 4]]) -> Result<Vec<[u8; 4]>, NoMemory>
    ensures { IfOk result (λ addresses. addresses.items ≡ listening listed.now) }
{
    if listed.contains(&ANYWHERE) {
        return everywhere(alloc);
    }
    let mut addresses = Vec::new(alloc);
    for address in listed {
        add(&mut addresses, *address)?;
    }
    add(&mut addresses, LOOPBACK)?;
    Ok(addresses)
}

/// Returns the addresses on which a daemon listens for a list with commas: each listed address once, in order, and then
/// `LOOPBACK`, unless it is listed. A list with `ANYWHERE` gives that address alone. Returns `None` if the text is not
/// a list of addresses.
pub fn read_listening(alloc: Global, text: &[u8]) -> Result<Option<Vec<[u8; 4]>>, NoMemory>
    ensures { IfOk result (λ read. IfSome read (λ addresses. ListensOn text.now addresses.items)) }
{
    match read_addresses(alloc, text)? {
        Some(listed) => Ok(Some(listening(alloc, &listed)?)),
        None => Ok(None),
    }
}
