//! Names of 1, 255 and 1,020 bytes, with no extra bytes, with 1 and with many.
use crate::answers::epmd_read_port2;
use crate::node::{EpmdAlive, EpmdFound, EpmdNode, EpmdText};
use crate::sockets::{epmd_lookup, epmd_register, epmd_stop};
use crate::tests::{Pair, spelled};
use crate::writing::{epmd_write_lookup, epmd_write_register, epmd_write_stop};
use std::alloc::Global;
use std::test::Fail;

type Bytes = &'static [u8];

const NAME: &[u8; 1020] = &[b'a'; 1020];

const EXTRA: &[u8; 7159] = &[b'e'; 7159];

/// The length of a name and its field Nlen, the length of the extra bytes and their field Elen. Then the length fields
/// of ALIVE2_REQ, and of PORT_PLEASE2_REQ and STOP_REQ.
type Lengths = (usize, Bytes, usize, Bytes, Bytes, Bytes);

const NODES: &[Lengths] = &[
    (1, b"\x00\x01", 0, b"\x00\x00", b"\x00\x0E", b"\x00\x02"),
    (1, b"\x00\x01", 1, b"\x00\x01", b"\x00\x0F", b"\x00\x02"),
    (255, b"\x00\xFF", 300, b"\x01\x2C", b"\x02\x38", b"\x01\x00"),
    (
        1020,
        b"\x03\xFC",
        7159,
        b"\x1B\xF7",
        b"\x20\x00",
        b"\x03\xFD",
    ),
];

/// A normal node at port 5000, for versions 5 to 6.
const NODE: EpmdNode = EpmdNode {
    port: 5000,
    highest: 6,
    lowest: 5,
    kind: 77,
    protocol: 0,
};

/// The fields PortNo to LowestVersion of that node.
const NUMBERS: Bytes = b"\x13\x88M\x00\x00\x06\x00\x05";

fn texts(node: &Lengths) -> (Bytes, Bytes) {
    (&NAME[..node.0.min(1020)], &EXTRA[..node.2.min(7159)])
}

/// Returns the fields of ALIVE2_REQ and PORT2_RESP after `prefix`.
fn fields(alloc: Global, prefix: &[u8], node: &Lengths) -> Result<Vec<u8>, Fail> {
    let (name, nlen, extra, elen, _, _) = *node;
    let parts = [
        (prefix, 1),
        (NUMBERS, 1),
        (nlen, 1),
        (b"a", name),
        (elen, 1),
        (b"e", extra),
    ];
    spelled(alloc, &parts)
}

fn registration(alloc: Global, node: &Lengths) -> Result<Vec<u8>, Fail> {
    let prefix = spelled(alloc, &[(node.4, 1), (b"x", 1)])?;
    fields(alloc, &prefix, node)
}

/// Returns PORT_PLEASE2_REQ or STOP_REQ, by its first byte.
fn named(alloc: Global, tag: &[u8], node: &Lengths) -> Result<Vec<u8>, Fail> {
    spelled(alloc, &[(node.5, 1), (tag, 1), (b"a", node.0)])
}

fn is_written(status: i32, out: &[u8], size: usize, request: &[u8]) -> bool {
    status == 0 && out.get(..size) == Some(request)
}

fn writes_registration(alloc: Global, node: &Lengths, request: &[u8]) -> bool {
    let (mut out, mut size) = ([0; 8194], 0);
    let (name, extra) = texts(node);
    let status = epmd_write_register(alloc, &NODE, name, extra, &mut out, &mut size);
    is_written(status, &out, size, request)
}

fn writes_lookup(alloc: Global, node: &Lengths, request: &[u8]) -> bool {
    let (mut out, mut size) = ([0; 1023], 0);
    let status = epmd_write_lookup(alloc, texts(node).0, &mut out, &mut size);
    is_written(status, &out, size, request)
}

fn writes_stop(alloc: Global, node: &Lengths, request: &[u8]) -> bool {
    let (mut out, mut size) = ([0; 1023], 0);
    let status = epmd_write_stop(alloc, texts(node).0, &mut out, &mut size);
    is_written(status, &out, size, request)
}

fn is_registered(alloc: Global, socket: i32, node: &Lengths) -> bool {
    let mut alive = EpmdAlive {
        creation: 0,
        code: 9,
    };
    let (name, extra) = texts(node);
    let status = epmd_register(alloc, socket, &NODE, name, extra, &mut alive);
    status == 0 && alive.creation == 4 && alive.code == 0
}

const NOWHERE: EpmdText = EpmdText { at: 9, size: 9 };

const NOTHING: EpmdFound = EpmdFound {
    name: NOWHERE,
    extra: NOWHERE,
    node: EpmdNode {
        port: 0,
        highest: 0,
        lowest: 0,
        kind: 0,
        protocol: 9,
    },
};

/// Returns true if the node was found, with its texts in `bytes`.
fn is_found(status: i32, bytes: &[u8], found: &EpmdFound, node: &Lengths) -> bool {
    let (name, extra) = texts(node);
    let are_numbers = found.node.port == 5000 && found.node.highest == 6 && found.node.lowest == 5;
    let is_node = are_numbers && found.node.kind == 77 && found.node.protocol == 0;
    status == 0 && is_node && has(bytes, &found.name, name) && has(bytes, &found.extra, extra)
}

fn has(bytes: &[u8], place: &EpmdText, text: &[u8]) -> bool {
    let prefix = bytes.get(..place.at.saturating_add(place.size));
    prefix.is_some_and(|prefix| prefix.get(place.at..) == Some(text))
}

fn is_looked_up(alloc: Global, socket: i32, node: &Lengths) -> bool {
    let (mut found, mut texts_found) = (NOTHING, [0; 8192]);
    let status = epmd_lookup(alloc, socket, texts(node).0, &mut texts_found, &mut found);
    is_found(status, &texts_found, &found, node)
}

fn is_read(alloc: Global, node: &Lengths, reply: &[u8]) -> bool {
    let mut found = NOTHING;
    let status = epmd_read_port2(alloc, reply, &mut found);
    is_found(status, reply, &found, node)
}

fn registers(rt: &HostRuntime, node: &Lengths) -> Result<bool, Fail> {
    let request = registration(rt.alloc(), node)?;
    let pair = Pair::answered(rt, b"v\x00\x00\x00\x00\x04")?;
    let is_reported = is_registered(rt.alloc(), pair.number(), node);
    let is_written = writes_registration(rt.alloc(), node, &request);
    Ok(pair.is_asked(rt.alloc(), &request)? && is_reported && is_written)
}

/// Returns true if the lookup is written, and its reply is read as the node.
fn finds(rt: &HostRuntime, node: &Lengths, reply: &[u8]) -> Result<bool, Fail> {
    let request = named(rt.alloc(), b"z", node)?;
    let pair = Pair::answered(rt, reply)?;
    let is_reported = is_looked_up(rt.alloc(), pair.number(), node);
    let is_written = writes_lookup(rt.alloc(), node, &request);
    Ok(pair.is_asked(rt.alloc(), &request)? && is_reported && is_written)
}

fn looks_up(rt: &HostRuntime, node: &Lengths) -> Result<bool, Fail> {
    let reply = fields(rt.alloc(), b"w\x00", node)?;
    Ok(is_read(rt.alloc(), node, &reply) && finds(rt, node, &reply)?)
}

fn stops(rt: &HostRuntime, node: &Lengths) -> Result<bool, Fail> {
    let request = named(rt.alloc(), b"s", node)?;
    let pair = Pair::answered(rt, b"STOPPED")?;
    let status = epmd_stop(rt.alloc(), pair.number(), texts(node).0);
    let is_written = writes_stop(rt.alloc(), node, &request);
    Ok(pair.is_asked(rt.alloc(), &request)? && status == 0 && is_written)
}

#[test]
fn names_of_all_sizes_are_registered(rt: HostRuntime) -> Result<(), Fail> {
    for node in NODES {
        assert!(rt; registers(&rt, node)?, "{} and {} bytes", node.0, node.2);
    }
    Ok(())
}

#[test]
fn names_of_all_sizes_are_looked_up(rt: HostRuntime) -> Result<(), Fail> {
    for node in NODES {
        assert!(rt; looks_up(&rt, node)?, "{} and {} bytes", node.0, node.2);
    }
    Ok(())
}

#[test]
fn names_of_all_sizes_are_stopped(rt: HostRuntime) -> Result<(), Fail> {
    for node in NODES {
        assert!(rt; stops(&rt, node)?, "{} bytes", node.0);
    }
    Ok(())
}
