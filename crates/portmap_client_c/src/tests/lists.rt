//! Lists with no lines and with many, and the requests without a name.
use crate::lists::{epmd_read_list, epmd_read_names_line};
use crate::node::{EpmdLine, EpmdText};
use crate::sockets::{epmd_dump, epmd_kill, epmd_names};
use crate::tests::{Pair, spelled};
use crate::writing::{epmd_write_dump, epmd_write_kill, epmd_write_names};
use std::alloc::Global;
use std::test::Fail;

/// The port of a port mapper on port 4369.
const HEAD: &[u8] = b"\x00\x00\x11\x11";

/// The length of the first name of a list, the bytes after the name, and how often both are repeated. Then the number
/// of lines, and the port of the last line.
const NAMES: &[(usize, &[u8], usize, usize, u16)] = &[
    (1, b"", 0, 0, 0),
    (1, b" at port 5000\n", 1, 1, 5000),
    (
        1,
        b" at port 0\nname b at port 80\nname c at port 432\n",
        1,
        3,
        432,
    ),
    (1, b" at port 9\nname b at port 65535\n", 200, 400, 65535),
    (1020, b" at port 5000\n", 5, 5, 5000),
];

/// A text about known names, and how often it is repeated.
const DUMPS: &[(&[u8], usize)] = &[
    (b"", 0),
    (b"active name     a at port 5000, fd = 0\n", 1),
    (
        b"active name     a at port 5000, fd = 12\nold/unused name b at port 9, fd = -1\n",
        80,
    ),
];

fn is_listed(alloc: Global, socket: i32, list: &[u8]) -> bool {
    let (mut out, mut size) = ([0; 8192], 0);
    epmd_names(alloc, socket, &mut out, &mut size) == 0 && out.get(..size) == Some(list)
}

fn is_dumped(alloc: Global, socket: i32, list: &[u8]) -> bool {
    let (mut out, mut size) = ([0; 8192], 0);
    epmd_dump(alloc, socket, &mut out, &mut size) == 0 && out.get(..size) == Some(list)
}

/// Returns the number of lines and the port of the last line, or `None` if a line cannot be read.
fn read(alloc: Global, list: &[u8]) -> Option<(usize, u16)> {
    let (mut port, mut at) = (0, 0);
    let mut line = EpmdLine {
        name: EpmdText { at: 0, size: 0 },
        port: 0,
    };
    let head = epmd_read_list(list, &mut port, &mut at);
    for count in 0..1000 {
        match epmd_read_names_line(alloc, list, &mut at, &mut line) {
            0 => {}
            11 if head == 0 && port == 4369 => return Some((count, line.port)),
            _ => return None,
        }
    }
    None
}

fn headed(alloc: Global, lines: &[u8], times: usize) -> Result<Vec<u8>, Fail> {
    spelled(alloc, &[(HEAD, 1), (lines, times)])
}

fn list(alloc: Global, name: usize, rest: &[u8], times: usize) -> Result<Vec<u8>, Fail> {
    let lines = spelled(alloc, &[(b"name ", 1), (b"a", name), (rest, 1)])?;
    headed(alloc, &lines, times)
}

/// Returns true if the list is reported over a socket, and is read with this number of lines and this last port.
fn lists(rt: &HostRuntime, list: &[u8], expected: (usize, u16)) -> Result<bool, Fail> {
    let pair = Pair::answered(rt, list)?;
    let is_reported = is_listed(rt.alloc(), pair.number(), list);
    let is_read = read(rt.alloc(), list) == Some(expected);
    Ok(pair.is_asked(rt.alloc(), b"\x00\x01n")? && is_reported && is_read)
}

fn dumps(rt: &HostRuntime, text: &[u8], times: usize) -> Result<bool, Fail> {
    let list = headed(rt.alloc(), text, times)?;
    let pair = Pair::answered(rt, &list)?;
    let is_reported = is_dumped(rt.alloc(), pair.number(), &list);
    Ok(pair.is_asked(rt.alloc(), b"\x00\x01d")? && is_reported)
}

fn kills(rt: &HostRuntime) -> Result<bool, Fail> {
    let pair = Pair::answered(rt, b"OK")?;
    let status = epmd_kill(rt.alloc(), pair.number());
    Ok(pair.is_asked(rt.alloc(), b"\x00\x01k")? && status == 0)
}

/// Returns the status and the size for a list of 24 bytes and a buffer of 23 bytes.
fn reported_in_less(rt: &HostRuntime) -> Result<(i32, usize), Fail> {
    let pair = Pair::answered(rt, b"\x00\x00\x11\x11name a at port 5000\n")?;
    let (mut out, mut size) = ([0; 23], 0);
    let status = epmd_names(rt.alloc(), pair.number(), &mut out, &mut size);
    Ok((status, size))
}

/// Returns NAMES_REQ, DUMP_REQ and KILL_REQ as they are written.
fn written(alloc: Global) -> Option<[u8; 9]> {
    let (mut out, mut sizes) = ([0; 9], [0; 3]);
    let names = epmd_write_names(alloc, &mut out[..3], &mut sizes[0]);
    let dump = epmd_write_dump(alloc, &mut out[3..6], &mut sizes[1]);
    let kill = epmd_write_kill(alloc, &mut out[6..], &mut sizes[2]);
    (names == 0 && dump == 0 && kill == 0 && sizes == [3, 3, 3]).then_some(out)
}

#[test]
fn lists_of_no_line_and_of_many_are_reported(rt: HostRuntime) -> Result<(), Fail> {
    for (name, rest, times, count, port) in NAMES {
        let list = list(rt.alloc(), *name, rest, *times)?;
        assert!(rt; lists(&rt, &list, (*count, *port))?, "{count} lines");
    }
    Ok(())
}

#[test]
fn texts_of_all_sizes_are_reported(rt: HostRuntime) -> Result<(), Fail> {
    for (text, times) in DUMPS {
        assert!(rt; dumps(&rt, text, *times)?, "{times} times");
    }
    Ok(())
}

#[test]
fn a_list_for_which_there_is_no_room_is_reported_by_its_size(rt: HostRuntime) -> Result<(), Fail> {
    assert_eq!(rt; reported_in_less(&rt)?, (18, 24));
    Ok(())
}

#[test]
fn the_port_mapper_is_ended(rt: HostRuntime) -> Result<(), Fail> {
    assert!(rt; kills(&rt)?);
    Ok(())
}

#[test]
fn requests_without_a_name_are_written(rt: HostRuntime) {
    assert_eq!(rt; written(rt.alloc()), Some(*b"\x00\x01n\x00\x01d\x00\x01k"));
}
