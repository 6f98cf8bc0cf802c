//! Devices by their names.
use crate::words::{number, unknown};
use anyhow::Result;
use portmap_testing::tape::{DevicePlan, Tape};
use std::alloc::Global;

const ALL: usize = usize::MAX;

/// The name of a device, the number of bytes that a call moves at most, and the ranges of calls that would block.
const DEVICES: &[(&str, usize, &[(usize, usize)])] = &[
    ("steady", ALL, &[]),
    ("single", 1, &[]),
    ("pairs", 2, &[]),
    ("fives", 5, &[]),
    ("sevens", 7, &[]),
    ("large", 512, &[]),
    ("never", ALL, &[(0, usize::MAX)]),
    ("silent-from-1", ALL, &[(1, usize::MAX)]),
    ("later-0-to-999", ALL, &[(0, 999)]),
    ("later-0-to-1000", ALL, &[(0, 1000)]),
    ("later-1-to-1000", ALL, &[(1, 1000)]),
    ("later-1-to-1001", ALL, &[(1, 1001)]),
    ("later-but-400-to-1000", ALL, &[(0, 400), (401, 1000)]),
    ("later-but-400-to-1001", ALL, &[(0, 400), (401, 1001)]),
    ("slow", ALL, &[(0, 2), (3, 4)]),
    ("slow-single", 1, &[(0, 1), (2, 3)]),
    ("late-single", 1, &[(0, 1)]),
    ("late-large", 512, &[(0, 1)]),
    ("pairs-later-at-1", 2, &[(1, 2)]),
    ("pairs-later-in-turn", 2, &[(1, 2), (3, 4), (5, 6)]),
    ("later-at-1", ALL, &[(1, 2)]),
    ("later-at-2", ALL, &[(2, 3)]),
    ("later-1-to-100", ALL, &[(1, 100)]),
    ("fours", 4, &[]),
    ("twelves", 12, &[]),
    ("later-999", ALL, &[(0, 999), (1000, 1999), (2000, 2999)]),
    ("forties-but-501-to-1001", 40, &[(1, 501), (502, 1001)]),
    ("forties-but-501-to-1002", 40, &[(1, 501), (502, 1002)]),
];

/// Returns the plan of the device with this name. The number of the first call that fails follows a `:`.
pub fn plan(word: &str) -> Result<DevicePlan> {
    let (name, fault) = match word.split_once(':') {
        Some((name, call)) => (name, Some(number(call)?)),
        None => (word, None),
    };
    match DEVICES.iter().find(|device| device.0 == name) {
        Some((_, most, later)) => Ok(DevicePlan {
            most: *most,
            later,
            fault,
        }),
        None => unknown("no device", word),
    }
}

/// Returns a device that gives these bytes, and accepts `room` bytes without an allocation.
pub fn device(alloc: Global, bytes: &[u8], plan: DevicePlan, room: usize) -> Result<Tape<'_>> {
    let mut tape = Tape::new(alloc, bytes, plan);
    tape.sink.reserve(room)?;
    Ok(tape)
}
