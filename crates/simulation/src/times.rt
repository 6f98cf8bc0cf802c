//! The times of a recording, as the disk of the world keeps them.
use crate::checks::{Wrong, expect};
use portmap_recorder::TIMES_HEADER;
use std::alloc::Global;
use std::io::ErrorKind;

/// The bytes of a row.
const ROW_LENGTH: usize = 16;
/// The position in the row that says that the daemon ended in order.
const END: u64 = u64::MAX;
/// The least time between two rows of which the second says that the daemon is alive, in microseconds.
const ALIVE_US: u64 = 59_000_000;

/// The times of each file of a recording.
#[derive(Drop)]
pub struct Times {
    pub files: Vec<Vec<u8>>,
    /// The last file has no more times, since a write or a read of the clock failed.
    pub has_failed: bool,
    /// In this turn of the recording thread, entries were written, and a row of times.
    pub has_grown: bool,
    is_noted: bool,
    /// A turn wrote entries and no row.
    pub is_missing: bool,
}

impl Times {
    pub fn new(alloc: Global) -> Times {
        Times {
            files: Vec::new(alloc),
            has_failed: false,
            has_grown: false,
            is_noted: false,
            is_missing: false,
        }
    }

    /// Begins the times of a file.
    pub fn make(&mut self, alloc: Global, number: usize) -> Result<(), ErrorKind> {
        for _ in self.files.len()..number.saturating_add(1) {
            let made = self.files.push(Vec::new(alloc));
            made.map_err(|_| ErrorKind::OutOfMemory)?;
        }
        if let Some(file) = self.files.get_mut(number) {
            file.clear();
        }
        self.has_failed = false;
        Ok(())
    }

    pub fn store(&mut self, number: usize, bytes: &[u8]) -> Result<(), ErrorKind> {
        let file = self.files.get_mut(number).ok_or(ErrorKind::Other)?;
        self.is_noted = true;
        file.extend_from_slice(bytes)
            .map_err(|_| ErrorKind::OutOfMemory)
    }

    /// Ends a turn of the recording thread. The turn may lack a row if it failed, or if the recording is not a plain
    /// file.
    pub fn end_turn(&mut self, may_miss: bool) {
        let is_untimed = self.has_grown && !self.is_noted;
        self.is_missing = self.is_missing || (is_untimed && !may_miss && !self.has_failed);
        self.has_grown = false;
        self.is_noted = false;
    }

    /// Fails unless the times fit a file with these positions.
    pub fn judge(&self, number: usize, first: u64, end: u64) -> Result<(), Wrong> {
        match self.files.get(number) {
            Some(bytes) if !bytes.is_empty() => {
                let rows = bytes.strip_prefix(&TIMES_HEADER);
                judge_rows(rows.ok_or("times have another header")?, first, end)
            }
            _ => Ok(()),
        }
    }
}

fn number(bytes: &[u8]) -> u64 {
    let bytes = bytes.iter();
    bytes.fold(0, |number, byte| (number << 8) | u64::from(*byte))
}

/// Fails unless the rows fit a file with these positions. A row has a position of the log, and the time at which all
/// entries before it were written. If it has the position of the row before it, it says that the daemon is alive.
fn judge_rows(rows: &[u8], first: u64, end: u64) -> Result<(), Wrong> {
    expect(rows.len() % ROW_LENGTH == 0, "times end within a row")?;
    let mut before: Option<(u64, u64)> = None;
    for row in rows.chunks(ROW_LENGTH) {
        let (place, time) = row.split_at(8.min(row.len()));
        let (place, time) = (number(place), number(time));
        match before {
            None if place != first => return Err("times begin at another place"),
            None => {}
            Some((END, _)) => return Err("times go on behind the end"),
            Some(before) if place < before.0 || time < before.1 => return Err("times go back"),
            Some(before) if place == before.0 && time.saturating_sub(before.1) < ALIVE_US => {
                return Err("a row for nothing");
            }
            Some(_) => {}
        }
        expect(
            place <= end || place == END,
            "times go beyond the recording",
        )?;
        before = Some((place, time));
    }
    Ok(())
}
