//! The disk of a world: the files of a recording and of its times.
ghost use Rattle.std.specs.Prelude.{◌≤◌, IfOk, length};

use crate::times::Times;
use crate::weather::Fault;
use crate::world::World;
use std::alloc::Global;
use std::io::ErrorKind;

/// The path of the first file.
pub const PATH: &str = "recording";

/// A disk. Times are in microseconds.
pub struct Disk {
    alloc: Global,
    pub files: Vec<Vec<u8>>,
    pub times: Times,
    /// The files at the moment of a kill.
    pub killed: Vec<Vec<u8>>,
    /// The file that was truncated last, with its bytes before that.
    pub uncut: Option<(usize, Vec<u8>)>,
    /// A file with bytes was made again, or a number was skipped.
    pub is_misnumbered: bool,
    /// The disk is full before this time. The recording thread stalls before `stalled_until`.
    pub full_until: u64,
    pub stalled_until: u64,
}

impl Drop for Disk {
    fn drop(self) {
        let Disk {
            alloc: _,
            files: _,
            times: _,
            killed: _,
            uncut: _,
            is_misnumbered: _,
            full_until: _,
            stalled_until: _,
        } = self;
    }
}

/// Returns the number of a recording file from its path.
fn number_of(path: &str) -> Result<usize, ErrorKind> {
    let number = match path.strip_prefix(PATH) {
        Some("") => Some(0),
        Some(behind) => behind
            .strip_prefix(".")
            .and_then(|number| number.parse::<usize>().ok()),
        None => None,
    };
    number.ok_or(ErrorKind::InvalidInput)
}

impl Disk {
    pub fn new(alloc: Global) -> Disk {
        Disk {
            alloc,
            files: Vec::new(alloc),
            times: Times::new(alloc),
            killed: Vec::new(alloc),
            uncut: None,
            is_misnumbered: false,
            full_until: 0,
            stalled_until: 0,
        }
    }
}

impl World {
    /// Makes an empty file, unless the disk is full. Returns its number.
    pub fn make(&mut self, path: &str) -> Result<usize, ErrorKind> {
        if self.is_disk_full() && self.weather.random.happens(500) {
            self.notices.note_write_failed(self.now);
            return Err(ErrorKind::StorageFull);
        }
        let number = number_of(path)?;
        let disk = &mut self.disk;
        if number == disk.files.len() {
            let made = disk.files.push(Vec::new(disk.alloc));
            made.map_err(|_| ErrorKind::OutOfMemory)?;
        }
        let is_empty = disk.files.get(number).is_some_and(|file| file.is_empty());
        let is_last = number.saturating_add(1) == disk.files.len();
        disk.is_misnumbered = disk.is_misnumbered || !is_empty || !is_last;
        disk.uncut = None;
        self.notices.is_made = true;
        Ok(number)
    }

    /// Fails if the disk takes no times now.
    fn try_times(&mut self) -> Result<(), ErrorKind> {
        if self.is_disk_full() || self.happens(Fault::Timeless) {
            self.disk.times.has_failed = true;
            return Err(ErrorKind::StorageFull);
        }
        Ok(())
    }

    /// Makes the empty file of times beside the file at this path. Returns the number of that file.
    pub fn make_times(&mut self, path: &str) -> Result<usize, ErrorKind> {
        let number = number_of(path)?;
        self.disk.times.make(self.disk.alloc, number)?;
        self.try_times()?;
        Ok(number)
    }

    pub fn store_times(&mut self, number: usize, bytes: &[u8]) -> Result<usize, ErrorKind>
        ensures { IfOk result (λ n. n ≤ length bytes.now) }
    {
        self.try_times()?;
        self.disk.times.store(number, bytes)?;
        Ok(bytes.len())
    }

    /// Notes the end of a turn of the recording thread.
    pub fn note_written(&mut self, has_failed: bool) {
        let may_miss = has_failed || !self.scenario.is_plain;
        self.disk.times.end_turn(may_miss);
        self.notices.note_written(self.now, has_failed);
    }

    /// Returns how many of `size` bytes the disk takes.
    fn taken(&mut self, size: usize) -> usize
        ensures { result ≤ size }
    {
        if self.happens(Fault::Full) {
            self.disk.full_until = self.now.saturating_add(self.scenario.full_us);
            // The disk takes a part, and is full then.
            (self.weather.random.below(size as u64) as usize).min(size)
        } else if self.happens(Fault::Short) {
            size.min(1)
        } else {
            size
        }
    }

    /// Appends to a file as many bytes as the disk takes.
    pub fn store(&mut self, number: usize, bytes: &[u8]) -> Result<usize, ErrorKind>
        ensures { IfOk result (λ n. n ≤ length bytes.now) }
    {
        self.fail_by(Fault::Interrupted, ErrorKind::Interrupted)?;
        if self.is_disk_full() {
            self.notices.note_write_failed(self.now);
            return Err(ErrorKind::StorageFull);
        }
        let count = self.taken(bytes.len());
        if count == 0 {
            // The recording treats a write of 0 bytes as a fault.
            self.notices.note_write_failed(self.now);
        }
        self.disk.times.has_grown = true;
        let file = self.disk.files.get_mut(number).ok_or(ErrorKind::Other)?;
        let stored = file.extend_from_slice(&bytes[..count]);
        stored.map_err(|_| ErrorKind::OutOfMemory)?;
        Ok(count)
    }

    /// Truncates a file, or its file of times.
    pub fn cut(&mut self, number: usize, size: usize, is_of_times: bool) {
        let disk = &mut self.disk;
        if is_of_times {
            if let Some(file) = disk.times.files.get_mut(number) {
                file.truncate(size);
            }
        } else if let Some(file) = disk.files.get_mut(number) {
            match file.clone() {
                Ok(uncut) => disk.uncut = Some((number, uncut)),
                Err(_) => self.memory.is_lost = true,
            }
            file.truncate(size);
        }
    }
}
