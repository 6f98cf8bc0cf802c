//! Checks of a daemon that has ended.
use crate::checks::{Wrong, expect};
use crate::world::World;
use portmap_core::{Entry, Fate};
use portmap_operator::LocalRequest;
use portmap_record::{Record, RecordFault, Version, check, read_record};
use std::alloc::Global;

/// A full file grows for at most two seconds. This many bytes are more than what arrives then, even with every permit
/// in use.
const BEHIND_BYTES: u64 = 36_000;

/// The beginning of a reply that refuses a name in use.
const IN_USE: &[u8] = b"v\x01";

/// What the log has of a connection: the number of the bytes that were read, and the replies.
#[derive(Drop)]
struct Logged {
    asked: usize,
    replies: Vec<u8>,
}

/// The chunks and replies in the log, by connection.
struct Replies {
    alloc: Global,
    slots: Vec<Option<usize>>,
    by_connection: Vec<Logged>,
    opened: usize,
    /// The number of registrations of names in use.
    in_use: u64,
    remote: Vec<LocalRequest>,
}

impl Drop for Replies {
    fn drop(self) {
        let Replies {
            alloc: _,
            slots: _,
            by_connection: _,
            opened: _,
            in_use: _,
            remote: _,
        } = self;
    }
}

/// Returns which request these bytes are, if only this host may send it.
fn local_request(bytes: &[u8]) -> Option<LocalRequest> {
    let [high, low, tag, ..] = *bytes else {
        return None;
    };
    let size = usize::from(u16::from_be_bytes([high, low])).saturating_add(2);
    match tag {
        _ if size != bytes.len() => None,
        b'x' => Some(LocalRequest::Registration),
        b'd' => Some(LocalRequest::Dump),
        b'k' => Some(LocalRequest::Kill),
        b's' => Some(LocalRequest::Stop),
        _ => None,
    }
}

impl Replies {
    fn new(alloc: Global) -> Replies {
        Replies {
            alloc,
            slots: Vec::new(alloc),
            by_connection: Vec::new(alloc),
            opened: 0,
            in_use: 0,
            remote: Vec::new(alloc),
        }
    }

    fn assign(&mut self, slot: u64, number: Option<usize>) -> Option<()> {
        for _ in self.slots.len()..(slot as usize).saturating_add(1) {
            self.slots.push(None).ok()?;
        }
        *self.slots.get_mut(slot as usize)? = number;
        Some(())
    }

    fn add(&mut self, number: usize, bytes: &[u8], reply: &[u8]) -> Option<()> {
        for _ in self.by_connection.len()..number.saturating_add(1) {
            let logged = Logged {
                asked: 0,
                replies: Vec::new(self.alloc),
            };
            self.by_connection.push(logged).ok()?;
        }
        let logged = self.by_connection.get_mut(number)?;
        logged.asked = logged.asked.saturating_add(bytes.len());
        logged.replies.extend_from_slice(reply).ok()
    }

    /// Notes a connection that was closed without a reply because of a request that only this host may send.
    fn on_refused(&mut self, world: &World, number: usize, bytes: &[u8]) -> Option<()> {
        let is_local = world.network.wires.get(number)?.is_local;
        match local_request(bytes) {
            Some(asked) if !is_local => self.remote.push(asked).ok(),
            _ => Some(()),
        }
    }

    /// Notes an entry. `opened` lists the connections in the order in which the desk opened them.
    fn note(&mut self, world: &World, opened: &[usize], entry: &Entry) -> Option<()> {
        match entry {
            Entry::Connected { local: _, slot } => {
                let number = opened.get(self.opened).copied();
                self.opened = self.opened.saturating_add(1);
                self.assign(*slot, number)
            }
            Entry::Piece {
                slot,
                bytes,
                reply,
                fate,
            } => {
                if reply.starts_with(IN_USE) {
                    self.in_use = self.in_use.saturating_add(1);
                }
                let Some(Some(number)) = self.slots.get(*slot as usize).copied() else {
                    return Some(());
                };
                if reply.is_empty() && *fate == Fate::Close {
                    self.on_refused(world, number, bytes)?;
                }
                self.add(number, bytes, reply)
            }
            Entry::Closed { slot } | Entry::Faulted { slot } => self.assign(*slot, None),
            Entry::Late { .. } => Some(()),
        }
    }

    /// Fails unless the notices cover all refused requests of other hosts. Each notice names the first request that it
    /// counts.
    fn judge_remote(&self, world: &World) -> Result<(), Wrong> {
        let mut place = 0usize;
        for seen in &world.refusals {
            let is_first = seen.first == self.remote.get(place).copied();
            expect(
                is_first,
                "the operator is told of another request of another host",
            )?;
            place = place.saturating_add(seen.count as usize);
        }
        let are_all = place == self.remote.len() || !world.clock.has_rested;
        let are_told = are_all && place <= self.remote.len();
        expect(
            are_told,
            "the operator is told of other requests of other hosts",
        )
    }

    /// Fails unless each peer received a prefix of its replies, and all of them if the daemon closed the connection
    /// well. The log has no byte that was read after a reply.
    fn judge_peers(&self, world: &World, opened: &[usize]) -> Result<(), Wrong> {
        let are_opened = self.opened == opened.len();
        expect(are_opened, "connections are missing in the recording")?;
        for (number, wire) in world.network.wires.iter().enumerate() {
            let logged = self.by_connection.get(number);
            let asked = logged.map_or(0, |logged| logged.asked);
            expect(
                asked <= wire.daemon.asked,
                "bytes behind a reply are recorded",
            )?;
            let delivered: &[u8] = logged.map_or(&[], |logged| logged.replies.as_slice());
            let is_prefix = delivered.starts_with(&wire.received);
            expect(is_prefix, "a peer has what it was not told")?;
            let has = wire.received.len().saturating_add(wire.down.len());
            let has_all = has >= delivered.len() || !wire.is_ended_well;
            expect(has_all, "a peer lacks what it was told")?;
        }
        Ok(())
    }
}

/// The position at which the next file begins, and the number of gaps that failures explain.
#[derive(Drop)]
struct Expected {
    place: u64,
    gaps: u32,
}

impl Expected {
    fn new(world: &World) -> Expected {
        Expected {
            place: 0,
            gaps: world.notices.failures,
        }
    }
}

/// Fails unless a file is a run that begins at the expected position, or later after an explained gap.
fn judge_record(alloc: Global, record: &Record, next: &mut Expected) -> Result<(), Wrong> {
    expect(check(alloc, record).is_ok(), "a file is no run")?;
    let first = match &record.version {
        Version::One => 0,
        Version::Two { first, .. } => *first,
    };
    expect(first >= next.place, "entries are recorded twice")?;
    if first > next.place {
        let may_lack = next.gaps > 0;
        expect(
            may_lack,
            "a file does not begin where the one before it ended",
        )?;
        next.gaps = next.gaps.saturating_sub(1);
    }
    next.place = first.saturating_add(record.entries.len() as u64);
    Ok(())
}

/// Reads a file as a run that follows the files before it. Returns `None` for a truncated file without a complete
/// preamble.
fn read_file(
    alloc: Global,
    file: &[u8],
    next: &mut Expected,
    is_cut: bool,
) -> Result<Option<Record>, Wrong> {
    let read = match read_record(alloc, file) {
        Err(RecordFault::Truncated(0)) if is_cut => return Ok(None),
        Err(RecordFault::Truncated(place)) if is_cut => {
            read_record(alloc, file.get(..place).unwrap_or_default())
        }
        read => read,
    };
    let record = read.map_err(|_| "a file is no record")?;
    judge_record(alloc, &record, next)?;
    Ok(Some(record))
}

/// Fails unless the files of a kill are readable. The last file is truncated at a random offset, since the last writes
/// may be lost.
fn judge_killed(alloc: Global, world: &mut World) -> Result<(), Wrong> {
    let mut next = Expected::new(world);
    let count = world.disk.killed.len();
    for (number, file) in world.disk.killed.iter().enumerate() {
        let is_last = number.saturating_add(1) == count;
        if file.is_empty() {
            continue;
        }
        let size = if is_last {
            let most = (file.len() as u64).saturating_add(1);
            world.weather.random.below(most) as usize
        } else {
            file.len()
        };
        let kept = file.get(..size).unwrap_or_default();
        read_file(alloc, kept, &mut next, is_last)?;
    }
    Ok(())
}

/// Fails unless each file ends only once it has `most` bytes, and soon after that. Only plain files are ever full.
fn judge_sizes(world: &World, most: u64) -> Result<(), Wrong> {
    let Some((_, ended)) = world.disk.files.split_last() else {
        return Ok(());
    };
    let room = most.saturating_add(BEHIND_BYTES);
    let mut files = world.disk.files.iter();
    let unfilled = ended.iter().filter(|file| (file.len() as u64) < most);
    if !world.scenario.is_plain && !ended.is_empty() {
        Err("a file follows what is no file")
    } else if unfilled.count() > world.notices.failures as usize {
        Err("a file ends that is not full")
    } else if world.disk.times.is_missing {
        Err("entries are written that have no time")
    } else if world.disk.is_misnumbered {
        Err("a file is made anew that has a start, or a number is left out")
    } else if world.scenario.is_plain && files.any(|file| file.len() as u64 > room) {
        Err("a file goes on that is full")
    } else {
        Ok(())
    }
}

/// Fails unless the truncated file has exactly the complete entries that the disk took.
fn judge_cut(alloc: Global, world: &World) -> Result<(), Wrong> {
    let Some((number, uncut)) = &world.disk.uncut else {
        return Ok(());
    };
    let whole = match read_record(alloc, uncut) {
        Err(RecordFault::Truncated(place)) => place,
        _ => uncut.len(),
    };
    let left = world.disk.files.get(*number);
    let is_cut = left.is_none_or(|left| left.len() == whole);
    expect(is_cut, "a file is not cut behind what the disk took whole")
}

/// Fails unless the files have all acts of the log, and peers and the operator received what the log says. `opened`
/// lists the connections in the order in which the desk opened them.
fn judge_log(alloc: Global, world: &World, opened: &[usize], acts: u64) -> Result<(), Wrong> {
    let has_failed = world.notices.failures > 0;
    let mut next = Expected::new(world);
    let mut replies = Replies::new(alloc);
    for (number, file) in world.disk.files.iter().enumerate() {
        if has_failed && file.is_empty() {
            continue;
        }
        let record = read_file(alloc, file, &mut next, false)?;
        let Some(record) = record.filter(|_| !has_failed) else {
            continue;
        };
        let (end, entries) = (next.place, record.entries.len() as u64);
        let first = end.saturating_sub(entries);
        world.disk.times.judge(number, first, end)?;
        for entry in &record.entries {
            let noted = replies.note(world, opened, entry);
            noted.ok_or("there is no memory to judge it")?;
        }
    }
    let may_lack = has_failed && (world.is_disk_full() || !world.clock.has_rested);
    let has_all = next.place == acts || (next.place < acts && may_lack);
    expect(has_all, "acts are missing in the recording")?;
    if has_failed {
        return Ok(());
    }
    let are_refused = world.notices.in_use() <= replies.in_use;
    expect(
        are_refused,
        "the operator is told of names that were not refused",
    )?;
    replies.judge_remote(world)?;
    replies.judge_peers(world, opened)
}

/// Runs all checks. A file with `most` bytes is full.
pub fn judge(
    alloc: Global,
    world: &mut World,
    opened: &[usize],
    acts: u64,
    most: u64,
) -> Result<(), Wrong> {
    world.notices.judge(world.now)?;
    judge_killed(alloc, world)?;
    judge_sizes(world, most)?;
    judge_cut(alloc, world)?;
    judge_log(alloc, world, opened, acts)
}
