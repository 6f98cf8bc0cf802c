//! The file of a recording as the host creates it, and the texts that an operator reads.
use portmap_core::Fate;
use portmap_operator::{
    Host, LocalRequest, Notice, Outcome, RecordFile, Refused, RemoteRefused, Slots,
};
use portmap_testing::bytes::{ALIVE_A, ALIVE_B, DUMP, FOURTH, KILL, NOT_FOUND, PORT_A, STOP_A};
use portmap_testing::entries::{SampleEntry, entry};
use std::alloc::Global;
use std::fs;
use std::fs::{File, Files, Permissions};
use std::io::Write;
use std::os::unix::fs::{MetadataExt, PermissionsExt, symlink};
use std::test::Fail;

/// A user that is not root.
const NOBODY: u32 = 65_534;

/// Returns true if the file has these bytes, and only its owner may read and write it.
fn is_private(rt: &HostRuntime, path: &str, bytes: &[u8]) -> Result<bool, Fail> {
    let mode = fs::metadata(rt, path)?.mode() % 0o1000;
    Ok(mode == 0o600 && fs::read(rt, path)?.as_slice() == bytes)
}

/// Creates a file with these bytes that everybody may read.
fn write_public(rt: &HostRuntime, path: &str, bytes: &[u8]) -> Result<(), Fail> {
    fs::write(rt, path, bytes)?;
    fs::set_permissions(rt, path, Permissions::from_mode(0o644))?;
    Ok(())
}

/// Creates the file by the host and writes to it. Returns true if it has only these bytes and is private. The file is
/// removed.
fn records_to(rt: &HostRuntime, path: &str) -> Result<bool, Fail> {
    let mut file: File = rt.make(path)?;
    file.write_all(b"new")?;
    let is_so = is_private(rt, path, b"new")?;
    fs::remove_file(rt, path)?;
    Ok(is_so)
}

#[test]
fn a_file_that_is_made_is_its_owners(rt: HostRuntime) -> Result<(), Fail> {
    assert!(rt; records_to(&rt, "made")?);
    Ok(())
}

#[test]
fn a_file_that_is_there_is_emptied_and_is_its_owners(rt: HostRuntime) -> Result<(), Fail> {
    write_public(&rt, "public", b"what it held")?;
    assert!(rt; records_to(&rt, "public")?);
    Ok(())
}

/// Returns true if the host refuses a link to a file, and a dangling link, and leaves the file unchanged.
fn refuses_links(rt: &HostRuntime) -> Result<bool, Fail> {
    fs::write(rt, "target", b"kept")?;
    symlink(rt, "target", "link")?;
    symlink(rt, "none", "dangling")?;
    let are_refused = rt.make("link").is_err() && rt.make("dangling").is_err();
    let is_kept = fs::read(rt, "target")?.as_slice() == b"kept".as_slice();
    let is_so = are_refused && is_kept && !fs::exists(rt, "none")?;
    for path in ["target", "link", "dangling"] {
        fs::remove_file(rt, path)?;
    }
    Ok(is_so)
}

#[test]
fn a_link_is_not_followed(rt: HostRuntime) -> Result<(), Fail> {
    assert!(rt; refuses_links(&rt)?);
    Ok(())
}

/// Returns true if a file of another user is refused and unchanged.
fn refuses_others(rt: &HostRuntime) -> Result<bool, Fail> {
    fs::write(rt, "others", b"kept")?;
    let user = fs::metadata(rt, "others")?.uid();
    // Only root may change the owner of a file. The test is skipped if the test's user is the other user.
    let _ = rt.chown("others", Some(NOBODY), None);
    if fs::metadata(rt, "others")?.uid() == user {
        fs::remove_file(rt, "others")?;
        return Ok(true);
    }
    let is_refused = rt.make("others").is_err();
    let is_kept = fs::read(rt, "others")?.as_slice() == b"kept".as_slice();
    fs::remove_file(rt, "others")?;
    Ok(is_refused && is_kept)
}

#[test]
fn a_file_of_another_user_is_refused(rt: HostRuntime) -> Result<(), Fail> {
    assert!(rt; refuses_others(&rt)?);
    Ok(())
}

/// A device is written to. Its mode does not change, and it is not a plain file.
#[test]
fn a_device_is_taken_as_it_is(rt: HostRuntime) -> Result<(), Fail> {
    let before = fs::metadata(&rt, "/dev/null")?.mode();
    assert!(rt; !rt.make("/dev/null")?.is_plain());
    assert_eq!(rt; fs::metadata(&rt, "/dev/null")?.mode(), before);
    Ok(())
}

/// Returns true if a plain file that is truncated has only the first bytes of its text. The file is removed.
fn is_cut(rt: &HostRuntime, path: &str) -> Result<bool, Fail> {
    let mut file: File = rt.make(path)?;
    file.write_all(b"whole half")?;
    file.cut(5);
    let is_so = file.is_plain() && fs::read(rt, path)?.as_slice() == b"whole".as_slice();
    fs::remove_file(rt, path)?;
    Ok(is_so)
}

#[test]
fn a_plain_file_is_cut(rt: HostRuntime) -> Result<(), Fail> {
    assert!(rt; is_cut(&rt, "cut")?);
    Ok(())
}

/// The lines of the notices below.
const NOTICE_LINES: &str = "\
epmd: cannot accept connections
epmd: memory is short, 1200 requests were refused
epmd: 3 connections that did not read their replies were reset
epmd: recording failed: /var/session: No space left on device
epmd: recording again: /var/session.12
epmd: cannot write the counters: /var/session: No space left on device
epmd: at most 990 connections, since the limit of descriptors is 1024
";

#[test]
fn an_operator_reads_a_line_of_each_kind(rt: HostRuntime) -> Result<(), Fail> {
    let alloc = rt.alloc();
    let (path, reason) = ("/var/session", b"No space left on device");
    let notices = [
        Notice::CannotAccept,
        Notice::ShortOfMemory(1200),
        Notice::Unread(3),
        Notice::RecordingFailed {
            path,
            number: 0,
            reason,
        },
        Notice::RecordingAgain { path, number: 12 },
        Notice::FiguresLost { path, reason },
        Notice::FewerPlaces {
            places: 990,
            limit: 1024,
        },
    ];
    let mut lines = Vec::new(alloc);
    for notice in &notices {
        notice.put(&mut lines)?;
    }
    assert_eq!(rt; lines.as_slice(), NOTICE_LINES.as_bytes());
    Ok(())
}

/// The path is the longest that the system takes, and the reason the longest text of a fault.
#[test]
fn the_longest_line_needs_no_memory_but_its_room(rt: HostRuntime) -> Result<(), Fail> {
    let alloc = rt.alloc();
    let mut line = Vec::with_capacity(alloc, 4261)?;
    let room = line.capacity();
    let path = "x".repeat(alloc, 4095)?;
    let reason = [b'x'; 128];
    let longest = Notice::RecordingFailed {
        path: path.as_str(),
        number: u32::MAX,
        reason: &reason,
    };
    longest.put(&mut line)?;
    assert_eq!(rt; (line.len(), line.capacity()), (4261, room));
    Ok(())
}

/// A long and a short reply that the name is in use, and a reply that there is no room for it.
const IN_USE: &[u8] = &[0x76, 0x01, 0x00, 0x00, 0x00, 0x00];

const IN_USE_SHORT: &[u8] = &[0x79, 0x01, 0x00, 0x00];

const NO_ROOM: &[u8] = &[0x76, 0x02, 0x00, 0x00, 0x00, 0x00];

/// None of these is a name that is in use.
const OTHERS: &[SampleEntry] = &[
    SampleEntry::Connected(true, 0),
    SampleEntry::Piece(0, PORT_A, NOT_FOUND, Fate::Close),
    SampleEntry::Piece(1, ALIVE_A, FOURTH, Fate::Stay),
    SampleEntry::Piece(2, ALIVE_B, NO_ROOM, Fate::Close),
];

/// The end of a registration, and two complete registrations.
const REFUSED: &[SampleEntry] = &[
    SampleEntry::Piece(3, b"c\0\0", IN_USE, Fate::Close),
    SampleEntry::Piece(4, ALIVE_A, IN_USE_SHORT, Fate::Close),
    SampleEntry::Piece(5, ALIVE_B, IN_USE, Fate::Close),
];

/// Returns true if `count` of these entries are counted, and the text is this line.
fn prints(alloc: Global, entries: &[SampleEntry], count: u64, line: &[u8]) -> Result<bool, Fail> {
    let mut slots = Slots::new(alloc, 6)?;
    let mut refused = Refused::new();
    for kept in entries {
        let entry = entry(alloc, kept)?;
        let (outcome, _) = slots.note(alloc, &entry);
        refused.note(alloc, outcome, &entry);
    }
    let mut text = Vec::new(alloc);
    refused.put(&mut text)?;
    Ok(refused.count() == count && text.as_slice() == line)
}

#[test]
fn an_operator_reads_of_names_that_are_in_use(rt: HostRuntime) -> Result<(), Fail> {
    let alloc = rt.alloc();
    let unknown = &REFUSED[..1];
    assert!(rt; prints(alloc, OTHERS, 0, b"epmd: a name is in use\n")?);
    assert!(rt; prints(alloc, unknown, 1, b"epmd: a name is in use\n")?);
    assert!(rt; prints(alloc, &REFUSED[1..2], 1, b"epmd: name a is in use\n")?);
    assert!(rt; prints(alloc, REFUSED, 3, b"epmd: name a is in use, and 2 more\n")?);
    Ok(())
}

/// No refused request that only this host may make: a request with a reply, one that the connection outlives, an
/// incomplete request, a look-up, a timeout, and a chunk on a slot that is not known.
const UNCOUNTED: &[SampleEntry] = &[
    SampleEntry::Piece(3, DUMP, b"dump", Fate::Close),
    SampleEntry::Piece(3, DUMP, b"", Fate::Stay),
    SampleEntry::Piece(3, b"\0", b"", Fate::Close),
    SampleEntry::Piece(3, PORT_A, b"", Fate::Close),
    SampleEntry::Late(3, Fate::Close),
    SampleEntry::Piece(7, DUMP, b"", Fate::Close),
];

/// Each of these is a refused request if the peer is remote.
const COUNTED: &[SampleEntry] = &[
    SampleEntry::Piece(3, STOP_A, b"", Fate::Close),
    SampleEntry::Piece(3, KILL, b"", Fate::Close),
    SampleEntry::Piece(3, DUMP, b"", Fate::Close),
    SampleEntry::Piece(3, ALIVE_A, b"", Fate::Close),
];

/// A remote peer that has its reply sends more. The chunk after its end has no connection.
const ANSWERED: &[SampleEntry] = &[
    SampleEntry::Connected(false, 3),
    SampleEntry::Piece(3, PORT_A, NOT_FOUND, Fate::Close),
    SampleEntry::Piece(3, DUMP, b"", Fate::Close),
    SampleEntry::Closed(3),
    SampleEntry::Piece(3, DUMP, b"", Fate::Close),
    SampleEntry::Connected(false, 3),
    SampleEntry::Faulted(3),
    SampleEntry::Piece(3, DUMP, b"", Fate::Close),
];

/// Applies these entries of a log with five slots. Returns the outcome of the last.
fn note_all(
    alloc: Global,
    refused: &mut RemoteRefused,
    slots: &mut Slots,
    entries: &[SampleEntry],
) -> Result<Outcome, Fail> {
    let mut last = Outcome::Nothing;
    for kept in entries {
        let (outcome, asked) = slots.note(alloc, &entry(alloc, kept)?);
        if let Some(asked) = asked {
            refused.note(asked);
        }
        last = outcome;
    }
    Ok(last)
}

/// Applies these entries, each with a connection of its own to slot 3. Returns how many were refused to a remote peer.
fn note_each(
    alloc: Global,
    refused: &mut RemoteRefused,
    is_local: bool,
    entries: &[SampleEntry],
) -> Result<usize, Fail> {
    let mut slots = Slots::new(alloc, 5)?;
    let mut count = 0usize;
    for kept in entries {
        let each = [SampleEntry::Connected(is_local, 3), *kept];
        if note_all(alloc, refused, &mut slots, &each)? == Outcome::Remote {
            count = count.saturating_add(1);
        }
    }
    Ok(count)
}

#[test]
fn an_operator_reads_of_other_hosts(rt: HostRuntime) -> Result<(), Fail> {
    let alloc = rt.alloc();
    let mut refused = RemoteRefused::new();
    assert_eq!(rt; note_each(alloc, &mut refused, false, UNCOUNTED)?, 0);
    assert_eq!(rt; note_each(alloc, &mut refused, true, COUNTED)?, 0);
    note_all(alloc, &mut refused, &mut Slots::new(alloc, 5)?, ANSWERED)?;
    assert_eq!(rt; refused.count(), 0);
    assert_eq!(rt; note_each(alloc, &mut refused, false, COUNTED)?, 4);
    assert_eq!(rt;
        (refused.count(), refused.first()),
        (4, Some(LocalRequest::Stop))
    );
    let mut line = Vec::new(alloc);
    refused.put(&mut line)?;
    assert_eq!(rt;
        line.as_slice(),
        b"epmd: a STOP from another host was refused, and 3 more\n".as_slice()
    );
    Ok(())
}
