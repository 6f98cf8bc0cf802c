//! Notices, which an operator reads while the daemon runs.
ghost use Rattle.std.specs.Prelude.{◌≡◌, ◌++◌, IfOk, OnOk, codes};
ghost use Rattle.std.specs.Fmt.{decimal};
ghost use Rattle.std.specs.String.{string_bytes};
ghost use Rattle.portmap_operator.specs.Notices.{file_path, notice_line};

use crate::refused::Refused;
use crate::remote::RemoteRefused;
use itoa::Buffer;
use portmap_core::NoMemory;
use std::alloc::Global;

/// A notice to the operator.
#[derive(Drop)]
pub enum Notice<'a> {
    /// A connection waits that can't be accepted, for lack of descriptors or memory.
    CannotAccept,
    /// Registrations were refused since their names are in use.
    InUse(Refused),
    /// Requests of remote peers were refused that only this host may make.
    Remote(RemoteRefused),
    /// This many requests were refused since memory is short.
    ShortOfMemory(u64),
    /// This many connections were reset, since too many bytes wait for peers that do not read.
    Unread(u64),
    /// The file with this number of the recording at this path has failed.
    RecordingFailed {
        path: &'a str,
        number: u32,
        reason: &'a [u8],
    },
    /// The recording continues in the file with this number.
    RecordingAgain {
        path: &'a str,
        number: u32,
    },
    /// The counters cannot be written to the file at this path.
    FiguresLost {
        path: &'a str,
        reason: &'a [u8],
    },
    /// The daemon has only `places` permits, since the limit of descriptors is low.
    FewerPlaces {
        places: u64,
        limit: u64,
    },
}

const CANNOT_ACCEPT: &[u8] = b"epmd: cannot accept connections\n";

// ---- the ends of lines, after their details

const SHORT_BEHIND: &[u8] = b" requests were refused\n";

const UNREAD_BEHIND: &[u8] = b" connections that did not read their replies were reset\n";

const PLACES_BEHIND: &[u8] = b" connections, since the limit of descriptors is ";

/// Returns the path of a file of a recording: a dot and its number follow the path, except for file 0.
pub fn path_of(alloc: Global, path: &str, number: u32) -> Result<String, NoMemory>
    ensures { IfOk result (λ text. string_bytes text ≡ file_path path.now number) }
{
    let mut text = String::from_str(alloc, path)?;
    if number > 0 {
        text.push_str(".")?;
        text.push_str(Buffer::new().format(number))?;
    }
    Ok(text)
}

fn put_file(
    line: &mut Vec<u8>,
    text: &[u8],
    path: &str,
    number: u32,
    behind: &[u8],
) -> Result<(), NoMemory>
    ensures { OnOk result
        (line.new.items ≡ line.old.items ++ text.now ++ file_path path.now number ++ behind.now) }
{
    line.extend_from_slice(text)?;
    line.extend_from_slice(path.as_bytes())?;
    if number > 0 {
        line.extend_from_slice(b".")?;
        line.extend_from_slice(Buffer::new().format(number).as_bytes())?;
    }
    line.extend_from_slice(behind)
}

fn put_fault(
    line: &mut Vec<u8>,
    text: &[u8],
    path: &str,
    number: u32,
    reason: &[u8],
) -> Result<(), NoMemory>
    ensures { OnOk result (line.new.items ≡ line.old.items
        ++ text.now ++ file_path path.now number ++ codes ": " ++ reason.now ++ codes "\n") }
{
    put_file(line, text, path, number, b": ")?;
    line.extend_from_slice(reason)?;
    line.extend_from_slice(b"\n")
}

fn put_count(line: &mut Vec<u8>, text: &[u8], count: u64, behind: &[u8]) -> Result<(), NoMemory>
    ensures { OnOk result (line.new.items ≡ line.old.items ++ text.now ++ decimal count ++ behind.now) }
{
    line.extend_from_slice(text)?;
    line.extend_from_slice(Buffer::new().format(count).as_bytes())?;
    line.extend_from_slice(behind)
}

impl Notice<'_> {
    /// Appends the line of the notice. This needs no memory if there is room. A line has 4,261 bytes at most, if paths
    /// have 4,095 and reasons 128. The line of a name of 1,020 bytes has 4,133.
    pub fn put(&self, line: &mut Vec<u8>) -> Result<(), NoMemory>
        ensures { OnOk result (line.new.items ≡ line.old.items ++ notice_line self.now) }
    {
        match self {
            Notice::CannotAccept => line.extend_from_slice(CANNOT_ACCEPT),
            Notice::InUse(refused) => refused.put(line),
            Notice::Remote(refused) => refused.put(line),
            Notice::ShortOfMemory(count) => {
                put_count(line, b"epmd: memory is short, ", *count, SHORT_BEHIND)
            }
            Notice::Unread(count) => put_count(line, b"epmd: ", *count, UNREAD_BEHIND),
            Notice::RecordingFailed {
                path,
                number,
                reason,
            } => put_fault(line, b"epmd: recording failed: ", path, *number, reason),
            Notice::RecordingAgain { path, number } => {
                put_file(line, b"epmd: recording again: ", path, *number, b"\n")
            }
            Notice::FiguresLost { path, reason } => {
                put_fault(line, b"epmd: cannot write the counters: ", path, 0, reason)
            }
            Notice::FewerPlaces { places, limit } => {
                put_count(line, b"epmd: at most ", *places, PLACES_BEHIND)?;
                put_count(line, b"", *limit, b"\n")
            }
        }
    }
}
