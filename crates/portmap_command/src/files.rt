//! The files of a command: which of them cannot be used, and why.
use crate::actions::FAILED;
use crate::errors::{name_file, say_reason};
use crate::words::Command;
use portmap_daemon::try_make;
use portmap_link::{NoMemory, Writing};
use std::alloc::Global;
use std::fs::{metadata, symlink_metadata};
use std::io;
use std::io::Write;
use std::os::unix::fs::MetadataExt;

/// What is printed if the file for counters is a link, a device, a pipe or a folder.
const NOT_PLAIN: &[u8] = b"what is there is not a plain file";

const RECORDED_TO: &[u8] = b"the recording and the counters need a file each";

/// Returns the system's text for an error, such as "Permission denied".
pub(crate) fn reason_of(alloc: Global, error: &io::Error) -> Result<String, NoMemory> {
    let text = format!(in alloc; "{error}")?;
    match text.as_str().split_once(" (os error ") {
        Some((reason, _)) => String::from_str(alloc, reason),
        None => Ok(text),
    }
}

/// Writes a line that names `path` and says why it cannot be used, or only names it if there is no memory for that.
pub(crate) fn print_reason<E: Write>(
    alloc: Global,
    errors: &mut Writing<E>,
    path: &str,
    error: &io::Error,
) {
    match reason_of(alloc, error) {
        Ok(reason) => say_reason(errors, path.as_bytes(), reason.as_bytes()),
        Err(_) => name_file(errors, path.as_bytes(), FAILED, true),
    }
}

/// Returns whether a folder is at the path. It could be opened, but not be read.
pub(crate) fn is_folder(rt: &HostRuntime, path: &str) -> bool {
    metadata(rt, path).is_ok_and(|there| there.is_dir())
}

/// Returns why the file for the counters cannot be used, if so.
pub(crate) fn figures_fault(rt: &HostRuntime, command: &Command) -> Option<&'static [u8]> {
    let figures = command.figures.as_deref()?;
    let there = symlink_metadata(rt, figures).ok();
    if there.as_ref().is_some_and(|there| !there.is_file()) {
        return Some(NOT_PLAIN);
    }
    let recording = command.recording.as_deref()?;
    let is_same = match (there, symlink_metadata(rt, recording)) {
        (Some(one), Ok(other)) => one.dev() == other.dev() && one.ino() == other.ino(),
        _ => figures == recording,
    };
    is_same.then_some(RECORDED_TO)
}

/// Prints why a file of the command cannot be made, if so. Returns whether each can.
pub(crate) fn can_make<E: Write>(
    rt: &HostRuntime,
    command: &Command,
    errors: &mut Writing<E>,
) -> bool {
    let mut new = None;
    if let Some(path) = &command.figures {
        new = format!(in rt.alloc(); "{path}.new").ok();
    }
    for path in [&command.recording, &new] {
        if let Some(path) = path {
            if let Err(error) = try_make(rt, path.as_str()) {
                print_reason(rt.alloc(), errors, path.as_str(), &error);
                return false;
            }
        }
    }
    true
}
