//! A session that is recorded list by list.
ghost use Rattle.std.specs.Prelude.{◌≡◌, false};

use crate::devices::plan;
use crate::listed::{settings, workers};
use crate::words::{text, wrong, yes};
use anyhow::{Result, ensure};
use portmap_core::{Entry, State};
use portmap_link::Output;
use portmap_recorder::Recorder;
use portmap_testing::tape::Tape;
use std::alloc::Global;

/// Records the header, two entries and the other entries with the numbers of their workers. Prints the three results,
/// the number of puts and of bytes. Fails unless the bytes are a prefix of `bytes`.
pub fn recorded(alloc: Global, words: &[&str], entries: &[Entry], bytes: &[u8]) -> Result<String> {
    let [device, ref numbers @ ..] = *words else {
        return wrong("no device");
    };
    let (plan, workers) = (plan(device)?, workers(alloc, numbers)?);
    let mut recorder = Recorder::new(Tape::new(alloc, &[], plan));
    let [begun, one, two] = answers(alloc, &mut recorder, entries, &workers)?.map(yes);
    let Tape { calls, sink, .. } = recorder.output();
    ensure!(bytes.starts_with(sink), "other bytes are written");
    text(format!(in alloc; "{begun} {one} {two} puts {calls} bytes {}", sink.len()))
}

fn answers<W: Output>(
    alloc: Global,
    recorder: &mut Recorder<W>,
    entries: &[Entry],
    workers: &[u32],
) -> Result<[bool; 3]>
    requires { recorder.old.begun ≡ false }
{
    let config = settings()?;
    let start = State::empty(alloc);
    ensure!(start.owned(alloc, &config)?, "a session may not begin so");
    let begun = recorder.begin(alloc, &config, 0, &start);
    let (entries, others) = entries.split_at(entries.len().min(2));
    let (workers, other_workers) = workers.split_at(workers.len().min(2));
    let added = recorder.add(alloc, entries, workers);
    Ok([begun, added, recorder.add(alloc, others, other_workers)])
}
