//! Recorded sessions in several files, checked as one.
use crate::devices::plan;
use crate::words::{by_name, bytes, number, text};
use anyhow::Result;
use portmap_record::{AuditFault, Audited, PlayFault, audit};
use portmap_testing::marked;
use portmap_testing::tape::Tape;
use std::alloc::Global;
use std::collections::VecDeque;

/// Audits the files, from the oldest on. Each is read from a device of this kind, with this limit of turns.
pub fn audited(alloc: Global, device: &str, turns: &str, words: &[&str]) -> Result<String> {
    let mut files = Vec::new(alloc);
    for word in words {
        files.push(bytes(alloc, word)?)?;
    }
    let (plan, turns) = (plan(device)?, number(turns)?);
    let mut inputs = VecDeque::new(alloc);
    for file in &files {
        inputs.push_back(Tape::new(alloc, file, plan))?;
    }
    actual(alloc, marked!(alloc, audit(alloc, inputs, turns)))
}

/// Prints a lack of memory without the number of the file, as every other call does.
fn actual(alloc: Global, outcome: Result<Audited, AuditFault>) -> Result<String> {
    match outcome {
        Ok(Audited::Run { entries, tail }) => text(format!(in alloc; "run {entries} {tail:?}")),
        Ok(Audited::Broken { file, entry }) => text(format!(in alloc; "broken {file} at {entry}")),
        Ok(Audited::Apart { file, gap }) => text(format!(in alloc; "apart {file} by {gap:?}")),
        Err(
            AuditFault {
                fault: PlayFault::NoMemory,
                ..
            },
        ) => by_name(alloc, &PlayFault::NoMemory),
        Err(AuditFault { file, fault }) => text(format!(in alloc; "fault {file} {fault:?}")),
    }
}
