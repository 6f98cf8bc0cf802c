//! Devices over memory.
ghost use Rattle.std.specs.Prelude.{◌≡◌, true};

use portmap_link::{Device, GhostList, Input, Output, Pull, Put};
use std::alloc::Global;
use std::sync::atomic::{AtomicU64, Ordering};

/// The results of a device's calls. Pulls and puts are counted together from 0. The calls in a range of `later` return
/// `Later`. The call `fault` and all calls after it fail. The other calls move at most `most` bytes.
#[derive(Clone, Copy)]
pub struct DevicePlan {
    pub most: usize,
    pub later: &'static [(usize, usize)],
    pub fault: Option<usize>,
}

/// A plan whose calls move as many bytes as possible.
pub const STEADY: DevicePlan = DevicePlan {
    most: usize::MAX,
    later: &[],
    fault: None,
};

pub const SINGLE: DevicePlan = DevicePlan { most: 1, ..STEADY };

#[derive(Clone, Copy)]
enum TapeStep {
    Move,
    Later,
    Fault,
}

impl DevicePlan {
    fn is_later(&self, call: usize) -> bool {
        let mut later = self.later.iter();
        later.any(|(from, until)| *from <= call && call < *until)
    }

    fn step(&self, calls: &mut usize, failed: bool) -> TapeStep
        ensures { failed ≡ true → result ≡ TapeStep.Fault }
    {
        let call = *calls;
        *calls = call.saturating_add(1);
        if failed || self.fault == Some(call) {
            TapeStep::Fault
        } else if self.is_later(call) {
            TapeStep::Later
        } else {
            TapeStep::Move
        }
    }
}

/// A device whose bytes are known: those left to read, and those that were written.
#[derive(Drop)]
pub struct Tape<'a> {
    pub source: &'a [u8],
    pub sink: Vec<u8>,
    plan: DevicePlan,
    pub calls: usize,
    failed: bool,
    pulls: GhostList<Pull>,
    puts: GhostList<Put>,
    /// The number of bytes written, for other threads.
    pub written: Option<&'a AtomicU64>,
}

impl<'a> Tape<'a> {
    pub fn new(alloc: Global, source: &'a [u8], plan: DevicePlan) -> Tape<'a> {
        Tape {
            source,
            sink: Vec::new(alloc),
            plan,
            calls: 0,
            failed: false,
            pulls: GhostList::new(),
            puts: GhostList::new(),
            written: None,
        }
    }
}

impl<'a> Device for Tape<'a> {
    ghost use Rattle.std.specs.Prelude.{Some};

    ghost left = { λ t. Some t.source.now };

    ghost held = { λ t. Some t.sink.items };

    ghost pulls = { λ t. t.pulls };

    ghost puts = { λ t. t.puts };

    ghost broken = { λ t. t.failed };
}

impl<'a> Input for Tape<'a> {
    fn pull(&mut self, buffer: &mut [u8]) -> Pull {
        let answer = match self.plan.step(&mut self.calls, self.failed) {
            TapeStep::Move if self.source.is_empty() => Pull::End,
            TapeStep::Move => {
                let most = self.plan.most.max(1);
                let n = most.min(buffer.len()).min(self.source.len());
                let (prefix, rest) = self.source.split_at(n);
                buffer[..n].copy_from_slice(prefix);
                self.source = rest;
                Pull::Piece(n)
            }
            TapeStep::Later => Pull::Later,
            TapeStep::Fault => Pull::Fault,
        };
        self.failed = answer == Pull::Fault;
        self.pulls.note(&answer);
        answer
    }

    fn failed(&self) -> bool {
        self.failed
    }
}

impl<'a> Output for Tape<'a> {
    fn put(&mut self, bytes: &[u8]) -> Put {
        let answer = match self.plan.step(&mut self.calls, self.failed) {
            TapeStep::Move => {
                let n = self.plan.most.max(1).min(bytes.len());
                match self.sink.extend_from_slice(&bytes[..n]) {
                    Ok(()) => Put::Wrote(n),
                    Err(_) => Put::Fault,
                }
            }
            TapeStep::Later => Put::Later,
            TapeStep::Fault => Put::Fault,
        };
        self.failed = answer == Put::Fault;
        self.puts.note(&answer);
        if let Some(written) = self.written {
            written.store(self.sink.len() as u64, Ordering::SeqCst);
        }
        answer
    }

    fn failed(&self) -> bool {
        self.failed
    }
}
