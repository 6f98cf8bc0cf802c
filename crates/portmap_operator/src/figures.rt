//! Counters of what the daemon has answered since it began, for monitors.
use crate::host::Host;
use crate::outcome::Outcome;
use crate::write_fault::WriteFault;
use itoa::Buffer;
use portmap_core::NoMemory;
use std::alloc::Global;

/// The names of the samples, in the text format of Prometheus and in the order of `Outcome`.
const SAMPLES: [&[u8]; 10] = [
    b"epmd_accepted_total ",
    b"epmd_lookups_total{result=\"found\"} ",
    b"epmd_lookups_total{result=\"missing\"} ",
    b"epmd_registrations_total ",
    b"epmd_refusals_total{reason=\"in_use\"} ",
    b"epmd_refusals_total{reason=\"no_room\"} ",
    b"epmd_refusals_total{reason=\"remote\"} ",
    b"epmd_lists_total ",
    b"epmd_malformed_total ",
    b"epmd_timeouts_total ",
];

/// The number of entries with each outcome but `Nothing`.
#[derive(Drop)]
pub(crate) struct Figures {
    counts: [u64; 10],
}

impl Figures {
    pub(crate) fn new() -> Figures {
        Figures { counts: [0; 10] }
    }

    pub(crate) fn count(&mut self, outcome: Outcome) {
        if let Some(count) = self.counts.get_mut(outcome as usize) {
            *count = count.saturating_add(1);
        }
    }

    /// Returns a line for each counter: its name, a space and its value.
    fn text(&self, alloc: Global) -> Result<Vec<u8>, NoMemory> {
        let mut text = Vec::new(alloc);
        for (name, count) in SAMPLES.iter().zip(self.counts.iter()) {
            text.extend_from_slice(name)?;
            text.extend_from_slice(Buffer::new().format(*count).as_bytes())?;
            text.extend_from_slice(b"\n")?;
        }
        Ok(text)
    }

    /// Puts the text into the file at this path.
    pub(crate) fn publish<R: Host>(
        &self,
        rt: &R,
        alloc: Global,
        path: &str,
    ) -> Result<(), WriteFault> {
        let text = self.text(alloc)?;
        rt.publish(alloc, path, text.as_slice())
            .map_err(|error| WriteFault::of(&error))
    }
}
