//! Entries from literal bytes.
use portmap_core::{Entry, Fate};
use std::alloc::{AllocError, Global};

#[derive(Clone, Copy)]
pub enum SampleEntry {
    Connected(bool, u64),
    Piece(u64, &'static [u8], &'static [u8], Fate),
    Closed(u64),
    Faulted(u64),
    Late(u64, Fate),
}

pub fn entry(alloc: Global, kept: &SampleEntry) -> Result<Entry, AllocError> {
    Ok(match kept {
        SampleEntry::Connected(local, slot) => Entry::Connected {
            local: *local,
            slot: *slot,
        },
        SampleEntry::Piece(slot, bytes, reply, fate) => Entry::Piece {
            slot: *slot,
            bytes: bytes.to_vec(alloc)?,
            reply: reply.to_vec(alloc)?,
            fate: *fate,
        },
        SampleEntry::Closed(slot) => Entry::Closed { slot: *slot },
        SampleEntry::Faulted(slot) => Entry::Faulted { slot: *slot },
        SampleEntry::Late(slot, fate) => Entry::Late {
            slot: *slot,
            fate: *fate,
        },
    })
}
