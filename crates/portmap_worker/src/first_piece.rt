//! The first chunk of a connection. It is kept back if it registers a name or asks for a list, since either may have to
//! wait.
ghost use Rattle.std.specs.Prelude.{◌≡◌, ◌↔◌, ◌≤◌, ◌⊎◌, ◌∷◌, [], true, length, take};
ghost use Rattle.std.specs.Io.{ReadsAtMost};

use portmap_core::{Name, name_to_register};
use std::alloc::Global;
use std::io::{ErrorKind, Read};
use std::{io, mem};

const ASKS_NAMES: &[u8] = b"\0\x01n";

const ASKS_DUMP: &[u8] = b"\0\x01d";

fn asks_list(piece: &[u8]) -> bool
    ensures { (result ≡ true) ↔ ((take 3 piece.now ≡ 0 ∷ 1 ∷ 110 ∷ []) ⊎ (take 3 piece.now ≡ 0 ∷ 1 ∷ 100 ∷ [])) }
{
    let (front, _) = piece.split_at(piece.len().min(3));
    front == ASKS_NAMES || front == ASKS_DUMP
}

#[derive(Drop)]
pub(crate) enum Asks {
    Registration(Name),
    List,
}

fn asked(alloc: Global, piece: &[u8]) -> Option<Asks> {
    if asks_list(piece) {
        return Some(Asks::List);
    }
    Some(Asks::Registration(name_to_register(alloc, piece)?))
}

#[derive(Drop)]
pub(crate) enum FirstPiece {
    Past,
    Expected(Global),
    /// The chunk is kept back, and the next read returns it.
    Kept(Asks, Vec<u8>),
}

impl FirstPiece {
    pub(crate) fn name(&self) -> Option<&Name> {
        match self {
            FirstPiece::Kept(Asks::Registration(name), _) => Some(name),
            _ => None,
        }
    }

    pub(crate) fn asks_list(&self) -> bool {
        matches!(self, FirstPiece::Kept(Asks::List, _))
    }

    /// Reads the stream. If the first chunk is to be kept back and there is memory for it, the read fails with
    /// `Interrupted`, and the next read returns the chunk.
    pub(crate) fn read<S: Read>(&mut self, stream: &mut S, buffer: &mut [u8]) -> io::Result<usize>
        ensures bound { ReadsAtMost result buffer.new }
    {
        match mem::replace(self, FirstPiece::Past) {
            FirstPiece::Past => stream.read(buffer),
            FirstPiece::Expected(alloc) => self.read_first(alloc, stream, buffer),
            FirstPiece::Kept(asks, kept) => Ok(self.give(asks, kept, buffer)),
        }
    }

    /// Reads the first chunk, which is still expected if the read fails.
    fn read_first<S: Read>(
        &mut self,
        alloc: Global,
        stream: &mut S,
        buffer: &mut [u8],
    ) -> io::Result<usize>
        ensures bound { ReadsAtMost result buffer.new }
    {
        let read = stream.read(buffer);
        if read.is_err() {
            *self = FirstPiece::Expected(alloc);
        }
        let count = read?;
        let Some(piece) = buffer.get(..count) else {
            return Ok(count);
        };
        let Some(asks) = asked(alloc, piece) else {
            return Ok(count);
        };
        let Ok(kept) = Vec::from_slice(alloc, piece) else {
            return Ok(count);
        };
        *self = FirstPiece::Kept(asks, kept);
        Err(io::Error::from(ErrorKind::Interrupted))
    }

    /// Copies as many of the kept bytes as `buffer` has room for. The next read copies the rest.
    fn give(&mut self, asks: Asks, mut kept: Vec<u8>, buffer: &mut [u8]) -> usize
        ensures { result ≤ length buffer.new }
    {
        let count = kept.len().min(buffer.len());
        if let (Some(place), Some(piece)) = (buffer.get_mut(..count), kept.get(..count)) {
            place.copy_from_slice(piece);
        }
        kept.drain(..count);
        if !kept.is_empty() {
            *self = FirstPiece::Kept(asks, kept);
        }
        count
    }
}
