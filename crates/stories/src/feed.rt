//! Requests as they arrive on a stream, in chunks.
use crate::words::{Digits, bytes, number, text, wrong};
use anyhow::{Result, ensure};
use portmap_feed::{Feed, Seen};
use portmap_testing::marked;
use std::alloc::Global;

/// One stream twice: in the chunks of a story, and byte by byte.
pub struct Pieces {
    whole: Feed,
    single: Feed,
}

impl Drop for Pieces {
    fn drop(self) {
        let Pieces {
            whole: _,
            single: _,
        } = self;
    }
}

impl Pieces {
    pub fn new(alloc: Global) -> Pieces {
        Pieces {
            whole: Feed::new(alloc),
            single: Feed::new(alloc),
        }
    }

    /// Returns true if both hold the same bytes.
    pub fn stands(&self) -> bool {
        self.whole.kept() == self.single.kept() && self.whole.body() == self.single.body()
    }

    /// Prints the framing, the bytes that are kept, and the body.
    pub fn perform(&mut self, alloc: Global, words: &[&str]) -> Result<String> {
        let seen = match *words {
            ["push", piece] => self.push(alloc, &bytes(alloc, piece)?)?,
            ["cut", len] => self.cut(number(len)?)?,
            _ => return wrong("no such act"),
        };
        let Some(seen) = seen else {
            return text(String::from_str(alloc, "NoMemory"))
        };
        ensure!(self.stands(), "it is kept otherwise byte by byte");
        let kept = Digits(self.whole.kept());
        match self.whole.body() {
            Some(body) => text(format!(in alloc; "{seen:?} kept {kept} body {}", Digits(body))),
            None => text(format!(in alloc; "{seen:?} kept {kept}")),
        }
    }

    /// Returns the framing after a chunk, or `None` if memory is refused. That may happen only before the length is
    /// known.
    fn push(&mut self, alloc: Global, piece: &[u8]) -> Result<Option<Seen>> {
        let is_known = self.whole.kept().len() >= 2;
        let seen = marked!(alloc, self.whole.push(piece));
        let is_due = seen.is_ok() || !is_known;
        ensure!(is_due, "memory was asked for once the length was known");
        let Ok(seen) = seen else { return Ok(None) };
        let mut last = self.single.push(&[]);
        for byte in piece {
            last = self.single.push(&[*byte]);
        }
        ensure!(last == Ok(seen), "it is seen otherwise byte by byte");
        Ok(Some(seen))
    }

    /// Returns the framing after all bytes but the first `len` are removed.
    fn cut(&mut self, len: usize) -> Result<Option<Seen>> {
        let least = self.whole.kept().len().min(self.single.kept().len());
        ensure!(len <= least, "fewer bytes are kept");
        self.whole.cut(len);
        self.single.cut(len);
        Ok(self.whole.push(&[]).ok())
    }
}
