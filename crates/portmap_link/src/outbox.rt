ghost use Rattle.std.specs.Prelude.{◌≡◌, ℕ, ◌+◌, ◌-◌, ◌≤◌, ◌||◌, ◌↔◌, List, [], ◌++◌, length, take, drop, vec_len};
ghost use Rattle.std.specs.Prelude.{vec_capacity, IfOk, OnOk, OnErr};
ghost use Rattle.std.specs.Io.KnownBytes.{Keeps, Appends};
ghost use Rattle.portmap_link.specs.Flush.{flush_is_fault, Sends, Moves};

use crate::{Limit, NoMemory, Output, send_all};
use std::alloc::Global;
use std::marker::Model;

#[derive(Clone, Copy, Debug, PartialEq, Eq)]
pub enum Flush {
    /// All bytes were written.
    Empty,
    /// The output would block.
    Later,
    /// The output has failed permanently.
    Fault,
}

/// Puts the bytes until all are written, or the output would block or fails. Returns the number of bytes written.
pub fn send<W: Output>(output: &mut W, bytes: &[u8]) -> (usize, Flush)
    ensures within { result.0 ≤ length bytes.now }
    ensures written { Appends (W.held output.old) (W.held output.new) (take result.0 bytes.now) }
    ensures all { (result.1 ≡ Flush.Empty) ↔ (result.0 ≡ length bytes.now) }
    ensures answers { Sends (W.puts output.old) (W.puts output.new) result.0 result.1 }
    ensures calls { length (W.puts output.new) ≤ length (W.puts output.old) + length bytes.now + 1 }
    ensures broken { W.broken output.new ≡ (flush_is_fault result.1 || W.broken output.old) }
    ensures left { Keeps (W.left output.old) (W.left output.new) }
    ensures pulls { W.pulls output.new ≡ W.pulls output.old }
{
    let sent = send_all(output, bytes, Limit::Laters(1));
    (sent.count, sent.flush)
}

/// A send buffer: bytes in the order in which they are to be written. Contracts see the bytes not written yet.
#[derive(Drop)]
pub struct Outbox {
    bytes: Vec<u8>,
    sent: usize,
}

impl Model for Outbox {
    ghost use Rattle.std.specs.Prelude.{List, ℕ, drop, length, ◌≤◌};

    ghost Value = { List ℕ };

    ghost view = { λ o. drop o.sent o.bytes.items };

    ghost invariant = { λ o. o.sent ≤ length o.bytes.items };
}

impl Outbox {
    /// Creates an empty send buffer. The first push allocates.
    pub fn new(alloc: Global) -> Outbox
        ensures { result ≡ [] }
    {
        Outbox {
            bytes: Vec::new(alloc),
            sent: 0,
        }
    }

    /// Appends bytes. Fails only if memory runs out.
    pub fn push(&mut self, bytes: &[u8]) -> Result<(), NoMemory>
        ensures ok { OnOk result (self.new ≡ self.old ++ bytes.now) }
        ensures err { OnErr result (self.new ≡ self.old) }
    {
        drop_sent(&mut self.bytes, &mut self.sent);
        self.bytes.extend_from_slice(bytes)
    }

    /// Returns the bytes not written yet, in order.
    pub fn pending(&self) -> &[u8]
        ensures { result.now ≡ self.now }
    {
        let (_, rest) = self.bytes.as_slice().split_at(self.sent);
        rest
    }

    /// Puts the waiting bytes until none is left, or the output would block or fails. The other bytes keep waiting.
    #[tactic(auto, using(crate::proofs::Sending::drop_is_nil))]
    pub fn flush<W: Output>(&mut self, output: &mut W) -> Flush
        ensures written { Moves (W.held output.old) (W.held output.new) self.old self.new }
        ensures empty { (result ≡ Flush.Empty) ↔ (self.new ≡ []) }
        ensures answers { Sends (W.puts output.old) (W.puts output.new) (length self.old - length self.new) result }
        ensures calls { length (W.puts output.new) ≤ length (W.puts output.old) + length self.old + 1 }
        ensures broken { W.broken output.new ≡ (flush_is_fault result || W.broken output.old) }
        ensures left { Keeps (W.left output.old) (W.left output.new) }
        ensures pulls { W.pulls output.new ≡ W.pulls output.old }
    {
        let (sent, flush) = send(output, self.pending());
        self.advance(sent);
        flush
    }

    /// Appends bytes and flushes, as `push` and `flush` would. Room is reserved before any put, so that nothing is put
    /// if memory runs out. If no bytes wait, `bytes` are put directly, and only the bytes not taken are copied.
    pub fn write<W: Output>(&mut self, output: &mut W, bytes: &[u8]) -> Result<Flush, NoMemory>
        ensures written { OnOk result (Moves (W.held output.old) (W.held output.new) (self.old ++ bytes.now) self.new) }
        ensures empty { IfOk result (λ flush. (flush ≡ Flush.Empty) ↔ (self.new ≡ [])) }
        ensures answers { IfOk result (λ flush.
            Sends (W.puts output.old) (W.puts output.new) (length (self.old ++ bytes.now) - length self.new) flush) }
        ensures calls { length (W.puts output.new) ≤ length (W.puts output.old) + length (self.old ++ bytes.now) + 1 }
        ensures broken { IfOk result (λ flush. W.broken output.new ≡ (flush_is_fault flush || W.broken output.old)) }
        ensures left { Keeps (W.left output.old) (W.left output.new) }
        ensures pulls { W.pulls output.new ≡ W.pulls output.old }
        ensures err { OnErr result ((self.new ≡ self.old) × (output.new ≡ output.old)) }
    {
        drop_sent(&mut self.bytes, &mut self.sent);
        self.bytes.reserve(bytes.len())?;
        if self.sent < self.bytes.len() {
            keep(&mut self.bytes, bytes);
            return Ok(self.flush(output));
        }
        let (count, flush) = send(output, bytes);
        let (_, rest) = bytes.split_at(count);
        keep(&mut self.bytes, rest);
        Ok(flush)
    }

    fn advance(&mut self, n: usize)
        requires { n ≤ length self.old }
        ensures { self.new ≡ drop n self.old }
    {
        self.sent += n;
    }
}

fn keep(kept: &mut Vec<u8>, bytes: &[u8])
    requires { vec_len kept.old + length bytes.now ≤ vec_capacity kept.old }
    ensures { kept.new.items ≡ kept.old.items ++ bytes.now }
{
    let Ok(()) = kept.extend_from_slice(bytes) else {
        unreachable!()
    };
}

// Drops the written bytes once they are as many as the rest, which bounds the buffer. A call moves no more bytes than
// it drops, so that the time of all calls is proportional to the bytes sent.
fn drop_sent(bytes: &mut Vec<u8>, sent: &mut usize)
    requires { sent.old ≤ vec_len bytes.old }
    ensures rest { drop sent.new bytes.new.items ≡ drop sent.old bytes.old.items }
    ensures within { sent.new ≤ vec_len bytes.new }
    ensures few { sent.new + sent.new ≤ vec_len bytes.new }
{
    if bytes.len() - *sent <= *sent {
        bytes.drain(..*sent);
        *sent = 0;
    }
}
