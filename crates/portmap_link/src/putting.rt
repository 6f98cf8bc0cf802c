ghost use Rattle.std.specs.Prelude.{◌≡◌, ℕ, ◌+◌, ◌<◌, ◌≤◌, ◌||◌, ◌↔◌, true, length, take};
ghost use Rattle.std.specs.Io.KnownBytes.{Keeps, Appends};
ghost use Rattle.portmap_link.specs.Flush.{flush_is_fault};
ghost use Rattle.portmap_link.specs.Limit.{SendsOn, left_after, left_in, puts_most};

use crate::{Flush, Output, Put};

/// The limit at which no more puts are made.
#[derive(Clone, Copy, PartialEq, Eq)]
pub enum Limit {
    Puts(u64),
    /// The number of puts that would block.
    Laters(u64),
}

#[derive(Clone, Copy, PartialEq, Eq)]
pub struct Sent {
    pub count: usize,
    /// The number of puts that would block.
    pub laters: u64,
    /// `Later` if the limit was reached before all bytes were written.
    pub flush: Flush,
}

impl Limit {
    fn is_reached(self) -> bool
        ensures { (result ≡ true) ↔ (left_in self ≡ 0) }
    {
        let (Limit::Puts(left) | Limit::Laters(left)) = self;
        left == 0
    }

    fn after(self, answer: Put) -> Limit
        requires { 0 < left_in self }
        ensures { result ≡ left_after self answer }
    {
        match (self, answer) {
            (Limit::Puts(left), _) => Limit::Puts(left - 1),
            (Limit::Laters(left), Put::Later) => Limit::Laters(left - 1),
            (Limit::Laters(_), Put::Wrote(_) | Put::Fault) => self,
        }
    }
}

/// Puts the bytes until all are written, the limit is reached, or the output fails.
pub fn send_all<W: Output>(output: &mut W, bytes: &[u8], limit: Limit) -> Sent
    ensures within { result.count ≤ length bytes.now }
    ensures written { Appends (W.held output.old) (W.held output.new) (take result.count bytes.now) }
    ensures answers { SendsOn limit (length bytes.now) (W.puts output.old)
        (W.puts output.new) result.count result.laters result.flush }
    ensures calls { length (W.puts output.new) ≤ length (W.puts output.old) + puts_most limit (length bytes.now) }
    ensures broken { W.broken output.new ≡ (flush_is_fault result.flush || W.broken output.old) }
    ensures left { Keeps (W.left output.old) (W.left output.new) }
    ensures pulls { W.pulls output.new ≡ W.pulls output.old }
{
    let mut count = 0;
    let mut laters = 0;
    let mut left = limit;
    while count < bytes.len() {
        if left.is_reached() {
            return Sent {
                count,
                laters,
                flush: Flush::Later,
            };
        }
        let (_, rest) = bytes.split_at(count);
        let answer = output.put(rest);
        left = left.after(answer);
        match answer {
            Put::Wrote(n) => count += n,
            Put::Later => laters += 1,
            Put::Fault => return Sent {
                count,
                laters,
                flush: Flush::Fault,
            },
        }
    }
    Sent {
        count,
        laters,
        flush: Flush::Empty,
    }
}
