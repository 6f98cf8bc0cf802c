//! The work of the main thread while memory is short.
ghost use Rattle.std.specs.Prelude.{◌≡◌, ◌+◌, ◌||◌, ◌&&◌, not, true, false, min};

use crate::limits::{RESERVE_BYTES, STARVED_SECONDS_MOST};
use portmap_operator::{Activity, Host};
use std::alloc::Global;
use std::sync::atomic::{AtomicBool, Ordering};

/// Allocates the largest reserve that leaves other memory, if it is larger than `held`.
fn reserve<R: Host>(rt: &R, alloc: Global, held: usize) -> Option<Vec<u8>> {
    for size in RESERVE_BYTES {
        if size <= held || !rt.has_memory(alloc) {
            break;
        }
        if let Ok(reserve) = Vec::with_capacity(alloc, size) {
            if rt.has_memory(alloc) {
                return Some(reserve);
            }
        }
    }
    None
}

/// Returns for how many seconds in a row lack of memory has let nothing through, after one more second. In such a
/// second no peer got a reply. Besides, the log could not be drained, or memory was short and a peer went unanswered.
fn starved_for(seconds: u32, stuck: bool, short: bool, news: Activity) -> u32
    ensures goes_on { (not news.answered && (stuck || (short && news.unanswered))) ≡ true
        → result ≡ min (seconds + 1) 4294967295 }
    ensures ends { (not news.answered && (stuck || (short && news.unanswered))) ≡ false → result ≡ 0 }
{
    if !news.answered && (stuck || (short && news.unanswered)) {
        seconds.saturating_add(1)
    } else {
        0
    }
}

#[derive(Drop)]
pub(crate) struct Memory {
    reserve: Option<Vec<u8>>,
    starved_seconds: u32,
}

impl Memory {
    pub(crate) fn new<R: Host>(rt: &R, alloc: Global) -> Memory {
        Memory {
            reserve: reserve(rt, alloc, 0),
            starved_seconds: 0,
        }
    }

    pub(crate) fn is_short(&self) -> bool {
        self.reserve.is_none()
    }

    /// Frees the reserve for everything but registrations. Returns whether there was a reserve.
    pub(crate) fn relieve(&mut self, short: &AtomicBool) -> bool {
        short.store(true, Ordering::SeqCst);
        self.reserve.take().is_some()
    }

    /// Frees the reserve if there is no other memory, which may be why a peer went unanswered. Returns whether it did.
    pub(crate) fn relieve_if_short<R: Host>(
        &mut self,
        rt: &R,
        alloc: Global,
        short: &AtomicBool,
    ) -> bool {
        self.reserve.is_some() && !rt.has_memory(alloc) && self.relieve(short)
    }

    pub(crate) fn regain<R: Host>(&mut self, rt: &R, alloc: Global) {
        let held = self.reserve.as_ref().map_or(0, |held| held.capacity());
        self.reserve = reserve(rt, alloc, held).or(self.reserve.take());
    }

    /// Adjusts the reserve at the end of a second. The main thread is `stuck` if it could not drain the log. Returns
    /// whether nothing has got through for so long that the daemon has to end.
    pub(crate) fn look<R: Host>(
        &mut self,
        rt: &R,
        alloc: Global,
        short: &AtomicBool,
        stuck: bool,
        news: Activity,
    ) -> bool {
        if stuck || news.unanswered {
            self.relieve_if_short(rt, alloc, short);
        }
        if !stuck {
            self.regain(rt, alloc);
        }
        self.starved_seconds = starved_for(self.starved_seconds, stuck, self.is_short(), news);
        self.starved_seconds >= STARVED_SECONDS_MOST
    }
}
