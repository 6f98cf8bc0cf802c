//! The activity of connections, as workers report it to the main thread.
use crate::limits::WEIGH_BYTES;
use crate::shared::Shared;
use crate::system::Wake;
use portmap_operator::Activity;
use std::mem;
use std::sync::atomic::{AtomicBool, AtomicU64, Ordering};

/// The activity of all workers.
#[derive(Default, Drop)]
pub struct SharedActivity {
    answered: AtomicBool,
    unanswered: AtomicBool,
    exhausted: AtomicBool,
    refused: AtomicU64,
    resets: AtomicU64,
}

impl SharedActivity {
    /// Adds the activity of a worker. Returns whether it has the first unanswered connection since `take`.
    fn add(&self, news: Activity) -> bool {
        self.answered.fetch_or(news.answered, Ordering::SeqCst);
        self.exhausted.fetch_or(news.exhausted, Ordering::SeqCst);
        self.refused.fetch_add(news.refused, Ordering::SeqCst);
        self.resets.fetch_add(news.resets, Ordering::SeqCst);
        news.unanswered && !self.unanswered.swap(true, Ordering::SeqCst)
    }

    /// Returns whether a connection ended unanswered since the last `take`.
    pub fn is_unanswered(&self) -> bool {
        self.unanswered.load(Ordering::SeqCst)
    }

    pub(crate) fn has_refused(&self) -> bool {
        self.refused.load(Ordering::SeqCst) > 0
    }

    pub(crate) fn take(&self) -> Activity {
        Activity {
            answered: self.answered.swap(false, Ordering::SeqCst),
            unanswered: self.unanswered.swap(false, Ordering::SeqCst),
            exhausted: self.exhausted.swap(false, Ordering::SeqCst),
            refused: self.refused.swap(0, Ordering::SeqCst),
            resets: self.resets.swap(0, Ordering::SeqCst),
        }
    }
}

#[derive(Default, Drop)]
pub(crate) struct WorkerActivity {
    pub(crate) news: Activity,
    unweighed_bytes: usize,
}

impl WorkerActivity {
    /// Returns whether all activity is published.
    pub(crate) fn is_published(&self) -> bool {
        self.news == Activity::default()
    }

    pub(crate) fn on_moved(&mut self, bytes: usize) -> bool {
        self.unweighed_bytes = self.unweighed_bytes.saturating_add(bytes);
        let is_due = self.unweighed_bytes >= WEIGH_BYTES;
        if is_due {
            self.unweighed_bytes = 0;
        }
        is_due
    }

    /// Records if a link has written bytes of a reply. Bytes that were read alone are no reply.
    pub(crate) fn on_written(&mut self, has_written: bool) {
        self.news.answered = self.news.answered || has_written;
    }

    /// Records and publishes the end of a connection to which no byte was ever written, perhaps for lack of memory.
    pub(crate) fn on_unanswered<W: Wake>(&mut self, shared: &Shared<W>) {
        self.news.unanswered = true;
        if shared.short.load(Ordering::SeqCst) {
            self.news.refused = self.news.refused.saturating_add(1);
        }
        self.publish(shared);
    }

    /// Wakes the main thread, as there is no memory for a connection. The first unanswered end of this second may have
    /// woken the main thread while there was memory; it would then free the reserve only after the second.
    pub(crate) fn on_no_memory<W: Wake>(&self, shared: &Shared<W>) {
        if !shared.short.load(Ordering::SeqCst) {
            shared.wake_drain();
        }
    }

    pub(crate) fn note_refused(&mut self) {
        self.news.refused = self.news.refused.saturating_add(1);
    }

    pub(crate) fn note_reset(&mut self) {
        self.news.resets = self.news.resets.saturating_add(1);
    }

    /// Publishes the activity, and wakes the main thread at the first unanswered connection.
    pub(crate) fn publish<W: Wake>(&mut self, shared: &Shared<W>) {
        if shared.noted.add(mem::take(&mut self.news)) {
            shared.wake_drain();
        }
    }
}
