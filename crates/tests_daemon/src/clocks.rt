//! A clock that a test moves forward.
use portmap_operator::{Host, Notice};
use std::alloc::{AllocError, Global};
use std::fs::{File, Files};
use std::io;
use std::net::{Net, SocketAddr};
use std::rt::Clock;
use std::sync::atomic::{AtomicBool, AtomicU64, Ordering};
use std::sync::{Arc, Wait};
use std::thread::Threads;
use std::time::Duration;

/// A runtime whose clock can be moved forward, and whose memory can be short. It counts notices to the operator, and
/// follows a link to the file of a recording. The first copy is refused: without a thread for its lines, a daemon
/// notifies the operator by this runtime.
#[derive(Drop)]
pub struct Pushed<R: Clock> {
    rt: R,
    shared: Arc<Pushing>,
}

/// The state that its copies share.
#[derive(Drop, Default)]
pub struct Pushing {
    /// The number of seconds by which the clock was moved.
    seconds: AtomicU64,
    /// True if the clock moves in no other way.
    is_stopped: AtomicBool,
    /// Whether the host has no memory, and how often it was asked.
    pub is_short: AtomicBool,
    pub asked: AtomicU64,
    /// How often the operator was notified that the recording has failed.
    pub failures: AtomicU64,
    /// How often the operator was notified that the recording works again, that memory is short, and that a remote peer
    /// was refused.
    pub again: AtomicU64,
    pub short: AtomicU64,
    pub remote: AtomicU64,
    copies: AtomicU64,
    /// True if no further copy of the runtime can be made.
    pub is_alone: AtomicBool,
}

impl<R: Clock + Copy> Pushed<R> {
    pub fn new(rt: R, alloc: Global) -> Result<Pushed<R>, AllocError> {
        let shared = Arc::new(alloc, Pushing::default())?;
        Ok(Pushed { rt, shared })
    }

    pub fn pushing(&self) -> &Pushing {
        &self.shared
    }
}

impl Pushing {
    /// Stops the clock, but for `push`, and the host has no memory from now on.
    pub fn stand(&self) {
        self.is_stopped.store(true, Ordering::SeqCst);
        self.is_short.store(true, Ordering::SeqCst);
    }

    pub fn push(&self, seconds: u64) {
        self.seconds.fetch_add(seconds, Ordering::SeqCst);
    }
}

impl<R: Clock + Copy> Clone for Pushed<R> {
    fn clone(&self) -> Result<Pushed<R>, AllocError> {
        let is_first = self.shared.copies.fetch_add(1, Ordering::SeqCst) == 0;
        if is_first || self.shared.is_alone.load(Ordering::SeqCst) {
            return Err(AllocError);
        }
        Ok(Pushed {
            rt: self.rt,
            shared: Arc::try_clone(&self.shared)?,
        })
    }
}

impl<R: Clock> Clock for Pushed<R> {
    fn monotonic(&self) -> io::Result<Duration> {
        let pushed = Duration::from_secs(self.shared.seconds.load(Ordering::SeqCst));
        if self.shared.is_stopped.load(Ordering::SeqCst) {
            return Ok(pushed);
        }
        Ok(self.rt.monotonic()?.saturating_add(pushed))
    }

    fn since_1970(&self) -> io::Result<Duration> {
        self.rt.since_1970()
    }

    fn sleep(&self, duration: Duration) {
        self.rt.sleep(duration)
    }
}

impl<R: Wait + Clock> Wait for Pushed<R> {}

impl<R: Threads + Clock> Threads for Pushed<R> {}

impl<R: Net + Clock> Net for Pushed<R> {
    type Stream = R::Stream;

    type Listener = R::Listener;

    fn bind(&self, address: SocketAddr) -> io::Result<R::Listener> {
        self.rt.bind(address)
    }

    fn connect(&self, address: SocketAddr) -> io::Result<R::Stream> {
        self.rt.connect(address)
    }
}

impl<R: Clock + Files<File = File>> Host for Pushed<R> {
    type File = File;

    fn make(&self, path: &str) -> io::Result<File> {
        File::create(&self.rt, path)
    }

    fn notify(&self, _alloc: Global, notice: &Notice<'_>) {
        let count = match notice {
            Notice::RecordingFailed { .. } => &self.shared.failures,
            Notice::RecordingAgain { .. } => &self.shared.again,
            Notice::ShortOfMemory(_) => &self.shared.short,
            Notice::Remote(_) => &self.shared.remote,
            _ => return,
        };
        count.fetch_add(1, Ordering::SeqCst);
    }

    fn has_memory(&self, _alloc: Global) -> bool {
        self.shared.asked.fetch_add(1, Ordering::SeqCst);
        !self.shared.is_short.load(Ordering::SeqCst)
    }
}
