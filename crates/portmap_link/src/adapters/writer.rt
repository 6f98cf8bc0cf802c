ghost use Rattle.std.specs.Prelude.{◌≡◌, [], false, true, not};
ghost use Rattle.std.specs.Io.KnownBytes.{Keeps};
ghost use Rattle.portmap_link.specs.Adapters.{writing_inner, writing_puts, writing_broken};

use super::write_once;
use crate::{Device, GhostList, Output, Put};
use std::io::Write;

/// A writer of the standard library as a device.
#[derive(Drop)]
pub struct Writing<W: Write> {
    inner: W,
    failed: bool,
    puts: GhostList<Put>,
}

impl<W: Write> Writing<W> {
    pub fn new(inner: W) -> Writing<W>
        ensures inner { writing_inner result ≡ inner }
        ensures whole { writing_broken result ≡ false }
        ensures puts { writing_puts result ≡ [] }
    {
        Writing {
            inner,
            failed: false,
            puts: GhostList::new(),
        }
    }

    /// Flushes the writer. Returns false if this or an earlier call failed, and then the device has failed permanently.
    pub fn finish(&mut self) -> bool
        ensures held { Keeps (W.contents (writing_inner self.old)) (W.contents (writing_inner self.new)) }
        ensures puts { writing_puts self.new ≡ writing_puts self.old }
        ensures broken { writing_broken self.new ≡ not result }
        ensures for_good { writing_broken self.old ≡ true → result ≡ false }
    {
        self.failed = self.failed || self.inner.flush().is_err();
        !self.failed
    }

    pub fn into_inner(self) -> W
        ensures { result ≡ writing_inner self }
    {
        let Writing {
            inner,
            failed: _,
            puts: _,
        } = self;
        inner
    }
}

impl<W: Write> Device for Writing<W> {
    ghost use Rattle.std.specs.Prelude.{None, []};

    ghost left = { λ _. None };

    ghost held = { λ w. W.contents (writing_inner w) };

    ghost pulls = { λ _. [] };

    ghost puts = { writing_puts };

    ghost broken = { writing_broken };
}

impl<W: Write> Output for Writing<W> {
    fn put(&mut self, bytes: &[u8]) -> Put {
        let answer = write_once(&mut self.inner, &mut self.failed, bytes);
        self.puts.note(&answer);
        answer
    }

    fn failed(&self) -> bool {
        self.failed
    }
}
