ghost use Rattle.std.specs.Prelude.{◌≡◌, [], false};
ghost use Rattle.std.specs.Borrow.{sem, Lends};
ghost use Rattle.portmap_link.specs.contracts.adapters.stream.Both.{the_row};
ghost use Rattle.portmap_link.specs.Adapters.{both_inner, both_pulls, both_puts, both_broken};

use super::{read_once, write_once};
use crate::{Device, GhostList, Input, Output, Pull, Put};
use std::io::{Read, Write};

/// A stream of the standard library as a device that is read and written. Its bytes are unknown to contracts: std does
/// not say what a read does to the bytes written, nor what a write does to the bytes left.
#[derive(Drop)]
pub struct Both<S: Read + Write> {
    inner: S,
    failed: bool,
    pulls: GhostList<Pull>,
    puts: GhostList<Put>,
}

impl<S: Read + Write> Both<S> {
    pub fn new(inner: S) -> Both<S>
        ensures inner { both_inner result ≡ inner }
        ensures whole { both_broken result ≡ false }
        ensures pulls { both_pulls result ≡ [] }
        ensures puts { both_puts result ≡ [] }
    {
        Both {
            inner,
            failed: false,
            pulls: GhostList::new(),
            puts: GhostList::new(),
        }
    }

    /// Returns the stream, for settings and registration. Reads and writes of the stream bypass the device.
    pub fn get_mut(&mut self) -> &mut S
        ensures value { result.now ≡ both_inner self.old }
        ensures* writes_back { sem 𝓛 (Lends (the_row S.row) S.row self.entry result
            (λ w. record self.old { inner = w })) }
    {
        &mut self.inner
    }

    pub fn into_inner(self) -> S
        ensures { result ≡ both_inner self }
    {
        let Both {
            inner,
            failed: _,
            pulls: _,
            puts: _,
        } = self;
        inner
    }
}

impl<S: Read + Write> Device for Both<S> {
    ghost use Rattle.std.specs.Prelude.{None};

    ghost left = { λ _. None };

    ghost held = { λ _. None };

    ghost pulls = { both_pulls };

    ghost puts = { both_puts };

    ghost broken = { both_broken };
}

impl<S: Read + Write> Input for Both<S> {
    fn pull(&mut self, buffer: &mut [u8]) -> Pull {
        let answer = read_once(&mut self.inner, &mut self.failed, buffer);
        self.pulls.note(&answer);
        answer
    }

    fn failed(&self) -> bool {
        self.failed
    }
}

impl<S: Read + Write> Output for Both<S> {
    fn put(&mut self, bytes: &[u8]) -> Put {
        let answer = write_once(&mut self.inner, &mut self.failed, bytes);
        self.puts.note(&answer);
        answer
    }

    fn failed(&self) -> bool {
        Input::failed(self)
    }
}
