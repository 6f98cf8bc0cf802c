ghost use Rattle.std.specs.Prelude.{◌≡◌, [], false};
ghost use Rattle.portmap_link.specs.Adapters.{reading_inner, reading_pulls, reading_broken};

use super::read_once;
use crate::{Device, GhostList, Input, Pull};
use std::io::Read;

/// A reader of the standard library as a device.
#[derive(Drop)]
pub struct Reading<R: Read> {
    inner: R,
    failed: bool,
    pulls: GhostList<Pull>,
}

impl<R: Read> Reading<R> {
    pub fn new(inner: R) -> Reading<R>
        ensures inner { reading_inner result ≡ inner }
        ensures whole { reading_broken result ≡ false }
        ensures pulls { reading_pulls result ≡ [] }
    {
        Reading {
            inner,
            failed: false,
            pulls: GhostList::new(),
        }
    }

    pub fn into_inner(self) -> R
        ensures { result ≡ reading_inner self }
    {
        let Reading {
            inner,
            failed: _,
            pulls: _,
        } = self;
        inner
    }
}

impl<R: Read> Device for Reading<R> {
    ghost use Rattle.std.specs.Prelude.{None, []};

    ghost left = { λ r. R.remaining (reading_inner r) };

    ghost held = { λ _. None };

    ghost pulls = { reading_pulls };

    ghost puts = { λ _. [] };

    ghost broken = { reading_broken };
}

impl<R: Read> Input for Reading<R> {
    fn pull(&mut self, buffer: &mut [u8]) -> Pull {
        let answer = read_once(&mut self.inner, &mut self.failed, buffer);
        self.pulls.note(&answer);
        answer
    }

    fn failed(&self) -> bool {
        self.failed
    }
}
