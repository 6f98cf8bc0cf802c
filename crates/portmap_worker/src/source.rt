//! Sources of links, and the turns of a worker.
ghost use Rattle.std.specs.Prelude.{◌≡◌, ℕ, Bool, IfNone, IfSome, is_some};
ghost use Rattle.portmap_worker.specs.Keys.{Comes, Ends, Stay};

use crate::Next;
use portmap_link::{Input, Output};

/// The next thing that a worker has to do.
#[derive(Clone, Copy, Debug, PartialEq, Eq)]
pub enum Turn {
    /// A new connection, local or remote, whose link has this key.
    Fresh { key: u64, local: bool },
    /// A link to serve: it may have bytes, may take bytes, has ended or has failed.
    Ready(u64),
    /// A link whose connection times out: its time is over, it is evicted, or memory is short.
    Late(u64),
    /// No link: time has passed, and the worker closes the connections that another worker stopped.
    Idle,
    /// The end: nothing more will come.
    Stop,
}

/// A source of links that hands them out. With edge-triggered events, it returns `Ready` for a link again until a pull
/// or a put of that link would block.
pub trait Source {
    type Link: Input + Output;

    fn turn(&mut self) -> Turn;

    fn link(&mut self, key: u64) -> Option<&mut Self::Link>;

    /// Drops the link with this key.
    fn end(&mut self, key: u64);
}

/// A server of the links of a source.
pub trait Serve<I: Input + Output> {
    /// The relation between a server before a call of `serve` and after it.
    ghost becomes: { Self → Self → Type 0 };

    /// Serves the link, and returns what is next for its connection. If `is_last`, it only writes what waits for the
    /// link.
    fn serve(&mut self, key: u64, is_last: bool, link: &mut I) -> Next
        ensures { becomes self.old self.new };
}

/// A source that lends its links to a server, so that contracts know which links it has.
pub trait LinkSource {
    type Link: Input + Output;

    /// `has source key there`: the source has a link with `key`, or has none, as `there` says. If it hides its links,
    /// both hold.
    ghost has: { Self → ℕ → Bool → Type 0 } = { λ _ _ _. Unit };

    fn turn(&mut self) -> Turn
        ensures { Comes (Self.has self.old) (Self.has self.new) result };

    /// Lends the link with this key to `server`. Returns what is next for its connection, or `None` without such a
    /// link.
    fn lend<U: Serve<Self::Link>>(
        &mut self,
        key: u64,
        is_last: bool,
        server: &mut U,
    ) -> Option<Next>
        ensures there { Self.has self.old key (is_some result) }
        ensures links { Stay (Self.has self.old) (Self.has self.new) }
        ensures served { IfSome result (λ _. U.becomes server.old server.new) }
        ensures none { IfNone result (server.new ≡ server.old) };

    /// Drops the link with this key.
    fn end(&mut self, key: u64)
        ensures { Ends key (Self.has self.old) (Self.has self.new) };
}

/// A source whose links are handed out, and hidden from contracts.
#[derive(Drop)]
pub struct HandsOut<S: Source>(pub S);

impl<S: Source> LinkSource for HandsOut<S> {
    type Link = S::Link;

    fn turn(&mut self) -> Turn {
        self.0.turn()
    }

    fn lend<U: Serve<S::Link>>(&mut self, key: u64, is_last: bool, server: &mut U) -> Option<Next> {
        let link = self.0.link(key)?;
        Some(server.serve(key, is_last, link))
    }

    fn end(&mut self, key: u64) {
        self.0.end(key);
    }
}
