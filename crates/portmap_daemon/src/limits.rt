//! The limits of a daemon over sockets and threads.
ghost use Rattle.std.specs.Prelude.{◌≡◌};
ghost use Rattle.portmap_daemon.specs.declared.limits.TheConstants.{FLUSH_SECONDS_MOST, TIMEOUT_SECONDS_MOST};

use std::thread::Builder;

/// The maximal timeout of a connection, in seconds.
pub const TIMEOUT_SECONDS_MOST: u32 = 86_400;

/// The number of seconds for which a daemon waits at its end for the last write of its recording, and for that of its
/// lines.
pub(crate) const FLUSH_SECONDS_MOST: u64 = 5;

/// The number of bytes that a thread allocates as it starts. The C library then gives the thread its own heap, which it
/// could not get once memory is short.
pub(crate) const FIRST_BYTES: usize = 64;

/// The number of bytes of lines that wait to be written. The longest line has about 4,200.
pub(crate) const LINES_BYTES_MOST: usize = 8192;

/// The size of the stack of each thread beside the first, in bytes.
const STACK_BYTES: usize = 512 << 10;

/// Returns what starts each thread beside the first.
pub(crate) fn small_stack() -> Builder {
    Builder::new().stack_size(STACK_BYTES)
}

/// Law: the constants that definitions take from the code are those of this profile.
pub fn numbers_are_the_profiles()
    ensures { (TIMEOUT_SECONDS_MOST ≡ 86400) × (FLUSH_SECONDS_MOST ≡ 5) }
{}
