//! The number of connections that the system's limit of descriptors allows.
ghost use Rattle.std.specs.Prelude.{◌≡◌, ◌+◌, ◌-◌, min, max};
ghost use Rattle.portmap_daemon.specs.declared.descriptors.TheConstants.{SPARE_DESCRIPTORS};

use libc::types::rlimit;
use libc::{RLIMIT_NOFILE, close, getrlimit};

/// The number of descriptors that are reserved for other uses than connections, among them two files of a recording.
const SPARE_DESCRIPTORS: u64 = 4;

const STDIN: i32 = 0;

/// Returns the number of permits, which is at least 1, from the limit and the number of used descriptors. Each worker
/// has one descriptor more, for a connection that waits for its permit.
fn places_within(wanted: u32, limit: u64, used: u64, workers: u32) -> u32
    ensures { result ≡ max 1 (min wanted (limit - (used + workers + SPARE_DESCRIPTORS))) }
{
    let kept = used
        .saturating_add(u64::from(workers))
        .saturating_add(SPARE_DESCRIPTORS);
    u64::from(wanted).min(limit.saturating_sub(kept)).max(1) as u32
}

/// Returns the limit of descriptors of this process, or `u64::MAX` if the system does not report it.
pub(crate) fn limit() -> u64 {
    let mut limit = rlimit {
        rlim_cur: u64::MAX,
        rlim_max: u64::MAX,
    };
    if getrlimit(RLIMIT_NOFILE, &mut limit) == 0 {
        limit.rlim_cur
    } else {
        u64::MAX
    }
}

/// Returns the number of open descriptors. It is the number of the next descriptor, if no lower descriptor was closed.
/// Returns 0 if the system does not report it.
fn used() -> u64 {
    let next = os::duplicate(STDIN);
    let _ = close(next);
    next.max(0) as u64
}

pub(crate) fn places(wanted: u32, workers: u32) -> u32 {
    places_within(wanted, limit(), used(), workers)
}
