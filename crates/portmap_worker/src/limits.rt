//! The numbers that tune workers. `MS` are milliseconds, `US` microseconds.
ghost use Rattle.std.specs.Prelude.{◌≡◌, ◌+◌, ◌*◌, ◌^◌};
ghost use Rattle.portmap_worker.specs.declared.limits.TheConstants.{ACCEPT_BACKOFF_MS, RESERVED_SHARE};
ghost use Rattle.portmap_worker.specs.declared.limits.TheConstants.{UNSENT_BYTES_MOST, UNSENT_HEAVY_SHARE};
ghost use Rattle.portmap_worker.specs.declared.limits.TheConstants.{UNSENT_SPARED_SHARE};
ghost use Rattle.portmap_worker.specs.declared.limits.TheConstants.{LOG_BYTES_HEAVY, PULL_BYTES_MOST};

// ---- connections

/// The most bytes of one pull.
pub const PULL_BYTES_MOST: usize = 4096;

/// The number of times that a worker which ends tries again to write the last reply.
pub(crate) const LAST_TRIES_MOST: u32 = 999;

/// Remote peers leave this share of all permits to local peers: one in eight.
pub(crate) const RESERVED_SHARE: u64 = 8;

/// The age from which on a connection may be evicted for a permit, and the time for which a peer may read nothing.
pub(crate) const YOUNG_MS: u64 = 1000;

/// The time that a local peer waits for a permit. At first only remote connections are evicted for it.
pub(crate) const PERMIT_TIMEOUT_MS: u64 = 200;

pub(crate) const REMOTE_FIRST_MS: u64 = 50;

/// The time after which a worker that found no candidate looks again.
pub(crate) const EVICTION_BACKOFF_MS: u64 = 10;

// ---- pending registrations

/// The time that a pending registration waits for its name. The wait for an epoch after it is limited in time and
/// retries.
pub(crate) const NAME_TIMEOUT_MS: u64 = 50;

pub(crate) const EPOCH_TIMEOUT_MS: u64 = 5000;

pub(crate) const EPOCH_RETRIES_MOST: u32 = 500;

// ---- polls

/// The most events of one poll that a worker handles.
pub const EVENTS_MOST: usize = 256;

/// After this many turns a worker polls, even if links are queued.
pub(crate) const TURNS_MOST: u32 = 64;

/// The most polls in one call of `turn` that lead to no turn, since other workers took what was reported.
pub(crate) const POLLS_MOST: u32 = 64;

/// The time between two scans, which find timeouts and connections that another worker stopped.
pub(crate) const SCAN_INTERVAL_MS: u64 = 450;

/// The longest wait of a poll if there is nothing to scan.
pub(crate) const IDLE_TIMEOUT_MS: u64 = 10_000;

/// The shortest wait of a poll that may wait at all.
pub(crate) const SHORT_TIMEOUT_MS: u64 = 1;

// ---- replies that wait to be read

/// The most bytes of replies that may wait, over all connections. Beyond it, peers that read nothing are reset.
pub const UNSENT_BYTES_MOST: u64 = 25_165_824;

/// Only a connection with more than one part in 1,024 of the limit is reset. If 1,024 connections exceed the limit
/// together, at least one connection has more than that.
pub(crate) const UNSENT_HEAVY_SHARE: u64 = 1024;

/// If the limit is exceeded by more than a quarter, young and local connections are reset too.
pub(crate) const UNSENT_SPARED_SHARE: u64 = 4;

/// If more than one part in 32 of the limit waits, local peers that ask for lists are served one in a millisecond.
pub(crate) const UNSENT_CROWDED_SHARE: u64 = 32;

// ---- which workers accept

/// The time for which a worker leaves a listener alone if it can't accept or watch there.
pub(crate) const ACCEPT_BACKOFF_MS: u64 = 20;

/// After this many reports in a row without a connection, a worker leaves the listeners to others.
pub(crate) const IDLE_REPORTS_MOST: u32 = 2;

/// A worker that accepts and has not polled for this long counts as held.
pub(crate) const HELD_MS: u64 = 20;

// ---- the log

/// The log is drained each second, each 50 milliseconds while memory is short, and at once if it is heavy. A heavy log
/// is weighed again soon.
pub(crate) const SECOND_MS: u64 = 1000;

pub(crate) const SHORT_OF_MEMORY_MS: u64 = 50;

pub(crate) const LOG_BYTES_HEAVY: u64 = 262_144;

pub(crate) const LOG_HEAVY_MS: u64 = 5;

/// A worker weighs the log each time that its links have moved this many bytes.
pub(crate) const WEIGH_BYTES: usize = 65_536;

/// The most drains in a row.
pub(crate) const DRAINS_MOST: u32 = 1024;

/// The first capacity of the lists of drained entries, and the capacity from which on they are shrunk.
pub(crate) const ENTRIES_ROOM: usize = 64;

pub(crate) const ENTRIES_ROOM_MOST: usize = 8192;

/// A recording that failed begins again after this many seconds in a row in which it could.
pub(crate) const RESUME_SECONDS: u32 = 10;

// ---- memory

/// The sizes of a memory reserve. If the largest is freed, the system has it back at once. The smaller sizes suit a
/// heap in pieces, which retired names leave.
pub(crate) const RESERVE_BYTES: [usize; 5] = [1_048_576, 524_288, 262_144, 131_072, 65_536];

/// The daemon ends after this many seconds in a row in which lack of memory let nothing through.
pub(crate) const STARVED_SECONDS_MOST: u32 = 5;

/// A law: the numbers that definitions take from the code are those of this profile.
pub fn numbers_are_the_profiles()
    ensures serving { (PULL_BYTES_MOST ≡ 4096) × (RESERVED_SHARE ≡ 8) × (ACCEPT_BACKOFF_MS ≡ 20) }
    ensures log { LOG_BYTES_HEAVY ≡ 2 ^ 18 }
    ensures unsent { (UNSENT_BYTES_MOST ≡ 24 * 2 ^ 20) × (UNSENT_HEAVY_SHARE ≡ 1024) × (UNSENT_SPARED_SHARE ≡ 4) }
{}
