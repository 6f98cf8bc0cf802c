//! The scenarios as rows: the name, the least deeds, the crowds unless they are usual, the faults, and the
//! fields that differ from `USUAL`.
use crate::roles;
use crate::scenario::{Crowd, Scenario, USUAL};
use crate::weather::Fault;

macro_rules! scenarios {
    ($($name:literal ($($least:literal),*) [$($host:ident $role:ident $count:literal),*]
        [$($fault:ident $chance:literal),*] $($field:ident: $value:expr),*;)*) => {
        &[$(Scenario {
            name: $name,
            least: [$($least),*],
            people: &[$(Crowd::$host(&roles::$role, $count)),*],
            chances: &[$((Fault::$fault, $chance)),*],
            $($field: $value,)*
            ..USUAL
        }),*]
    };
}

/// Results of calls and polls.
pub const CALLS: &[Scenario] = scenarios! {
    "calm" (128, 89, 2416, 0) [] [];
    "signals" (120, 80, 2336, 0) [] [Interrupted 100, Short 200];
    "edges" (107, 67, 1852, 0) [] [Late 300, Spurious 50];
    "sparing" (128, 88, 1500, 0) []
        [Late 300, Short 200, Interrupted 50, Unwatched 20] is_sparing: true, limit_ms: 3000;
    "accepts" (153, 119, 1676, 0) []
        [Unleft 100, Aborted 30, Exhausted 20, Unable 10, Interrupted 20] backlog_most: 3, limit_ms: 3000;
    "exhausted" (980, 846, 2619, 0) [Local NODE 20, Local SEEKER 2] [Exhausted 20, Unable 10] limit_ms: 3000;
    "unheard" (1010, 878, 2740, 0) [Local NODE 20, Local SEEKER 2] [Exhausted 20, Unwatched 100] limit_ms: 3000;
    "surges" (410, 331, 18696, 0) [Local NODE 12, Local SEEKER 45] [Behind 1000] end_bytes: 1_150_000;
    "watches" (131, 91, 2369, 0) [] [Unwatched 50] limit_ms: 3000;
    "lulls" (0, 0, 754, 0) [Local SEEKER 3] [Unwatched 500] burst_us: 8_000_000, limit_ms: 3000;
    "threads" (726, 647, 12050, 0) [Local NODE 12, Local LISTER 20, Local SEEKER 40]
        [Held 5, Late 100] conn_max: 512, burst_us: 100_000, hold_us: 30_000, limit_ms: 3000;
    "drips" (102, 63, 1766, 0) [] [Dripped 500, Shut 300];
    "plodders" (149, 136, 757, 0) [Local PLODDER 6, Local NODE 2, Local DRIPPER 1] [];
    "resets" (128, 88, 2264, 0) [] [Reset 300, Late 50, Broken 500, Interrupted 100];
    "losses" (153, 115, 2011, 0) [] [Lost 50] limit_ms: 4000;
};

/// Peers, and recordings of them.
pub const PEOPLE: &[Scenario] = scenarios! {
    "files" (131, 92, 2374, 0) [] [] file_bytes_most: 4000;
    "pipes" (131, 91, 2403, 0) [] [] file_bytes_most: 4000, is_plain: false;
    "restarts" (994, 861, 2752, 0) [Local NODE 20, Local SEEKER 2] [Late 200, Reset 100];
    "rivals" (1287, 146, 1989, 552) [Local NODE 3, Local RIVAL 4] [];
    "terse" (810, 128, 1222, 412) [Local NODE 3, Local RIVAL 4] [] is_sparing: true;
    "strangers" (48, 22, 544, 0) [Remote SILENT 30, Remote DRIPPER 12, Remote BABBLER 12, Remote LISTER 6,
        Local NODE 4, Local SEEKER 3]
        [] conn_max: 56;
    "crowded" (240, 214, 849, 0) [Local SILENT 20, Local DRIPPER 10, Local NODE 4, Local SEEKER 4, Remote SILENT 6]
        [] conn_max: 16, hold_us: 300_000, limit_ms: 3000, is_strict: false;
    "talkers" (133, 73, 159, 0) [Local TALKER 3, Local NODE 3, Local SEEKER 3] [] hold_us: 20_000;
    "shouters" (228, 93, 306, 0) [Local TALKER 3, Local NODE 3, Local SEEKER 3] [] hold_us: 100_000, talk_bytes: 1000;
    "crests" (528, 471, 15156, 0) [Local NODE 12, Local TARDY 250]
        [Slow 1000] conn_max: 512, burst_us: 1_000_000, hold_us: 300_000, limit_ms: 10_000;
    "hung" (700, 100, 2100, 900) [Local NODE 3, Local RIVAL 4]
        [Hung 2] hold_us: 5_000_000, is_strict: false, limit_ms: 8000;
    "hasty" (1434, 124, 2430, 996) [Local NODE 3, Local RIVAL 4] [Hung 2, Held 10]
        timeout_us: 1_000_000, refusal_us: 60_000_000, hold_us: 5_000_000, limit_ms: 8000;
    "readers" (162, 83, 856, 0) [Local NODE 12, Local SLOW 10, Local DUMPER 4, Local SEEKER 2]
        [Short 100, Interrupted 50];
    "unreading" (198, 171, 1982, 0) [Local UNREADING 6, Remote UNREADING 3, Local SILENT 3, Remote DRIPPER 3,
        Local NODE 4, Local LISTER 2]
        [] conn_max: 32;
};

/// Bursts, permits and clocks.
pub const TIMES: &[Scenario] = scenarios! {
    "hours" (850, 771, 850, 0) [Local NODE 12] [] patience_us: 25_000, rest_us: 3_600_000_000;
    "bursts" (682, 602, 13354, 0) [Local NODE 12, Local LISTER 20, Local SEEKER 40]
        [] conn_max: 512, burst_us: 100_000, hold_us: 30_000, patience_us: 25_000;
    "besieged" (0, 0, 1898, 0) [Remote SILENT 40, Local PLODDER 2, Local SEEKER 8]
        [] conn_max: 16, burst_us: 2_000_000, hold_us: 60_000_000, limit_ms: 40;
    "occupied" (60, 7, 74, 0) [Local NODE 8, Local SEEKER 1]
        [] conn_max: 8, hold_us: 60_000_000, limit_ms: 250, is_strict: false;
    "encamped" (84, 64, 1117, 0) [Remote SILENT 4, Local NODE 3, Local SEEKER 2]
        [] conn_max: 7, burst_us: 2_000_000, hold_us: 60_000_000, limit_ms: 210;
    "hosted" (0, 0, 1366, 0) [Remote SILENT 3, Local SILENT 3, Local SEEKER 4]
        [] conn_max: 6, burst_us: 2_000_000, hold_us: 60_000_000, limit_ms: 210;
    "placed" (20, 7, 1439, 0) [Remote SILENT 5, Local NODE 2, Local SEEKER 1]
        [Delayed 1000, Taken 1000]
        timeout_us: 3_600_000_000, conn_max: 7, burst_us: 4_000_000, hold_us: 3_600_000_000, limit_ms: 1500;
    "loaded" (1053, 945, 22382, 0) [Local NODE 20, Local LISTER 100, Local SEEKER 120]
        [Slow 1000] conn_max: 512, burst_us: 100_000, hold_us: 30_000, limit_ms: 10_000;
    "stuck" (260, 105, 7398, 212) [Local NODE 6, Local RIVAL 6, Local SEEKER 40]
        [Stuck 1] conn_max: 512, burst_us: 100_000, hold_us: 5_000_000, is_strict: false, limit_ms: 10_000;
    "jumps" (123, 83, 2284, 0) [] [Jump 2];
    "timeless" (123, 83, 2284, 0) [] [Jump 2, Timeless 300] file_bytes_most: 20_000;
    "stopped" (267, 232, 3474, 0) [Local NODE 6, Local SEEKER 10, Local LISTER 10]
        [Stopped 5, Late 200, Lost 200] limit_ms: 30_000;
    "frozen" (1940, 1876, 1940, 0) [Local NODE 12] [Stopped 100, Late 200] limit_ms: 1_000_000;
    "tardy" (0, 0, 5870, 0) [Local TARDY 180, Local SEEKER 1] [] conn_max: 256;
};

/// Short memory, full disks, floods, and ends.
pub const ENDS: &[Scenario] = scenarios! {
    "unread" (134, 94, 2337, 0) [] [Unread 2] limit_ms: 3000;
    "clockless" (164, 124, 2212, 0) [Local NODE 6, Local SEEKER 6] [Unread 100, Unwatched 50];
    "starved" (15, 1000, 400, 0) [] [Starved 100] is_strict: false, may_end: true;
    "famine" (123, 13372, 123, 0) [Local NODE 12] [Famine 100] is_strict: false, limit_ms: 10_000, may_end: true;
    "scarce" (74, 25211, 14576, 0) [] [Famine 100] is_strict: false, limit_ms: 3000;
    "stalls" (130, 90, 2429, 0) [] [Stalled 700, Short 50];
    "full" (138, 98, 2384, 0) [] [Full 400];
    "refilled" (740, 660, 5300, 0) [Local NODE 12, Local SEEKER 2]
        [Full 150, Short 50] full_us: 25_000_000, file_bytes_most: 20_000;
    "foreign" (44, 1280, 300, 0) [Remote NODE 4, Remote DUMPER 3, Remote STOPPER 2, Remote KILLER 2, Local NODE 4,
        Local SEEKER 3]
        [] conn_max: 32, file_bytes_most: 4000;
    "short" (500, 800, 3000, 0) [Local NODE 12, Local SEEKER 4] [Starved 10] is_strict: false, limit_ms: 3000;
    "lacking" (104, 728, 149, 44) [Local NODE 12, Local RIVAL 4]
        [Starved 20, Late 300] is_strict: false, limit_ms: 3000;
    "kills" (50, 40, 80, 0) [Local NODE 4, Local SEEKER 4, Local STOPPER 2, Local KILLER 1]
        [] hold_us: 5_000, is_relaxed: true, is_strict: false, may_end: true;
    "stops" (646, 606, 5827, 0) [Local NODE 6, Local STOPPER 3, Local SEEKER 2]
        [] hold_us: 5_000_000, is_relaxed: true, is_strict: false;
    "choked" (182, 0, 228, 0) [Local UNREADING 200, Remote UNREADING 40, Local NODE 30, Local SEEKER 3, Local LISTER 3]
        [] conn_max: 512, hold_us: 60_000_000, unsent_bytes_most: 20_000;
    "penned" (56, 42, 156, 0) [Local SILENT 40, Remote SILENT 10, Local NODE 4, Local SEEKER 4]
        [] conn_max: 256, descriptors: 24, limit_ms: 3000, timeout_us: 60_000_000;
    "unheeded" (0, 690, 180, 0) [Local SILENT 6, Remote SILENT 3, Remote DRIPPER 3, Local NODE 3, Local SEEKER 3]
        [Unreported 1000] limit_ms: 10;
    "few" (0, 0, 280, 0) [Local SILENT 2, Remote SILENT 1, Local SEEKER 1]
        [Unreported 1000] hold_us: 60_000_000, limit_ms: 10;
    "floods" (654, 577, 14512, 0) [Local TARDY 750, Local NODE 30]
        [Stopped 20, Late 300] conn_max: 1024, burst_us: 1_000_000, hold_us: 300_000, limit_ms: 200_000;
    "swells" (700, 546, 15852, 0) [Local TARDY 750, Local NODE 30]
        [Held 1, Reversed 500] conn_max: 1024, burst_us: 1_000_000, hold_us: 300_000, limit_ms: 200_000;
    "sleepers" (364, 164, 5364, 0) [Local TARDY 750, Local NODE 30]
        [Drowsy 900, Reversed 500] conn_max: 1024, burst_us: 1_000_000, hold_us: 300_000, limit_ms: 200_000;
    "deaf" (55, 20, 700, 0) [] [Deaf 2] is_strict: false, may_end: true;
    "storm" (154, 116, 1854, 0) []
        [Interrupted 30, Short 50, Aborted 15, Exhausted 15, Unwatched 15, Late 100, Spurious 10, Held 5, Dripped 100,
            Reset 50] limit_ms: 4000;
};
