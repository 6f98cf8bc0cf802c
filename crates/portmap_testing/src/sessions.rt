//! Recorded sessions, byte for byte as in the format, and their transcripts.
/// Port 4369, not relaxed, at most two connections and two names. A node registers `a`, and another peer looks it up.
pub const SESSION: [u8; 109] = [
    0x45, 0x50, 0x4D, 0x53, 1, 0, 0x11, 0x11, 0, 0, 0, 2, 0, 0, 0, 2, //
    1, 1, 0, 0, 0, 0, 0, 0, 0, 0, //
    2, 0, 0, 0, 0, 0, 0, 0, 0, 0, 0x10, 0, 0x0E, 0x78, 0x13, 0x88, 0x4D, 0, 0, 6, 0, 5, 0, 1, 0x61,
    0, 0, 0, 0, 0, 0, 6, 0x76, 0, 0, 0, 0, 4, //
    1, 1, 0, 0, 0, 0, 0, 0, 0, 1, //
    2, 0, 0, 0, 0, 0, 0, 0, 1, 0, 4, 0, 2, 0x7A, 0x61, 1, 0, 0, 0, 0x0F, 0x77, 0, 0x13, 0x88, 0x4D,
    0, 0, 6, 0, 5, 0, 1, 0x61, 0, 0,
];

/// The header of `SESSION`.
pub const HEADER: &[u8] = &[
    0x45, 0x50, 0x4D, 0x53, 1, 0, 0x11, 0x11, 0, 0, 0, 2, 0, 0, 0, 2,
];

/// A session with the header of `SESSION`. A remote peer requests the names and closes its connection.
pub const REMOTE_NAMES: &[u8] = &[
    0x45, 0x50, 0x4D, 0x53, 1, 0, 0x11, 0x11, 0, 0, 0, 2, 0, 0, 0, 2, //
    1, 0, 0, 0, 0, 0, 0, 0, 0, 0, //
    2, 0, 0, 0, 0, 0, 0, 0, 0, 0, 3, 0, 1, 0x6E, 1, 0, 0, 0, 4, 0, 0, 0x11, 0x11, //
    3, 0, 0, 0, 0, 0, 0, 0, 0,
];

/// From position 2 on: the local connection 0 has registered `a` with creation 4, and closes. Worker 2 serves the
/// close.
pub const CLOSES: [u8; 85] = [
    0x45, 0x50, 0x4D, 0x53, 2, 0, 0x11, 0x11, 0, 0, 0, 2, 0, 0, 0, 2, //
    0, 0, 0, 0, 0, 0, 0, 2, 0, 0, 0, 0, 1, 0, 0, 0, 0, 0, 0, 0, 1, //
    0x13, 0x88, 0x4D, 0, 0, 6, 0, 5, 0, 1, 0x61, 0, 0, 0, 0, 0, 4, 0, 0, 0, 0, 0, 0, 0, 0, //
    0, 0, 0, 0, 0, 0, 0, 0, 1, 1, //
    0, 0, 0, 2, 3, 0, 0, 0, 0, 0, 0, 0, 0,
];

/// A remote connection is open in slot 0 at the start. Its phase is `Done`.
pub const REMOTE_OPEN: &[u8] = &[
    0x45, 0x50, 0x4D, 0x53, 2, 0, 0x11, 0x11, 0, 0, 0, 2, 0, 0, 0, 2, //
    0, 0, 0, 0, 0, 0, 0, 0, 0, 0, 0, 0, 0, 0, 0, 0, 0, 0, 0, 0, 1, //
    0, 0, 0, 0, 0, 0, 0, 0, 0, 2,
];

/// A remote peer connects at worker 3, and a local peer at worker 1. The remote peer closes at worker 2, and the local
/// peer at worker 4.
pub const MIXED: &[u8] = &[
    0x45, 0x50, 0x4D, 0x53, 2, 0, 0x11, 0x11, 0, 0, 0, 2, 0, 0, 0, 2, //
    0, 0, 0, 0, 0, 0, 1, 0, 0, 0, 0, 0, 0, 0, 0, 0, 0, 0, 0, 0, 0, //
    0, 0, 0, 3, 1, 0, 0, 0, 0, 0, 0, 0, 0, 0, //
    0, 0, 0, 1, 1, 1, 0, 0, 0, 0, 0, 0, 0, 1, //
    0, 0, 0, 2, 3, 0, 0, 0, 0, 0, 0, 0, 0, //
    0, 0, 0, 4, 3, 0, 0, 0, 0, 0, 0, 0, 1,
];

/// `MIXED` without the remote peer.
pub const LOCAL_LEFT: &[u8] = &[
    0x45, 0x50, 0x4D, 0x53, 2, 0, 0x11, 0x11, 0, 0, 0, 2, 0, 0, 0, 2, //
    0, 0, 0, 0, 0, 0, 1, 0, 0, 0, 0, 0, 0, 0, 0, 0, 0, 0, 0, 0, 0, //
    0, 0, 0, 1, 1, 1, 0, 0, 0, 0, 0, 0, 0, 1, //
    0, 0, 0, 4, 3, 0, 0, 0, 0, 0, 0, 0, 1,
];

/// The transcript of `SESSION`: a registration and a lookup.
pub const LOOK_UP_LINES: &[u8] = b"0 connect 0 local
1 piece 0 get 000e7813884d00000600050001610000 say 760000000004 stay
2 connect 1 local
3 piece 1 get 00027a61 say 770013884d00000600050001610000 close
run of 4 entries
";

/// The transcript of `wrong_session`.
pub const WRONG_LOOK_UP_LINES: &[u8] = b"0 connect 0 local
1 piece 0 get 000e7813884d00000600050001610000 say 760000000004 stay
2 connect 1 local
3 piece 1 get 00027a61 say 770013884d00000600050001610001 close
broken at entry 3
";

/// Returns `SESSION` with a wrong reply to the lookup.
pub fn wrong_session() -> [u8; 109] {
    let mut session = SESSION;
    session[108] = 1;
    session
}
