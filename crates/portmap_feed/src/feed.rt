ghost use Rattle.std.specs.Prelude.{◌≡◌, ◌≢◌, ◌≤◌, ◌+◌, ◌*◌, ℕ, List, [], ◌++◌, length, take, max, vec_capacity, IsOk};
ghost use Rattle.std.specs.Prelude.{IfOk, OnOk, OnErr, option_map};
ghost use Rattle.portmap_wire.specs.declared.request.TheConstants.{BODY_MOST};
ghost use Rattle.portmap_feed.specs.Seen.{seen_of};
ghost use Rattle.portmap_feed.specs.Stream.{More, first_request, room, kept, body_in};

use portmap_wire::{BODY_MOST, NoMemory};
use std::alloc::Global;
use std::marker::Model;

/// A length that no request may have: `Zero`, or `TooLarge` with the length, which is more than `BODY_MOST`.
#[derive(Clone, Copy, Debug, PartialEq, Eq)]
pub enum LengthFault {
    Zero,
    TooLarge(u16),
}

/// The framing of the first request: incomplete, a bad length, or complete.
#[derive(Clone, Copy, Debug, PartialEq, Eq)]
pub enum Seen {
    More,
    Bad(LengthFault),
    Whole,
}

fn length_of(high: u8, low: u8) -> u16
    ensures { result ≡ high * 256 + low }
{
    u16::from_be_bytes([high, low])
}

/// Returns the framing. Reads only the length, whatever the number of bytes.
#[tactic(auto, unfolding(crate::specs::Stream::first_request))]
fn seen_in(bytes: &[u8]) -> Seen
    ensures { result ≡ seen_of (first_request bytes.now) }
{
    match bytes {
        [] | [_] => Seen::More,
        [high, low, behind @ ..] => {
            let length = length_of(*high, *low);
            if length == 0 {
                Seen::Bad(LengthFault::Zero)
            } else if length > BODY_MOST {
                Seen::Bad(LengthFault::TooLarge(length))
            } else if behind.len() < length as usize {
                Seen::More
            } else {
                Seen::Whole
            }
        }
    }
}

/// Returns the room for `piece` after `held`, in bytes. No more bytes of them are kept.
#[tactic(auto, unfolding(crate::specs::Stream::room))]
fn room_of(held: &[u8], piece: &[u8]) -> usize
    ensures { result ≡ room (held.now ++ piece.now) }
{
    match (held, piece) {
        ([high, low, ..], _) | ([high], [low, ..]) | ([], [high, low, ..]) => {
            let length = length_of(*high, *low);
            if length > BODY_MOST {
                2
            } else {
                2 + length as usize
            }
        }
        _ => held.len() + piece.len(),
    }
}

/// Returns how many bytes of `piece` are kept after `held`: 0 once the framing is decided.
fn wanted_of(held: &[u8], piece: &[u8]) -> usize
    requires { kept held.now ≡ held.now }
    ensures within { result ≤ length piece.now }
    ensures fits { length held.now + result ≤ room (held.now ++ piece.now) }
    ensures kept { held.now ++ take result piece.now ≡ kept (held.now ++ piece.now) }
    ensures decided { first_request held.now ≢ More → result ≡ 0 }
{
    room_of(held, piece)
        .saturating_sub(held.len())
        .min(piece.len())
}

/// Reserves the room for `piece` after `held`. If `piece` completes the length, reserves that of the whole request, so
/// that no later chunk allocates.
#[tactic(auto, using(crate::proofs::StreamLaws::room_known))]
fn take_room(held: &mut Vec<u8>, piece: &[u8]) -> Result<(), NoMemory>
    requires { room held.old.items ≤ vec_capacity held.old }
    ensures items { held.new.items ≡ held.old.items }
    ensures exact { OnOk result (vec_capacity held.new
        ≡ max (vec_capacity held.old) (room (held.old.items ++ piece.now))) }
    ensures err { OnErr result (vec_capacity held.new ≡ vec_capacity held.old) }
    ensures known { 2 ≤ length held.old.items → IsOk result }
    ensures empty { piece.now ≡ [] → IsOk result }
{
    let room = room_of(held.as_slice(), piece);
    held.reserve_exact(room.saturating_sub(held.len()))
}

/// The prefix of a byte stream that determines its first request.
///
/// A feed keeps every byte while the request is incomplete, then its length and body, or a bad length alone. It keeps
/// at most `BODY_MOST` + 2 bytes. Once the length is known, the buffer has room for every byte that will be kept.
#[derive(Drop)]
pub struct Feed {
    bytes: Vec<u8>,
}

impl Model for Feed {
    ghost use Rattle.std.specs.Prelude.{◌≡◌, ◌≤◌, ℕ, List, vec_capacity};
    ghost use Rattle.portmap_feed.specs.Stream.{kept, room};

    ghost Value = { List ℕ };

    ghost view = { λ feed. feed.bytes.items };

    ghost invariant = { λ feed. (kept feed.bytes.items ≡ feed.bytes.items)
        × (room feed.bytes.items ≤ vec_capacity feed.bytes) };
}

impl Feed {
    /// Creates a feed that has received nothing. Never allocates.
    #[tactic(auto, unfolding(crate::specs::Stream::kept, crate::specs::Stream::room))]
    pub fn new(alloc: Global) -> Feed
        ensures { result ≡ [] }
    {
        Feed {
            bytes: Vec::new(alloc),
        }
    }

    /// Appends the next chunk of the stream, of any length, and returns the framing of the first request.
    ///
    /// Bytes after that request are not kept and cost no time. The push that completes the length reserves room for the
    /// whole request. An error changes nothing. After the length is known, or with an empty chunk, a push never
    /// allocates.
    pub fn push(&mut self, piece: &[u8]) -> Result<Seen, NoMemory>
        // The result depends on all bytes received, and not on their division into chunks.
        ensures seen { IfOk result (λ seen. (received : List ℕ) → self.old ≡ kept received
            → seen ≡ seen_of (first_request (received ++ piece.now))) }
        ensures kept { OnOk result ((received : List ℕ) → self.old ≡ kept received
            → self.new ≡ kept (received ++ piece.now)) }

        // The kept bytes alone have the same framing.
        ensures joined { OnOk result (first_request self.new ≡ first_request (self.old ++ piece.now)) }
        ensures answer { IfOk result (λ seen. seen ≡ seen_of (first_request self.new)) }

        ensures more { result ≡ Ok Seen.More → self.new ≡ self.old ++ piece.now }

        // A `cut` to the length before the push undoes the push.
        ensures prefix { OnOk result (take (length self.old) self.new ≡ self.old) }
        ensures longer { length self.old ≤ length self.new }

        ensures err { OnErr result (self.new ≡ self.old) }

        ensures settled { first_request self.old ≢ More → self.new ≡ self.old }

        ensures known { 2 ≤ length self.old → IsOk result }
        ensures empty { piece.now ≡ [] → IsOk result }
    {
        take_room(&mut self.bytes, piece)?;
        let wanted = wanted_of(self.bytes.as_slice(), piece);
        let Ok(()) = self.bytes.extend_from_slice(&piece[..wanted]) else {
            unreachable!()
        };
        Ok(seen_in(self.bytes.as_slice()))
    }

    /// Returns the body of the first request, of 1 to `BODY_MOST` bytes, once it is complete. Never allocates.
    #[tactic(auto, unfolding(crate::specs::Stream::first_request))]
    pub fn body(&self) -> Option<&[u8]>
        ensures { option_map (λ body. body.now) result ≡ body_in (first_request self.now) }
    {
        match self.bytes.as_slice() {
            [high, low, behind @ ..] => {
                let length = length_of(*high, *low);
                if length == 0 || length > BODY_MOST {
                    None
                } else {
                    behind.get(..length as usize)
                }
            }
            _ => None,
        }
    }

    /// Returns the kept bytes. Never allocates.
    pub fn kept(&self) -> &[u8]
        ensures bytes { result.now ≡ self.now }
        ensures own { kept self.now ≡ self.now }
        ensures most { length self.now ≤ BODY_MOST + 2 }
    {
        &self.bytes
    }

    /// Converts the feed into its kept bytes. Never allocates.
    pub fn into_bytes(self) -> Vec<u8>
        ensures { result.items ≡ self }
    {
        self.bytes
    }

    /// Drops every kept byte after the first `len`, as if no more had been received. Never allocates.
    pub fn cut(&mut self, len: usize)
        requires { len ≤ length self.old }
        ensures { self.new ≡ take len self.old }
    {
        self.bytes.truncate(len);
    }
}
