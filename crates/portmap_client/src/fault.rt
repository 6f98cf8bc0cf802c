//! The faults of a call.
ghost use Rattle.std.specs.Prelude.{◌≡◌, Ok, Err};
ghost use Rattle.portmap_client.specs.Fault.{split, of_reply, of_list};
ghost use Rattle.portmap_client.specs.declared.fault.Aborted.TheVariants as given_up;

use portmap_wire::{ListFault, NoMemory, ReplyFault};

/// The fault of a call of the client. The caller then closes the stream.
#[derive(Clone, Copy, Debug, PartialEq, Eq)]
pub enum ClientFault {
    /// The stream failed before the request was written.
    Write,
    /// The stream failed before the reply was read.
    Read,
    /// The stream returned `Later` 1,000 times in this call.
    TooManyTurns,
    /// The stream ended before the reply was complete.
    Short,
    /// The first byte of the reply, which is this byte, begins no reply to the request.
    BadTag(u8),
    /// The registration was refused with this result, which is above 0.
    Refused(u8),
    /// The reply has a form that this client does not read.
    Strange,
    /// The list has more than 16,777,216 bytes.
    TooLong,
    NoMemory,
}

/// The reason for which a call was aborted. Nothing is known of the reply.
#[derive(Clone, Copy)]
pub(crate) enum Aborted {
    Write,
    Read,
    TooManyTurns,
    NoMemory,
}

/// A fault in the bytes of a reply.
#[derive(Clone, Copy)]
pub(crate) enum AnswerFault {
    Short,
    BadTag(u8),
    Refused(u8),
    Strange,
    TooLong,
}

impl From<Aborted> for ClientFault {
    ghost from_gives = { λ f e. split e ≡ Err f };

    fn from(fault: Aborted) -> ClientFault {
        match fault {
            Aborted::Write => ClientFault::Write,
            Aborted::Read => ClientFault::Read,
            Aborted::TooManyTurns => ClientFault::TooManyTurns,
            Aborted::NoMemory => ClientFault::NoMemory,
        }
    }
}

impl From<AnswerFault> for ClientFault {
    ghost from_gives = { λ f e. split e ≡ Ok f };

    fn from(fault: AnswerFault) -> ClientFault {
        match fault {
            AnswerFault::Short => ClientFault::Short,
            AnswerFault::BadTag(tag) => ClientFault::BadTag(tag),
            AnswerFault::Refused(code) => ClientFault::Refused(code),
            AnswerFault::Strange => ClientFault::Strange,
            AnswerFault::TooLong => ClientFault::TooLong,
        }
    }
}

impl From<ReplyFault> for ClientFault {
    ghost from_gives = { λ f e. split e ≡ of_reply f };

    fn from(fault: ReplyFault) -> ClientFault {
        match fault {
            ReplyFault::Short => ClientFault::Short,
            ReplyFault::BadTag(tag) => ClientFault::BadTag(tag),
            ReplyFault::Strange => ClientFault::Strange,
            ReplyFault::NoMemory => ClientFault::NoMemory,
        }
    }
}

impl From<ListFault> for ClientFault {
    ghost from_gives = { λ f e. split e ≡ of_list f };

    fn from(fault: ListFault) -> ClientFault {
        match fault {
            ListFault::Short => ClientFault::Short,
            ListFault::StrangeLine(_) => ClientFault::Strange,
            ListFault::NoMemory => ClientFault::NoMemory,
        }
    }
}

impl From<NoMemory> for Aborted {
    ghost from_gives = { λ _ e. e ≡ given_up.NoMemory };

    fn from(_: NoMemory) -> Aborted {
        Aborted::NoMemory
    }
}

impl From<NoMemory> for ClientFault {
    ghost from_gives = { λ _ e. split e ≡ Err given_up.NoMemory };

    fn from(_: NoMemory) -> ClientFault {
        ClientFault::NoMemory
    }
}
