//! The status numbers of the calls, as in the header.
ghost use Rattle.std.specs.Prelude.{◌≡◌, pos};
ghost use Rattle.portmap_client_c.specs.Status.{client_status, line_status, name_status, reply_status};
ghost use Rattle.portmap_client_c.specs.declared.status.TheConstants.{EPMD_OK, EPMD_NAME_EMPTY, EPMD_NAME_TOO_LONG};
ghost use Rattle.portmap_client_c.specs.declared.status.TheConstants.{EPMD_NAME_BAD_BYTE, EPMD_EXTRA_TOO_LONG};
ghost use Rattle.portmap_client_c.specs.declared.status.TheConstants.{EPMD_SHORT, EPMD_BAD_TAG, EPMD_STRANGE};
ghost use Rattle.portmap_client_c.specs.declared.status.TheConstants.{EPMD_REFUSED, EPMD_NOT_REGISTERED};
ghost use Rattle.portmap_client_c.specs.declared.status.TheConstants.{EPMD_STRANGE_LINE, EPMD_LIST_END, EPMD_WRITE};
ghost use Rattle.portmap_client_c.specs.declared.status.TheConstants.{EPMD_READ, EPMD_TOO_MANY_TURNS, EPMD_TOO_LONG};
ghost use Rattle.portmap_client_c.specs.declared.status.TheConstants.{EPMD_NO_EXIST, EPMD_NOT_ALLOWED};
ghost use Rattle.portmap_client_c.specs.declared.status.TheConstants.{EPMD_BUFFER_TOO_SMALL, EPMD_NO_MEMORY};

use portmap_client::ClientFault;
use portmap_wire::{ListFault, NameFault, ReplyFault};

pub(crate) const EPMD_OK: i32 = 0;

// Names.
pub(crate) const EPMD_NAME_EMPTY: i32 = 1;

pub(crate) const EPMD_NAME_TOO_LONG: i32 = 2;

pub(crate) const EPMD_NAME_BAD_BYTE: i32 = 3;

// Registrations.
pub(crate) const EPMD_EXTRA_TOO_LONG: i32 = 4;

// Replies.
pub(crate) const EPMD_SHORT: i32 = 5;

pub(crate) const EPMD_BAD_TAG: i32 = 6;

pub(crate) const EPMD_STRANGE: i32 = 7;

pub(crate) const EPMD_REFUSED: i32 = 8;

pub(crate) const EPMD_NOT_REGISTERED: i32 = 9;

// Lists.
pub(crate) const EPMD_STRANGE_LINE: i32 = 10;

pub(crate) const EPMD_LIST_END: i32 = 11;

// Calls over a socket.
pub(crate) const EPMD_WRITE: i32 = 12;

pub(crate) const EPMD_READ: i32 = 13;

pub(crate) const EPMD_TOO_MANY_TURNS: i32 = 14;

pub(crate) const EPMD_TOO_LONG: i32 = 15;

pub(crate) const EPMD_NO_EXIST: i32 = 16;

pub(crate) const EPMD_NOT_ALLOWED: i32 = 17;

// Buffers and memory.
pub(crate) const EPMD_BUFFER_TOO_SMALL: i32 = 18;

pub(crate) const EPMD_NO_MEMORY: i32 = 19;

/// Law: the constants that definitions take from the code are those of the header.
pub fn numbers_are_the_headers()
    ensures names { (EPMD_OK ≡ pos 0) × (EPMD_NAME_EMPTY ≡ pos 1) × (EPMD_NAME_TOO_LONG ≡ pos 2)
        × (EPMD_NAME_BAD_BYTE ≡ pos 3)
        × (EPMD_EXTRA_TOO_LONG ≡ pos 4) }
    ensures answers { (EPMD_SHORT ≡ pos 5) × (EPMD_BAD_TAG ≡ pos 6) × (EPMD_STRANGE ≡ pos 7) × (EPMD_REFUSED ≡ pos 8)
        × (EPMD_NOT_REGISTERED ≡ pos 9) × (EPMD_STRANGE_LINE ≡ pos 10) × (EPMD_LIST_END ≡ pos 11) }
    ensures calls { (EPMD_WRITE ≡ pos 12) × (EPMD_READ ≡ pos 13) × (EPMD_TOO_MANY_TURNS ≡ pos 14)
        × (EPMD_TOO_LONG ≡ pos 15)
        × (EPMD_NO_EXIST ≡ pos 16) × (EPMD_NOT_ALLOWED ≡ pos 17) × (EPMD_BUFFER_TOO_SMALL ≡ pos 18)
        × (EPMD_NO_MEMORY ≡ pos 19) }
{}

pub(crate) fn name_status(fault: NameFault) -> i32
    ensures { result ≡ name_status fault }
{
    match fault {
        NameFault::Empty => EPMD_NAME_EMPTY,
        NameFault::TooLong => EPMD_NAME_TOO_LONG,
        NameFault::BadByte(_) => EPMD_NAME_BAD_BYTE,
        NameFault::NoMemory => EPMD_NO_MEMORY,
    }
}

pub(crate) fn reply_status(fault: ReplyFault) -> i32
    ensures { result ≡ reply_status fault }
{
    match fault {
        ReplyFault::Short => EPMD_SHORT,
        ReplyFault::BadTag(_) => EPMD_BAD_TAG,
        ReplyFault::Strange => EPMD_STRANGE,
        ReplyFault::NoMemory => EPMD_NO_MEMORY,
    }
}

pub(crate) fn line_status(fault: ListFault) -> i32
    ensures { result ≡ line_status fault }
{
    match fault {
        ListFault::Short | ListFault::StrangeLine(_) => EPMD_STRANGE_LINE,
        ListFault::NoMemory => EPMD_NO_MEMORY,
    }
}

pub(crate) fn client_status(fault: ClientFault) -> i32
    ensures { result ≡ client_status fault }
{
    match fault {
        ClientFault::Write => EPMD_WRITE,
        ClientFault::Read => EPMD_READ,
        ClientFault::TooManyTurns => EPMD_TOO_MANY_TURNS,
        ClientFault::Short => EPMD_SHORT,
        ClientFault::BadTag(_) => EPMD_BAD_TAG,
        ClientFault::Refused(_) => EPMD_REFUSED,
        ClientFault::Strange => EPMD_STRANGE,
        ClientFault::TooLong => EPMD_TOO_LONG,
        ClientFault::NoMemory => EPMD_NO_MEMORY,
    }
}
