//! A stream as a link: the results of its calls for an edge-triggered source.
use mio::net;
use portmap_daemon::MioStream;
use portmap_link::{Input, Output, Pull, Put};
use portmap_testing::bytes::{ALIVE_A, DUMP, NAMES, PORT_A};
use portmap_testing::streams::{CallOutcome, Giving, Script, scripted};
use portmap_worker::{Link, Stream};
use std::alloc::Global;
use std::io::ErrorKind;
use std::net::{IpAddr, Ipv4Addr, TcpListener, TcpStream};
use std::test::Fail;

#[derive(Clone, Copy)]
enum Call {
    Pull,
    Put,
}

/// A call, the outcome of the stream, whether the link returns Later, and whether it may move without a report.
struct Step(Call, CallOutcome, bool, bool);

const CUT_SHORT: CallOutcome = CallOutcome::Error(ErrorKind::Interrupted);

const WAITS: CallOutcome = CallOutcome::Error(ErrorKind::WouldBlock);

/// A call that a signal interrupted says nothing about the stream. A call that would block does, and so does a pull
/// that returned less than it had room for. A put that succeeds does not change that. While a put waits for a report,
/// nothing else is tried. Bytes that are read after the first put are dropped, as if a signal had interrupted the pull.
const STEPS: &[Step] = &[
    Step(Call::Pull, CUT_SHORT, true, true),
    Step(Call::Pull, CallOutcome::Count(8), false, true),
    Step(Call::Pull, CallOutcome::Count(3), false, false),
    Step(Call::Put, CallOutcome::Count(2), false, false),
    Step(Call::Pull, CallOutcome::Count(8), true, true),
    Step(Call::Pull, CallOutcome::Count(3), true, true),
    Step(Call::Pull, WAITS, true, false),
    Step(Call::Put, CUT_SHORT, true, true),
    Step(Call::Pull, WAITS, true, true),
    Step(Call::Put, CallOutcome::Count(2), false, false),
    Step(Call::Put, WAITS, true, false),
    Step(Call::Pull, WAITS, true, false),
    Step(Call::Pull, CUT_SHORT, true, false),
    Step(Call::Put, CallOutcome::Count(3), false, true),
    Step(Call::Put, WAITS, true, false),
    Step(Call::Pull, CallOutcome::Count(0), false, false),
];

impl Call {
    /// Makes the call, and returns true if the link returns Later.
    fn is_later(self, link: &mut Link<Script<'_>>) -> bool {
        match self {
            Call::Pull => link.pull(&mut [0; 8]) == Pull::Later,
            Call::Put => link.put(b"abc") == Put::Later,
        }
    }
}

#[test]
fn only_a_call_that_would_have_waited_ends_the_asking(rt: HostRuntime) -> Result<(), Fail> {
    let actual: Vec<CallOutcome> = STEPS.iter().map(|step| step.1).collect(rt.alloc())?;
    let mut link = Link::new(rt.alloc(), scripted(&actual), false, 0);
    assert!(rt; link.may_move());
    for Step(call, _, is_later, may_move) in STEPS {
        assert_eq!(rt;
            (call.is_later(&mut link), link.may_move()),
            (*is_later, *may_move)
        );
    }
    Ok(())
}

/// What a link does with its first chunk.
#[derive(Clone, Copy, PartialEq, Eq)]
enum First {
    Gives,
    /// Holds it back, since it asks for a list.
    HoldsList,
    /// Holds it back, since it registers `a`.
    HoldsName,
}

/// The first chunk, whether its peer is local, and what the link does.
const FIRST: &[(&[u8], bool, First)] = &[
    (ALIVE_A, true, First::HoldsName),
    (ALIVE_A, false, First::Gives),
    (PORT_A, true, First::Gives),
    (NAMES, true, First::HoldsList),
    (NAMES, false, First::Gives),
    (DUMP, true, First::HoldsList),
    (DUMP, false, First::Gives),
    (&[0x00, 0x01], true, First::Gives),
    (&[0x00, 0x0E, 0x78, 0x13], true, First::Gives),
    (&[0x00], true, First::Gives),
];

/// How often a stream fails before its first chunk, and with which error.
const FIRST_FAULTS: [(u32, ErrorKind); 3] = [
    (0, ErrorKind::Other),
    (1, ErrorKind::WouldBlock),
    (1, ErrorKind::Interrupted),
];

/// Returns true if a link returns Later for every fault of its stream, and then this chunk. If the chunk is held back,
/// one more pull returns Later.
fn gives(
    alloc: Global,
    (failing, kind): (u32, ErrorKind),
    (bytes, is_local, first): (&[u8], bool, First),
) -> bool {
    let stream = Giving {
        failing,
        kind,
        bytes,
    };
    let mut link = Link::new(alloc, stream, is_local, 0);
    let mut buffer = [0; 64];
    if failing > 0 && (link.pull(&mut buffer) != Pull::Later || link.asked_name().is_some()) {
        return false;
    }
    if first != First::Gives && link.pull(&mut buffer) != Pull::Later {
        return false;
    }
    if asks(&link, b"a") != (first == First::HoldsName) {
        return false;
    }
    let is_given = link.pull(&mut buffer) == Pull::Piece(bytes.len()) && buffer.starts_with(bytes);
    is_given && link.asked_name().is_none()
}

fn asks(link: &Link<Giving<'_>>, name: &[u8]) -> bool {
    link.asked_name().is_some_and(|asked| asked.bytes() == name)
}

#[test]
fn a_first_piece_that_registers_or_lists_is_kept_back(rt: HostRuntime) -> Result<(), Fail> {
    for case in FIRST {
        for first in FIRST_FAULTS {
            assert!(rt; gives(rt.alloc(), first, *case));
        }
    }
    Ok(())
}

/// This host has this address too. A peer that connects there has another address.
const SECOND: [u8; 4] = [127, 0, 0, 2];

/// Returns the own address of an accepted connection.
fn own_of_accepted(rt: &HostRuntime) -> Result<Option<IpAddr>, Fail> {
    let address = Ipv4Addr::from(SECOND);
    let listener = TcpListener::bind(rt, (address, 14_442))?;
    let _peer = TcpStream::connect(rt, (address, 14_442))?;
    let (stream, _) = listener.accept()?;
    Ok(MioStream::from(net::TcpStream::from_std(stream)).own_ip())
}

#[test]
fn a_connection_reports_its_own_address(rt: HostRuntime) -> Result<(), Fail> {
    assert_eq!(rt; own_of_accepted(&rt)?, Some(IpAddr::from(SECOND)));
    Ok(())
}
