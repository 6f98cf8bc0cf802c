//! The adapters of readers and writers.
use portmap_link::{Both, Input, Output, Pull, Put, Reading, Writing};
use portmap_testing::cases::is_so;
use portmap_testing::streams::{Broken, CallOutcome, Script, scripted};
use portmap_testing::tape::{DevicePlan, SINGLE, Tape};
use std::alloc::Global;
use std::io::ErrorKind;
use std::test::Fail;

/// Returns true if the pulls have these results, and the input is failed after a fault only.
fn pulls<R: Input>(input: &mut R, wants: &[Pull]) -> bool {
    let mut buffer = [0; 8];
    for want in wants {
        if input.pull(&mut buffer) != *want || input.failed() != (*want == Pull::Fault) {
            return false;
        }
    }
    true
}

/// Returns true if puts of four bytes have these results, and the output is failed after a fault only.
fn puts<W: Output>(output: &mut W, wants: &[Put]) -> bool {
    for want in wants {
        if output.put(b"name") != *want || output.failed() != (*want == Put::Fault) {
            return false;
        }
    }
    true
}

const FAILING: DevicePlan = DevicePlan {
    later: &[(0, 1), (2, 3)],
    fault: Some(5),
    ..SINGLE
};

const PULLS_OF_FAILING: &[Pull] = &[
    Pull::Later,
    Pull::Piece(1),
    Pull::Later,
    Pull::Piece(1),
    Pull::End,
    Pull::Fault,
    Pull::Fault,
];

#[test]
fn what_has_failed_stays_failed(rt: HostRuntime) {
    let mut tape = Tape::new(rt.alloc(), b"ab", FAILING);
    assert!(rt; pulls(&mut tape, PULLS_OF_FAILING));
}

/// Returns true if one pull gives these bytes, or the end if there are none.
fn gives(reading: &mut Reading<&[u8]>, want: &[u8]) -> bool {
    let mut buffer = [0; 4];
    match reading.pull(&mut buffer) {
        Pull::Piece(len) => &buffer[..len] == want,
        Pull::End => want.is_empty(),
        Pull::Later | Pull::Fault => false,
    }
}

fn is_read_to_its_end() -> bool {
    let mut reading = Reading::new(&b"porter"[..]);
    gives(&mut reading, b"port")
        && gives(&mut reading, b"er")
        && gives(&mut reading, b"")
        && gives(&mut reading, b"")
        && reading.into_inner().is_empty()
}

#[test]
fn a_slice_is_read_in_pieces_to_its_end(rt: HostRuntime) -> Result<(), Fail> {
    is_so(&rt, Ok(is_read_to_its_end()))
}

// Two errors that pass, one that does not, and an outcome that is never reached.
const ERRORS: &[CallOutcome] = &[
    CallOutcome::Error(ErrorKind::Interrupted),
    CallOutcome::Error(ErrorKind::WouldBlock),
    CallOutcome::Count(3),
    CallOutcome::Error(ErrorKind::ConnectionReset),
    CallOutcome::Count(3),
];

const PULLS_OF_ERRORS: &[Pull] = &[
    Pull::Later,
    Pull::Later,
    Pull::Piece(3),
    Pull::Fault,
    Pull::Fault,
];

const PUTS_OF_ERRORS: &[Put] = &[
    Put::Later,
    Put::Later,
    Put::Wrote(3),
    Put::Fault,
    Put::Fault,
];

#[test]
fn errors_that_pass_are_later_and_others_faults(rt: HostRuntime) {
    let mut reading = Reading::new(scripted(ERRORS));
    assert!(rt; pulls(&mut reading, PULLS_OF_ERRORS) && reading.into_inner().asked == 4);
    let mut writing = Writing::new(scripted(ERRORS));
    assert!(rt; puts(&mut writing, PUTS_OF_ERRORS) && writing.into_inner().asked == 4);
}

/// Returns true if the puts have these results, and a pull after them is a fault.
fn fails_both_ways(both: &mut Both<Script<'_>>, wants: &[Put]) -> bool {
    puts(both, wants) && pulls(both, &[Pull::Fault])
}

#[test]
fn a_stream_that_has_failed_is_asked_no_more_in_either_direction(rt: HostRuntime) {
    let mut both = Both::new(scripted(ERRORS));
    assert!(rt; fails_both_ways(&mut both, PUTS_OF_ERRORS) && both.into_inner().asked == 4);
}

const NOTHING: &[CallOutcome] = &[CallOutcome::Count(0)];

#[test]
fn nothing_read_is_the_end_and_nothing_written_a_fault(rt: HostRuntime) {
    let mut both = Both::new(scripted(NOTHING));
    assert!(rt; pulls(&mut both, &[Pull::End]) && puts(&mut both, &[Put::Fault]));
}

fn is_passed_on(alloc: Global) -> bool {
    let mut whole = Writing::new(Vec::new(alloc));
    whole.put(b"12") == Put::Wrote(2)
        && whole.finish()
        && whole.into_inner().as_slice() == b"12".as_slice()
}

#[test]
fn what_is_passed_on_is_there(rt: HostRuntime) -> Result<(), Fail> {
    is_so(&rt, Ok(is_passed_on(rt.alloc())))
}

#[test]
fn what_is_not_passed_on_is_a_fault(rt: HostRuntime) {
    let mut stuck = Writing::new(Broken);
    assert!(rt; stuck.put(b"12") == Put::Wrote(2) && !stuck.finish());
    assert!(rt; stuck.put(b"3") == Put::Fault);
}
