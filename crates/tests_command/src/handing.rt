//! Sockets that a service manager passes: how many are for this process, and what is printed of them.
use super::printed::ending;
use super::typed::command;
use portmap_command::handing::{handed_count, refuse_handed, report_without_effect};
use portmap_command::words::Command;
use portmap_daemon::HandedFault;
use portmap_link::Writing;
use portmap_testing::cases::{Trial, all_come};
use std::alloc::Global;
use std::test::Fail;

/// A process, a count, and how many sockets are passed to process 77.
const HANDED: [(Option<&str>, Option<&str>, u32); 10] = [
    (Some("77"), Some("1"), 1),
    (Some("77"), Some("3"), 3),
    (Some("77"), Some("900"), 900),
    (Some("78"), Some("1"), 0),
    (Some("7"), Some("1"), 0),
    (Some(""), Some("1"), 0),
    (None, Some("1"), 0),
    (Some("77"), None, 0),
    (Some("77"), Some("one"), 0),
    (Some("77"), Some("0"), 0),
];

#[test]
fn sockets_of_another_process_are_left_alone(rt: HostRuntime) -> Result<(), Fail> {
    for (process, count, wanted) in HANDED {
        assert_eq!(rt; handed_count(process, count, 77), wanted);
    }
    Ok(())
}

fn ended(alloc: Global, fault: HandedFault) -> Result<String, Fail> {
    let mut errors = Writing::new(Vec::new(alloc));
    let status = refuse_handed(&mut errors, fault);
    Ok(ending(alloc, status, b"", &errors.into_inner())?)
}

#[test]
fn a_descriptor_that_does_not_listen_is_reported(rt: HostRuntime) -> Result<(), Fail> {
    let printed = ended(rt.alloc(), HandedFault::NotListening(4))?;
    assert_eq!(rt;
        printed.as_str(),
        "1 err epmd: descriptor 4 is no listening socket|"
    );
    let printed = ended(rt.alloc(), HandedFault::NoMemory)?;
    assert_eq!(rt; printed.as_str(), "3 err epmd: out of memory|");
    Ok(())
}

/// Returns what is printed of port and addresses if this number of sockets is passed.
fn printed(alloc: Global, command: &Command, sockets: usize) -> Result<String, Fail> {
    let mut errors = Writing::new(Vec::new(alloc));
    let sockets = [(); 9].get(..sockets).unwrap_or(&[]);
    report_without_effect(&mut errors, command, sockets);
    let errors = errors.into_inner();
    Ok(match errors.as_slice() {
        b"" => String::from_str(alloc, "nothing")?,
        b"epmd: sockets were handed over, so port and addresses are theirs\n" => String::from_str(
            alloc, "the line",
        )?,
        other => String::from_utf8_lossy(alloc, other)?,
    })
}

/// The number of passed sockets, at most 9, and a typed line.
struct Over;

impl Trial for Over {
    fn came(&self, alloc: Global, given: &str) -> Result<String, Fail> {
        let (sockets, line) = given.split_once(' ').unwrap_or(("9", given));
        match command(alloc, line) {
            Ok(command) => printed(alloc, &command, sockets.parse::<usize>()?),
            Err(fault) => Ok(format!(in alloc; "fault {fault:?}")?),
        }
    }
}

#[test]
fn port_and_addresses_without_effect_are_reported(rt: HostRuntime) -> Result<(), Fail> {
    let table = "
        1 epmd -port with 4369 4370 -> the line
        1 epmd -address with 0.0.0.0 10.0.0.1 -> the line
        1 epmd -d -port 4370 -workers 2 -address 10.0.0.1 -> the line
        1 ERL_EPMD_PORT=4369 epmd -> the line
        1 ERL_EPMD_PORT=4371 epmd -port 4370 -> the line
        1 ERL_EPMD_PORT=x epmd -address 10.0.0.1 -port 4370 -> the line
        9 epmd -daemon -address 127.0.0.1 -> the line
        9 ERL_EPMD_PORT=4371 epmd -d -> the line
    ";
    all_come(&rt, &Over, table)
}

#[test]
fn without_port_and_addresses_nothing_is_reported(rt: HostRuntime) -> Result<(), Fail> {
    // The value of another word is neither a port nor an address. Only the wrapper reads ERL_EPMD_ADDRESS.
    let table = "
        1 epmd -> nothing
        9 epmd -d -daemon -workers 2 -packet_timeout 30 -relaxed_command_check -> nothing
        1 epmd -record with x -port -address -> nothing
        1 epmd -record -port -record with -address -port -> nothing
        1 epmd -record -port -port 4370 -> the line
        1 epmd -record -address -address 10.0.0.1 -> the line
        1 ERL_EPMD_RELAXED_COMMAND_CHECK=1 ERL_EPMD_ADDRESS=10.0.0.1 EPMD_PORT=4371 epmd -> nothing
    ";
    all_come(&rt, &Over, table)
}

#[test]
fn where_nothing_is_handed_over_they_have_their_effect(rt: HostRuntime) -> Result<(), Fail> {
    let table = "
        0 epmd -> nothing
        0 epmd -port 4370 -> nothing
        0 epmd -address 10.0.0.1 -> nothing
        0 ERL_EPMD_PORT=4371 epmd -port 4370 -address 10.0.0.1 -> nothing
    ";
    all_come(&rt, &Over, table)
}
