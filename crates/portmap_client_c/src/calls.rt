//! The calls of the C interface, over any stream.
ghost use Rattle.std.specs.Prelude.{◌≡◌, ◌≢◌, ◌++◌, List, ℕ, ℤ, Ok, IsOk, length};
ghost use Rattle.portmap_wire.specs.RequestReading.{name_in};
ghost use Rattle.portmap_client.specs.Exchange.{view};
ghost use Rattle.portmap_client_c.specs.Calls.{Asks, Dumps, IfSaid, Kills, ListsNames, LooksUp, Registers, Stops};
ghost use Rattle.portmap_client_c.specs.Calls.{ReportsCreation, ReportsDump, ReportsLookup, ReportsNames, ReportsNode};
ghost use Rattle.portmap_client_c.specs.Calls.{alive_after, kill_status, stop_status};
ghost use Rattle.portmap_client_c.specs.Writing.{node_said, with_name};
ghost use Rattle.portmap_client_c.specs.declared.status.TheConstants.{EPMD_NO_MEMORY};

use crate::answers::found_at;
use crate::list_writing::put_list;
use crate::node::{EpmdAlive, EpmdFound, EpmdNode};
use crate::status::{
    EPMD_NO_EXIST, EPMD_NO_MEMORY, EPMD_NOT_ALLOWED, EPMD_NOT_REGISTERED, EPMD_OK, client_status,
};
use crate::writing::{made_name, made_node, put, unmade_status};
use portmap_client::{ClientFault, Kill, Registration, Stop};
use portmap_link::{Input, Output};
use portmap_wire::Reg;
use std::alloc::Global;

fn alive_after(fault: ClientFault, alive: EpmdAlive) -> EpmdAlive
    ensures { result ≡ alive_after fault alive }
{
    match fault {
        ClientFault::Refused(code) => EpmdAlive { creation: 0, code },
        ClientFault::Write
        | ClientFault::Read
        | ClientFault::TooManyTurns
        | ClientFault::Short
        | ClientFault::BadTag(_)
        | ClientFault::Strange
        | ClientFault::TooLong
        | ClientFault::NoMemory => alive,
    }
}

/// Registers a node, and returns the status and the stream.
pub(crate) fn register<S: Input + Output>(
    alloc: Global,
    stream: S,
    node: &EpmdNode,
    name: &[u8],
    extra: &[u8],
    alive: &mut EpmdAlive,
) -> (i32, S)
    ensures reported { let seen = view S.left S.held S.pulls S.puts S.broken in
        result.0 ≢ EPMD_NO_MEMORY → IfSaid (node_said node.now name.now extra.now)
        (λ g. Asks (Registers g) (seen stream) (seen result.1)
        (λ answer. ReportsCreation answer alive.old alive.new result.0))
        (λ status. (result.0 ≡ status) × (alive.new ≡ alive.old)) }
    ensures memory { result.0 ≡ EPMD_NO_MEMORY → IsOk (node_said node.now name.now extra.now)
        × (alive.new ≡ alive.old) }
{
    let reg = match made_node(alloc, node, name, extra) {
        Ok(reg) => reg,
        Err(unmade) => return (unmade_status(unmade), stream),
    };
    match Registration::make(alloc, stream, &reg) {
        Ok(registration) => {
            *alive = EpmdAlive {
                creation: registration.creation(),
                code: 0,
            };
            (EPMD_OK, registration.leave())
        }
        Err((fault, stream)) => {
            *alive = alive_after(fault, *alive);
            (client_status(fault), stream)
        }
    }
}

/// Puts the name and the extra bytes into a buffer, and their offsets into `found`.
fn put_node(reg: &Reg, texts: &mut [u8], found: &mut EpmdFound) -> i32
    ensures reported { ReportsNode reg.now texts.old texts.new found.new result }
    ensures memory { result ≢ EPMD_NO_MEMORY }
{
    *found = found_at(reg, 0, 0);
    put(reg.name.bytes(), &reg.extra, texts)
}

/// Looks up a name. Puts the node's name and extra bytes at the beginning of `texts`.
pub(crate) fn lookup<S: Input + Output>(
    alloc: Global,
    stream: &mut S,
    name: &[u8],
    texts: &mut [u8],
    found: &mut EpmdFound,
) -> i32
    ensures reported { let seen = view S.left S.held S.pulls S.puts S.broken in
        result ≢ EPMD_NO_MEMORY → IfSaid (with_name (λ n. Ok n) (name_in name.now))
        (λ n. Asks (LooksUp n) (seen stream.old) (seen stream.new)
        (λ answer. ReportsLookup answer texts.old texts.new found.old found.new result))
        (λ status. (result ≡ status) × (texts.new ≡ texts.old) × (found.new ≡ found.old)) }
    ensures memory { result ≡ EPMD_NO_MEMORY →
        IsOk (with_name (λ n. Ok n) (name_in name.now)) × (texts.new ≡ texts.old) × (found.new ≡ found.old) }
{
    let name = match made_name(alloc, name, 0) {
        Ok(name) => name,
        Err(unmade) => return unmade_status(unmade),
    };
    match portmap_client::lookup(alloc, stream, &name) {
        Ok(Some(reg)) => put_node(&reg, texts, found),
        Ok(None) => EPMD_NOT_REGISTERED,
        Err(fault) => client_status(fault),
    }
}

/// Requests the port of the port mapper, and the registered names with their ports. Puts the reply at the beginning of
/// `out`.
pub(crate) fn names<S: Input + Output>(
    alloc: Global,
    stream: &mut S,
    out: &mut [u8],
    size: &mut usize,
) -> i32
    ensures reported { let seen = view S.left S.held S.pulls S.puts S.broken in
        Asks ListsNames (seen stream.old) (seen stream.new)
        (λ answer. ReportsNames answer out.old out.new size.new result) }
    ensures memory { result ≡ EPMD_NO_MEMORY → (out.new ≡ out.old) × (size.new ≡ 0) }
{
    *size = 0;
    match portmap_client::names(alloc, stream) {
        Ok((port, lines)) => put_list(alloc, port, &lines, out, size),
        Err(fault) => client_status(fault),
    }
}

/// Requests the port of the port mapper, and the text about all known names. Puts the reply at the beginning of `out`.
pub(crate) fn dump<S: Input + Output>(
    alloc: Global,
    stream: &mut S,
    out: &mut [u8],
    size: &mut usize,
) -> i32
    ensures reported { let seen = view S.left S.held S.pulls S.puts S.broken in
        Asks Dumps (seen stream.old) (seen stream.new) (λ answer. ReportsDump answer out.old out.new size.new result) }
    ensures memory { result ≡ EPMD_NO_MEMORY → (out.new ≡ out.old) × (size.new ≡ 0) }
{
    *size = 0;
    match portmap_client::dump(alloc, stream) {
        Ok((port, text)) => {
            *size = 4 + text.len();
            put(&port.to_be_bytes(), &text, out)
        }
        Err(fault) => client_status(fault),
    }
}

fn kill_status(answer: Result<Kill, ClientFault>) -> i32
    ensures { result ≡ kill_status answer }
{
    match answer {
        Ok(Kill::Killed) => EPMD_OK,
        Ok(Kill::NotAllowed) => EPMD_NOT_ALLOWED,
        Err(fault) => client_status(fault),
    }
}

fn stop_status(answer: Result<Stop, ClientFault>) -> i32
    ensures { result ≡ stop_status answer }
{
    match answer {
        Ok(Stop::Stopped) => EPMD_OK,
        Ok(Stop::NoExist) => EPMD_NO_EXIST,
        Ok(Stop::NotAllowed) => EPMD_NOT_ALLOWED,
        Err(fault) => client_status(fault),
    }
}

/// Requests that the port mapper halt.
pub(crate) fn kill<S: Input + Output>(alloc: Global, stream: &mut S) -> i32
    ensures { let seen = view S.left S.held S.pulls S.puts S.broken in
        Asks Kills (seen stream.old) (seen stream.new) (λ answer. result ≡ kill_status answer) }
{
    kill_status(portmap_client::kill(alloc, stream))
}

/// Requests the end of the registration of a name.
pub(crate) fn stop<S: Input + Output>(alloc: Global, stream: &mut S, name: &[u8]) -> i32
    ensures reported { let seen = view S.left S.held S.pulls S.puts S.broken in
        result ≢ EPMD_NO_MEMORY → IfSaid (with_name (λ n. Ok n) (name_in name.now))
        (λ n. Asks (Stops n) (seen stream.old) (seen stream.new) (λ answer. result ≡ stop_status answer))
        (λ status. result ≡ status) }
    ensures memory { result ≡ EPMD_NO_MEMORY → IsOk (with_name (λ n. Ok n) (name_in name.now)) }
{
    match made_name(alloc, name, 0) {
        Ok(name) => stop_status(portmap_client::stop(alloc, stream, &name)),
        Err(unmade) => unmade_status(unmade),
    }
}
