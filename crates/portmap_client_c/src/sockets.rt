//! The calls of the C interface, each over a connected socket of its own.
//!
//! Contracts do not see the bytes of a socket. The clauses here say that the result reports some reply. The clauses in
//! `calls` also say that the request is sent and that the reply is read, over any stream with known bytes.
ghost use Rattle.std.specs.Prelude.{◌≡◌, ◌≢◌, Ok, IsOk};
ghost use Rattle.portmap_wire.specs.RequestReading.{name_in};
ghost use Rattle.portmap_client_c.specs.Calls.{AsksOnce, Dumps, IfSaid, Kills, ListsNames, LooksUp, Registers, Stops};
ghost use Rattle.portmap_client_c.specs.Calls.{ReportsCreation, ReportsDump, ReportsLookup, ReportsNames, kill_status};
ghost use Rattle.portmap_client_c.specs.Calls.{stop_status};
ghost use Rattle.portmap_client_c.specs.Writing.{node_said, with_name};
ghost use Rattle.portmap_client_c.specs.declared.status.TheConstants.{EPMD_NO_MEMORY};

use crate::calls::{dump, kill, lookup, names, register, stop};
use crate::descriptor::Descriptor;
use crate::node::{EpmdAlive, EpmdFound, EpmdNode};
use std::alloc::Global;

/// Registers a node. The name stays registered until the socket is closed.
#[unsafe(no_mangle)]
pub extern "C" fn epmd_register(
    alloc: Global,
    socket: i32,
    node: &EpmdNode,
    name: &[u8],
    extra: &[u8],
    alive: &mut EpmdAlive,
) -> i32
    ensures reported { result ≢ EPMD_NO_MEMORY → IfSaid (node_said node.now name.now extra.now)
        (λ g. AsksOnce (Registers g) (λ answer. ReportsCreation answer alive.old alive.new result))
        (λ status. (result ≡ status) × (alive.new ≡ alive.old)) }
    ensures memory { result ≡ EPMD_NO_MEMORY → IsOk (node_said node.now name.now extra.now) × (alive.new ≡ alive.old) }
{
    let (status, _) = register(alloc, Descriptor::new(socket), node, name, extra, alive);
    status
}

/// Looks up a name. Puts the node's name and extra bytes at the beginning of `texts`.
#[unsafe(no_mangle)]
pub extern "C" fn epmd_lookup(
    alloc: Global,
    socket: i32,
    name: &[u8],
    texts: &mut [u8],
    found: &mut EpmdFound,
) -> i32
    ensures reported { result ≢ EPMD_NO_MEMORY → IfSaid (with_name (λ n. Ok n) (name_in name.now))
        (λ n. AsksOnce (LooksUp n) (λ answer. ReportsLookup answer texts.old texts.new found.old found.new result))
        (λ status. (result ≡ status) × (texts.new ≡ texts.old) × (found.new ≡ found.old)) }
    ensures memory { result ≡ EPMD_NO_MEMORY →
        IsOk (with_name (λ n. Ok n) (name_in name.now)) × (texts.new ≡ texts.old) × (found.new ≡ found.old) }
{
    lookup(alloc, &mut Descriptor::new(socket), name, texts, found)
}

/// Requests the port of the port mapper, and the registered names with their ports. Puts the reply to NAMES_REQ at the
/// beginning of `out`.
#[unsafe(no_mangle)]
pub extern "C" fn epmd_names(alloc: Global, socket: i32, out: &mut [u8], size: &mut usize) -> i32
    ensures reported { AsksOnce ListsNames (λ answer. ReportsNames answer out.old out.new size.new result) }
    ensures memory { result ≡ EPMD_NO_MEMORY → (out.new ≡ out.old) × (size.new ≡ 0) }
{
    names(alloc, &mut Descriptor::new(socket), out, size)
}

/// Requests the port of the port mapper, and the text about all known names. Puts the reply to DUMP_REQ at the
/// beginning of `out`.
#[unsafe(no_mangle)]
pub extern "C" fn epmd_dump(alloc: Global, socket: i32, out: &mut [u8], size: &mut usize) -> i32
    ensures reported { AsksOnce Dumps (λ answer. ReportsDump answer out.old out.new size.new result) }
    ensures memory { result ≡ EPMD_NO_MEMORY → (out.new ≡ out.old) × (size.new ≡ 0) }
{
    dump(alloc, &mut Descriptor::new(socket), out, size)
}

/// Requests that the port mapper halt.
#[unsafe(no_mangle)]
pub extern "C" fn epmd_kill(alloc: Global, socket: i32) -> i32
    ensures { AsksOnce Kills (λ answer. result ≡ kill_status answer) }
{
    kill(alloc, &mut Descriptor::new(socket))
}

/// Requests the end of the registration of a name.
#[unsafe(no_mangle)]
pub extern "C" fn epmd_stop(alloc: Global, socket: i32, name: &[u8]) -> i32
    ensures reported { result ≢ EPMD_NO_MEMORY → IfSaid (with_name (λ n. Ok n) (name_in name.now))
        (λ n. AsksOnce (Stops n) (λ answer. result ≡ stop_status answer))
        (λ status. result ≡ status) }
    ensures memory { result ≡ EPMD_NO_MEMORY → IsOk (with_name (λ n. Ok n) (name_in name.now)) }
{
    stop(alloc, &mut Descriptor::new(socket), name)
}
