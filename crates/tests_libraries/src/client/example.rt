//! The client as a library: the example of the README.
use portmap_client::{ClientFault, Registration, lookup, names};
use portmap_link::Both;
use portmap_wire::{Line, Reg};
use std::alloc::Global;
use std::net::TcpStream;

/// Registers a node over one connection. Looks its name up over the second, and lists all names over the third. The
/// node stays registered until the registration is dropped.
pub fn register(
    alloc: Global,
    [own, second, third]: [TcpStream; 3],
    node: &Reg,
) -> Result<(Registration<Both<TcpStream>>, Option<Reg>, Vec<Line>), ClientFault> {
    let registration = match Registration::make(alloc, Both::new(own), node) {
        Ok(registration) => registration,
        Err((fault, _)) => return Err(fault),
    };
    let found = lookup(alloc, &mut Both::new(second), &node.name)?;
    let (_, lines) = names(alloc, &mut Both::new(third))?;
    Ok((registration, found, lines))
}
