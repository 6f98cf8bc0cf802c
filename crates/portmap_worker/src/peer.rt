//! The decision whether the peer of a stream is on this host.
ghost use Rattle.std.specs.Prelude.{◌≡◌};
ghost use Rattle.portmap_core.specs.Locality.{is_local_to};
ghost use Rattle.portmap_worker.specs.Peers.{ip_of, is_local_by};

use crate::system::Stream;
use portmap_core::{Ip, is_local};
use std::net::{IpAddr, Ipv4Addr};

/// An address that no peer has. It stands for an unknown address of this host.
const NO_PEER: IpAddr = IpAddr::V4(Ipv4Addr::UNSPECIFIED);

fn ip_of(address: IpAddr) -> Ip
    ensures { result ≡ ip_of address }
{
    match address {
        IpAddr::V4(ip) => Ip::V4(ip.octets()),
        IpAddr::V6(ip) => Ip::V6(ip.octets()),
    }
}

/// Returns whether a connection's peer is on this host, by the peer's address and the connection's own.
pub fn is_local_peer(peer: IpAddr, own: IpAddr) -> bool
    ensures { result ≡ is_local_to (ip_of peer) (ip_of own) }
{
    is_local(ip_of(peer), ip_of(own))
}

/// Returns whether a peer is on this host. If the connection's own address is unknown, the peer's alone decides.
pub(crate) fn is_local_by(peer: IpAddr, own: Option<IpAddr>) -> bool
    ensures { result ≡ is_local_by peer own }
{
    is_local_peer(peer, own.unwrap_or(NO_PEER))
}

/// Returns a connection's own address, unless the peer's address decides. The system is not called then.
pub(crate) fn own_ip<S: Stream>(stream: &S, peer: IpAddr) -> Option<IpAddr> {
    if is_local_by(peer, None) {
        None
    } else {
        stream.own_ip()
    }
}
