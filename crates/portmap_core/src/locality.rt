ghost use Rattle.std.specs.Prelude.{◌≡◌};
ghost use Rattle.portmap_core.specs.Locality.{plain, is_loopback, is_local_to};

/// The IP address of one end of a connection.
#[derive(Clone, Copy)]
pub enum Ip {
    V4([u8; 4]),
    V6([u8; 16]),
}

/// The first twelve bytes of an IPv4 address that is mapped to IPv6.
const MAPPED_PREFIX: [u8; 12] = [0, 0, 0, 0, 0, 0, 0, 0, 0, 0, 255, 255];

const LOOPBACK_V6: [u8; 16] = [0, 0, 0, 0, 0, 0, 0, 0, 0, 0, 0, 0, 0, 0, 0, 1];

/// Returns the bytes of an address: 4 of an IPv4 address, mapped to IPv6 or not, otherwise 16.
fn plain(ip: &Ip) -> &[u8]
    ensures { result.now ≡ plain ip.now }
{
    match ip {
        Ip::V4(bytes) => bytes.as_slice(),
        Ip::V6(bytes) => {
            if &bytes[..12] == MAPPED_PREFIX.as_slice() {
                &bytes[12..]
            } else {
                bytes.as_slice()
            }
        }
    }
}

fn is_loopback(bytes: &[u8]) -> bool
    ensures { result ≡ is_loopback bytes.now }
{
    match bytes {
        [first, _, _, _] => *first == 127,
        _ => bytes == LOOPBACK_V6.as_slice(),
    }
}

/// Returns true if and only if a peer is on this host: its address is a loopback address, or equals the connection's
/// own address.
pub fn is_local(peer: Ip, own: Ip) -> bool
    ensures { result ≡ is_local_to peer own }
{
    is_loopback(plain(&peer)) || plain(&peer) == plain(&own)
}
