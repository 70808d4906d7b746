//! The two ends of a lookup.

ghost use Rattle.std.specs.Prelude.{◌≡◌};
ghost use Rattle.cd_workload.specs.Workload;

use cd_packet::Addr;

// The port of a server (RFC 1035 4.2).
pub(crate) const DNS_PORT: u16 = 53;

// An address of IPv4.
fn ipv4(a: u8, b: u8, c: u8, d: u8) -> Addr
    ensures { result ≡ Workload.ipv4 a b c d }
{
    let octets = [a, b, c, d, 0, 0, 0, 0, 0, 0, 0, 0, 0, 0, 0, 0];
    Addr { v6: false, octets }
}

// The client that asks.
pub(crate) fn client(drawn: u64) -> Addr
    ensures { result ≡ Workload.client drawn }
{
    let third = (drawn / 256 % 256) as u8;
    let fourth = (drawn % 256) as u8;
    ipv4(10, 0, third, fourth)
}

// The port of the client.
pub(crate) fn client_port(drawn: u64) -> u16
    ensures { result ≡ Workload.client_port drawn }
{
    1024 + (drawn % 60_000) as u16
}

// The server that is asked.
pub(crate) fn server() -> Addr
    ensures { result ≡ Workload.server }
{
    ipv4(192, 0, 2, 53)
}
