//! What the layers of a packet hold: a datagram, or the reason why there is none.

ghost use Rattle.std.specs.Prelude.{◌<◌};
ghost use Rattle.cd_packet.specs.Time.{end_of_time};

use crate::Addr;

/// A UDP datagram, whose payload lies in its packet (RFC 768).
#[derive(Debug, Drop)]
pub struct Dgram<'a> {
    /// Nanoseconds since 1970, below 2^32 seconds.
    pub time: u64,
    /// The address that it comes from.
    pub src: Addr,
    /// The address that it goes to.
    pub dst: Addr,
    /// The port that it comes from.
    pub sport: u16,
    /// The port that it goes to.
    pub dport: u16,
    /// The time to live of IPv4 or the hop limit of IPv6.
    pub hop: u8,
    /// The bytes after the UDP header, as many as its length field says.
    pub payload: &'a [u8],
    pub ghost timely: { time < end_of_time },
}

/// Why a packet has no datagram that is read.
#[derive(Clone, Copy, Debug, PartialEq, Eq)]
pub enum Reason {
    /// The link type is not read.
    Link,
    /// A length field does not agree with the headers or the packet around it, or bytes are missing though none were
    /// cut off.
    Length,
    /// Neither IPv4 nor IPv6.
    NotIp,
    /// A fragment of an IP packet.
    Fragment,
    /// Another transport than UDP.
    NotUdp,
    /// Neither port is the one of DNS.
    Port,
    /// The bytes that are needed were not captured.
    Cut,
    /// The time is none of the 2^32 seconds since 1970.
    Time,
    /// The packet has no time.
    NoTime,
}

/// What the layers of a packet hold.
#[derive(Debug, Drop)]
pub enum Layer<'a> {
    /// A datagram from or to the port of DNS.
    Dgram(Dgram<'a>),
    /// None that is read, and why.
    Skip(Reason),
}
