ghost use Rattle.std.specs.Prelude.{◌≡◌, ◌<◌, ◌≤◌};
ghost use Rattle.cd_packet.specs.Time.{end_of_time};
ghost use Rattle.cd_pairing.specs.declared.keyed.TheConstants.{LEAST_WEIGHT};
ghost use Rattle.cd_ident.specs.Bodies.{HasBody, HasBody-prop};
ghost use Rattle.cd_ident.specs.Identifiers.{transport_of};

use crate::identifiers::Ids;
use cd_message::Message;
use cd_name::Blob;
use cd_packet::Addr;

/// What a datagram is in the traffic of DNS.
#[derive(Clone, Copy, Debug, PartialEq, Eq)]
pub enum Kind {
    /// A message with QR 0, whose opcode is listed.
    Query,
    /// A message with QR 1, whose opcode is listed.
    Response,
    /// A payload that is no message.
    Malformed,
    /// A message whose opcode is not listed.
    Discarded,
}

/// What is kept of a payload.
#[derive(Debug, Drop)]
pub enum Body {
    /// The message of a query or a response.
    Message(Message),
    /// The bytes of a payload that is no message.
    Payload(Blob),
    /// What is kept of a message whose opcode is not listed.
    Nothing,
}

/// A datagram as an event of DNS traffic. Its body is of its kind: a query has a valid message with QR 0, and a
/// response one with QR 1.
#[derive(Debug, Drop)]
pub struct Event {
    /// Nanoseconds since 1970, below 2^32 seconds.
    pub time: u64,
    /// What it is.
    pub kind: Kind,
    /// The address that asks. It has the version of the server's.
    pub client: Addr,
    /// The address that answers.
    pub server: Addr,
    /// The port that asks.
    pub client_port: u16,
    /// The port that answers.
    pub server_port: u16,
    /// The time to live of IPv4 or the hop limit of IPv6.
    pub hop: u8,
    /// How many bytes its payload has.
    pub size: u32,
    /// Whether bytes follow the message. Never for a payload that is no message.
    pub trailing: bool,
    /// What tells which events belong together.
    pub ids: Ids,
    /// What it counts for where events are held back: the weight of its message, 256 and its payload where that is
    /// none, or 256 where nothing is kept.
    pub weight: u64,
    /// What is kept of the payload.
    pub body: Body,
    pub ghost timely: { time < end_of_time },
    pub ghost one_version: { client.v6 ≡ server.v6 },
    pub ghost small_transport: { transport_of ids ≤ 15 },
    pub ghost heavy: { LEAST_WEIGHT ≤ weight },
    pub ghost has_body: { HasBody kind body } by { HasBody-prop kind body },
}
