//! A block with each value where it belongs.

use crate::stamp::Stamp;
use crate::stats::Stats;
use cd_name::{Blob, List, Name};

/// A question (RFC 8618 7.3.2.3.3).
#[derive(Debug, Drop, PartialEq, Eq)]
pub struct KeptQuestion {
    pub name: Name,
    pub rtype: u16,
    pub rclass: u16,
}

/// A resource record (RFC 8618 7.3.2.3.4), with the TTL in seconds.
#[derive(Debug, Drop, PartialEq, Eq)]
pub struct KeptRr {
    pub name: Name,
    pub rtype: u16,
    pub rclass: u16,
    pub ttl: Option<u64>,
    pub rdata: Option<Blob>,
}

/// The extended part of a query or a response (RFC 8618 7.3.2.4.2). An empty list is an absent one, and a part with no list is
/// absent.
#[derive(Debug, Drop, PartialEq, Eq)]
pub struct KeptLists {
    /// The questions after the first one.
    pub question: List<KeptQuestion>,
    pub answer: List<KeptRr>,
    pub authority: List<KeptRr>,
    pub additional: List<KeptRr>,
}

/// A query-response signature (RFC 8618 7.3.2.3.2).
#[derive(Debug, Drop, PartialEq, Eq)]
pub struct KeptSig {
    /// The first bytes of the server's address, as many as its prefix takes.
    pub server_address: Option<Blob>,
    pub server_port: Option<u16>,
    /// The version of IP and the transport, as in `flags::TRANSPORT_IPV6`.
    pub transport_flags: Option<u8>,
    /// What the item has, as in `flags::SIG_HAS_QUERY`.
    pub sig_flags: Option<u8>,
    pub opcode: Option<u8>,
    /// Flags of the query and of the response, as in `flags::DNS_QUERY_CD`.
    pub dns_flags: Option<u16>,
    /// The RCODE of twelve bits of the query.
    pub query_rcode: Option<u16>,
    /// The type and the class of the lead question: the query's first one, or else the response's.
    pub classtype: Option<(u16, u16)>,
    /// The number of questions of the query, or else of the response.
    pub qd: Option<u16>,
    /// The number of answers of the query.
    pub an: Option<u16>,
    /// The number of authority records of the query.
    pub ns: Option<u16>,
    /// The number of additional records of the query.
    pub ar: Option<u16>,
    pub edns_version: Option<u8>,
    /// The bytes of the largest UDP payload that the sender of the query takes.
    pub udp_size: Option<u16>,
    /// The options of the query's OPT record.
    pub opt_rdata: Option<Blob>,
    /// The RCODE of twelve bits of the response.
    pub response_rcode: Option<u16>,
}

/// A query-response item: a query and its response, or one of them alone (RFC 8618 7.3.2.4).
#[derive(Debug, Drop, PartialEq, Eq)]
pub struct KeptItem {
    /// Ticks since the earliest time of the block.
    pub time_offset: Option<u64>,
    /// The first bytes of the client's address, as many as its prefix takes.
    pub client_address: Option<Blob>,
    pub client_port: Option<u16>,
    /// The ID of the message.
    pub transaction_id: Option<u16>,
    pub signature: Option<KeptSig>,
    /// The time to live or hop limit of the query's packet.
    pub client_hoplimit: Option<u8>,
    /// Ticks from the query to the response, fewer than 0 where the response came first.
    pub response_delay: Option<i64>,
    /// The name of the lead question: the query's first one, or else the response's.
    pub query_name: Option<Name>,
    /// Bytes of the query's payload, with those after its message.
    pub query_size: Option<u64>,
    /// Bytes of the response's payload, with those after its message.
    pub response_size: Option<u64>,
    pub query_extended: KeptLists,
    pub response_extended: KeptLists,
}

/// The data of a malformed message (RFC 8618 7.3.2.3.5).
#[derive(Debug, Drop, PartialEq, Eq)]
pub struct KeptData {
    /// The first bytes of the server's address, as many as its prefix takes.
    pub server_address: Option<Blob>,
    pub server_port: Option<u16>,
    /// The version of IP and the transport, as in `flags::TRANSPORT_IPV6`.
    pub transport_flags: Option<u8>,
    /// The bytes of the message.
    pub payload: Option<Blob>,
}

/// A malformed message (RFC 8618 7.3.2.6).
#[derive(Debug, Drop, PartialEq, Eq)]
pub struct KeptMalformed {
    /// Ticks since the earliest time of the block.
    pub time_offset: Option<u64>,
    /// The first bytes of the client's address, as many as its prefix takes.
    pub client_address: Option<Blob>,
    pub client_port: Option<u16>,
    pub message_data: Option<KeptData>,
}

/// A block with each value where it belongs (RFC 8618 7.3.2).
#[derive(Debug, Drop, PartialEq, Eq)]
pub struct KeptBlock {
    pub earliest: Option<Stamp>,
    /// The index of its block parameters in those of the file.
    pub params: u64,
    pub stats: Option<Stats>,
    pub items: List<KeptItem>,
    pub malformed: List<KeptMalformed>,
}
