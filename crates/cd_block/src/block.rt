//! A block with its tables: each value that stands in a table is told by its index there.

use crate::stamp::Stamp;
use crate::stats::Stats;
use cd_name::{Blob, List};

/// A question (RFC 8618 7.3.2.3.3).
#[derive(Clone, Copy, Debug, PartialEq, Eq, Hash)]
pub struct BlockQuestion {
    /// The index of the name in `name_rdata`.
    pub name: u64,
    /// The index of the type and the class in `classtype`.
    pub classtype: u64,
}

/// A resource record (RFC 8618 7.3.2.3.4), with the TTL in seconds.
#[derive(Clone, Copy, Debug, PartialEq, Eq, Hash)]
pub struct BlockRr {
    /// The index of the name in `name_rdata`.
    pub name: u64,
    /// The index of the type and the class in `classtype`.
    pub classtype: u64,
    pub ttl: Option<u64>,
    /// The index of the RDATA in `name_rdata`.
    pub rdata: Option<u64>,
}

/// The extended part of a query or a response (RFC 8618 7.3.2.4.2). A part with no list is absent.
#[derive(Clone, Copy, Debug, PartialEq, Eq)]
pub struct BlockLists {
    /// The index of the questions after the first one, in `qlist`.
    pub question: Option<u64>,
    /// The index of the answers in `rrlist`.
    pub answer: Option<u64>,
    /// The index of the authority records in `rrlist`.
    pub authority: Option<u64>,
    /// The index of the additional records in `rrlist`.
    pub additional: Option<u64>,
}

/// A query-response signature (RFC 8618 7.3.2.3.2).
#[derive(Clone, Copy, Debug, PartialEq, Eq, Hash)]
pub struct BlockSig {
    /// The index of the server's address in `ip_address`.
    pub server_address: Option<u64>,
    pub server_port: Option<u16>,
    /// The version of IP and the transport, as in `flags::TRANSPORT_IPV6`.
    pub transport_flags: Option<u8>,
    /// What the item has, as in `flags::SIG_HAS_QUERY`.
    pub sig_flags: Option<u8>,
    pub opcode: Option<u8>,
    /// Flags of the query and of the response, as in `flags::DNS_QUERY_CD`.
    pub dns_flags: Option<u16>,
    /// The RCODE of twelve bits of the query.
    pub query_rcode: Option<u16>,
    /// The index of the type and the class of the lead question in `classtype`.
    pub classtype: Option<u64>,
    /// The number of questions of the query, or else of the response.
    pub qd: Option<u16>,
    /// The number of answers of the query.
    pub an: Option<u16>,
    /// The number of authority records of the query.
    pub ns: Option<u16>,
    /// The number of additional records of the query.
    pub ar: Option<u16>,
    pub edns_version: Option<u8>,
    /// The bytes of the largest UDP payload that the sender of the query takes.
    pub udp_size: Option<u16>,
    /// The index of the options of the query's OPT record in `name_rdata`.
    pub opt_rdata: Option<u64>,
    /// The RCODE of twelve bits of the response.
    pub response_rcode: Option<u16>,
}

/// A query-response item: a query and its response, or one of them alone (RFC 8618 7.3.2.4).
#[derive(Clone, Copy, Debug, PartialEq, Eq)]
pub struct BlockItem {
    /// Ticks since the earliest time of the block.
    pub time_offset: Option<u64>,
    /// The index of the client's address in `ip_address`.
    pub client_address: Option<u64>,
    pub client_port: Option<u16>,
    /// The ID of the message.
    pub transaction_id: Option<u16>,
    /// The index of the signature in `qr_sig`.
    pub signature: Option<u64>,
    /// The time to live or hop limit of the query's packet.
    pub client_hoplimit: Option<u8>,
    /// Ticks from the query to the response, fewer than 0 where the response came first.
    pub response_delay: Option<i64>,
    /// The index of the name of the lead question in `name_rdata`.
    pub query_name: Option<u64>,
    /// Bytes of the query's payload, with those after its message.
    pub query_size: Option<u64>,
    /// Bytes of the response's payload, with those after its message.
    pub response_size: Option<u64>,
    pub query_extended: BlockLists,
    pub response_extended: BlockLists,
}

/// The data of a malformed message (RFC 8618 7.3.2.3.5).
#[derive(Debug, Drop, PartialEq, Eq, Hash)]
pub struct BlockData {
    /// The index of the server's address in `ip_address`.
    pub server_address: Option<u64>,
    pub server_port: Option<u16>,
    /// The version of IP and the transport, as in `flags::TRANSPORT_IPV6`.
    pub transport_flags: Option<u8>,
    /// The bytes of the message.
    pub payload: Option<Blob>,
}

/// A malformed message (RFC 8618 7.3.2.6).
#[derive(Clone, Copy, Debug, PartialEq, Eq)]
pub struct BlockMalformed {
    /// Ticks since the earliest time of the block.
    pub time_offset: Option<u64>,
    /// The index of the client's address in `ip_address`.
    pub client_address: Option<u64>,
    pub client_port: Option<u16>,
    /// The index of its data in `malformed_message_data`.
    pub message_data: Option<u64>,
}

/// A block with its nine tables (RFC 8618 7.3.2).
#[derive(Debug, Drop, PartialEq, Eq)]
pub struct Block {
    pub earliest: Option<Stamp>,
    /// The index of its block parameters in those of the file.
    pub params: u64,
    pub stats: Option<Stats>,
    pub items: List<BlockItem>,
    pub malformed: List<BlockMalformed>,
    /// The table of addresses, each cut to its prefix.
    pub ip_address: List<Blob>,
    /// The table of types, each with a class.
    pub classtype: List<(u16, u16)>,
    /// The table of names and of RDATA.
    pub name_rdata: List<Blob>,
    /// The table of signatures.
    pub qr_sig: List<BlockSig>,
    /// The table of lists of questions, each by its index in `qrr`.
    pub qlist: List<List<u64>>,
    /// The table of questions.
    pub qrr: List<BlockQuestion>,
    /// The table of lists of records, each by its index in `rr`.
    pub rrlist: List<List<u64>>,
    /// The table of records.
    pub rr: List<BlockRr>,
    /// The table of the data of malformed messages.
    pub malformed_message_data: List<BlockData>,
}
