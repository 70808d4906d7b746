//! The bits of flags.

// Storage flags (RFC 8618 7.3.1.1.1).

/// Data was anonymized.
pub const STORAGE_ANONYMIZED: u64 = 1 << 0;
/// Only some of the messages are stored.
pub const STORAGE_SAMPLED: u64 = 1 << 1;
/// Names are in lower case.
pub const STORAGE_NORMALIZED_NAMES: u64 = 1 << 2;

// Transport flags of a signature and of malformed data (RFC 8618 7.3.2.3.2).

/// IPv6; IPv4 where it is clear.
pub const TRANSPORT_IPV6: u8 = 1 << 0;
/// UDP in the bits 1 to 4.
pub const TRANSPORT_UDP: u8 = 0 << 1;
/// TCP in the bits 1 to 4.
pub const TRANSPORT_TCP: u8 = 1 << 1;
/// Bytes stand after the query's message.
pub const TRANSPORT_TRAILING_BYTES: u8 = 1 << 5;

// Signature flags (RFC 8618 7.3.2.3.2).

pub const SIG_HAS_QUERY: u8 = 1 << 0;

pub const SIG_HAS_RESPONSE: u8 = 1 << 1;

pub const SIG_QUERY_HAS_OPT: u8 = 1 << 2;

pub const SIG_RESPONSE_HAS_OPT: u8 = 1 << 3;

pub const SIG_QUERY_HAS_NO_QUESTION: u8 = 1 << 4;

pub const SIG_RESPONSE_HAS_NO_QUESTION: u8 = 1 << 5;

// DNS flags of a signature (RFC 8618 7.3.2.3.2).

pub const DNS_QUERY_CD: u16 = 1 << 0;

pub const DNS_QUERY_AD: u16 = 1 << 1;

pub const DNS_QUERY_Z: u16 = 1 << 2;

pub const DNS_QUERY_RA: u16 = 1 << 3;

pub const DNS_QUERY_RD: u16 = 1 << 4;

pub const DNS_QUERY_TC: u16 = 1 << 5;

pub const DNS_QUERY_AA: u16 = 1 << 6;

pub const DNS_QUERY_DO: u16 = 1 << 7;

pub const DNS_RESPONSE_CD: u16 = 1 << 8;

pub const DNS_RESPONSE_AD: u16 = 1 << 9;

pub const DNS_RESPONSE_Z: u16 = 1 << 10;

pub const DNS_RESPONSE_RA: u16 = 1 << 11;

pub const DNS_RESPONSE_RD: u16 = 1 << 12;

pub const DNS_RESPONSE_TC: u16 = 1 << 13;

pub const DNS_RESPONSE_AA: u16 = 1 << 14;
