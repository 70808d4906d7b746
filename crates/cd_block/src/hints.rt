//! Storage hints: which fields are kept where there is something to keep.

/// Storage hints (RFC 8618 7.3.1.1.1.1). Each bit has a constant, which begins with the name of its field here.
#[derive(Clone, Copy, Debug, PartialEq, Eq)]
pub struct Hints {
    /// Fields of an item, and its lists.
    pub qr: u32,
    /// Fields of a query-response signature.
    pub sig: u32,
    /// Fields of a resource record.
    pub rr: u8,
    /// Other data.
    pub other: u8,
}

// Query-response hints. The first ones are the keys of an item.

pub const QR_TIME_OFFSET: u32 = 1 << 0;

pub const QR_CLIENT_ADDRESS: u32 = 1 << 1;

pub const QR_CLIENT_PORT: u32 = 1 << 2;

pub const QR_TRANSACTION_ID: u32 = 1 << 3;
/// The signature of an item. With the bit clear no signature is kept, whatever the signature hints are.
pub const QR_SIGNATURE: u32 = 1 << 4;

pub const QR_CLIENT_HOPLIMIT: u32 = 1 << 5;

pub const QR_RESPONSE_DELAY: u32 = 1 << 6;

pub const QR_QUERY_NAME: u32 = 1 << 7;

pub const QR_QUERY_SIZE: u32 = 1 << 8;

pub const QR_RESPONSE_SIZE: u32 = 1 << 9;
/// Response processing data, which a kept item does not have.
pub const QR_PROCESSING_DATA: u32 = 1 << 10;
/// The second and later questions, of the query and of the response.
pub const QR_QUESTIONS: u32 = 1 << 11;

pub const QR_QUERY_ANSWER: u32 = 1 << 12;

pub const QR_QUERY_AUTHORITY: u32 = 1 << 13;

pub const QR_QUERY_ADDITIONAL: u32 = 1 << 14;

pub const QR_RESPONSE_ANSWER: u32 = 1 << 15;

pub const QR_RESPONSE_AUTHORITY: u32 = 1 << 16;

pub const QR_RESPONSE_ADDITIONAL: u32 = 1 << 17;

// Signature hints, which are the keys of a signature.

pub const SIG_SERVER_ADDRESS: u32 = 1 << 0;

pub const SIG_SERVER_PORT: u32 = 1 << 1;

pub const SIG_TRANSPORT_FLAGS: u32 = 1 << 2;
/// The type of the transaction, which a kept signature does not have.
pub const SIG_QR_TYPE: u32 = 1 << 3;

pub const SIG_SIG_FLAGS: u32 = 1 << 4;

pub const SIG_OPCODE: u32 = 1 << 5;

pub const SIG_DNS_FLAGS: u32 = 1 << 6;

pub const SIG_QUERY_RCODE: u32 = 1 << 7;

pub const SIG_CLASSTYPE: u32 = 1 << 8;

pub const SIG_QDCOUNT: u32 = 1 << 9;

pub const SIG_ANCOUNT: u32 = 1 << 10;

pub const SIG_NSCOUNT: u32 = 1 << 11;

pub const SIG_ARCOUNT: u32 = 1 << 12;

pub const SIG_EDNS_VERSION: u32 = 1 << 13;

pub const SIG_UDP_SIZE: u32 = 1 << 14;

pub const SIG_OPT_RDATA: u32 = 1 << 15;

pub const SIG_RESPONSE_RCODE: u32 = 1 << 16;

// Resource record hints.

pub const RR_TTL: u8 = 1 << 0;

pub const RR_RDATA: u8 = 1 << 1;

// Other data hints.

pub const OTHER_MALFORMED: u8 = 1 << 0;

pub const OTHER_ADDRESS_EVENTS: u8 = 1 << 1;
