//! The keys of the maps of a file (RFC 8618 7.3), each constant named for its map and its key.

// The file preamble (7.3.1).

pub const PREAMBLE_MAJOR_VERSION: u64 = 0;

pub const PREAMBLE_MINOR_VERSION: u64 = 1;

pub const PREAMBLE_PRIVATE_VERSION: u64 = 2;

pub const PREAMBLE_BLOCK_PARAMETERS: u64 = 3;

// Block parameters (7.3.1.1).

pub const BLOCK_PARAMETERS_STORAGE: u64 = 0;

pub const BLOCK_PARAMETERS_COLLECTION: u64 = 1;

// Storage parameters (7.3.1.1.1).

pub const STORAGE_TICKS_PER_SECOND: u64 = 0;

pub const STORAGE_MAX_BLOCK_ITEMS: u64 = 1;

pub const STORAGE_HINTS: u64 = 2;

pub const STORAGE_OPCODES: u64 = 3;

pub const STORAGE_RR_TYPES: u64 = 4;

pub const STORAGE_FLAGS: u64 = 5;

pub const STORAGE_CLIENT_PREFIX_IPV4: u64 = 6;

pub const STORAGE_CLIENT_PREFIX_IPV6: u64 = 7;

pub const STORAGE_SERVER_PREFIX_IPV4: u64 = 8;

pub const STORAGE_SERVER_PREFIX_IPV6: u64 = 9;

pub const STORAGE_SAMPLING_METHOD: u64 = 10;

pub const STORAGE_ANONYMIZATION_METHOD: u64 = 11;

// Storage hints (7.3.1.1.1.1).

pub const HINTS_QUERY_RESPONSE: u64 = 0;

pub const HINTS_SIGNATURE: u64 = 1;

pub const HINTS_RR: u64 = 2;

pub const HINTS_OTHER_DATA: u64 = 3;

// Collection parameters (7.3.1.1.2).

pub const COLLECTION_QUERY_TIMEOUT: u64 = 0;

pub const COLLECTION_SKEW_TIMEOUT: u64 = 1;

// A block (7.3.2).

pub const BLOCK_PREAMBLE: u64 = 0;

pub const BLOCK_STATISTICS: u64 = 1;

pub const BLOCK_TABLES: u64 = 2;

pub const BLOCK_ITEMS: u64 = 3;

pub const BLOCK_ADDRESS_EVENT_COUNTS: u64 = 4;

pub const BLOCK_MALFORMED: u64 = 5;

// The preamble of a block (7.3.2.1).

pub const BLOCK_PREAMBLE_EARLIEST_TIME: u64 = 0;

pub const BLOCK_PREAMBLE_PARAMETERS_INDEX: u64 = 1;

// Block statistics (7.3.2.2).

pub const STATISTICS_PROCESSED: u64 = 0;

pub const STATISTICS_ITEMS: u64 = 1;

pub const STATISTICS_UNMATCHED_QUERIES: u64 = 2;

pub const STATISTICS_UNMATCHED_RESPONSES: u64 = 3;

pub const STATISTICS_DISCARDED: u64 = 4;

pub const STATISTICS_MALFORMED: u64 = 5;

// Tables (7.3.2.3).

pub const TABLES_IP_ADDRESS: u64 = 0;

pub const TABLES_CLASSTYPE: u64 = 1;

pub const TABLES_NAME_RDATA: u64 = 2;

pub const TABLES_QR_SIG: u64 = 3;

pub const TABLES_QLIST: u64 = 4;

pub const TABLES_QRR: u64 = 5;

pub const TABLES_RRLIST: u64 = 6;

pub const TABLES_RR: u64 = 7;

pub const TABLES_MALFORMED_MESSAGE_DATA: u64 = 8;

// A type and a class (7.3.2.3.1).

pub const CLASSTYPE_TYPE: u64 = 0;

pub const CLASSTYPE_CLASS: u64 = 1;

// A query-response signature (7.3.2.3.2).

pub const SIG_SERVER_ADDRESS: u64 = 0;

pub const SIG_SERVER_PORT: u64 = 1;

pub const SIG_TRANSPORT_FLAGS: u64 = 2;

pub const SIG_QR_TYPE: u64 = 3;

pub const SIG_SIG_FLAGS: u64 = 4;

pub const SIG_OPCODE: u64 = 5;

pub const SIG_DNS_FLAGS: u64 = 6;

pub const SIG_QUERY_RCODE: u64 = 7;

pub const SIG_CLASSTYPE: u64 = 8;

pub const SIG_QDCOUNT: u64 = 9;

pub const SIG_ANCOUNT: u64 = 10;

pub const SIG_NSCOUNT: u64 = 11;

pub const SIG_ARCOUNT: u64 = 12;

pub const SIG_EDNS_VERSION: u64 = 13;

pub const SIG_UDP_SIZE: u64 = 14;

pub const SIG_OPT_RDATA: u64 = 15;

pub const SIG_RESPONSE_RCODE: u64 = 16;

// A question (7.3.2.3.3).

pub const QUESTION_NAME: u64 = 0;

pub const QUESTION_CLASSTYPE: u64 = 1;

// A resource record (7.3.2.3.4).

pub const RR_NAME: u64 = 0;

pub const RR_CLASSTYPE: u64 = 1;

pub const RR_TTL: u64 = 2;

pub const RR_RDATA: u64 = 3;

// The data of a malformed message (7.3.2.3.5).

pub const MALFORMED_DATA_SERVER_ADDRESS: u64 = 0;

pub const MALFORMED_DATA_SERVER_PORT: u64 = 1;

pub const MALFORMED_DATA_TRANSPORT_FLAGS: u64 = 2;

pub const MALFORMED_DATA_PAYLOAD: u64 = 3;

// A query-response item (7.3.2.4).

pub const ITEM_TIME_OFFSET: u64 = 0;

pub const ITEM_CLIENT_ADDRESS: u64 = 1;

pub const ITEM_CLIENT_PORT: u64 = 2;

pub const ITEM_TRANSACTION_ID: u64 = 3;

pub const ITEM_SIGNATURE: u64 = 4;

pub const ITEM_CLIENT_HOPLIMIT: u64 = 5;

pub const ITEM_RESPONSE_DELAY: u64 = 6;

pub const ITEM_QUERY_NAME: u64 = 7;

pub const ITEM_QUERY_SIZE: u64 = 8;

pub const ITEM_RESPONSE_SIZE: u64 = 9;

pub const ITEM_PROCESSING_DATA: u64 = 10;

pub const ITEM_QUERY_EXTENDED: u64 = 11;

pub const ITEM_RESPONSE_EXTENDED: u64 = 12;

// The extended part of a query or a response (7.3.2.4.2).

pub const EXTENDED_QUESTION: u64 = 0;

pub const EXTENDED_ANSWER: u64 = 1;

pub const EXTENDED_AUTHORITY: u64 = 2;

pub const EXTENDED_ADDITIONAL: u64 = 3;

// A malformed message (7.3.2.6).

pub const MALFORMED_TIME_OFFSET: u64 = 0;

pub const MALFORMED_CLIENT_ADDRESS: u64 = 1;

pub const MALFORMED_CLIENT_PORT: u64 = 2;

pub const MALFORMED_MESSAGE_DATA: u64 = 3;
