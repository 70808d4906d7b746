//! Reads query-response signatures (RFC 8618 7.3.2.3.2).

ghost use Rattle.cd_file.specs.ReadTables as tables;

use super::fault::ItemFault;
use super::kinds::{byte_if_below, byte_or_none, unsigned, word_if_below, word_or_none};
use super::maps::{Table, WholeMap};
use super::putting::{passed_over, put, put_some};
use cd_block::{BlockSig, keys};
use std::alloc::Global;

// How many opcodes there are (RFC 1035 4.1.1).
const OPCODES: u64 = 16;

// How many RCODEs of twelve bits there are (RFC 6891 6.1.3).
const RCODES: u64 = 0x1000;

/// Query-response signatures.
pub struct Signatures;

impl Table for Signatures {
    type Fields = BlockSig;

    ghost table = { tables.signature_table };

    fn required_keys() -> &'static [u64] {
        &[]
    }

    fn read_value(
        _alloc: Global,
        bytes: &[u8],
        depth: usize,
        at: usize,
        key: u64,
        sig: &mut BlockSig,
    ) -> Result<usize, ItemFault> {
        match key {
            keys::SIG_SERVER_ADDRESS => put_some(unsigned(bytes, at, key), &mut sig.server_address),
            keys::SIG_SERVER_PORT => put(word_or_none(bytes, at, key), &mut sig.server_port),
            keys::SIG_TRANSPORT_FLAGS => put(
                byte_or_none(bytes, at, key),
                &mut sig.transport_flags,
            ),
            keys::SIG_SIG_FLAGS => put(byte_or_none(bytes, at, key), &mut sig.sig_flags),
            keys::SIG_OPCODE => put(byte_if_below(bytes, at, key, OPCODES), &mut sig.opcode),
            keys::SIG_DNS_FLAGS => put(word_or_none(bytes, at, key), &mut sig.dns_flags),
            keys::SIG_QUERY_RCODE => put(
                word_if_below(bytes, at, key, RCODES),
                &mut sig.query_rcode,
            ),
            keys::SIG_CLASSTYPE => put_some(unsigned(bytes, at, key), &mut sig.classtype),
            keys::SIG_QDCOUNT => put(word_or_none(bytes, at, key), &mut sig.qd),
            keys::SIG_ANCOUNT => put(word_or_none(bytes, at, key), &mut sig.an),
            keys::SIG_NSCOUNT => put(word_or_none(bytes, at, key), &mut sig.ns),
            keys::SIG_ARCOUNT => put(word_or_none(bytes, at, key), &mut sig.ar),
            keys::SIG_EDNS_VERSION => put(byte_or_none(bytes, at, key), &mut sig.edns_version),
            keys::SIG_UDP_SIZE => put(word_or_none(bytes, at, key), &mut sig.udp_size),
            keys::SIG_OPT_RDATA => put_some(unsigned(bytes, at, key), &mut sig.opt_rdata),
            keys::SIG_RESPONSE_RCODE => put(
                word_if_below(bytes, at, key, RCODES),
                &mut sig.response_rcode,
            ),
            _ => passed_over(bytes, depth, at),
        }
    }
}

impl WholeMap for Signatures {
    ghost initial = { tables.no_signature };

    fn initial(_alloc: Global) -> BlockSig {
        BlockSig {
            server_address: None,
            server_port: None,
            transport_flags: None,
            sig_flags: None,
            opcode: None,
            dns_flags: None,
            query_rcode: None,
            classtype: None,
            qd: None,
            an: None,
            ns: None,
            ar: None,
            edns_version: None,
            udp_size: None,
            opt_rdata: None,
            response_rcode: None,
        }
    }
}
