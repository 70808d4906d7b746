ghost use Rattle.std.specs.Prelude.{◌≡◌, IfOk};

use cd_name::Blob;
use std::alloc::{AllocError, Global};

/// What the fields of an OPT record mean (RFC 6891 6.1.2, 6.1.3).
#[derive(Debug, Drop)]
pub struct Opt {
    /// The bytes of the largest UDP payload that the sender takes.
    pub udp_size: u16,
    /// The high eight bits of the full RCODE.
    pub ext_rcode: u8,
    /// The version of EDNS.
    pub version: u8,
    /// Whether the sender takes DNSSEC records.
    pub dnssec_ok: bool,
    /// The options, as they stand in the record.
    pub rdata: Blob,
}

/// The same of an OPT record in its message, from which the options are borrowed.
#[derive(Clone, Copy, Debug)]
pub struct OptRef<'a> {
    /// The bytes of the largest UDP payload that the sender takes.
    pub udp_size: u16,
    /// The high eight bits of the full RCODE.
    pub ext_rcode: u8,
    /// The version of EDNS.
    pub version: u8,
    /// Whether the sender takes DNSSEC records.
    pub dnssec_ok: bool,
    /// The options, as they stand in the record.
    pub rdata: &'a [u8],
}

impl OptRef<'_> {
    ghost use Rattle.cd_edns.specs.Opts.{opt_seen};

    /// The same with the options copied. An `Err` is for want of memory.
    pub fn to_opt(&self, alloc: Global) -> Result<Opt, AllocError>
        ensures { IfOk result (λ opt. opt ≡ opt_seen self.now) }
    {
        let rdata = Vec::from_slice(alloc, self.rdata)?;
        Ok(Opt {
            udp_size: self.udp_size,
            ext_rcode: self.ext_rcode,
            version: self.version,
            dnssec_ok: self.dnssec_ok,
            rdata: Blob::from_vec(rdata),
        })
    }
}
