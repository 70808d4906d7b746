//! Resolves signatures.

ghost use Rattle.std.specs.Prelude.{◌≡◌};
ghost use Rattle.cd_block.specs.Giving.{Gives};
ghost use Rattle.cd_block.specs.Resolving.{if_present, resolved_classtype, resolved_signature};

use super::entries::{address, bytes, classtype, entry};
use super::fault::ResolveFault;
use crate::block::Block;
use crate::kept::KeptSig;
use crate::keys;
use std::alloc::Global;

// The type and the class at an index, if there is an index.
fn lead_classtype(block: &Block, index: Option<u64>) -> Result<Option<(u16, u16)>, ResolveFault>
    ensures { Gives (λ c. c) result (if_present (resolved_classtype block.now) index) }
{
    match index {
        None => Ok(None),
        Some(index) => {
            let classtype = classtype(block, index)?;
            Ok(Some(classtype))
        }
    }
}

// The signature at an index.
#[tactic(auto, unfolding(crate::specs::Resolving::resolved_signature))]
fn signature_at(alloc: Global, block: &Block, index: u64) -> Result<KeptSig, ResolveFault>
    ensures { Gives (λ s. s) result (resolved_signature block.now index) }
{
    let signature = *entry(keys::TABLES_QR_SIG, block.qr_sig.as_slice(), index)?;
    let server_address = address(alloc, block, signature.server_address)?;
    let classtype = lead_classtype(block, signature.classtype)?;
    let opt_rdata = bytes(alloc, block, signature.opt_rdata)?;
    Ok(KeptSig {
        server_address,
        server_port: signature.server_port,
        transport_flags: signature.transport_flags,
        sig_flags: signature.sig_flags,
        opcode: signature.opcode,
        dns_flags: signature.dns_flags,
        query_rcode: signature.query_rcode,
        classtype,
        qd: signature.qd,
        an: signature.an,
        ns: signature.ns,
        ar: signature.ar,
        edns_version: signature.edns_version,
        udp_size: signature.udp_size,
        opt_rdata,
        response_rcode: signature.response_rcode,
    })
}

// The signature at an index, if there is an index.
pub(super) fn signature(
    alloc: Global,
    block: &Block,
    index: Option<u64>,
) -> Result<Option<KeptSig>, ResolveFault>
    ensures { Gives (λ s. s) result (if_present (resolved_signature block.now) index) }
{
    match index {
        None => Ok(None),
        Some(index) => {
            let signature = signature_at(alloc, block, index)?;
            Ok(Some(signature))
        }
    }
}
