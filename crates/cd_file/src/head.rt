//! What stands before the blocks of a file (RFC 8618 7.3.1).

ghost use Rattle.std.specs.Prelude.{◌≡◌, [], ◌∷◌, ◌++◌, map, Some, OnOk};
ghost use Rattle.cd_cbor.specs.Items.{array};
ghost use Rattle.cd_cbor.specs.Spelling.{spelling};
ghost use Rattle.cd_file.specs.Maps.{number_entry, entry_spelling, entries_spelling};
ghost use Rattle.cd_file.specs.Head.{hints_item, unless_zero, required_storage, optional_storage, storage_item, collection_entries, parameters_item, preamble_item};
ghost use Rattle.cd_file.specs.Files.{file_head};

use crate::entries::{
    Entry, byte, map_count, present_count, push_entries, push_map, push_optional_map,
};
use crate::opcodes::push_opcodes;
use crate::spelled::{Spelled, push_required};
use cd_block::{Hints, Params, keys};
use cd_bytes::Out;
use cd_cbor::{push_array_head, push_map_head, push_text, push_unsigned};
use std::alloc::AllocError;

// The version of the format (RFC 8618 7.3.1).
const MAJOR_VERSION: u64 = 1;

const MINOR_VERSION: u64 = 0;

// The head of an array of indefinite length (RFC 8949 3.2.2).
const INDEFINITE_ARRAY: u8 = 0x9f;

impl Spelled for Hints {
    ghost item = { λ h. hints_item h };

    fn push(&self, out: &mut Out) -> Result<(), AllocError> {
        push_map(
            out,
            &[
                (keys::HINTS_QUERY_RESPONSE, Some(self.qr as u64)),
                (keys::HINTS_SIGNATURE, Some(self.sig as u64)),
                (keys::HINTS_RR, Some(self.rr as u64)),
                (keys::HINTS_OTHER_DATA, Some(self.other as u64)),
            ],
        )
    }
}

fn nonzero(n: u64) -> Option<u64>
    ensures { result ≡ unless_zero n }
{
    if n == 0 { None } else { Some(n) }
}

// The flags and the prefixes, each by its key.
fn optional_parameters(params: &Params) -> [Entry; 5]
    ensures { map number_entry result ≡ optional_storage params.now }
{
    let [client_ipv4, client_ipv6, server_ipv4, server_ipv6] = params.prefixes;
    [
        (keys::STORAGE_FLAGS, nonzero(params.flags)),
        (keys::STORAGE_CLIENT_PREFIX_IPV4, byte(client_ipv4)),
        (keys::STORAGE_CLIENT_PREFIX_IPV6, byte(client_ipv6)),
        (keys::STORAGE_SERVER_PREFIX_IPV4, byte(server_ipv4)),
        (keys::STORAGE_SERVER_PREFIX_IPV6, byte(server_ipv6)),
    ]
}

fn push_required_storage(out: &mut Out, params: &Params) -> Result<(), AllocError>
    ensures { OnOk result (out.new ≡ out.old ++ entries_spelling (required_storage params.now)) }
{
    push_required(out, keys::STORAGE_TICKS_PER_SECOND, &params.ticks)?;
    push_required(out, keys::STORAGE_MAX_BLOCK_ITEMS, &params.max_items)?;
    push_required(out, keys::STORAGE_HINTS, &params.hints)?;
    push_opcodes(out, keys::STORAGE_OPCODES, params.opcodes)?;
    push_required(out, keys::STORAGE_RR_TYPES, &params.rr_types)?;
    Ok(())
}

// Writes a key and the storage parameters (RFC 8618 7.3.1.1.1).
fn push_storage(out: &mut Out, key: u64, params: &Params) -> Result<(), AllocError>
    ensures { OnOk result (out.new ≡ out.old ++ entry_spelling key (Some (storage_item params.now))) }
{
    let optional = optional_parameters(params);
    push_unsigned(out, key)?;
    push_map_head(out, 5 + present_count(&optional))?;
    push_required_storage(out, params)?;
    push_entries(out, &optional)?;
    Ok(())
}

// The timeouts, each by its key (RFC 8618 7.3.1.1.2).
fn timeouts(params: &Params) -> [Entry; 2]
    ensures { map number_entry result ≡ collection_entries params.now }
{
    [
        (keys::COLLECTION_QUERY_TIMEOUT, params.query_ms),
        (keys::COLLECTION_SKEW_TIMEOUT, params.skew_us),
    ]
}

// Writes block parameters (RFC 8618 7.3.1.1).
fn push_parameters(out: &mut Out, params: &Params) -> Result<(), AllocError>
    ensures { OnOk result (out.new ≡ out.old ++ spelling (parameters_item params.now)) }
{
    let collection = timeouts(params);
    push_map_head(out, 1 + map_count(&collection))?;
    push_storage(out, keys::BLOCK_PARAMETERS_STORAGE, params)?;
    push_optional_map(out, keys::BLOCK_PARAMETERS_COLLECTION, &collection)?;
    Ok(())
}

// Writes a key and an array of one set of block parameters.
fn push_parameter_array(out: &mut Out, key: u64, params: &Params) -> Result<(), AllocError>
    ensures { OnOk result (out.new ≡ out.old ++ entry_spelling key (Some (array (parameters_item params.now ∷ [])))) }
{
    push_unsigned(out, key)?;
    push_array_head(out, 1)?;
    push_parameters(out, params)?;
    Ok(())
}

// Writes the preamble of a file.
fn push_preamble(out: &mut Out, params: &Params) -> Result<(), AllocError>
    ensures { OnOk result (out.new ≡ out.old ++ spelling (preamble_item params.now)) }
{
    push_map_head(out, 3)?;
    push_required(out, keys::PREAMBLE_MAJOR_VERSION, &MAJOR_VERSION)?;
    push_required(out, keys::PREAMBLE_MINOR_VERSION, &MINOR_VERSION)?;
    push_parameter_array(out, keys::PREAMBLE_BLOCK_PARAMETERS, params)?;
    Ok(())
}

/// Writes the head of a file with these block parameters, up to the head of its array of blocks (RFC 8618 7.3). An
/// `Err` is for want of memory, and may write a front of it.
pub fn head_bytes(params: &Params, out: &mut Out) -> Result<(), AllocError>
    ensures { OnOk result (out.new ≡ out.old ++ file_head params.now) }
{
    push_array_head(out, 3)?;
    push_text(out, b"C-DNS")?;
    push_preamble(out, params)?;
    out.push_slice(&[INDEFINITE_ARRAY])?;
    Ok(())
}
