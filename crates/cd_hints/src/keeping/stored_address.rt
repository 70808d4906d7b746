//! Addresses as they are kept.

ghost use Rattle.std.specs.Prelude.{◌≡◌, ◌≤◌, Some};
ghost use Rattle.std.specs.Option.{ForSome};
ghost use Rattle.cd_hints.specs.Addresses;
ghost use Rattle.cd_hints.specs.Hinted;
ghost use Rattle.cd_hints.specs.Prefix.{width_of};
ghost use Rattle.cd_hints.specs.Records.{record_parts, main_event};
ghost use Rattle.cd_hints.specs.Validity.{AreValidParams, AreValidPrefixes};

use crate::keeping::address_prefix::prefix;
use crate::keeping::hint::is_hinted;
use crate::record::Rec;
use cd_block::Params;
use cd_block::hints::{QR_CLIENT_ADDRESS, SIG_SERVER_ADDRESS};
use cd_packet::Addr;
use std::marker::Model;

// The bits that are kept of a client's address of this version of IP.
pub(crate) fn client_prefix(prefixes: &[Option<u8>; 4], v6: bool) -> Option<u8>
    requires { AreValidPrefixes prefixes.now }
    ensures bits { result ≡ Addresses.client_prefix prefixes.now v6 }
    ensures fits { ForSome result (λ n. n ≤ width_of v6) }
{
    if v6 { prefixes[1] } else { prefixes[0] }
}

// The bits that are kept of a server's address of this version of IP.
pub(crate) fn server_prefix(prefixes: &[Option<u8>; 4], v6: bool) -> Option<u8>
    requires { AreValidPrefixes prefixes.now }
    ensures bits { result ≡ Addresses.server_prefix prefixes.now v6 }
    ensures fits { ForSome result (λ n. n ≤ width_of v6) }
{
    if v6 { prefixes[3] } else { prefixes[2] }
}

/// The first bytes of an address, as many as are kept. Contracts see it as its bytes.
#[derive(Debug, Drop)]
pub struct StoredAddress {
    octets: [u8; 16],
    size: usize,
}

impl Model for StoredAddress {
    ghost use Rattle.std.specs.Prelude.{◌≤◌, List, ℕ, take};

    ghost Value = { List ℕ };

    ghost view = { λ a. take a.size a.octets };

    ghost invariant = { λ a. a.size ≤ 16 };
}

impl StoredAddress {
    /// The bytes, in their order.
    pub fn as_slice(&self) -> &[u8]
        ensures { result.now ≡ self.now }
    {
        &self.octets[..self.size]
    }
}

// The first bytes of an address, as many as hold these bits.
pub(crate) fn stored_address(bits: Option<u8>, addr: &Addr) -> StoredAddress
    requires { ForSome bits (λ n. n ≤ width_of addr.now.v6) }
    ensures { result ≡ Addresses.stored_address bits addr.now }
{
    let (octets, size) = prefix(addr, bits);
    StoredAddress { octets, size }
}

// The same where the hint is set.
fn hinted_address(hints: u32, hint: u32, bits: Option<u8>, addr: &Addr) -> Option<StoredAddress>
    requires { ForSome bits (λ n. n ≤ width_of addr.now.v6) }
    ensures { result ≡ Hinted.kept hints hint (Some (Addresses.stored_address bits addr.now)) }
{
    if is_hinted(hints, hint) {
        Some(stored_address(bits, addr))
    } else {
        None
    }
}

/// What is kept of the address of a record's client: its prefix, where the hint is set. The parameters must be valid.
pub fn kept_client_address(params: &Params, rec: &Rec) -> Option<StoredAddress>
    requires { AreValidParams params.now }
    ensures { result ≡ Hinted.kept params.now.hints.qr QR_CLIENT_ADDRESS
        (Some (Addresses.client_address params.now.prefixes (main_event (record_parts rec.now)).client)) }
{
    let event = rec.main_event();
    let bits = client_prefix(&params.prefixes, event.client.v6);
    hinted_address(params.hints.qr, QR_CLIENT_ADDRESS, bits, &event.client)
}

/// What is kept of the address of a record's server, in a signature: its prefix, where the hint is set. The parameters must
/// be valid.
pub fn kept_server_address(params: &Params, rec: &Rec) -> Option<StoredAddress>
    requires { AreValidParams params.now }
    ensures { result ≡ Hinted.kept params.now.hints.sig SIG_SERVER_ADDRESS
        (Some (Addresses.server_address params.now.prefixes (main_event (record_parts rec.now)).server)) }
{
    let event = rec.main_event();
    let bits = server_prefix(&params.prefixes, event.server.v6);
    hinted_address(params.hints.sig, SIG_SERVER_ADDRESS, bits, &event.server)
}
