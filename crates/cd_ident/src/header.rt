//! What the second word of a message's header says (RFC 1035 4.1.1).

ghost use Rattle.std.specs.Prelude.{◌≡◌, ◌<◌, nat_eq};
ghost use Rattle.cd_ident.specs.Headers.{qr_of};
ghost use Rattle.cd_ident.specs.Headers;

// Whether QR is 0, so that the message goes from the client to the server.
pub(crate) fn is_query(bits: u16) -> bool
    ensures { result ≡ nat_eq (qr_of bits) 0 }
{
    bits / 0x8000 % 2 == 0
}

/// The opcode of a message, 0 to 15, from the second word of its header (RFC 1035 4.1.1).
pub fn opcode_of(bits: u16) -> u8
    ensures exact { result ≡ Headers.opcode_of bits }
    ensures bound { result < 16 }
{
    (bits / 0x800 % 16) as u8
}
