//! The primary of an event.

ghost use Rattle.std.specs.Prelude.{◌≡◌, ◌+◌, ◌≤◌, ◌++◌, length, take, slice_index};
ghost use Rattle.cd_ident.specs.Identifiers.{primary_of};
ghost use Rattle.cd_ident.specs.KeptEnds.{kept_ends};

use crate::ends::Ends;

// The index of the transport in a primary.
pub(crate) const TRANSPORT: usize = 37;

// The transport of UDP (RFC 8618 7.3.2.3.2).
const UDP: u8 = 0;

// Puts some bytes at an offset of others, and gives the offset after them.
fn put(bytes: &mut [u8], at: usize, piece: &[u8]) -> usize
    requires { at + length piece.now ≤ length bytes.old }
    ensures next { result ≡ at + length piece.now }
    ensures front { take (at + length piece.now) bytes.new ≡ take at bytes.old ++ piece.now }
{
    let end = at + piece.len();
    bytes[at..end].copy_from_slice(piece);
    end
}

// The primary of these ends, ID and opcode.
pub(crate) fn primary_of(ends: &Ends, id: u16, opcode: u8) -> [u8; 41]
    ensures exact { result ≡ primary_of (kept_ends ends.now) id opcode }
    ensures transport { slice_index result 37 ≡ 0 }
{
    let mut primary = [0; 41];
    let client = put(&mut primary, 0, &[u8::from(ends.client.v6)]);
    let server = put(&mut primary, client, &ends.client.octets);
    let client_port = put(&mut primary, server, &ends.server.octets);
    let server_port = put(&mut primary, client_port, &ends.client_port.to_be_bytes());
    let transport = put(&mut primary, server_port, &ends.server_port.to_be_bytes());
    let message = put(&mut primary, transport, &[UDP]);
    let last = put(&mut primary, message, &id.to_be_bytes());
    put(&mut primary, last, &[opcode]);
    primary
}
