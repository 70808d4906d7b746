//! Who asks and who answers.

ghost use Rattle.std.specs.Prelude.{◌≡◌};
ghost use Rattle.cd_ident.specs.Datagrams.{datagram_of};
ghost use Rattle.cd_ident.specs.Identifiers.{ends_of};
ghost use Rattle.cd_ident.specs.KeptEnds.{kept_ends};

use cd_packet::{Addr, Dgram};

// The two ends of a datagram, in the order of a query.
#[derive(Clone, Copy, Debug)]
pub(crate) struct Ends {
    pub(crate) client: Addr,
    pub(crate) server: Addr,
    pub(crate) client_port: u16,
    pub(crate) server_port: u16,
}

// The ends of a datagram whose source is the client, or the server.
pub(crate) fn ends_of(from_client: bool, dgram: &Dgram) -> Ends
    ensures { kept_ends result ≡ ends_of from_client (datagram_of dgram.now) }
{
    if from_client {
        Ends {
            client: dgram.src,
            server: dgram.dst,
            client_port: dgram.sport,
            server_port: dgram.dport,
        }
    } else {
        Ends {
            client: dgram.dst,
            server: dgram.src,
            client_port: dgram.dport,
            server_port: dgram.sport,
        }
    }
}
