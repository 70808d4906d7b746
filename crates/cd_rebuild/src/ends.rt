//! The two ends of a message.

ghost use Rattle.std.specs.Prelude.{◌≡◌};

use cd_packet::Addr;

// The two ends of a message, which have one version of IP.
#[derive(Clone, Copy)]
pub(crate) struct Ends {
    pub(crate) client: Addr,
    pub(crate) client_port: u16,
    pub(crate) server: Addr,
    pub(crate) server_port: u16,
    pub(crate) ghost one_version: { client.v6 ≡ server.v6 },
}
