ghost use Rattle.std.specs.Prelude.{◌≡◌, ◌↔◌, IsTrue};
ghost use Rattle.cd_pairing.specs.Events.{secondaries_agree};
ghost use Rattle.cd_ident.specs.Identifiers.{ids_agree, transport_of, IdsAgree};

use crate::primary::TRANSPORT;
use cd_name::Blob;

/// The identifiers of an event (RFC 8618 10.2).
#[derive(Debug, Drop)]
pub struct Ids {
    /// The version of IP, the addresses and ports of client and server, the transport, the ID and the opcode. Both
    /// halves of an exchange have the same.
    pub primary: [u8; 41],
    /// The first question, with its name in lower case. One half of an exchange may lack it.
    pub secondary: Option<Blob>,
}

impl Ids {
    /// The transport (RFC 8618 7.3.2.3.2): 0 is UDP. That of an event is at most 15.
    pub fn transport(&self) -> u8
        ensures exact { result ≡ transport_of self.now }
    {
        self.primary[TRANSPORT]
    }
}

// Whether two secondaries are equal, or one is absent.
fn secondaries_agree(one: &Option<Blob>, other: &Option<Blob>) -> bool
    ensures { result ≡ secondaries_agree one.now other.now }
{
    match (one, other) {
        (Some(one), Some(other)) => one.as_slice() == other.as_slice(),
        _ => true,
    }
}

/// Whether two events may be halves of one exchange by their identifiers: their primaries are equal, and their
/// secondaries are equal or one is absent.
pub fn compatible_ids(one: &Ids, other: &Ids) -> bool
    ensures exact { result ≡ ids_agree one.now other.now }
    ensures words { IsTrue result ↔ IdsAgree one.now other.now }
{
    one.primary.as_slice() == other.primary.as_slice()
        && secondaries_agree(&one.secondary, &other.secondary)
}
