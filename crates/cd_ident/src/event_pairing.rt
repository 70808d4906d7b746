//! Events as the pairing sees them.

ghost use Rattle.cd_ident.specs.Keys.{view_of, side_of};
ghost use Rattle.std.specs.Prelude.{◌≡◌};

use crate::{Event, Kind};
use cd_pairing::{Keyed, Side};

// Queries and responses are paired, and the others stand alone.
fn side_of(kind: Kind) -> Side
    ensures { result ≡ side_of kind }
{
    match kind {
        Kind::Query => Side::Query,
        Kind::Response => Side::Response,
        Kind::Malformed | Kind::Discarded => Side::Neither,
    }
}

impl Keyed for Event {
    ghost view = { view_of };

    fn side(&self) -> Side {
        side_of(self.kind)
    }

    fn time(&self) -> u64 {
        self.time
    }

    fn weight(&self) -> u64 {
        self.weight
    }

    fn primary(&self) -> &[u8] {
        &self.ids.primary
    }

    fn secondary(&self) -> Option<&[u8]> {
        match &self.ids.secondary {
            Some(secondary) => Some(secondary.as_slice()),
            None => None,
        }
    }
}
