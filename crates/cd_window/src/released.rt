ghost use Rattle.std.specs.Prelude.{◌≡◌, ◌+◌, ◌<◌, ◌^◌};
ghost use Rattle.cd_window.specs.Pops.{in_order};
ghost use Rattle.cd_window.specs.History.{events_in, weight_in};

use cd_pairing::{Keyed, Side};

/// A record that no later event changes, with its lead: the position of its first event, from 0.
#[derive(Debug, Drop)]
pub enum Released<E> {
    /// A query and a response that stand together. Either may be the first.
    Pair { lead: u64, query: E, response: E },
    /// An event that stands alone.
    One { lead: u64, event: E },
}

// A pair whose first event is at this position.
pub(crate) fn in_order<E: Keyed>(lead: u64, one: E, other: E) -> Released<E>
    ensures { result ≡ in_order (E.view one).side lead one other }
{
    match one.side() {
        Side::Response => Released::Pair {
            lead,
            query: other,
            response: one,
        },
        _ => Released::Pair {
            lead,
            query: one,
            response: other,
        },
    }
}

// How many events a record has.
pub(crate) fn events_in<E>(released: &Released<E>) -> u64
    ensures { result ≡ events_in released.now }
{
    match released {
        Released::Pair { .. } => 2,
        Released::One { .. } => 1,
    }
}

// The weight of the events of a record.
pub(crate) fn weight_in<E: Keyed>(released: &Released<E>) -> u64
    requires { weight_in E.view released.now < 2 ^ 63 }
    ensures { result ≡ weight_in E.view released.now }
{
    match released {
        Released::Pair {
            query,
            response,
            ..
        } => query.weight() + response.weight(),
        Released::One { event, .. } => event.weight(),
    }
}
