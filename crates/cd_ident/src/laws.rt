//! Laws of events and their identifiers, each the contract of a function that does nothing.

ghost use Rattle.cd_ident.specs.IdentifierLaws.{PrimariesAreExact, SecondariesAreExact, ResponsesHaveThePrimary};
ghost use Rattle.cd_ident.specs.EventWeights.{EventWeightsAreBounded, EventWeightsAreLinear};
ghost use Rattle.cd_ident.specs.EventWeights.{SumsOfWeightsAreLinear, EventsAreHeavy};
ghost use Rattle.cd_ident.specs.Keys.{CompatibleIdsAreTheKeys};

/// The identifiers of two events are compatible exactly as the pairing asks of their keys.
pub fn compatible_ids_are_the_keys()
    ensures { CompatibleIdsAreTheKeys }
{}

/// Primaries are equal exactly if the version of IP, the addresses, the ports, the ID and the opcode are.
pub fn primaries_are_exact()
    ensures { PrimariesAreExact }
{}

/// Secondaries of two questions are equal exactly if the types and classes are, and the names but for case.
pub fn secondaries_are_exact()
    ensures { SecondariesAreExact }
{}

/// A response that goes back where a query came from, with its ID and opcode, has its primary.
pub fn responses_have_the_primary()
    ensures { ResponsesHaveThePrimary }
{}

/// Where its payload has at most 65,535 bytes, the event of a datagram weighs at least `LEAST_WEIGHT` and at most
/// `GREATEST_WEIGHT`.
pub fn event_weights_are_bounded()
    ensures { EventWeightsAreBounded }
{}

/// Sixteen times the weight of the event of a datagram is at most 829 times a number: the length of its payload in
/// bytes, and five. The payload may have any length.
pub fn event_weights_are_linear()
    ensures { EventWeightsAreLinear }
{}

/// Sixteen times what the events of some datagrams weigh together is at most 829 times a number: the sum over the
/// datagrams of the length of the payload in bytes, and five for each.
pub fn sums_of_weights_are_linear()
    ensures { SumsOfWeightsAreLinear }
{}

/// No event is lighter than `LEAST_WEIGHT`, so the laws of cd_pairing on what is settled hold of all events.
pub fn events_are_heavy()
    ensures { EventsAreHeavy }
{}
