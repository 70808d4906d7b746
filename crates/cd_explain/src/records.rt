//! Records of paired events.

ghost use Rattle.std.specs.Prelude.{◌≡◌, ◌≤◌, true, IfSome};
ghost use Rattle.std.specs.List.{All};
ghost use Rattle.cd_hints.specs.Records.{record_parts, HasKinds};
ghost use Rattle.cd_ident.specs.Keys.{parts_of};
ghost use Rattle.cd_record.specs.Laws.{IsLight, events_of};

use cd_hints::Rec;
use cd_ident::{Event, GREATEST_WEIGHT, Kind};

// The record of one event. None where it weighs more than that of a datagram may.
fn alone(event: Event) -> Option<Rec>
    ensures kinds { IfSome result (λ r. HasKinds (record_parts r)) }
    ensures light { IfSome result (λ r. All IsLight (events_of (record_parts r))) }
{
    if event.weight > GREATEST_WEIGHT {
        return None;
    }
    match event.kind {
        Kind::Query => Some(Rec::Query(event)),
        Kind::Response => Some(Rec::Response(event)),
        Kind::Malformed => Some(Rec::Malformed(event)),
        Kind::Discarded => Some(Rec::Discarded(event)),
    }
}

// Whether two events are a query and a response, of which each weighs no more than that of a datagram may.
fn are_pair(query: &Event, response: &Event) -> bool
    ensures query { result ≡ true → query.now.kind ≡ Kind.Query }
    ensures response { result ≡ true → response.now.kind ≡ Kind.Response }
    ensures light_query { result ≡ true → IsLight (parts_of query.now) }
    ensures light_response { result ≡ true → IsLight (parts_of response.now) }
{
    if query.weight > GREATEST_WEIGHT || response.weight > GREATEST_WEIGHT {
        return false;
    }
    match (query.kind, response.kind) {
        (Kind::Query, Kind::Response) => true,
        _ => false,
    }
}

// The record of a query and a response, in either order. None where one weighs too much, or they are no such two.
fn pair(one: Event, other: Event) -> Option<Rec>
    ensures kinds { IfSome result (λ r. HasKinds (record_parts r)) }
    ensures light { IfSome result (λ r. All IsLight (events_of (record_parts r))) }
{
    if are_pair(&one, &other) {
        return Some(Rec::Pair {
            query: one,
            response: other,
        });
    }
    if are_pair(&other, &one) {
        return Some(Rec::Pair {
            query: other,
            response: one,
        });
    }
    None
}

// Takes the event at an index.
fn take_at(slots: &mut Vec<Option<Event>>, index: usize) -> Option<Event> {
    match slots.get_mut(index) {
        Some(slot) => slot.take(),
        None => None,
    }
}

/// Takes the record that begins with the event at an index, whose partner is this.
pub fn record_at(
    slots: &mut Vec<Option<Event>>,
    index: usize,
    partner: Option<usize>,
) -> Option<Rec>
    ensures kinds { IfSome result (λ r. HasKinds (record_parts r)) }
    ensures light { IfSome result (λ r. All IsLight (events_of (record_parts r))) }
{
    let event = take_at(slots, index)?;
    match partner {
        None => alone(event),
        Some(index) => {
            let other = take_at(slots, index)?;
            pair(event, other)
        }
    }
}
