//! Records: what the events of a capture are grouped into.

ghost use Rattle.std.specs.Prelude.{◌≡◌, IfSome};
ghost use Rattle.std.specs.Option.{option_copied, option_map};
ghost use Rattle.cd_message.specs.Valid.{Valid};
ghost use Rattle.cd_ident.specs.Keys.{parts_of};
ghost use Rattle.cd_hints.specs.Records.{event_message};

use cd_ident::{Body, Event};
use cd_message::Message;

/// A query with its response, or an event that stands alone (RFC 8618 10). `kept_item` and `kept_malformed` ask that
/// each event has the kind that the record names.
#[derive(Debug, Drop)]
pub enum Rec {
    /// A query and its response.
    Pair { query: Event, response: Event },
    /// A query with no response: an unmatched query.
    Query(Event),
    /// A response with no query: an unmatched response.
    Response(Event),
    /// A payload that is no message.
    Malformed(Event),
    /// A message whose opcode is not listed.
    Discarded(Event),
}

// The message of an event, where it has one.
fn message_of(event: &Event) -> Option<&Message>
    ensures message { option_copied result ≡ event_message (parts_of event.now) }
    ensures valid { IfSome result (λ m. Valid m.now) }
{
    match &event.body {
        Body::Message(message) => Some(message),
        Body::Payload(_) => None,
        Body::Nothing => None,
    }
}

impl Rec {
    ghost use Rattle.cd_hints.specs.Records.{record_parts, main_event, query_of, response_of, query_message};
    ghost use Rattle.cd_hints.specs.Records.{response_message};
    ghost use Rattle.cd_hints.specs.Items.{main_message};

    /// The event whose time, ends and ID are those of the record: the query, or else the only event.
    pub fn main_event(&self) -> &Event
        ensures { parts_of result.now ≡ main_event (record_parts self.now) }
    {
        match self {
            Rec::Pair { query, response: _ } => query,
            Rec::Query(event) => event,
            Rec::Response(event) => event,
            Rec::Malformed(event) => event,
            Rec::Discarded(event) => event,
        }
    }

    // The query, where there is one.
    pub(crate) fn query(&self) -> Option<&Event>
        ensures { option_map (λ e. parts_of e.now) result ≡ query_of (record_parts self.now) }
    {
        match self {
            Rec::Pair { query, response: _ } => Some(query),
            Rec::Query(event) => Some(event),
            Rec::Response(_) => None,
            Rec::Malformed(_) => None,
            Rec::Discarded(_) => None,
        }
    }

    // The response, where there is one.
    pub(crate) fn response(&self) -> Option<&Event>
        ensures { option_map (λ e. parts_of e.now) result ≡ response_of (record_parts self.now) }
    {
        match self {
            Rec::Pair { query: _, response } => Some(response),
            Rec::Query(_) => None,
            Rec::Response(event) => Some(event),
            Rec::Malformed(_) => None,
            Rec::Discarded(_) => None,
        }
    }

    // The message of the main event.
    pub(crate) fn main_message(&self) -> Option<&Message>
        ensures message { option_copied result ≡ main_message (record_parts self.now) }
        ensures valid { IfSome result (λ m. Valid m.now) }
    {
        message_of(self.main_event())
    }

    /// The message of the query, where there is one.
    pub fn query_message(&self) -> Option<&Message>
        ensures message { option_copied result ≡ query_message (record_parts self.now) }
        ensures valid { IfSome result (λ m. Valid m.now) }
    {
        self.query().and_then(|query| message_of(query))
    }

    /// The message of the response, where there is one.
    pub fn response_message(&self) -> Option<&Message>
        ensures message { option_copied result ≡ response_message (record_parts self.now) }
        ensures valid { IfSome result (λ m. Valid m.now) }
    {
        self.response().and_then(|response| message_of(response))
    }
}
