//! The event in a packet.

ghost use Rattle.std.specs.Prelude.{◌*◌, ◌≤◌, IfOk};
ghost use Rattle.cd_ident.specs.declared.event_making.TheConstants.{GREATEST_WEIGHT};
ghost use Rattle.cd_capture.specs.Laws.{record_size};
ghost use Rattle.cd_engine.specs.Events.{IsHeldIn, IfEvent};

use cd_ident::{Event, EventRules};
use cd_packet::{Layer, Packet, Reason, layers};
use std::alloc::{AllocError, Global};

/// What a packet holds for the traffic of DNS.
#[derive(Drop)]
pub(crate) enum Held {
    /// The event of the datagram in it.
    Event(Event),
    /// No datagram from or to the port of DNS, for this reason.
    Skipped(Reason),
}

/// What a packet holds: an event, or the reason why it is skipped. An `Err` is for want of memory.
pub(crate) fn held_in(
    alloc: Global,
    packet: &Packet,
    rules: &EventRules,
) -> Result<Held, AllocError>
    ensures exact { IfOk result (λ held. IsHeldIn held rules.now packet.now) }
    ensures weight { IfOk result (λ held. IfEvent held (λ e. e.weight ≤ GREATEST_WEIGHT)) }
    ensures linear { IfOk result (λ held. IfEvent held (λ e. 16 * e.weight ≤ 829 * record_size packet.now)) }
{
    match layers(packet, rules.port) {
        Layer::Dgram(datagram) => Ok(Held::Event(cd_ident::event_of(alloc, &datagram, rules)?)),
        Layer::Skip(reason) => Ok(Held::Skipped(reason)),
    }
}
