//! Events of a capture and their pairs.

ghost use Rattle.std.specs.Prelude.{◌≡◌, ◌<◌, ◌^◌, map, true};
ghost use Rattle.std.specs.List.{sum_by};
ghost use Rattle.cd_ident.specs.Keys.{view_of};

use crate::captures::Visit;
use crate::messages::put_message;
use crate::packets::put_address;
use crate::text::{put_bytes, put_field, put_time, yes_or_no};
use cd_hints::Settings;
use cd_ident::{Body, Event, EventRules, Ids, Kind, compatible_ids, event_of};
use cd_name::List;
use cd_packet::{Addr, Dgram, Layer, Packet, is_ethernet_ipv4, layers};
use cd_pairing::{Windows, pair_all};
use std::alloc::{AllocError, Global};
use std::fmt::Write;

const MOST_WEIGHT: u64 = 9_000_000_000_000_000_000;

const MOST_PAYLOAD: usize = 65_535;

/// The windows that settings say.
pub fn windows_of(settings: &Settings) -> Windows
    ensures { result.count ≡ settings.now.window }
{
    let params = &settings.params;
    Windows {
        query_ns: params.query_ms.unwrap_or(0).saturating_mul(1_000_000),
        skew_ns: params.skew_us.unwrap_or(0).saturating_mul(1_000),
        count: settings.window,
        bytes: settings.window_bytes,
    }
}

/// The events of a capture, in its order.
#[derive(Drop)]
pub struct Events {
    alloc: Global,
    rules: EventRules,
    ipv6: Option<[u8; 16]>,
    list: List<Event>,
    weight: u64,
    ghost light: { weight < 2 ^ 63 },
    ghost weighed: { sum_by (λ v. v.weight) (map view_of list) ≡ weight },
}

impl Events {
    /// None, to be judged by these settings, with their addresses embedded in a prefix of IPv6 or as they are.
    pub fn new(alloc: Global, settings: &Settings, ipv6: Option<[u8; 16]>) -> Events {
        Events {
            alloc,
            rules: EventRules {
                port: settings.port,
                opcodes: settings.params.opcodes,
            },
            ipv6,
            list: List::from_vec(Vec::new(alloc)),
            weight: 0,
        }
    }

    // One more. Events that together weigh more than memory holds are want of memory.
    fn add(&mut self, event: Event) -> Result<(), AllocError> {
        let Some(weight) = self.weight.checked_add(event.weight) else {
            return Err(AllocError);
        };
        if weight > MOST_WEIGHT {
            return Err(AllocError);
        }
        match self.list.push(event) {
            Ok(()) => {
                self.weight = weight;
                Ok(())
            }
            Err(_) => Err(AllocError),
        }
    }

    /// All events.
    pub fn as_slice(&self) -> &[Event] {
        self.list.as_slice()
    }

    /// The partner of each.
    pub fn partners(&self, settings: &Settings) -> Result<List<Option<usize>>, AllocError> {
        pair_all(self.alloc, self.list.as_slice(), &windows_of(settings))
    }

    /// All events, one by one.
    pub fn into_vec(self) -> Vec<Event> {
        self.list.into_vec()
    }

    /// All events, to be taken one by one.
    pub fn into_slots(self) -> Result<Vec<Option<Event>>, AllocError> {
        let mut slots = Vec::new(self.alloc);
        for event in self.list.into_vec() {
            slots.push(Some(event))?;
        }
        Ok(slots)
    }
}

// An address of IPv4, embedded in the first 96 bits of a prefix of IPv6 (RFC 6052 2.2).
fn embedded(prefix: &[u8; 16], addr: &Addr) -> Addr
    ensures { result.v6 ≡ true }
{
    let [a, b, c, d, ..] = addr.octets;
    let mut octets = *prefix;
    octets[12] = a;
    octets[13] = b;
    octets[14] = c;
    octets[15] = d;
    Addr { v6: true, octets }
}

// A datagram of IPv4 with its addresses embedded in a prefix of IPv6.
fn with_ipv6<'a>(prefix: &[u8; 16], dgram: &Dgram<'a>) -> Dgram<'a>
    ensures one_version { result.src.v6 ≡ result.dst.v6 }
    ensures payload { result.payload.now ≡ dgram.now.payload.now }
{
    Dgram {
        time: dgram.time,
        src: embedded(prefix, &dgram.src),
        dst: embedded(prefix, &dgram.dst),
        sport: dgram.sport,
        dport: dgram.dport,
        hop: dgram.hop,
        payload: dgram.payload,
    }
}

impl Visit for Events {
    fn packet(&mut self, packet: &Packet) -> Result<(), AllocError> {
        if !is_ethernet_ipv4(packet) {
            return Ok(());
        }
        match layers(packet, self.rules.port) {
            Layer::Dgram(dgram) => {
                if dgram.payload.len() > MOST_PAYLOAD {
                    return Ok(());
                }
                let event = match &self.ipv6 {
                    Some(prefix) => {
                        event_of(self.alloc, &with_ipv6(prefix, &dgram), &self.rules)?
                    }
                    None => event_of(self.alloc, &dgram, &self.rules)?,
                };
                self.add(event)
            }
            Layer::Skip(_) => Ok(()),
        }
    }
}

/// A kind of events, as a word.
pub fn word_of(kind: Kind) -> &'static str {
    match kind {
        Kind::Query => "query",
        Kind::Response => "response",
        Kind::Malformed => "malformed",
        Kind::Discarded => "discarded",
    }
}

fn put_ends(text: &mut String, event: &Event) -> Result<(), AllocError> {
    text.push_str("  client ")?;
    put_address(text, &event.client)?;
    writeln!(text, " port {}", event.client_port)?;
    text.push_str("  server ")?;
    put_address(text, &event.server)?;
    writeln!(text, " port {}", event.server_port)
}

fn put_event_time(text: &mut String, time: u64) -> Result<(), AllocError> {
    text.push_str("  time ")?;
    put_time(text, time)?;
    text.push('\n')
}

fn put_event_numbers(text: &mut String, event: &Event) -> Result<(), AllocError> {
    put_field(text, "  hop-limit", &event.hop)?;
    put_field(text, "  size", &event.size)?;
    put_field(text, "  trailing-bytes", &yes_or_no(event.trailing))?;
    put_field(text, "  weight", &event.weight)
}

fn put_ids(text: &mut String, ids: &Ids) -> Result<(), AllocError> {
    put_bytes(text, "  primary", &ids.primary)?;
    match &ids.secondary {
        Some(secondary) => put_bytes(text, "  secondary", secondary.as_slice()),
        None => Ok(()),
    }
}

fn put_body(text: &mut String, body: &Body) -> Result<(), AllocError> {
    match body {
        Body::Message(message) => {
            text.push_str("  message\n")?;
            put_message(text, "    ", message)
        }
        Body::Payload(payload) => put_bytes(text, "  payload", payload.as_slice()),
        Body::Nothing => Ok(()),
    }
}

// An event and what it keeps, field by field.
fn put_event(text: &mut String, index: usize, event: &Event) -> Result<(), AllocError> {
    writeln!(text, "event {index} {}", word_of(event.kind))?;
    put_event_time(text, event.time)?;
    put_ends(text, event)?;
    put_event_numbers(text, event)?;
    put_ids(text, &event.ids)?;
    put_body(text, &event.body)
}

/// Each event with its identifiers and what is kept of its payload.
pub fn put_events(text: &mut String, events: &[Event]) -> Result<(), AllocError> {
    for (index, event) in events.iter().enumerate() {
        put_event(text, index, event)?;
    }
    Ok(())
}

/// Each event with its partner, and whether its identifiers go with those of the event before it.
pub fn put_pairs(
    text: &mut String,
    events: &[Event],
    partners: &[Option<usize>],
) -> Result<(), AllocError> {
    let mut before: Option<&Event> = None;
    for (index, (event, partner)) in events.iter().zip(partners).enumerate() {
        write!(text, "event {index} {} time ", word_of(event.kind))?;
        put_time(text, event.time)?;
        write!(text, " weight {}", event.weight)?;
        if let Some(before) = before {
            let agrees = compatible_ids(&before.ids, &event.ids);
            write!(text, " compatible-with-previous {}", yes_or_no(agrees))?;
        }
        match partner {
            Some(partner) => writeln!(text, " partner {partner}")?,
            None => text.push_str(" alone\n")?,
        }
        before = Some(event);
    }
    Ok(())
}
