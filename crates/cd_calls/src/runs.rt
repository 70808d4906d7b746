//! Each public call once. Values are cases elsewhere.

ghost use Rattle.std.specs.Prelude.{◌≡◌, ◌≤◌, IfOk};
ghost use Rattle.std.specs.List.{All};
ghost use Rattle.cd_hints.specs.Records.{record_parts, HasKinds};
ghost use Rattle.cd_hints.specs.Validity.{IsValid};
ghost use Rattle.cd_ident.specs.Keys.{parts_of};
ghost use Rattle.cd_record.specs.Laws.{IsLight, events_of};
ghost use Rattle.cd_record.specs.Runs.{limits_of};

use cd_hints::{Rec, Settings, default_settings};
use cd_ident::{Event, EventRules, Kind, event_of};
use cd_packet::{Addr, Dgram};
use cd_record::laws::one_record_is_admissible;
use cd_record::{BlockRecords, Cutter, kept_block};
use std::alloc::{AllocError, Global};

const ADDR: Addr = Addr {
    v6: false,
    octets: [192, 0, 2, 1, 0, 0, 0, 0, 0, 0, 0, 0, 0, 0, 0, 0],
};

// A query that is a header alone.
const HEADER: [u8; 12] = [0x1a, 0x2b, 0, 0, 0, 0, 0, 0, 0, 0, 0, 0];

// The event of a payload of at most 65,535 bytes.
fn event(alloc: Global, payload: &[u8]) -> Result<Event, AllocError>
    ensures { IfOk result (λ event. IsLight (parts_of event)) }
{
    let dgram = Dgram {
        time: 7_000,
        src: ADDR,
        dst: ADDR,
        sport: 40000,
        dport: 53,
        hop: 64,
        payload: &payload[..payload.len().min(65535)],
    };
    let rules = EventRules {
        port: 53,
        opcodes: 1,
    };
    event_of(alloc, &dgram, &rules)
}

// The record of an event that stands alone.
fn alone(event: Event) -> Rec
    requires { IsLight (parts_of event) }
    ensures kinds { HasKinds (record_parts result) }
    ensures light { All IsLight (events_of (record_parts result)) }
{
    match event.kind {
        Kind::Query => Rec::Query(event),
        Kind::Response => Rec::Response(event),
        Kind::Malformed => Rec::Malformed(event),
        Kind::Discarded => Rec::Discarded(event),
    }
}

// Pushes a record of light events into a cutter that was made with these settings.
fn push(
    cutter: &mut Cutter,
    settings: &Settings,
    rec: Rec,
) -> Result<Option<BlockRecords>, AllocError>
    requires valid { IsValid settings.now }
    requires cutter { cutter.old ≡ record cutter.old { limits = limits_of settings.now; ticks = settings.now.params.ticks } }
    requires kinds { HasKinds (record_parts rec) }
    requires light { All IsLight (events_of (record_parts rec)) }
    ensures { cutter.new ≡ record cutter.new { limits = limits_of settings.now; ticks = settings.now.params.ticks } }
{
    one_record_is_admissible();
    match cutter.push(rec) {
        Ok(given) => Ok(given),
        Err(_) => Err(AllocError),
    }
}

#[test]
fn a_block_is_kept_of_a_run(rt: HostRuntime) -> Result<(), AllocError> {
    let settings = default_settings(rt.alloc())?;
    let mut cutter = Cutter::new(rt.alloc(), &settings);
    let given = push(&mut cutter, &settings, alone(event(rt.alloc(), b"\x1a")?))?;
    assert!(rt; given.is_none());
    let given = push(&mut cutter, &settings, alone(event(rt.alloc(), &HEADER)?))?;
    assert!(rt; given.is_none());
    let Some(run) = cutter.finish() else {
        return Err(AllocError);
    };
    let block = kept_block(rt.alloc(), &settings, &run)?;
    assert_eq!(rt; block.items.as_slice().len(), 1);
    assert_eq!(rt; block.malformed.as_slice().len(), 1);
    Ok(())
}
