//! Reads the head at the front of some bytes as an event.

ghost use Rattle.std.specs.Prelude.{◌≡◌, ◌<◌, ◌≤◌, [], length, Ok, IfOk, IfErr};
ghost use Rattle.cd_cbor.specs.Events as events;
ghost use Rattle.cd_cbor.specs.Events.{HasRoom};
ghost use Rattle.cd_cbor.specs.Readings.{Gives, LiesWithin};
ghost use Rattle.cd_cbor.specs.declared.event.Told.TheVariants as told;
ghost use Rattle.cd_cbor.specs.declared.event.Act.TheVariants as act;
ghost use Rattle.cd_cbor.specs.declared.event.Event.TheVariants as event;

use crate::event::{Act, Event, Told};
use crate::fault::{CborFault, Why};
use crate::head_reading::{INDEFINITE, NO_ARGUMENT, argument_at, bad, byte_at, major_type};
use crate::item_reading::copied;
use crate::major_type::MajorType;
use crate::string_reading::string_at;
use crate::wanted::Wanted;
use cd_name::Blob;
use std::alloc::Global;

// Whether a break may stand where this is wanted, and else what it is.
#[tactic(auto, unfolding(crate::specs::Events::break_front))]
pub(crate) fn may_close(top: Option<Wanted>) -> Result<(), CborFault>
    ensures read { Gives (λ _. (told.Event event.Close act.Close, 1)) result
        (events.break_front top) }
    ensures fault { IfErr result (λ e. LiesWithin [] e) }
{
    match top {
        None => Err(bad(0, Why::Break)),
        Some(Wanted::Items(_)) => Err(bad(0, Why::Break)),
        Some(Wanted::Pairs(_)) => Err(bad(0, Why::Break)),
        Some(Wanted::Half(_)) => Err(bad(0, Why::Break)),
        Some(Wanted::Elements) => Ok(()),
        Some(Wanted::Keys) => Ok(()),
        Some(Wanted::Value) => Err(bad(0, Why::Odd)),
    }
}

// A text or a string of bytes.
pub(crate) fn string_event(is_text: bool, content: Blob) -> Event
    ensures { result ≡ events.string_event is_text content }
{
    if is_text {
        Event::Text(content)
    } else {
        Event::Bytes(content)
    }
}

// The string at the front, of definite length.
#[tactic(auto, unfolding(crate::specs::Events::string_front))]
fn string_front(
    alloc: Global,
    is_text: bool,
    info: u8,
    bytes: &[u8],
) -> Result<(Event, usize), CborFault>
    requires { 0 < length bytes.now }
    ensures read { Gives (λ x. (x.0, x.1)) result (events.string_front is_text info bytes.now) }
    ensures within { IfOk result (λ x. (0 < x.1) × (x.1 ≤ length bytes.now)) }
{
    let (content, size) = string_at(bytes, is_text, 0, info, 0)?;
    let content = copied(alloc, content)?;
    Ok((string_event(is_text, content), size))
}

// What an array of so many items does, where one more may be open.
pub(crate) fn array_act(count: u64) -> Act
    ensures { result ≡ events.array_act count }
{
    if count == 0 {
        Act::Item
    } else {
        Act::Enter(Wanted::Items(count - 1))
    }
}

// What a map of so many pairs does, where one more may be open.
pub(crate) fn map_act(count: u64) -> Act
    ensures { result ≡ events.map_act count }
{
    if count == 0 {
        Act::Item
    } else {
        Act::Enter(Wanted::Pairs(count - 1))
    }
}

// A simple value, or a float, by the additional information of its head.
fn simple_event(info: u8, value: u64) -> Event
    requires { info < 25 → value < 256 }
    ensures { result ≡ events.simple_event info value }
{
    if info < 25 {
        Event::Simple(value as u8)
    } else {
        Event::Float
    }
}

// A head with an argument, where so many more may be open.
#[tactic(auto, unfolding(crate::specs::Events::definite_front), using(crate::proofs::Rooms::array_room, crate::proofs::Rooms::map_room))]
fn definite_front(
    alloc: Global,
    room: usize,
    kind: MajorType,
    info: u8,
    bytes: &[u8],
) -> Result<(Told, usize), CborFault>
    requires { 0 < length bytes.now }
    ensures read { Gives (λ x. (x.0, x.1)) result
        (events.definite_front room kind info bytes.now) }
    ensures room { IfOk result (λ x. HasRoom room x.0) }
    ensures within { IfOk result (λ x. (0 < x.1) × (x.1 ≤ length bytes.now)) }
{
    match kind {
        MajorType::Unsigned => {
            let (n, size) = argument_at(bytes, info, 0)?;
            Ok((Told::Event(Event::Uint(n), Act::Item), size))
        }
        MajorType::Negative => {
            let (n, size) = argument_at(bytes, info, 0)?;
            Ok((Told::Event(Event::Nint(n), Act::Item), size))
        }
        MajorType::Bytes => {
            let (event, size) = string_front(alloc, false, info, bytes)?;
            Ok((Told::Event(event, Act::Item), size))
        }
        MajorType::Text => {
            let (event, size) = string_front(alloc, true, info, bytes)?;
            Ok((Told::Event(event, Act::Item), size))
        }
        MajorType::Array => {
            if room == 0 {
                return Err(bad(0, Why::Depth));
            }
            let (count, size) = argument_at(bytes, info, 0)?;
            Ok((
                Told::Event(Event::Array(Some(count)), array_act(count)),
                size,
            ))
        }
        MajorType::Map => {
            if room == 0 {
                return Err(bad(0, Why::Depth));
            }
            let (count, size) = argument_at(bytes, info, 0)?;
            Ok((Told::Event(Event::Map(Some(count)), map_act(count)), size))
        }
        MajorType::Tag => {
            if room == 0 {
                return Err(bad(0, Why::Depth));
            }
            let (tag, size) = argument_at(bytes, info, 0)?;
            Ok((
                Told::Event(Event::Tag(tag), Act::Enter(Wanted::Items(0))),
                size,
            ))
        }
        MajorType::Simple => {
            let (value, size) = argument_at(bytes, info, 0)?;
            if info == 24 && value < 32 {
                return Err(bad(0, Why::Head));
            }
            Ok((Told::Event(simple_event(info, value), Act::Item), size))
        }
    }
}

// A head of one byte that tells no length.
#[tactic(auto, unfolding(crate::specs::Events::indefinite_front))]
fn indefinite_front(
    room: usize,
    top: Option<Wanted>,
    kind: MajorType,
) -> Result<(Told, usize), CborFault>
    ensures read { Gives (λ x. (x.0, x.1)) result (events.indefinite_front room top kind) }
    ensures room { IfOk result (λ x. HasRoom room x.0) }
    ensures within { IfOk result (λ x. x.1 ≡ 1) }
{
    match kind {
        MajorType::Unsigned => Err(bad(0, Why::Head)),
        MajorType::Negative => Err(bad(0, Why::Head)),
        MajorType::Bytes => Ok((Told::Chunks(false), 1)),
        MajorType::Text => Ok((Told::Chunks(true), 1)),
        MajorType::Array => {
            if room == 0 {
                return Err(bad(0, Why::Depth));
            }
            Ok((
                Told::Event(Event::Array(None), Act::Enter(Wanted::Elements)),
                1,
            ))
        }
        MajorType::Map => {
            if room == 0 {
                return Err(bad(0, Why::Depth));
            }
            Ok((Told::Event(Event::Map(None), Act::Enter(Wanted::Keys)), 1))
        }
        MajorType::Tag => Err(bad(0, Why::Head)),
        MajorType::Simple => {
            may_close(top)?;
            Ok((Told::Event(Event::Close, Act::Close), 1))
        }
    }
}

// The head at the front of some bytes, where this is wanted and so many more may be open.
#[tactic(auto, unfolding(crate::specs::Events::head_front))]
pub(crate) fn head_front(
    alloc: Global,
    room: usize,
    top: Option<Wanted>,
    bytes: &[u8],
) -> Result<(Told, usize), CborFault>
    ensures read { Gives (λ x. (x.0, x.1)) result (events.head_front room top bytes.now) }
    ensures room { IfOk result (λ x. HasRoom room x.0) }
    ensures within { IfOk result (λ x. (0 < x.1) × (x.1 ≤ length bytes.now)) }
{
    let first = byte_at(bytes, 0)?;
    let kind = major_type(first);
    let info = first % 32;
    if info < NO_ARGUMENT {
        definite_front(alloc, room, kind, info, bytes)
    } else if info < INDEFINITE {
        Err(bad(0, Why::Head))
    } else {
        indefinite_front(room, top, kind)
    }
}
