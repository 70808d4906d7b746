//! Passes the head at the front of some bytes, with the content of its string, and copies nothing.

ghost use Rattle.std.specs.Prelude.{◌≡◌, ◌<◌, ◌≤◌, [], length, Ok, IfOk, IfErr};
ghost use Rattle.cd_cbor.specs.Events as events;
ghost use Rattle.cd_cbor.specs.Scanning.{done_by, done_front, MayDo};
ghost use Rattle.cd_cbor.specs.Readings.{Gives, LiesWithin};

use crate::event::Act;
use crate::event_reading::{array_act, map_act, may_close};
use crate::fault::{CborFault, Why};
use crate::head_reading::{INDEFINITE, NO_ARGUMENT, argument_at, bad, byte_at, major_type};
use crate::major_type::MajorType;
use crate::string_reading::string_at;
use crate::wanted::Wanted;

/// What a head does.
#[derive(Clone, Copy, Debug, PartialEq, Eq)]
pub enum Done {
    /// This to the arrays, maps and tags that are open.
    Act(Act),
    /// It begins a text, or a string of bytes, in chunks.
    Chunks(bool),
}

// A head with an argument, where so many more may be open.
#[tactic(auto, unfolding(crate::specs::Events::definite_front, crate::specs::Events::string_front))]
fn definite_done(
    room: usize,
    kind: MajorType,
    info: u8,
    bytes: &[u8],
) -> Result<(Done, usize), CborFault>
    requires { 0 < length bytes.now }
    ensures read { Gives (λ x. (x.0, x.1)) result
        (done_by (events.definite_front room kind info bytes.now)) }
    ensures room { IfOk result (λ x. MayDo room x.0) }
    ensures within { IfOk result (λ x. (0 < x.1) × (x.1 ≤ length bytes.now)) }
    ensures fault { IfErr result (λ e. LiesWithin bytes.now e) }
{
    match kind {
        MajorType::Unsigned => {
            let (_n, size) = argument_at(bytes, info, 0)?;
            Ok((Done::Act(Act::Item), size))
        }
        MajorType::Negative => {
            let (_n, size) = argument_at(bytes, info, 0)?;
            Ok((Done::Act(Act::Item), size))
        }
        MajorType::Bytes => {
            let (_content, size) = string_at(bytes, false, 0, info, 0)?;
            Ok((Done::Act(Act::Item), size))
        }
        MajorType::Text => {
            let (_content, size) = string_at(bytes, true, 0, info, 0)?;
            Ok((Done::Act(Act::Item), size))
        }
        MajorType::Array => {
            if room == 0 {
                return Err(bad(0, Why::Depth));
            }
            let (count, size) = argument_at(bytes, info, 0)?;
            Ok((Done::Act(array_act(count)), size))
        }
        MajorType::Map => {
            if room == 0 {
                return Err(bad(0, Why::Depth));
            }
            let (count, size) = argument_at(bytes, info, 0)?;
            Ok((Done::Act(map_act(count)), size))
        }
        MajorType::Tag => {
            if room == 0 {
                return Err(bad(0, Why::Depth));
            }
            let (_tag, size) = argument_at(bytes, info, 0)?;
            Ok((Done::Act(Act::Enter(Wanted::Items(0))), size))
        }
        MajorType::Simple => {
            let (value, size) = argument_at(bytes, info, 0)?;
            if info == 24 && value < 32 {
                return Err(bad(0, Why::Head));
            }
            Ok((Done::Act(Act::Item), size))
        }
    }
}

// A head of one byte that tells no length.
#[tactic(auto, unfolding(crate::specs::Events::indefinite_front))]
fn indefinite_done(
    room: usize,
    top: Option<Wanted>,
    kind: MajorType,
) -> Result<(Done, usize), CborFault>
    ensures read { Gives (λ x. (x.0, x.1)) result
        (done_by (events.indefinite_front room top kind)) }
    ensures room { IfOk result (λ x. MayDo room x.0) }
    ensures within { IfOk result (λ x. x.1 ≡ 1) }
    ensures fault { IfErr result (λ e. LiesWithin [] e) }
{
    match kind {
        MajorType::Unsigned => Err(bad(0, Why::Head)),
        MajorType::Negative => Err(bad(0, Why::Head)),
        MajorType::Bytes => Ok((Done::Chunks(false), 1)),
        MajorType::Text => Ok((Done::Chunks(true), 1)),
        MajorType::Array => {
            if room == 0 {
                return Err(bad(0, Why::Depth));
            }
            Ok((Done::Act(Act::Enter(Wanted::Elements)), 1))
        }
        MajorType::Map => {
            if room == 0 {
                return Err(bad(0, Why::Depth));
            }
            Ok((Done::Act(Act::Enter(Wanted::Keys)), 1))
        }
        MajorType::Tag => Err(bad(0, Why::Head)),
        MajorType::Simple => {
            may_close(top)?;
            Ok((Done::Act(Act::Close), 1))
        }
    }
}

// The head at the front of some bytes, where this is wanted and so many more may be open.
#[tactic(auto, unfolding(crate::specs::Events::head_front))]
pub(crate) fn head_done(
    room: usize,
    top: Option<Wanted>,
    bytes: &[u8],
) -> Result<(Done, usize), CborFault>
    ensures read { Gives (λ x. (x.0, x.1)) result (done_front room top bytes.now) }
    ensures room { IfOk result (λ x. MayDo room x.0) }
    ensures within { IfOk result (λ x. (0 < x.1) × (x.1 ≤ length bytes.now)) }
    ensures fault { IfErr result (λ e. LiesWithin bytes.now e) }
{
    let first = byte_at(bytes, 0)?;
    let kind = major_type(first);
    let info = first % 32;
    if info < NO_ARGUMENT {
        definite_done(room, kind, info, bytes)
    } else if info < INDEFINITE {
        Err(bad(0, Why::Head))
    } else {
        indefinite_done(room, top, kind)
    }
}
