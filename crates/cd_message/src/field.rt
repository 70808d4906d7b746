//! Reads the numbers, names and questions of a message.

ghost use Rattle.std.specs.Prelude.{◌≡◌, ◌+◌, ◌<◌, ◌≤◌, [], length, IfOk, Ok};
ghost use Rattle.cd_message.specs.Messages;
ghost use Rattle.cd_message.specs.Readings.{Gives};

use crate::message::{MsgWhy, ParseFault, Question};
use cd_bytes::be16;
use cd_name::{Name, NameFault, NameReader, NameWhy};
use std::alloc::{AllocError, Global};

// A rule of names, as a rule of messages.
pub(crate) fn why_of(why: NameWhy) -> MsgWhy
    ensures { result ≡ Messages.why_of why }
{
    match why {
        NameWhy::Short => MsgWhy::Short,
        NameWhy::Label => MsgWhy::Label,
        NameWhy::Pointer => MsgWhy::Pointer,
        NameWhy::LongName => MsgWhy::LongName,
    }
}

// An empty list with room for so many items.
pub(crate) fn room_for<T>(alloc: Global, count: usize) -> Result<Vec<T>, ParseFault>
    ensures { Gives (λ items. items.items) result (Ok []) }
{
    match Vec::with_capacity(alloc, count) {
        Ok(items) => Ok(items),
        Err(AllocError) => Err(ParseFault::NoMemory),
    }
}

// The name at an offset, and the offset after it.
#[tactic(auto, unfolding(crate::specs::Messages::name_in))]
pub(crate) fn name_in(reader: &mut NameReader<'_>, at: usize) -> Result<(Name, usize), ParseFault>
    ensures read { Gives (λ x. (x.0, x.1)) result (Messages.name_in reader.old at) }
    ensures within { IfOk result (λ x. (at < x.1) × (x.1 ≤ length reader.old)) }
    ensures same { reader.new ≡ reader.old }
{
    match reader.read(at) {
        Ok((name, next)) => Ok((name, next)),
        Err(NameFault::Bad(why)) => Err(ParseFault::Malformed(why_of(why))),
        Err(NameFault::NoMemory) => Err(ParseFault::NoMemory),
    }
}

// The question at an offset, and the offset after it.
#[tactic(auto, unfolding(crate::specs::Messages::question_at))]
pub(crate) fn question_at(
    reader: &mut NameReader<'_>,
    at: usize,
) -> Result<(Question, usize), ParseFault>
    ensures read { Gives (λ x. (x.0, x.1)) result (Messages.question_at reader.old at) }
    ensures same { reader.new ≡ reader.old }
{
    let payload = reader.payload();
    let (name, next) = name_in(reader, at)?;
    if payload.len() - next < 4 {
        return Err(ParseFault::Malformed(MsgWhy::Short));
    }
    let question = Question {
        name,
        rtype: be16(payload, next),
        rclass: be16(payload, next + 2),
    };
    Ok((question, next + 4))
}
