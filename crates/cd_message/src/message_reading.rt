//! Reads a whole message (RFC 1035 4.1).

ghost use Rattle.std.specs.Prelude.{◌≡◌, ◌<◌, ◌≤◌, length, IfOk};
ghost use Rattle.cd_message.specs.Messages;
ghost use Rattle.cd_message.specs.Readings.{Gives, repeat};
ghost use Rattle.cd_message.specs.Valid.{Valid};

use crate::field::{question_at, room_for};
use crate::message::{Message, MsgWhy, ParseFault, Parsed, Question, Rr};
use crate::record::{opt_allowed_after, record_at};
use cd_bytes::be16;
use cd_name::{List, NameReader};
use std::alloc::Global;

// The number of bytes of a header.
const HEADER: usize = 12;

// The fewest bytes of a question: a root, a type and a class (RFC 1035 4.1.2).
const LEAST_QUESTION: usize = 5;

// The fewest bytes of a record: a root, a type, a class, a TTL and the length of no RDATA (RFC 1035 4.1.3).
const LEAST_RECORD: usize = 11;

// How many items a section has room for: the number that the header tells, or that the bytes left can hold.
fn room_of(count: u16, reader: &NameReader<'_>, at: usize, least: usize) -> usize
    requires { 0 < least }
{
    let left = reader.payload().len().saturating_sub(at);
    usize::from(count).min(left / least)
}

// So many questions from an offset on, and the offset after them.
fn questions_at(
    alloc: Global,
    reader: &mut NameReader<'_>,
    count: u16,
    at: usize,
) -> Result<(List<Question>, usize), ParseFault>
    ensures read { Gives (λ x. (x.0, x.1)) result
        (repeat (Messages.question_at reader.old) count at) }
    ensures same { reader.new ≡ reader.old }
{
    let mut questions = room_for(alloc, room_of(count, reader, at, LEAST_QUESTION))?;
    let mut here = at;
    'questions: for _ in 0..count {
        match question_at(reader, here) {
            Err(fault) => return Err(fault),
            Ok((question, next)) => match questions.push(question) {
                Ok(()) => here = next,
                Err(_refused) => return Err(ParseFault::NoMemory),
            },
        }
    }
    Ok((List::from_vec(questions), here))
}

// So many records from an offset on, where an OPT record is allowed or not, and the offset after them.
fn records_at(
    alloc: Global,
    reader: &mut NameReader<'_>,
    count: u16,
    opt_allowed: bool,
    at: usize,
) -> Result<(List<Rr>, usize), ParseFault>
    ensures read { Gives (λ x. (x.0, x.1)) result
        (Messages.records_at reader.old count opt_allowed at) }
    ensures same { reader.new ≡ reader.old }
{
    let mut records = room_for(alloc, room_of(count, reader, at, LEAST_RECORD))?;
    let mut allowed = opt_allowed;
    let mut here = at;
    'records: for _ in 0..count {
        match record_at(alloc, reader, allowed, here) {
            Err(fault) => return Err(fault),
            Ok((record, next)) => {
                allowed = opt_allowed_after(allowed, &record);
                match records.push(record) {
                    Ok(()) => here = next,
                    Err(_refused) => return Err(ParseFault::NoMemory),
                }
            }
        }
    }
    Ok((List::from_vec(records), here))
}

// The message that a payload spells, or the first rule that it breaks.
#[tactic(auto, unfolding(crate::specs::Messages::message_of))]
fn message_of(alloc: Global, payload: &[u8]) -> Result<Parsed, ParseFault>
    ensures { Gives (λ p. (p.message, p.used)) result (Messages.message_of payload.now) }
{
    if payload.len() < HEADER {
        return Err(ParseFault::Malformed(MsgWhy::Short));
    }
    let mut reader = NameReader::new(alloc, payload);
    let (questions, next) = questions_at(alloc, &mut reader, be16(payload, 4), HEADER)?;
    let (answers, next) = records_at(alloc, &mut reader, be16(payload, 6), false, next)?;
    let (authority, next) = records_at(alloc, &mut reader, be16(payload, 8), false, next)?;
    let (additional, used) = records_at(alloc, &mut reader, be16(payload, 10), true, next)?;
    let message = Message {
        id: be16(payload, 0),
        bits: be16(payload, 2),
        questions,
        answers,
        authority,
        additional,
    };
    Ok(Parsed { message, used })
}

/// Reads the message that a payload spells, and says how many bytes it takes: what lies after them is no fault.
///
/// Reading goes from left to right, and the first rule that is broken is the fault (RFC 1035 section 4, RFC 6891
/// section 6):
/// - a header of 12 bytes has ID, bits and four counts; so many questions, answers, authority and additional records
///   follow. Missing bytes are `Short`;
/// - a name is `Label`, `Pointer` or `LongName` where it breaks a rule of names;
/// - an OPT record outside the additional section, a second one, and one whose owner is not the root are `Opt`, once
///   the ten bytes after the owner are there;
/// - RDATA of a type that holds names is empty, or exactly the bytes and names that the type says: else it is
///   `Shape`. A name whose first run of labels would go on after the RDATA is `Shape`; a later run may stand anywhere
///   in the payload.
pub fn parse(alloc: Global, payload: &[u8]) -> Result<Parsed, ParseFault>
    ensures exact { Gives (λ p. (p.message, p.used)) result (Messages.message_of payload.now) }
    ensures valid { IfOk result (λ p. Valid p.message) }
    ensures within { IfOk result (λ p. (12 ≤ p.used) × (p.used ≤ length payload.now)) }
{
    let parsed = message_of(alloc, payload)?;
    Ok(parsed)
}
