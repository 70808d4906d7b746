//! The messages of a lookup (RFC 1035 4.1).

ghost use Rattle.std.specs.Prelude.{◌≡◌, ◌%◌, [], ◌∷◌, IfOk};
ghost use Rattle.cd_workload.specs.Workload;

use crate::lookup::Lookup;
use crate::names::name_of;
use cd_message::{Message, Question, Rr};
use cd_name::{Blob, List};
use std::alloc::{AllocError, Global};

// Type A (RFC 1035 3.2.2) and class IN (RFC 1035 3.2.4).
const TYPE_A: u16 = 1;

const CLASS_IN: u16 = 1;

// How long an answer may be kept, in seconds.
const TTL: u32 = 300;

// The second word of a header (RFC 1035 4.1.1): RD in a query, and QR, RD and RA in a response.
const QUERY_BITS: u16 = 0x0100;

const RESPONSE_BITS: u16 = 0x8180;

// A list with no items.
fn none<T>(alloc: Global) -> List<T>
    ensures { result ≡ [] }
{
    List::from_vec(Vec::new(alloc))
}

// A list with one item. An `Err` is for want of memory.
fn one<T: Drop>(alloc: Global, item: T) -> Result<List<T>, AllocError>
    ensures { IfOk result (λ list. list ≡ item ∷ []) }
{
    let mut items = Vec::new(alloc);
    items.push(item)?;
    Ok(List::from_vec(items))
}

// The ID of the messages of the lookup with this number.
fn id_of(number: u64) -> u16
    ensures { result ≡ number % 0x10000 }
{
    (number % 65_536) as u16
}

// The one question. An `Err` is for want of memory.
fn questions_of(alloc: Global, drawn: u64) -> Result<List<Question>, AllocError>
    ensures { IfOk result (λ questions. questions ≡ Workload.question_of drawn ∷ []) }
{
    let name = name_of(alloc, drawn)?;
    let question = Question {
        name,
        rtype: TYPE_A,
        rclass: CLASS_IN,
    };
    one(alloc, question)
}

// The one answer. An `Err` is for want of memory.
fn answers_of(alloc: Global, drawn: u64) -> Result<List<Rr>, AllocError>
    ensures { IfOk result (λ answers. answers ≡ Workload.answer_of drawn ∷ []) }
{
    let last = (drawn % 256) as u8;
    let owner = name_of(alloc, drawn)?;
    let rdata = Blob::from_slice(alloc, &[198, 51, 100, last])?;
    let answer = Rr {
        owner,
        rtype: TYPE_A,
        rclass: CLASS_IN,
        ttl: TTL,
        rdata,
    };
    one(alloc, answer)
}

// The query. An `Err` is for want of memory.
pub(crate) fn query_of(alloc: Global, lookup: Lookup) -> Result<Message, AllocError>
    ensures { IfOk result (λ message. message ≡ Workload.query_of lookup) }
{
    let questions = questions_of(alloc, lookup.drawn)?;
    Ok(Message {
        id: id_of(lookup.number),
        bits: QUERY_BITS,
        questions,
        answers: none(alloc),
        authority: none(alloc),
        additional: none(alloc),
    })
}

// The response. An `Err` is for want of memory.
pub(crate) fn response_of(alloc: Global, lookup: Lookup) -> Result<Message, AllocError>
    ensures { IfOk result (λ message. message ≡ Workload.response_of lookup) }
{
    let questions = questions_of(alloc, lookup.drawn)?;
    let answers = answers_of(alloc, lookup.drawn)?;
    Ok(Message {
        id: id_of(lookup.number),
        bits: RESPONSE_BITS,
        questions,
        answers,
        authority: none(alloc),
        additional: none(alloc),
    })
}
