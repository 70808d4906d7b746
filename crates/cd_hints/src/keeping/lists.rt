//! The questions and records that are kept of a message.

ghost use Rattle.std.specs.Prelude.{◌≡◌, ◌||◌, ◌&&◌, not, Some, IfOk, [], map, filter, if◌then◌else◌};
ghost use Rattle.std.specs.Option.{option_map};
ghost use Rattle.cd_message.specs.Valid.{is_opt};
ghost use Rattle.cd_hints.specs.Hinted;
ghost use Rattle.cd_hints.specs.Lists;

use crate::keeping::copies::{copy_name, copy_optional_blob};
use crate::keeping::hint::{is_hinted, kept};
use crate::keeping::keeper::Keeper;
use cd_block::hints::{
    QR_QUERY_ADDITIONAL, QR_QUERY_ANSWER, QR_QUERY_AUTHORITY, QR_QUESTIONS, QR_RESPONSE_ADDITIONAL,
    QR_RESPONSE_ANSWER, QR_RESPONSE_AUTHORITY, RR_RDATA, RR_TTL,
};
use cd_block::{Hints, KeptLists, KeptQuestion, KeptRr};
use cd_message::{Message, OPT, Question, Rr};
use cd_name::List;
use std::alloc::{AllocError, Global};

// A list with no items.
fn no_items<T>(alloc: Global) -> List<T>
    ensures { result ≡ [] }
{
    List::from_vec(Vec::new(alloc))
}

// A question, whole.
fn kept_question(alloc: Global, question: &Question) -> Result<KeptQuestion, AllocError>
    ensures { IfOk result (λ whole. whole ≡ Lists.kept_question question.now) }
{
    Ok(KeptQuestion {
        name: copy_name(alloc, &question.name)?,
        rtype: question.rtype,
        rclass: question.rclass,
    })
}

/// The questions of a message that are kept: the second and later ones, where their hint is set.
pub fn later_questions<'a>(keeper: &Keeper<'_>, questions: &'a List<Question>) -> &'a [Question]
    ensures { map Lists.kept_question result.now ≡ Lists.kept_questions keeper.now.hints questions.now }
{
    if !is_hinted(keeper.params.hints.qr, QR_QUESTIONS) {
        return &[];
    }
    match questions.as_slice() {
        [] => &[],
        [_, later @ ..] => later,
    }
}

// Copies of these questions, whole.
fn copy_questions(alloc: Global, questions: &[Question]) -> Result<List<KeptQuestion>, AllocError>
    ensures { IfOk result (λ list. list ≡ map Lists.kept_question questions.now) }
{
    let mut list = Vec::with_capacity(alloc, questions.len())?;
    'questions: for question in questions {
        list.push(kept_question(alloc, question)?)?;
    }
    Ok(List::from_vec(list))
}

// Copies of the questions that are kept.
fn kept_questions(
    alloc: Global,
    keeper: &Keeper,
    questions: &List<Question>,
) -> Result<List<KeptQuestion>, AllocError>
    ensures { IfOk result (λ list. list ≡ Lists.kept_questions keeper.now.hints questions.now) }
{
    copy_questions(alloc, later_questions(keeper, questions))
}

/// What is kept of the TTL of a record.
pub fn kept_ttl(hints: Hints, record: &Rr) -> Option<u64>
    ensures { result ≡ Hinted.kept hints.rr RR_TTL (Some «record».now.ttl) }
{
    let ttl = u64::from(record.ttl);
    kept(u32::from(hints.rr), u32::from(RR_TTL), Some(ttl))
}

/// What is kept of the RDATA of a record.
pub fn kept_rdata(hints: Hints, record: &Rr) -> Option<&[u8]>
    ensures { option_map (λ b. b.now) result ≡ Hinted.kept hints.rr RR_RDATA (Some «record».now.rdata) }
{
    if is_hinted(u32::from(hints.rr), u32::from(RR_RDATA)) {
        Some(record.rdata.as_slice())
    } else {
        None
    }
}

// A record, with its TTL and its RDATA where their hints are set.
fn kept_rr(alloc: Global, hints: Hints, record: &Rr) -> Result<KeptRr, AllocError>
    ensures { IfOk result (λ rr. rr ≡ Lists.kept_rr hints «record».now) }
{
    Ok(KeptRr {
        name: copy_name(alloc, &record.owner)?,
        rtype: record.rtype,
        rclass: record.rclass,
        ttl: kept_ttl(hints, record),
        rdata: copy_optional_blob(alloc, kept_rdata(hints, record))?,
    })
}

/// Whether a record is kept in a list: its type is listed, and where the list has no OPT record it is none.
pub fn is_kept(keeper: &Keeper, with_opt: bool, record: &Rr) -> bool
    ensures { result ≡ ((with_opt || not (is_opt «record».now))
        && Lists.is_listed_record keeper.now.rr_types «record».now) }
{
    (with_opt || record.rtype != OPT) && keeper.lists(record.rtype)
}

// The records whose types are listed, in their order, with OPT records among them or without.
#[tactic(auto, using(crate::proofs::KeptAmong::kept_among_none, crate::proofs::KeptAmong::kept_among_keeps, crate::proofs::KeptAmong::kept_among_skips, crate::proofs::KeptAmong::kept_among_all))]
fn listed_records(
    alloc: Global,
    keeper: &Keeper,
    with_opt: bool,
    records: &[Rr],
) -> Result<List<KeptRr>, AllocError>
    ensures { IfOk result (λ list. list ≡
        map (Lists.kept_rr keeper.now.hints)
        (filter (Lists.is_listed_record keeper.now.rr_types)
        (if with_opt then records.now else Lists.without_opt records.now))) }
{
    let hints = keeper.params.hints;
    let mut list = Vec::new(alloc);
    'records: for record in records {
        if is_kept(keeper, with_opt, record) {
            list.push(kept_rr(alloc, hints, record)?)?;
        }
    }
    Ok(List::from_vec(list))
}

/// These records where the hint of their list is set, and else none.
pub fn hinted_records<'a>(keeper: &Keeper<'_>, hint: u32, records: &'a List<Rr>) -> &'a [Rr]
    ensures { result.now ≡ (if Hinted.is_hinted keeper.now.hints.qr hint then records.now else []) }
{
    if is_hinted(keeper.params.hints.qr, hint) {
        records.as_slice()
    } else {
        &[]
    }
}

// The records whose types are listed, in their order, where the hint of their list is set, with OPT records among them
// or without.
fn kept_records(
    alloc: Global,
    keeper: &Keeper,
    hint: u32,
    with_opt: bool,
    records: &List<Rr>,
) -> Result<List<KeptRr>, AllocError>
    ensures { IfOk result (λ list. list ≡
        Lists.kept_records keeper.now hint (if with_opt then records.now else Lists.without_opt records.now)) }
{
    listed_records(
        alloc,
        keeper,
        with_opt,
        hinted_records(keeper, hint, records),
    )
}

// The lists of a query; its OPT record is in its signature, and not here. An `Err` is for want of memory.
pub(crate) fn query_lists(
    alloc: Global,
    keeper: &Keeper,
    query: &Message,
) -> Result<KeptLists, AllocError>
    ensures { IfOk result (λ lists. lists ≡ Lists.query_lists keeper.now query.now) }
{
    Ok(KeptLists {
        question: kept_questions(alloc, keeper, &query.questions)?,
        answer: kept_records(alloc, keeper, QR_QUERY_ANSWER, true, &query.answers)?,
        authority: kept_records(alloc, keeper, QR_QUERY_AUTHORITY, true, &query.authority)?,
        additional: kept_records(alloc, keeper, QR_QUERY_ADDITIONAL, false, &query.additional)?,
    })
}

// The lists of a response. An `Err` is for want of memory.
pub(crate) fn response_lists(
    alloc: Global,
    keeper: &Keeper,
    response: &Message,
) -> Result<KeptLists, AllocError>
    ensures { IfOk result (λ lists. lists ≡ Lists.response_lists keeper.now response.now) }
{
    Ok(KeptLists {
        question: kept_questions(alloc, keeper, &response.questions)?,
        answer: kept_records(alloc, keeper, QR_RESPONSE_ANSWER, true, &response.answers)?,
        authority: kept_records(
            alloc,
            keeper,
            QR_RESPONSE_AUTHORITY,
            true,
            &response.authority,
        )?,
        additional: kept_records(
            alloc,
            keeper,
            QR_RESPONSE_ADDITIONAL,
            true,
            &response.additional,
        )?,
    })
}

// No list.
pub(crate) fn no_lists(alloc: Global) -> KeptLists
    ensures { result ≡ Lists.no_lists }
{
    KeptLists {
        question: no_items(alloc),
        answer: no_items(alloc),
        authority: no_items(alloc),
        additional: no_items(alloc),
    }
}
