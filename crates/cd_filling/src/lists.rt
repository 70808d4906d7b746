//! The lists of a message, put into the tables of a block (RFC 8618 7.3.2.4.2).

ghost use Rattle.std.specs.Prelude.{◌≡◌, [], ◌∷◌, ◌++◌, map, filter, OnOk, IfOk, if◌then◌else◌};
ghost use Rattle.cd_filling.specs.Filling.{is_kept};
ghost use Rattle.cd_hints.specs.Lists;
ghost use Rattle.cd_table.specs.Growing.{each, put_question, put_questions, put_record, put_records, put_lists};

use cd_block::hints::{
    QR_QUERY_ADDITIONAL, QR_QUERY_ANSWER, QR_QUERY_AUTHORITY, QR_RESPONSE_ADDITIONAL,
    QR_RESPONSE_ANSWER, QR_RESPONSE_AUTHORITY,
};
use cd_block::{BlockLists, Hints};
use cd_hints::{Keeper, hinted_records, is_kept, kept_rdata, kept_ttl, later_questions};
use cd_message::{Message, Question, Rr};
use cd_name::List;
use cd_table::Tables;
use std::alloc::AllocError;

// Puts a question, and gives its index.
fn put_question(tables: &mut Tables, question: &Question) -> Result<u64, AllocError>
    ensures tables { OnOk result (
        tables.new ≡ (put_question (Lists.kept_question question.now) tables.old).tables) }
    ensures index { IfOk result (λ index.
        index ≡ (put_question (Lists.kept_question question.now) tables.old).value) }
{
    tables.put_question(question.name.as_slice(), question.rtype, question.rclass)
}

// Puts questions, whose indexes take the place of those that are there.
fn put_each_question(
    tables: &mut Tables,
    indexes: &mut Vec<u64>,
    questions: &[Question],
) -> Result<(), AllocError>
    ensures tables { OnOk result (
        tables.new ≡ (each put_question (map Lists.kept_question questions.now) tables.old).tables) }
    ensures indexes { OnOk result (
        indexes.new.items ≡ (each put_question (map Lists.kept_question questions.now) tables.old).value) }
{
    indexes.clear();
    'questions: for question in questions {
        let index = put_question(tables, question)?;
        indexes.push(index)?;
    }
    Ok(())
}

// Puts a list of questions, which is absent where it is empty, and gives its index. `indexes` is room for those of its
// questions.
fn put_questions(
    tables: &mut Tables,
    indexes: &mut Vec<u64>,
    questions: &[Question],
) -> Result<Option<u64>, AllocError>
    ensures tables { OnOk result (
        tables.new ≡ (put_questions (map Lists.kept_question questions.now) tables.old).tables) }
    ensures index { IfOk result (λ index.
        index ≡ (put_questions (map Lists.kept_question questions.now) tables.old).value) }
{
    put_each_question(tables, indexes, questions)?;
    let index = tables.put_question_list(indexes.as_slice())?;
    Ok(index)
}

// Puts a resource record, and gives its index.
fn put_record(tables: &mut Tables, hints: Hints, record: &Rr) -> Result<u64, AllocError>
    ensures tables { OnOk result (
        tables.new ≡ (put_record (Lists.kept_rr hints «record».now) tables.old).tables) }
    ensures index { IfOk result (λ index.
        index ≡ (put_record (Lists.kept_rr hints «record».now) tables.old).value) }
{
    let ttl = kept_ttl(hints, record);
    let rdata = kept_rdata(hints, record);
    tables.put_record(
        record.owner.as_slice(),
        record.rtype,
        record.rclass,
        ttl,
        rdata,
    )
}

// Puts a resource record and puts its index after those that are there, where it is kept.
fn put_if_kept(
    tables: &mut Tables,
    indexes: &mut Vec<u64>,
    keeper: &Keeper,
    with_opt: bool,
    record: &Rr,
) -> Result<(), AllocError>
    ensures tables { OnOk result (tables.new ≡ (if is_kept keeper.now.rr_types with_opt «record».now
        then (put_record (Lists.kept_rr keeper.now.hints «record».now) tables.old).tables else tables.old)) }
    ensures indexes { OnOk result (indexes.new.items ≡ (if is_kept keeper.now.rr_types with_opt «record».now
        then indexes.old.items ++ (put_record (Lists.kept_rr keeper.now.hints «record».now) tables.old).value ∷ []
        else indexes.old.items)) }
{
    if !is_kept(keeper, with_opt, record) {
        return Ok(());
    }
    let index = put_record(tables, keeper.hints(), record)?;
    indexes.push(index)?;
    Ok(())
}

// Puts the resource records whose types are listed, with OPT records among them or without. Their indexes take the place
// of those that are there.
fn put_each_record(
    tables: &mut Tables,
    indexes: &mut Vec<u64>,
    keeper: &Keeper,
    with_opt: bool,
    records: &[Rr],
) -> Result<(), AllocError>
    ensures tables { OnOk result (tables.new ≡ (each put_record (map (Lists.kept_rr keeper.now.hints)
        (filter (Lists.is_listed_record keeper.now.rr_types)
        (if with_opt then records.now else Lists.without_opt records.now))) tables.old).tables) }
    ensures indexes { OnOk result (indexes.new.items ≡ (each put_record (map (Lists.kept_rr keeper.now.hints)
        (filter (Lists.is_listed_record keeper.now.rr_types)
        (if with_opt then records.now else Lists.without_opt records.now))) tables.old).value) }
{
    indexes.clear();
    'records: for record in records {
        put_if_kept(tables, indexes, keeper, with_opt, record)?;
    }
    Ok(())
}

// Puts the list of the resource records whose types are listed, where the hint of the list is set, with OPT records among
// them or without. The list is absent where it is empty. `indexes` is room for those of its records.
fn put_records(
    tables: &mut Tables,
    indexes: &mut Vec<u64>,
    keeper: &Keeper,
    hint: u32,
    with_opt: bool,
    records: &List<Rr>,
) -> Result<Option<u64>, AllocError>
    ensures tables { OnOk result (tables.new ≡ (put_records (Lists.kept_records keeper.now hint
        (if with_opt then records.now else Lists.without_opt records.now)) tables.old).tables) }
    ensures index { IfOk result (λ index. index ≡ (put_records (Lists.kept_records keeper.now hint
        (if with_opt then records.now else Lists.without_opt records.now)) tables.old).value) }
{
    let hinted = hinted_records(keeper, hint, records);
    put_each_record(tables, indexes, keeper, with_opt, hinted)?;
    let index = tables.put_record_list(indexes.as_slice())?;
    Ok(index)
}

/// Puts the lists of a query; its OPT record is in its signature, and not here. `indexes` is room for those of a list.
#[tactic(auto, unfolding(cd_table::specs::Growing::put_lists))]
pub(crate) fn put_query_lists(
    tables: &mut Tables,
    indexes: &mut Vec<u64>,
    keeper: &Keeper,
    query: &Message,
) -> Result<BlockLists, AllocError>
    ensures tables { OnOk result (
        tables.new ≡ (put_lists (Lists.query_lists keeper.now query.now) tables.old).tables) }
    ensures placed { IfOk result (λ placed.
        placed ≡ (put_lists (Lists.query_lists keeper.now query.now) tables.old).value) }
{
    let later = later_questions(keeper, &query.questions);
    let question = put_questions(tables, indexes, later)?;
    let answer = put_records(
        tables,
        indexes,
        keeper,
        QR_QUERY_ANSWER,
        true,
        &query.answers,
    )?;
    let authority = put_records(
        tables,
        indexes,
        keeper,
        QR_QUERY_AUTHORITY,
        true,
        &query.authority,
    )?;
    let additional = put_records(
        tables,
        indexes,
        keeper,
        QR_QUERY_ADDITIONAL,
        false,
        &query.additional,
    )?;
    Ok(BlockLists {
        question,
        answer,
        authority,
        additional,
    })
}

/// Puts the lists of a response. `indexes` is room for those of a list.
#[tactic(auto, unfolding(cd_table::specs::Growing::put_lists))]
pub(crate) fn put_response_lists(
    tables: &mut Tables,
    indexes: &mut Vec<u64>,
    keeper: &Keeper,
    response: &Message,
) -> Result<BlockLists, AllocError>
    ensures tables { OnOk result (
        tables.new ≡ (put_lists (Lists.response_lists keeper.now response.now) tables.old).tables) }
    ensures placed { IfOk result (λ placed.
        placed ≡ (put_lists (Lists.response_lists keeper.now response.now) tables.old).value) }
{
    let later = later_questions(keeper, &response.questions);
    let question = put_questions(tables, indexes, later)?;
    let answer = put_records(
        tables,
        indexes,
        keeper,
        QR_RESPONSE_ANSWER,
        true,
        &response.answers,
    )?;
    let authority = put_records(
        tables,
        indexes,
        keeper,
        QR_RESPONSE_AUTHORITY,
        true,
        &response.authority,
    )?;
    let additional = put_records(
        tables,
        indexes,
        keeper,
        QR_RESPONSE_ADDITIONAL,
        true,
        &response.additional,
    )?;
    Ok(BlockLists {
        question,
        answer,
        authority,
        additional,
    })
}

/// No list of a block.
pub(crate) const NO_LISTS: BlockLists = BlockLists {
    question: None,
    answer: None,
    authority: None,
    additional: None,
};
