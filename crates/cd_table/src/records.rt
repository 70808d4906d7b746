//! Questions and resource records, and the extended parts that list them (RFC 8618 7.3.2.3.3, 7.3.2.3.4, 7.3.2.4.2).

ghost use Rattle.std.specs.Prelude.{◌≡◌, OnOk, IfOk};
ghost use Rattle.std.specs.Option.{option_map};
ghost use Rattle.cd_table.specs.Growing.{each, put_question, put_questions, put_record, put_records, put_lists};

use crate::lent_bytes::bytes_of;
use crate::tables::Tables;
use cd_block::{BlockLists, BlockQuestion, BlockRr, KeptLists, KeptQuestion, KeptRr};
use std::alloc::{AllocError, Global};

impl Tables {
    /// The index of a question of this name, type and class.
    #[tactic(auto, unfolding(crate::specs::Growing::put_question))]
    pub fn put_question(&mut self, name: &[u8], rtype: u16, rclass: u16) -> Result<u64, AllocError>
        ensures tables { OnOk result (self.new ≡
            (put_question (record { name = name.now; rtype = rtype; rclass = rclass }) self.old).tables) }
        ensures index { IfOk result (λ index. index ≡
            (put_question (record { name = name.now; rtype = rtype; rclass = rclass }) self.old).value) }
    {
        let name = self.put_bytes(name)?;
        let classtype = self.put_classtype((rtype, rclass))?;
        self.put_block_question(BlockQuestion { name, classtype })
    }

    /// The index of a resource record of this name, type, class, TTL and RDATA.
    #[tactic(auto, unfolding(crate::specs::Growing::put_record))]
    pub fn put_record(
        &mut self,
        name: &[u8],
        rtype: u16,
        rclass: u16,
        ttl: Option<u64>,
        rdata: Option<&[u8]>,
    ) -> Result<u64, AllocError>
        ensures tables { OnOk result (self.new ≡ (put_record (record {
          name = name.now;
          rtype = rtype;
          rclass = rclass;
          ttl = ttl;
          rdata = option_map (λ b. b.now) rdata.entry;
        }) self.old).tables) }
        ensures index { IfOk result (λ index. index ≡ (put_record (record {
          name = name.now;
          rtype = rtype;
          rclass = rclass;
          ttl = ttl;
          rdata = option_map (λ b. b.now) rdata.entry;
        }) self.old).value) }
    {
        let name = self.put_bytes(name)?;
        let classtype = self.put_classtype((rtype, rclass))?;
        let rdata = self.put_optional_bytes(rdata)?;
        self.put_block_record(BlockRr {
            name,
            classtype,
            ttl,
            rdata,
        })
    }
}

// Puts a question and its parts, and gives its index.
fn put_kept_question(tables: &mut Tables, question: &KeptQuestion) -> Result<u64, AllocError>
    ensures tables { OnOk result (tables.new ≡ (put_question question.now tables.old).tables) }
    ensures index { IfOk result (λ index. index ≡ (put_question question.now tables.old).value) }
{
    tables.put_question(question.name.as_slice(), question.rtype, question.rclass)
}

// Puts questions and their parts, and gives their indexes.
fn put_each_question(
    tables: &mut Tables,
    alloc: Global,
    questions: &[KeptQuestion],
) -> Result<Vec<u64>, AllocError>
    ensures tables { OnOk result (tables.new ≡ (each put_question questions.now tables.old).tables) }
    ensures indexes { IfOk result (λ v. v.items ≡ (each put_question questions.now tables.old).value) }
{
    let mut indexes = Vec::with_capacity(alloc, questions.len())?;
    'questions: for question in questions {
        let index = put_kept_question(tables, question)?;
        indexes.push(index)?;
    }
    Ok(indexes)
}

// Puts a list of questions, which is absent where it is empty, and gives its index.
#[tactic(auto, unfolding(crate::specs::Growing::put_questions))]
fn put_questions(
    tables: &mut Tables,
    alloc: Global,
    questions: &[KeptQuestion],
) -> Result<Option<u64>, AllocError>
    ensures tables { OnOk result (tables.new ≡ (put_questions questions.now tables.old).tables) }
    ensures index { IfOk result (λ index. index ≡ (put_questions questions.now tables.old).value) }
{
    match questions {
        [] => Ok(None),
        [_, ..] => {
            let indexes = put_each_question(tables, alloc, questions)?;
            Ok(Some(tables.put_question_indexes(indexes.as_slice())?))
        }
    }
}

// Puts a resource record and its parts, and gives its index.
fn put_kept_record(tables: &mut Tables, kept: &KeptRr) -> Result<u64, AllocError>
    ensures tables { OnOk result (tables.new ≡ (put_record kept.now tables.old).tables) }
    ensures index { IfOk result (λ index. index ≡ (put_record kept.now tables.old).value) }
{
    let rdata = bytes_of(&kept.rdata);
    tables.put_record(
        kept.name.as_slice(),
        kept.rtype,
        kept.rclass,
        kept.ttl,
        rdata,
    )
}

// Puts resource records and their parts, and gives their indexes.
fn put_each_record(
    tables: &mut Tables,
    alloc: Global,
    records: &[KeptRr],
) -> Result<Vec<u64>, AllocError>
    ensures tables { OnOk result (tables.new ≡ (each put_record records.now tables.old).tables) }
    ensures indexes { IfOk result (λ v. v.items ≡ (each put_record records.now tables.old).value) }
{
    let mut indexes = Vec::with_capacity(alloc, records.len())?;
    'records: for kept in records {
        let index = put_kept_record(tables, kept)?;
        indexes.push(index)?;
    }
    Ok(indexes)
}

// Puts a list of resource records, which is absent where it is empty, and gives its index.
#[tactic(auto, unfolding(crate::specs::Growing::put_records))]
fn put_records(
    tables: &mut Tables,
    alloc: Global,
    records: &[KeptRr],
) -> Result<Option<u64>, AllocError>
    ensures tables { OnOk result (tables.new ≡ (put_records records.now tables.old).tables) }
    ensures index { IfOk result (λ index. index ≡ (put_records records.now tables.old).value) }
{
    match records {
        [] => Ok(None),
        [_, ..] => {
            let indexes = put_each_record(tables, alloc, records)?;
            Ok(Some(tables.put_record_indexes(indexes.as_slice())?))
        }
    }
}

/// Puts the lists of an extended part, and gives the part with their indexes.
#[tactic(auto, unfolding(crate::specs::Growing::put_lists))]
pub(crate) fn put_lists(
    tables: &mut Tables,
    alloc: Global,
    lists: &KeptLists,
) -> Result<BlockLists, AllocError>
    ensures tables { OnOk result (tables.new ≡ (put_lists lists.now tables.old).tables) }
    ensures placed { IfOk result (λ placed. placed ≡ (put_lists lists.now tables.old).value) }
{
    let question = put_questions(tables, alloc, lists.question.as_slice())?;
    let answer = put_records(tables, alloc, lists.answer.as_slice())?;
    let authority = put_records(tables, alloc, lists.authority.as_slice())?;
    let additional = put_records(tables, alloc, lists.additional.as_slice())?;
    Ok(BlockLists {
        question,
        answer,
        authority,
        additional,
    })
}
