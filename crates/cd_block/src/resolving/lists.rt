//! Resolves lists of questions and of resource records.

ghost use Rattle.std.specs.Prelude.{◌≡◌};
ghost use Rattle.cd_block.specs.Giving.{Gives};
ghost use Rattle.cd_block.specs.Resolving.{each, resolved_question, resolved_questions, resolved_record, resolved_records, resolved_lists};

use super::entries::{bytes, classtype, entry, name, room_for};
use super::fault::ResolveFault;
use crate::block::{Block, BlockLists};
use crate::kept::{KeptLists, KeptQuestion, KeptRr};
use crate::keys;
use cd_name::List;
use std::alloc::Global;

// The question at an index.
#[tactic(auto, unfolding(crate::specs::Resolving::resolved_question))]
fn question(alloc: Global, block: &Block, index: u64) -> Result<KeptQuestion, ResolveFault>
    ensures { Gives (λ q. q) result (resolved_question block.now index) }
{
    let question = *entry(keys::TABLES_QRR, block.qrr.as_slice(), index)?;
    let name = name(alloc, block, question.name)?;
    let (rtype, rclass) = classtype(block, question.classtype)?;
    Ok(KeptQuestion {
        name,
        rtype,
        rclass,
    })
}

// The resource record at an index.
#[tactic(auto, unfolding(crate::specs::Resolving::resolved_record))]
fn resource_record(alloc: Global, block: &Block, index: u64) -> Result<KeptRr, ResolveFault>
    ensures { Gives (λ r. r) result (resolved_record block.now index) }
{
    let stored = *entry(keys::TABLES_RR, block.rr.as_slice(), index)?;
    let name = name(alloc, block, stored.name)?;
    let (rtype, rclass) = classtype(block, stored.classtype)?;
    let rdata = bytes(alloc, block, stored.rdata)?;
    Ok(KeptRr {
        name,
        rtype,
        rclass,
        ttl: stored.ttl,
        rdata,
    })
}

// The question at each index.
fn each_question(
    alloc: Global,
    block: &Block,
    indexes: &[u64],
) -> Result<List<KeptQuestion>, ResolveFault>
    ensures { Gives (λ qs. qs) result (each (resolved_question block.now) indexes.now) }
{
    let mut questions = room_for(alloc, indexes.len())?;
    'each: for index in indexes {
        match question(alloc, block, *index) {
            Err(fault) => return Err(fault),
            Ok(question) => match questions.push(question) {
                Ok(()) => {}
                Err(_refused) => return Err(ResolveFault::NoMemory),
            },
        }
    }
    Ok(List::from_vec(questions))
}

// The resource record at each index.
fn each_record(alloc: Global, block: &Block, indexes: &[u64]) -> Result<List<KeptRr>, ResolveFault>
    ensures { Gives (λ rs. rs) result (each (resolved_record block.now) indexes.now) }
{
    let mut records = room_for(alloc, indexes.len())?;
    'each: for index in indexes {
        match resource_record(alloc, block, *index) {
            Err(fault) => return Err(fault),
            Ok(stored) => match records.push(stored) {
                Ok(()) => {}
                Err(_refused) => return Err(ResolveFault::NoMemory),
            },
        }
    }
    Ok(List::from_vec(records))
}

// The questions of the list at an index, and none if there is no index.
#[tactic(auto, unfolding(crate::specs::Resolving::resolved_questions))]
fn questions(
    alloc: Global,
    block: &Block,
    index: Option<u64>,
) -> Result<List<KeptQuestion>, ResolveFault>
    ensures { Gives (λ qs. qs) result (resolved_questions block.now index) }
{
    match index {
        None => Ok(List::from_vec(Vec::new(alloc))),
        Some(index) => {
            let indexes = entry(keys::TABLES_QLIST, block.qlist.as_slice(), index)?;
            each_question(alloc, block, indexes.as_slice())
        }
    }
}

// The resource records of the list at an index, and none if there is no index.
#[tactic(auto, unfolding(crate::specs::Resolving::resolved_records))]
fn resource_records(
    alloc: Global,
    block: &Block,
    index: Option<u64>,
) -> Result<List<KeptRr>, ResolveFault>
    ensures { Gives (λ rs. rs) result (resolved_records block.now index) }
{
    match index {
        None => Ok(List::from_vec(Vec::new(alloc))),
        Some(index) => {
            let indexes = entry(keys::TABLES_RRLIST, block.rrlist.as_slice(), index)?;
            each_record(alloc, block, indexes.as_slice())
        }
    }
}

// The lists of an extended part.
#[tactic(auto, unfolding(crate::specs::Resolving::resolved_lists))]
pub(super) fn lists(
    alloc: Global,
    block: &Block,
    lists: &BlockLists,
) -> Result<KeptLists, ResolveFault>
    ensures { Gives (λ l. l) result (resolved_lists block.now lists.now) }
{
    let question = questions(alloc, block, lists.question)?;
    let answer = resource_records(alloc, block, lists.answer)?;
    let authority = resource_records(alloc, block, lists.authority)?;
    let additional = resource_records(alloc, block, lists.additional)?;
    Ok(KeptLists {
        question,
        answer,
        authority,
        additional,
    })
}
