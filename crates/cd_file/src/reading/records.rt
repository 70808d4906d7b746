//! Reads types and classes, questions and records (RFC 8618 7.3.2.3.1, 7.3.2.3.3, 7.3.2.3.4).

ghost use Rattle.cd_file.specs.ReadTables as tables;

use super::fault::ItemFault;
use super::kinds::{unsigned, word};
use super::maps::{Table, WholeMap};
use super::putting::{passed_over, put, put_some};
use cd_block::{BlockQuestion, BlockRr, keys};
use std::alloc::Global;

/// Types, each with a class.
pub struct Classtypes;

impl Table for Classtypes {
    type Fields = (u16, u16);

    ghost table = { tables.classtype_table };

    fn required_keys() -> &'static [u64] {
        &[keys::CLASSTYPE_TYPE, keys::CLASSTYPE_CLASS]
    }

    fn read_value(
        _alloc: Global,
        bytes: &[u8],
        depth: usize,
        at: usize,
        key: u64,
        fields: &mut (u16, u16),
    ) -> Result<usize, ItemFault> {
        match key {
            keys::CLASSTYPE_TYPE => put(word(bytes, at, key), &mut fields.0),
            keys::CLASSTYPE_CLASS => put(word(bytes, at, key), &mut fields.1),
            _ => passed_over(bytes, depth, at),
        }
    }
}

impl WholeMap for Classtypes {
    ghost initial = { (0, 0) };

    fn initial(_alloc: Global) -> (u16, u16) {
        (0, 0)
    }
}

/// Questions.
pub struct Questions;

impl Table for Questions {
    type Fields = BlockQuestion;

    ghost table = { tables.question_table };

    fn required_keys() -> &'static [u64] {
        &[keys::QUESTION_NAME, keys::QUESTION_CLASSTYPE]
    }

    fn read_value(
        _alloc: Global,
        bytes: &[u8],
        depth: usize,
        at: usize,
        key: u64,
        fields: &mut BlockQuestion,
    ) -> Result<usize, ItemFault> {
        match key {
            keys::QUESTION_NAME => put(unsigned(bytes, at, key), &mut fields.name),
            keys::QUESTION_CLASSTYPE => put(unsigned(bytes, at, key), &mut fields.classtype),
            _ => passed_over(bytes, depth, at),
        }
    }
}

impl WholeMap for Questions {
    ghost initial = { tables.no_question };

    fn initial(_alloc: Global) -> BlockQuestion {
        BlockQuestion {
            name: 0,
            classtype: 0,
        }
    }
}

/// Resource records.
pub struct Records;

impl Table for Records {
    type Fields = BlockRr;

    ghost table = { tables.rr_table };

    fn required_keys() -> &'static [u64] {
        &[keys::RR_NAME, keys::RR_CLASSTYPE]
    }

    fn read_value(
        _alloc: Global,
        bytes: &[u8],
        depth: usize,
        at: usize,
        key: u64,
        fields: &mut BlockRr,
    ) -> Result<usize, ItemFault> {
        match key {
            keys::RR_NAME => put(unsigned(bytes, at, key), &mut fields.name),
            keys::RR_CLASSTYPE => put(unsigned(bytes, at, key), &mut fields.classtype),
            keys::RR_TTL => put_some(unsigned(bytes, at, key), &mut fields.ttl),
            keys::RR_RDATA => put_some(unsigned(bytes, at, key), &mut fields.rdata),
            _ => passed_over(bytes, depth, at),
        }
    }
}

impl WholeMap for Records {
    ghost initial = { tables.no_rr };

    fn initial(_alloc: Global) -> BlockRr {
        BlockRr {
            name: 0,
            classtype: 0,
            ttl: None,
            rdata: None,
        }
    }
}
