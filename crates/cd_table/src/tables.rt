//! The nine tables of a block as they grow (RFC 8618 7.3.2.3).

ghost use Rattle.std.specs.Prelude.{◌≡◌, OnOk, IfOk};
ghost use Rattle.std.specs.Option.{option_map};
ghost use Rattle.cd_table.specs.Indexes.{put_question_list, put_record_list};
ghost use Rattle.cd_table.specs.Growing.{if_present, put_address, put_classtype, put_bytes, put_block_signature, put_question_indexes, put_record_indexes, put_block_question, put_block_record, put_block_data, no_tables, block_of};

use crate::slice_table::SliceTable;
use crate::value_table::ValueTable;
use cd_block::{
    Block, BlockData, BlockItem, BlockMalformed, BlockQuestion, BlockRr, BlockSig, KeptBlock,
};
use cd_name::{Blob, List};
use std::alloc::{AllocError, Global};

/// The tables of a block as they grow: each value once, in the order in which they were put. A value is looked up where it
/// lies, and copied only where it is new. An `Err` of any call is for want of memory, and the tables are of no more use then.
#[derive(Drop)]
pub struct Tables {
    pub(crate) ip_address: SliceTable<u8>,
    pub(crate) classtype: ValueTable<(u16, u16)>,
    pub(crate) name_rdata: SliceTable<u8>,
    pub(crate) qr_sig: ValueTable<BlockSig>,
    pub(crate) qlist: SliceTable<u64>,
    pub(crate) qrr: ValueTable<BlockQuestion>,
    pub(crate) rrlist: SliceTable<u64>,
    pub(crate) rr: ValueTable<BlockRr>,
    pub(crate) malformed_message_data: ValueTable<BlockData>,
}

// The tables of single values, as they grow and as lists.
#[derive(Drop)]
struct ValueTables {
    ip_address: SliceTable<u8>,
    classtype: ValueTable<(u16, u16)>,
    name_rdata: SliceTable<u8>,
}

#[derive(Drop)]
struct ValueLists {
    ip_address: List<Blob>,
    classtype: List<(u16, u16)>,
    name_rdata: List<Blob>,
}

fn value_lists(alloc: Global, tables: ValueTables) -> Result<ValueLists, AllocError>
    ensures { IfOk result (λ l. l ≡ record {
      ip_address = tables.ip_address;
      classtype = tables.classtype;
      name_rdata = tables.name_rdata;
    }) }
{
    Ok(ValueLists {
        ip_address: tables.ip_address.into_blobs(alloc)?,
        classtype: tables.classtype.into_list(alloc)?,
        name_rdata: tables.name_rdata.into_blobs(alloc)?,
    })
}

// The tables of signatures and questions, as they grow and as lists.
#[derive(Drop)]
struct QuestionTables {
    qr_sig: ValueTable<BlockSig>,
    qlist: SliceTable<u64>,
    qrr: ValueTable<BlockQuestion>,
}

#[derive(Drop)]
struct QuestionLists {
    qr_sig: List<BlockSig>,
    qlist: List<List<u64>>,
    qrr: List<BlockQuestion>,
}

fn question_lists(alloc: Global, tables: QuestionTables) -> Result<QuestionLists, AllocError>
    ensures { IfOk result (λ l. l ≡ record { qr_sig = tables.qr_sig; qlist = tables.qlist; qrr = tables.qrr }) }
{
    Ok(QuestionLists {
        qr_sig: tables.qr_sig.into_list(alloc)?,
        qlist: tables.qlist.into_lists(alloc)?,
        qrr: tables.qrr.into_list(alloc)?,
    })
}

// The tables of resource records and of the data of malformed messages, as they grow and as lists.
#[derive(Drop)]
struct RecordTables {
    rrlist: SliceTable<u64>,
    rr: ValueTable<BlockRr>,
    malformed_message_data: ValueTable<BlockData>,
}

#[derive(Drop)]
struct RecordLists {
    rrlist: List<List<u64>>,
    rr: List<BlockRr>,
    malformed_message_data: List<BlockData>,
}

fn record_lists(alloc: Global, tables: RecordTables) -> Result<RecordLists, AllocError>
    ensures { IfOk result (λ l. l ≡ record {
      rrlist = tables.rrlist;
      rr = tables.rr;
      malformed_message_data = tables.malformed_message_data;
    }) }
{
    Ok(RecordLists {
        rrlist: tables.rrlist.into_lists(alloc)?,
        rr: tables.rr.into_list(alloc)?,
        malformed_message_data: tables.malformed_message_data.into_list(alloc)?,
    })
}

// All tables, as they grow and as lists.
#[derive(Drop)]
struct TableGroups {
    values: ValueTables,
    questions: QuestionTables,
    records: RecordTables,
}

#[derive(Drop)]
struct ListGroups {
    values: ValueLists,
    questions: QuestionLists,
    records: RecordLists,
}

fn groups_of(tables: Tables) -> TableGroups
    ensures { result ≡ record {
      values = record {
        ip_address = tables.ip_address;
        classtype = tables.classtype;
        name_rdata = tables.name_rdata;
      };
      questions = record { qr_sig = tables.qr_sig; qlist = tables.qlist; qrr = tables.qrr };
      records = record {
        rrlist = tables.rrlist;
        rr = tables.rr;
        malformed_message_data = tables.malformed_message_data;
      };
    } }
{
    TableGroups {
        values: ValueTables {
            ip_address: tables.ip_address,
            classtype: tables.classtype,
            name_rdata: tables.name_rdata,
        },
        questions: QuestionTables {
            qr_sig: tables.qr_sig,
            qlist: tables.qlist,
            qrr: tables.qrr,
        },
        records: RecordTables {
            rrlist: tables.rrlist,
            rr: tables.rr,
            malformed_message_data: tables.malformed_message_data,
        },
    }
}

fn lists_of(alloc: Global, tables: TableGroups) -> Result<ListGroups, AllocError>
    ensures { IfOk result (λ l. l ≡ record {
      values = record {
        ip_address = tables.values.ip_address;
        classtype = tables.values.classtype;
        name_rdata = tables.values.name_rdata;
      };
      questions = record {
        qr_sig = tables.questions.qr_sig;
        qlist = tables.questions.qlist;
        qrr = tables.questions.qrr;
      };
      records = record {
        rrlist = tables.records.rrlist;
        rr = tables.records.rr;
        malformed_message_data = tables.records.malformed_message_data;
      };
    }) }
{
    let values = value_lists(alloc, tables.values)?;
    let questions = question_lists(alloc, tables.questions)?;
    let records = record_lists(alloc, tables.records)?;
    Ok(ListGroups {
        values,
        questions,
        records,
    })
}

impl Tables {
    /// Tables that hold nothing.
    pub fn new(alloc: Global) -> Tables
        ensures { result ≡ no_tables }
    {
        Tables {
            ip_address: SliceTable::new(alloc),
            classtype: ValueTable::new(alloc),
            name_rdata: SliceTable::new(alloc),
            qr_sig: ValueTable::new(alloc),
            qlist: SliceTable::new(alloc),
            qrr: ValueTable::new(alloc),
            rrlist: SliceTable::new(alloc),
            rr: ValueTable::new(alloc),
            malformed_message_data: ValueTable::new(alloc),
        }
    }

    /// The index of an address.
    #[tactic(auto, unfolding(crate::specs::Growing::put_address))]
    pub fn put_address(&mut self, bytes: &[u8]) -> Result<u64, AllocError>
        ensures tables { OnOk result (self.new ≡ (put_address bytes.now self.old).tables) }
        ensures index { IfOk result (λ index. index ≡ (put_address bytes.now self.old).value) }
    {
        self.ip_address.put(bytes)
    }

    /// The index of an address, where there is one.
    pub fn put_optional_address(
        &mut self,
        address: Option<&[u8]>,
    ) -> Result<Option<u64>, AllocError>
        ensures tables { OnOk result (self.new ≡
            (if_present put_address (option_map (λ b. b.now) address.entry) self.old).tables) }
        ensures index { IfOk result (λ index. index ≡
            (if_present put_address (option_map (λ b. b.now) address.entry) self.old).value) }
    {
        match address {
            Some(address) => Ok(Some(self.put_address(address)?)),
            None => Ok(None),
        }
    }

    /// The index of a type and a class.
    #[tactic(auto, unfolding(crate::specs::Growing::put_classtype))]
    pub fn put_classtype(&mut self, classtype: (u16, u16)) -> Result<u64, AllocError>
        ensures tables { OnOk result (self.new ≡ (put_classtype classtype self.old).tables) }
        ensures index { IfOk result (λ index. index ≡ (put_classtype classtype self.old).value) }
    {
        self.classtype.put(classtype)
    }

    /// The index of a type and a class, where there are these.
    pub fn put_optional_classtype(
        &mut self,
        classtype: Option<(u16, u16)>,
    ) -> Result<Option<u64>, AllocError>
        ensures tables { OnOk result (self.new ≡ (if_present put_classtype classtype self.old).tables) }
        ensures index { IfOk result (λ index. index ≡ (if_present put_classtype classtype self.old).value) }
    {
        match classtype {
            Some(classtype) => Ok(Some(self.put_classtype(classtype)?)),
            None => Ok(None),
        }
    }

    /// The index of a name, of RDATA or of options.
    #[tactic(auto, unfolding(crate::specs::Growing::put_bytes))]
    pub fn put_bytes(&mut self, bytes: &[u8]) -> Result<u64, AllocError>
        ensures tables { OnOk result (self.new ≡ (put_bytes bytes.now self.old).tables) }
        ensures index { IfOk result (λ index. index ≡ (put_bytes bytes.now self.old).value) }
    {
        self.name_rdata.put(bytes)
    }

    /// The index of a name, of RDATA or of options, where there are these.
    pub fn put_optional_bytes(&mut self, bytes: Option<&[u8]>) -> Result<Option<u64>, AllocError>
        ensures tables { OnOk result (self.new ≡
            (if_present put_bytes (option_map (λ b. b.now) bytes.entry) self.old).tables) }
        ensures index { IfOk result (λ index. index ≡
            (if_present put_bytes (option_map (λ b. b.now) bytes.entry) self.old).value) }
    {
        match bytes {
            Some(bytes) => Ok(Some(self.put_bytes(bytes)?)),
            None => Ok(None),
        }
    }

    /// The index of a signature that has the indexes of its parts.
    #[tactic(auto, unfolding(crate::specs::Growing::put_block_signature))]
    pub fn put_block_signature(&mut self, signature: BlockSig) -> Result<u64, AllocError>
        ensures tables { OnOk result (self.new ≡ (put_block_signature signature self.old).tables) }
        ensures index { IfOk result (λ index. index ≡ (put_block_signature signature self.old).value) }
    {
        self.qr_sig.put(signature)
    }

    /// The index of a question that has the indexes of its parts.
    #[tactic(auto, unfolding(crate::specs::Growing::put_block_question))]
    pub fn put_block_question(&mut self, question: BlockQuestion) -> Result<u64, AllocError>
        ensures tables { OnOk result (self.new ≡ (put_block_question question self.old).tables) }
        ensures index { IfOk result (λ index. index ≡ (put_block_question question self.old).value) }
    {
        self.qrr.put(question)
    }

    // The index of a list of questions, which is given by their indexes.
    #[tactic(auto, unfolding(crate::specs::Growing::put_question_indexes))]
    pub(crate) fn put_question_indexes(&mut self, indexes: &[u64]) -> Result<u64, AllocError>
        ensures tables { OnOk result (self.new ≡ (put_question_indexes indexes.now self.old).tables) }
        ensures index { IfOk result (λ index. index ≡ (put_question_indexes indexes.now self.old).value) }
    {
        self.qlist.put(indexes)
    }

    /// The index of a list of questions, which is given by their indexes. An empty list is an absent one.
    #[tactic(auto, unfolding(crate::specs::Indexes::put_question_list))]
    pub fn put_question_list(&mut self, indexes: &[u64]) -> Result<Option<u64>, AllocError>
        ensures tables { OnOk result (self.new ≡ (put_question_list indexes.now self.old).tables) }
        ensures index { IfOk result (λ index. index ≡ (put_question_list indexes.now self.old).value) }
    {
        match indexes {
            [] => Ok(None),
            [_, ..] => Ok(Some(self.put_question_indexes(indexes)?)),
        }
    }

    /// The index of a resource record that has the indexes of its parts.
    #[tactic(auto, unfolding(crate::specs::Growing::put_block_record))]
    pub fn put_block_record(&mut self, placed: BlockRr) -> Result<u64, AllocError>
        ensures tables { OnOk result (self.new ≡ (put_block_record placed self.old).tables) }
        ensures index { IfOk result (λ index. index ≡ (put_block_record placed self.old).value) }
    {
        self.rr.put(placed)
    }

    // The index of a list of resource records, which is given by their indexes.
    #[tactic(auto, unfolding(crate::specs::Growing::put_record_indexes))]
    pub(crate) fn put_record_indexes(&mut self, indexes: &[u64]) -> Result<u64, AllocError>
        ensures tables { OnOk result (self.new ≡ (put_record_indexes indexes.now self.old).tables) }
        ensures index { IfOk result (λ index. index ≡ (put_record_indexes indexes.now self.old).value) }
    {
        self.rrlist.put(indexes)
    }

    /// The index of a list of resource records, which is given by their indexes. An empty list is an absent one.
    #[tactic(auto, unfolding(crate::specs::Indexes::put_record_list))]
    pub fn put_record_list(&mut self, indexes: &[u64]) -> Result<Option<u64>, AllocError>
        ensures tables { OnOk result (self.new ≡ (put_record_list indexes.now self.old).tables) }
        ensures index { IfOk result (λ index. index ≡ (put_record_list indexes.now self.old).value) }
    {
        match indexes {
            [] => Ok(None),
            [_, ..] => Ok(Some(self.put_record_indexes(indexes)?)),
        }
    }

    /// The index of the data of a malformed message that has the index of its part.
    #[tactic(auto, unfolding(crate::specs::Growing::put_block_data))]
    pub fn put_block_data(&mut self, placed: BlockData) -> Result<u64, AllocError>
        ensures tables { OnOk result (self.new ≡ (put_block_data placed self.old).tables) }
        ensures index { IfOk result (λ index. index ≡ (put_block_data placed self.old).value) }
    {
        self.malformed_message_data.put(placed)
    }

    /// The block that has these tables, these items and these malformed messages, and all else from a kept block.
    pub fn into_block(
        self,
        alloc: Global,
        kept: &KeptBlock,
        items: Vec<BlockItem>,
        malformed: Vec<BlockMalformed>,
    ) -> Result<Block, AllocError>
        ensures { IfOk result (λ b. b ≡ block_of kept.now items.items malformed.items self) }
    {
        let lists = lists_of(alloc, groups_of(self))?;
        Ok(Block {
            earliest: kept.earliest,
            params: kept.params,
            stats: kept.stats,
            items: List::from_vec(items),
            malformed: List::from_vec(malformed),
            ip_address: lists.values.ip_address,
            classtype: lists.values.classtype,
            name_rdata: lists.values.name_rdata,
            qr_sig: lists.questions.qr_sig,
            qlist: lists.questions.qlist,
            qrr: lists.questions.qrr,
            rrlist: lists.records.rrlist,
            rr: lists.records.rr,
            malformed_message_data: lists.records.malformed_message_data,
        })
    }
}
