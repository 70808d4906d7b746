//! How many bytes the maps of a block take at most, where each number lies in the range of its type. A law is the
//! contract of a function that does nothing.

ghost use Rattle.std.specs.Prelude.{ℕ, ◌+◌, ◌*◌, ◌≤◌, length};
ghost use Rattle.cd_block.specs.declared.block.BlockSig.{BlockSig};
ghost use Rattle.cd_block.specs.declared.block.BlockData.{BlockData};
ghost use Rattle.cd_block.specs.declared.block.BlockItem.{BlockItem};
ghost use Rattle.cd_block.specs.declared.block.BlockMalformed.{BlockMalformed};
ghost use Rattle.cd_block.specs.declared.block.BlockQuestion.{BlockQuestion};
ghost use Rattle.cd_block.specs.declared.block.BlockRr.{BlockRr};
ghost use Rattle.cd_block.specs.declared.stats.Stats.{Stats};
ghost use Rattle.cd_cbor.specs.Spelling.{spelling};
ghost use Rattle.cd_file.specs.Maps.{entries_count};
ghost use Rattle.cd_file.specs.Tables.{classtype_item, signature_item, question_item, rr_item, malformed_data_item};
ghost use Rattle.cd_block.specs.declared.params.Params.{Params};
ghost use Rattle.cd_file.specs.Head.{preamble_item};
ghost use Rattle.cd_file.specs.Blocks.{statistics_item, extended_entries, query_response_item, malformed_item};
ghost use Rattle.cd_file.specs.Ranges.{ClasstypeInRange, SignatureInRange, DataInRange, ItemInRange, MalformedInRange, string_length};

/// The most bytes of the maps of numbers of a block, each index with a head of nine bytes.
pub fn maps_of_numbers_are_short()
    ensures signature { (s : BlockSig) → SignatureInRange s → length (spelling (signature_item s)) ≤ 79 }
    ensures question { (q : BlockQuestion) → length (spelling (question_item q)) ≤ 21 }
    ensures rr { (r : BlockRr) → length (spelling (rr_item r)) ≤ 41 }
    ensures malformed { (m : BlockMalformed) → MalformedInRange m → length (spelling (malformed_item m)) ≤ 35 }
{}

/// The most bytes of the other maps: an item without extended parts has 82, and each list of an extended part has 12.
pub fn maps_of_blocks_are_short()
    ensures classtype { (c : ℕ × ℕ) → ClasstypeInRange c → length (spelling (classtype_item c)) ≤ 9 }
    ensures malformed_data { (d : BlockData) → DataInRange d →
        length (spelling (malformed_data_item d)) ≤ 28 + string_length d.payload }
    ensures item { (i : BlockItem) → ItemInRange i → length (spelling (query_response_item i)) ≤
        82 + (12 * entries_count (extended_entries i.query_extended)
        + 12 * entries_count (extended_entries i.response_extended)) }
    ensures statistics { (s : Stats) → length (spelling (statistics_item s)) ≤ 61 }
{}

/// The most bytes of the preamble of a file: 400, and 9 for each type of resource records that is listed.
pub fn preambles_are_short()
    ensures { (p : Params) → length (spelling (preamble_item p)) ≤ 400 + 9 * length p.rr_types }
{}
