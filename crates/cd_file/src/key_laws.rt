//! The keys of each kind of map ascend in its table, so the first required key that is missing is the least. A law is the
//! contract of a function that does nothing.

ghost use Rattle.std.specs.Prelude.{◌≡◌, true};
ghost use Rattle.cd_file.specs.MapReading.{ascends_from};
ghost use Rattle.cd_file.specs.ReadHead.{hints_table, storage_table, collection_table, parameters_table, preamble_table};
ghost use Rattle.cd_file.specs.ReadTables.{classtype_table, signature_table, question_table, rr_table, malformed_data_table, tables_table};
ghost use Rattle.cd_file.specs.ReadBlock.{block_preamble_table, statistics_table, extended_table, item_table, malformed_table, block_table};

/// The keys of the maps of a head.
#[tactic(auto, unfolding(crate::specs::MapReading::ascends_from))]
pub fn keys_of_heads_ascend()
    ensures hints { ascends_from 0 hints_table ≡ true }
    ensures storage { ascends_from 0 storage_table ≡ true }
    ensures collection { ascends_from 0 collection_table ≡ true }
    ensures parameters { ascends_from 0 parameters_table ≡ true }
    ensures preamble { ascends_from 0 preamble_table ≡ true }
{}

/// The keys of the maps of tables.
#[tactic(auto, unfolding(crate::specs::MapReading::ascends_from))]
pub fn keys_of_tables_ascend()
    ensures classtype { ascends_from 0 classtype_table ≡ true }
    ensures signature { ascends_from 0 signature_table ≡ true }
    ensures question { ascends_from 0 question_table ≡ true }
    ensures rr { ascends_from 0 rr_table ≡ true }
    ensures malformed_data { ascends_from 0 malformed_data_table ≡ true }
    ensures tables { ascends_from 0 tables_table ≡ true }
{}

/// The keys of the other maps of a block.
#[tactic(auto, unfolding(crate::specs::MapReading::ascends_from))]
pub fn keys_of_blocks_ascend()
    ensures preamble { ascends_from 0 block_preamble_table ≡ true }
    ensures statistics { ascends_from 0 statistics_table ≡ true }
    ensures extended { ascends_from 0 extended_table ≡ true }
    ensures item { ascends_from 0 item_table ≡ true }
    ensures malformed { ascends_from 0 malformed_table ≡ true }
    ensures block { ascends_from 0 block_table ≡ true }
{}
