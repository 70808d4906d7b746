//! Laws of the format's numbers: the keys of RFC 8618 7.3, the bits of its hints and its flags, each as it stands
//! there. Of collection parameters the first two keys have constants, the others have none. And the law that a block with its
//! tables holds what the kept block does. A law is the contract of a function that does nothing, or only looks.

ghost use Rattle.std.specs.Prelude.{◌≡◌, [], ◌∷◌, Ok};
ghost use Rattle.cd_block.specs.KeyTables.{preamble_keys, block_parameter_keys, storage_keys, hint_keys, collection_keys, block_keys, block_preamble_keys, statistics_keys, tables_keys, classtype_keys, signature_keys, question_keys, rr_keys, malformed_data_keys, item_keys, extended_keys, malformed_keys};
ghost use Rattle.cd_block.specs.HintTables.{item_hints, signature_hints, rr_hints, other_hints};
ghost use Rattle.cd_block.specs.FlagTables.{storage_flags, transport_flags, signature_flags, query_flags, response_flags};
ghost use Rattle.cd_block.specs.Tables.{indexed};
ghost use Rattle.cd_block.specs.Resolving.{resolved};

use crate::kept::KeptBlock;
use crate::naming::names_are_names;

/// The keys of each map of a file (RFC 8618 7.3), but of collection parameters only the first two.
pub fn keys_are_those_of_the_format()
    ensures preamble { preamble_keys ≡ 0 ∷ 1 ∷ 2 ∷ 3 ∷ [] }
    ensures block_parameter { block_parameter_keys ≡ 0 ∷ 1 ∷ [] }
    ensures storage { storage_keys ≡ 0 ∷ 1 ∷ 2 ∷ 3 ∷ 4 ∷ 5 ∷ 6 ∷ 7 ∷ 8 ∷ 9 ∷ 10 ∷ 11 ∷ [] }
    ensures hint { hint_keys ≡ 0 ∷ 1 ∷ 2 ∷ 3 ∷ [] }
    ensures collection { collection_keys ≡ 0 ∷ 1 ∷ [] }
    ensures block { block_keys ≡ 0 ∷ 1 ∷ 2 ∷ 3 ∷ 4 ∷ 5 ∷ [] }
    ensures block_preamble { block_preamble_keys ≡ 0 ∷ 1 ∷ [] }
    ensures statistics { statistics_keys ≡ 0 ∷ 1 ∷ 2 ∷ 3 ∷ 4 ∷ 5 ∷ [] }
    ensures tables { tables_keys ≡ 0 ∷ 1 ∷ 2 ∷ 3 ∷ 4 ∷ 5 ∷ 6 ∷ 7 ∷ 8 ∷ [] }
    ensures classtype { classtype_keys ≡ 0 ∷ 1 ∷ [] }
    ensures signature { signature_keys ≡
        0 ∷ 1 ∷ 2 ∷ 3 ∷ 4 ∷ 5 ∷ 6 ∷ 7 ∷ 8 ∷ 9 ∷ 10 ∷ 11 ∷ 12 ∷ 13 ∷ 14 ∷ 15 ∷ 16 ∷ [] }
    ensures question { question_keys ≡ 0 ∷ 1 ∷ [] }
    ensures rr { rr_keys ≡ 0 ∷ 1 ∷ 2 ∷ 3 ∷ [] }
    ensures malformed_data { malformed_data_keys ≡ 0 ∷ 1 ∷ 2 ∷ 3 ∷ [] }
    ensures item { item_keys ≡ 0 ∷ 1 ∷ 2 ∷ 3 ∷ 4 ∷ 5 ∷ 6 ∷ 7 ∷ 8 ∷ 9 ∷ 10 ∷ 11 ∷ 12 ∷ [] }
    ensures extended { extended_keys ≡ 0 ∷ 1 ∷ 2 ∷ 3 ∷ [] }
    ensures malformed { malformed_keys ≡ 0 ∷ 1 ∷ 2 ∷ 3 ∷ [] }
{}

/// The bits of storage hints (RFC 8618 7.3.1.1.1.1). The hint of a key of a signature has the bit of that key, and so has the
/// hint of a key of an item from 0 to 10. An item's hints above those are of lists in its extended parts.
pub fn hints_are_those_of_the_format()
    ensures item { item_hints ≡
        1 ∷ 2 ∷ 4 ∷ 8 ∷ 16 ∷ 32 ∷ 64 ∷ 128 ∷ 256 ∷ 512 ∷ 1024 ∷ 2048 ∷ 4096 ∷ 8192 ∷ 16384 ∷ 32768 ∷ 65536 ∷ 131072 ∷ [] }
    ensures signature { signature_hints ≡
        1 ∷ 2 ∷ 4 ∷ 8 ∷ 16 ∷ 32 ∷ 64 ∷ 128 ∷ 256 ∷ 512 ∷ 1024 ∷ 2048 ∷ 4096 ∷ 8192 ∷ 16384 ∷ 32768 ∷ 65536 ∷ [] }
    ensures rr { rr_hints ≡ 1 ∷ 2 ∷ [] }
    ensures other { other_hints ≡ 1 ∷ 2 ∷ [] }
{}

/// The bits of flags (RFC 8618 7.3.1.1.1, 7.3.2.3.2). Each flag of a response stands eight bits above the same flag of a query.
pub fn flags_are_those_of_the_format()
    ensures storage { storage_flags ≡ 1 ∷ 2 ∷ 4 ∷ [] }
    ensures transport { transport_flags ≡ 1 ∷ 0 ∷ 2 ∷ 32 ∷ [] }
    ensures signature { signature_flags ≡ 1 ∷ 2 ∷ 4 ∷ 8 ∷ 16 ∷ 32 ∷ [] }
    ensures query { query_flags ≡ 1 ∷ 2 ∷ 4 ∷ 8 ∷ 16 ∷ 32 ∷ 64 ∷ 128 ∷ [] }
    ensures response { response_flags ≡ 256 ∷ 512 ∷ 1024 ∷ 2048 ∷ 4096 ∷ 8192 ∷ 16384 ∷ [] }
{}

/// A kept block is what its own block resolves to: no value is lost, exchanged or made equal to another one. It looks
/// at each name, which tells that it is one, and changes nothing.
pub fn what_is_indexed_resolves(kept: &KeptBlock)
    ensures { resolved (indexed kept.now) ≡ Ok kept.now }
{
    names_are_names(kept);
}
