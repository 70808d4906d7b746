//! Reads the tables of a block (RFC 8618 7.3.2.3).

ghost use Rattle.std.specs.Prelude.{◌≤◌, pos};
ghost use Rattle.cd_cbor.specs.Spells.{most_depth};
ghost use Rattle.cd_file.specs.Kinds as kinds;
ghost use Rattle.cd_file.specs.ItemReading.{PutsItem};
ghost use Rattle.cd_file.specs.ReadTables as tables;

use super::arrays::{Kind, Lists, array_of};
use super::fault::ItemFault;
use super::malformed::MalformedData;
use super::maps::{Maps, Table};
use super::putting::{passed_over, put};
use super::records::{Classtypes, Questions, Records};
use super::signatures::Signatures;
use super::strings::{Addresses, ByteStrings};
use cd_block::{Block, keys};
use cd_name::List;
use std::alloc::Global;

// Reads the array at an offset into a table, and gives the offset behind it.
fn read_table<K: Kind>(
    alloc: Global,
    bytes: &[u8],
    depth: usize,
    at: usize,
    key: u64,
    table: &mut List<K::Value>,
) -> Result<usize, ItemFault>
    requires { depth ≤ most_depth }
    ensures { PutsItem table.new result depth bytes.now at (kinds.array_of K.kind (pos key)) }
{
    put(array_of::<K>(alloc, bytes, depth, at, key), table)
}

/// The tables of a block, which are read into it.
pub struct BlockTables;

impl Table for BlockTables {
    type Fields = Block;

    ghost table = { tables.tables_table };

    fn required_keys() -> &'static [u64] {
        &[]
    }

    fn read_value(
        alloc: Global,
        bytes: &[u8],
        depth: usize,
        at: usize,
        key: u64,
        block: &mut Block,
    ) -> Result<usize, ItemFault> {
        match key {
            keys::TABLES_IP_ADDRESS => {
                read_table::<Addresses>(alloc, bytes, depth, at, key, &mut block.ip_address)
            }
            keys::TABLES_CLASSTYPE => {
                read_table::<Maps<Classtypes>>(alloc, bytes, depth, at, key, &mut block.classtype)
            }
            keys::TABLES_NAME_RDATA => {
                read_table::<ByteStrings>(alloc, bytes, depth, at, key, &mut block.name_rdata)
            }
            keys::TABLES_QR_SIG => {
                read_table::<Maps<Signatures>>(alloc, bytes, depth, at, key, &mut block.qr_sig)
            }
            keys::TABLES_QLIST => {
                read_table::<Lists>(alloc, bytes, depth, at, key, &mut block.qlist)
            }
            keys::TABLES_QRR => {
                read_table::<Maps<Questions>>(alloc, bytes, depth, at, key, &mut block.qrr)
            }
            keys::TABLES_RRLIST => {
                read_table::<Lists>(alloc, bytes, depth, at, key, &mut block.rrlist)
            }
            keys::TABLES_RR => {
                read_table::<Maps<Records>>(alloc, bytes, depth, at, key, &mut block.rr)
            }
            keys::TABLES_MALFORMED_MESSAGE_DATA => read_table::<Maps<MalformedData>>(
                alloc,
                bytes,
                depth,
                at,
                key,
                &mut block.malformed_message_data,
            ),
            _ => passed_over(bytes, depth, at),
        }
    }
}
