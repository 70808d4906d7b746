use cd_block::{
    Block, BlockData, BlockItem, BlockLists, BlockMalformed, BlockQuestion, BlockRr, BlockSig,
    ResolveFault, resolve,
};
use cd_name::{Blob, List};
use std::alloc::{AllocError, Global};

const NO_LISTS: BlockLists = BlockLists {
    question: None,
    answer: None,
    authority: None,
    additional: None,
};

// The index of the one entry of a table, or the index past it in the table that is wrong.
fn index(wrong: u8, table: u8) -> u64 {
    if wrong == table { 1 } else { 0 }
}

fn add<T: Drop>(values: &mut List<T>, value: T) -> Result<(), AllocError> {
    match values.push(value) {
        Ok(()) => Ok(()),
        Err(_) => Err(AllocError),
    }
}

fn add_bytes(alloc: Global, values: &mut List<Blob>, bytes: &[u8]) -> Result<(), AllocError> {
    add(values, Blob::from_slice(alloc, bytes)?)
}

fn add_index(alloc: Global, lists: &mut List<List<u64>>, index: u64) -> Result<(), AllocError> {
    let mut list = no_values(alloc);
    add(&mut list, index)?;
    add(lists, list)
}

fn no_values<T: Drop>(alloc: Global) -> List<T> {
    List::from_vec(Vec::new(alloc))
}

fn signature(wrong: u8) -> BlockSig {
    BlockSig {
        server_address: Some(0),
        server_port: None,
        transport_flags: None,
        sig_flags: None,
        opcode: None,
        dns_flags: None,
        query_rcode: None,
        classtype: Some(index(wrong, 1)),
        qd: None,
        an: None,
        ns: None,
        ar: None,
        edns_version: None,
        udp_size: None,
        opt_rdata: Some(index(wrong, 2)),
        response_rcode: None,
    }
}

fn item(wrong: u8) -> BlockItem {
    BlockItem {
        time_offset: None,
        client_address: Some(index(wrong, 0)),
        client_port: None,
        transaction_id: None,
        signature: Some(index(wrong, 3)),
        client_hoplimit: None,
        response_delay: None,
        query_name: Some(0),
        query_size: None,
        response_size: None,
        query_extended: BlockLists {
            question: Some(index(wrong, 4)),
            answer: Some(index(wrong, 6)),
            ..NO_LISTS
        },
        response_extended: NO_LISTS,
    }
}

fn malformed(wrong: u8) -> BlockMalformed {
    BlockMalformed {
        time_offset: None,
        client_address: Some(0),
        client_port: None,
        message_data: Some(index(wrong, 8)),
    }
}

const QUESTION: BlockQuestion = BlockQuestion {
    name: 0,
    classtype: 0,
};

const RECORD: BlockRr = BlockRr {
    name: 0,
    classtype: 0,
    ttl: None,
    rdata: Some(0),
};

const DATA: BlockData = BlockData {
    server_address: Some(0),
    server_port: None,
    transport_flags: None,
    payload: None,
};

// A block with nothing in it.
fn empty_block(alloc: Global) -> Block {
    Block {
        earliest: None,
        params: 0,
        stats: None,
        items: no_values(alloc),
        malformed: no_values(alloc),
        ip_address: no_values(alloc),
        classtype: no_values(alloc),
        name_rdata: no_values(alloc),
        qr_sig: no_values(alloc),
        qlist: no_values(alloc),
        qrr: no_values(alloc),
        rrlist: no_values(alloc),
        rr: no_values(alloc),
        malformed_message_data: no_values(alloc),
    }
}

// One entry for each table of a block, and an item and a malformed message that use them. The index into the table that is
// wrong is 1.
fn fill(alloc: Global, block: &mut Block, wrong: u8, name: &[u8]) -> Result<(), AllocError> {
    add(&mut block.items, item(wrong))?;
    add(&mut block.malformed, malformed(wrong))?;
    add_bytes(alloc, &mut block.ip_address, b"\x7f")?;
    add(&mut block.classtype, (1, 1))?;
    add_bytes(alloc, &mut block.name_rdata, name)?;
    add(&mut block.qr_sig, signature(wrong))?;
    add_index(alloc, &mut block.qlist, index(wrong, 5))?;
    add(&mut block.qrr, QUESTION)?;
    add_index(alloc, &mut block.rrlist, index(wrong, 7))?;
    add(&mut block.rr, RECORD)?;
    add(&mut block.malformed_message_data, DATA)
}

// Why a block does not resolve, if it does not.
fn fault_of(alloc: Global, wrong: u8, name: &[u8]) -> Result<Option<ResolveFault>, AllocError> {
    let mut block = empty_block(alloc);
    fill(alloc, &mut block, wrong, name)?;
    match resolve(alloc, &block) {
        Ok(_) => Ok(None),
        Err(fault) => Ok(Some(fault)),
    }
}

#[test]
fn an_index_past_its_table_is_the_fault(rt: HostRuntime) -> Result<(), AllocError> {
    for table in 0..9u8 {
        let fault = fault_of(rt.alloc(), table, b"\0".as_slice())?;
        assert!(rt; fault == Some(ResolveFault::Index(table)));
    }
    let none = fault_of(rt.alloc(), 9, b"\0".as_slice())?;
    assert!(rt; none.is_none());
    let name = fault_of(rt.alloc(), 9, b"\x01".as_slice())?;
    assert!(rt; name == Some(ResolveFault::Name));
    Ok(())
}
