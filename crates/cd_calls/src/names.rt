use cd_name::{NameFault, NameReader, append_name};
use std::alloc::{AllocError, Global};

// A message of 12 bytes 0, a root, and so many pointers: the first to the root, and each later one to the one before
// it.
fn chain_of_pointers(alloc: Global, count: u16) -> Result<Vec<u8>, AllocError> {
    let mut bytes = Vec::from_slice(alloc, &[0; 13])?;
    for k in 0..count.min(4000) {
        let target = if k == 0 { 12 } else { 11 + 2 * k };
        bytes.extend_from_slice(&(0xc000 + target).to_be_bytes())?;
    }
    Ok(bytes)
}

#[test]
fn a_long_chain_of_pointers_is_read_by_many_names(rt: HostRuntime) -> Result<(), AllocError> {
    let alloc = rt.alloc();
    let chain = chain_of_pointers(alloc, 4000)?;
    assert!(rt; chain.len() == 8013);
    let mut reader = NameReader::new(alloc, chain.as_slice());
    for _ in 0..1000 {
        match reader.read(8011) {
            Ok((name, next)) => {
                assert!(rt; name.as_slice() == b"\x00".as_slice());
                assert!(rt; next == 8013);
            }
            Err(_) => return Err(AllocError),
        }
    }
    Ok(())
}

// The names at 3 and at 0 of a payload.
fn appended(alloc: Global, payload: &[u8]) -> Result<Vec<u8>, NameFault> {
    let mut bytes = Vec::new(alloc);
    NameReader::new(alloc, payload).append(&mut bytes, 3)?;
    append_name(&mut bytes, payload, 0)?;
    Ok(bytes)
}

#[test]
fn names_are_appended(rt: HostRuntime) {
    match appended(rt.alloc(), b"\x01a\x00\x01b\xc0\x00") {
        Ok(bytes) => assert!(rt; bytes.as_slice() == b"\x01b\x01a\x00\x01a\x00".as_slice()),
        Err(_) => assert!(rt; false),
    }
}
