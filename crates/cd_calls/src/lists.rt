use cd_name::{Blob, List};
use std::alloc::AllocError;

#[test]
fn a_blob_holds_its_bytes(rt: HostRuntime) -> Result<(), AllocError> {
    let mut blob = Blob::from_vec(Vec::from_slice(rt.alloc(), b"ab")?);
    blob.push(b'c')?;
    blob.push_slice(b"de".as_slice())?;
    blob.truncate(4);
    let bytes = blob.into_vec();
    assert!(rt; bytes.as_slice() == b"abcd".as_slice());
    Ok(())
}

#[test]
fn a_list_holds_its_items(rt: HostRuntime) -> Result<(), AllocError> {
    let mut list = List::from_vec(Vec::new(rt.alloc()));
    match list.push(7u16) {
        Ok(()) => {}
        Err(_) => return Err(AllocError),
    }
    assert!(rt; list.as_slice() == [7].as_slice());
    let items = list.into_vec();
    assert!(rt; items.len() == 1);
    Ok(())
}
