use cd_name::{Blob, Name, NameWriter, fold, read_name};
use std::alloc::{AllocError, Global};

// The name at the start of some bytes.
fn name_of(alloc: Global, bytes: &[u8]) -> Result<Name, AllocError> {
    match read_name(alloc, bytes, 0) {
        Ok((name, _next)) => Ok(name),
        Err(_) => Err(AllocError),
    }
}

// A message of a name, written twice by the two calls.
fn written_twice(alloc: Global, name: &Name) -> Result<Blob, AllocError> {
    let mut message = Blob::from_vec(Vec::new(alloc));
    let mut writer = NameWriter::new(alloc);
    writer.put(&mut message, name)?;
    writer.put_slice(&mut message, name.as_slice())?;
    Ok(message)
}

#[test]
fn a_name_ends_as_one_before_it(rt: HostRuntime) -> Result<(), AllocError> {
    let name = name_of(rt.alloc(), b"\x01A\x00")?;
    let message = written_twice(rt.alloc(), &name)?;
    assert!(rt; message.as_slice() == b"\x01A\x00\xc0\x00".as_slice());
    let folded = fold(rt.alloc(), &name)?;
    assert!(rt; folded.as_slice() == b"\x01a\x00".as_slice());
    Ok(())
}
