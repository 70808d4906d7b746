use cd_bytes::{Cursor, Order, Out};
use std::alloc::AllocError;

#[test]
fn numbers_are_written(rt: HostRuntime) -> Result<(), AllocError> {
    let mut out = Out::new(rt.alloc());
    out.push_slice(b"a")?;
    out.push16(0x6263, Order::Big)?;
    out.push32(0x6766_6564, Order::Little)?;
    out.push64(0x6869_6a6b_6c6d_6e6f, Order::Big)?;
    assert!(rt; out.bytes() == b"abcdefghijklmno".as_slice());
    Ok(())
}

#[test]
fn a_short_cursor_stays(rt: HostRuntime) {
    let mut cursor = Cursor::new(b"abc".as_slice());
    assert!(rt; cursor.number8() == Ok(b'a'));
    assert!(rt; cursor.take(3).is_err());
    assert!(rt; (cursor.position(), cursor.left()) == (1, 2));
    assert!(rt; cursor.take(2) == Ok(b"bc".as_slice()));
}
