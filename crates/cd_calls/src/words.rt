use crate::program::sample::words_of;
use cd_words::{Command, read_words};
use std::test::Fail;

#[test]
fn settings_are_read(rt: HostRuntime) -> Result<(), Fail> {
    let words = words_of(
        rt.alloc(),
        &[b"compact", b"--port", b"5353", b"--rr-types", b"7-8,3"],
    )?;
    let Ok(Command::Compact(settings)) = read_words(rt.alloc(), &words) else {
        return Err("a command line")?;
    };
    assert_eq!(rt; settings.port, 5353);
    assert_eq!(rt; settings.params.rr_types.as_slice(), &[3_u16, 7, 8][..]);
    Ok(())
}
