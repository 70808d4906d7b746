//! Settings are made and changed. What they keep of records is called with a block.

ghost use Rattle.std.specs.Prelude.{IfOk};
ghost use Rattle.cd_hints.specs.Validity.{IsValid};

use cd_hints::{NumberOption, Settings, default_settings, valid};
use std::alloc::{AllocError, Global};

// The defaults, of which it is known here that they are valid.
fn valid_defaults(alloc: Global) -> Result<Settings, AllocError>
    ensures { IfOk result IsValid }
{
    default_settings(alloc)
}

#[test]
fn settings_are_made_and_changed(rt: HostRuntime) -> Result<(), AllocError> {
    let mut settings = valid_defaults(rt.alloc())?;
    settings.put(NumberOption::Port, 5353);
    assert_eq!(rt; settings.port, 5353);
    assert!(rt; valid(&settings));
    settings.params.query_ms = None;
    assert!(rt; !valid(&settings));
    Ok(())
}
