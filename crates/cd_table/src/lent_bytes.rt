//! The bytes of kept values, lent.

ghost use Rattle.std.specs.Prelude.{◌≡◌};
ghost use Rattle.std.specs.Option.{option_map};

use cd_name::{Blob, Name};

/// The bytes of an address, of RDATA, of options or of a payload, where there are any.
pub(crate) fn bytes_of(kept: &Option<Blob>) -> Option<&[u8]>
    ensures { option_map (λ b. b.now) result ≡ kept.now }
{
    match kept {
        Some(bytes) => Some(bytes.as_slice()),
        None => None,
    }
}

/// The bytes of a name, where there is one.
pub(crate) fn name_bytes(kept: &Option<Name>) -> Option<&[u8]>
    ensures { option_map (λ b. b.now) result ≡ kept.now }
{
    match kept {
        Some(name) => Some(name.as_slice()),
        None => None,
    }
}
