//! Copies of what a message holds.

ghost use Rattle.std.specs.Prelude.{◌≡◌, IfOk};
ghost use Rattle.std.specs.Option.{option_copied, option_map};

use crate::keeping::stored_address::StoredAddress;
use cd_name::{Blob, Name};
use std::alloc::{AllocError, Global};

// A copy of a name. An `Err` is for want of memory.
pub(crate) fn copy_name(alloc: Global, name: &Name) -> Result<Name, AllocError>
    ensures { IfOk result (λ copy. copy ≡ name.now) }
{
    Name::from_slice(alloc, name.as_slice())
}

// A copy of some bytes. An `Err` is for want of memory.
pub(crate) fn copy_blob(alloc: Global, bytes: &[u8]) -> Result<Blob, AllocError>
    ensures { IfOk result (λ copy. copy ≡ bytes.now) }
{
    let bytes = Vec::from_slice(alloc, bytes)?;
    Ok(Blob::from_vec(bytes))
}

// A copy of a name, where there is one. An `Err` is for want of memory.
pub(crate) fn copy_optional_name(
    alloc: Global,
    name: Option<&Name>,
) -> Result<Option<Name>, AllocError>
    ensures { IfOk result (λ copy. copy ≡ option_copied name.entry) }
{
    match name {
        Some(name) => {
            let copy = copy_name(alloc, name)?;
            Ok(Some(copy))
        }
        None => Ok(None),
    }
}

// A copy of some bytes, where there are any. An `Err` is for want of memory.
pub(crate) fn copy_optional_blob(
    alloc: Global,
    bytes: Option<&[u8]>,
) -> Result<Option<Blob>, AllocError>
    ensures { IfOk result (λ copy. copy ≡ option_map (λ b. b.now) bytes.entry) }
{
    match bytes {
        Some(bytes) => {
            let copy = copy_blob(alloc, bytes)?;
            Ok(Some(copy))
        }
        None => Ok(None),
    }
}

// A copy of the bytes of an address. An `Err` is for want of memory.
pub(crate) fn copy_address(alloc: Global, address: &StoredAddress) -> Result<Blob, AllocError>
    ensures { IfOk result (λ copy. copy ≡ address.now) }
{
    copy_blob(alloc, address.as_slice())
}

// The same where there is one. An `Err` is for want of memory.
pub(crate) fn copy_optional_address(
    alloc: Global,
    address: Option<StoredAddress>,
) -> Result<Option<Blob>, AllocError>
    ensures { IfOk result (λ copy. copy ≡ address) }
{
    match address {
        Some(address) => {
            let copy = copy_address(alloc, &address)?;
            Ok(Some(copy))
        }
        None => Ok(None),
    }
}
