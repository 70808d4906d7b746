//! The names that are asked for.

ghost use Rattle.std.specs.Prelude.{◌≡◌, ◌≤◌, length, IfOk};
ghost use Rattle.cd_workload.specs.Workload;

use cd_name::Name;
use itoa::Buffer;
use std::alloc::{AllocError, Global};

// The bytes of a name whose first label is h and these digits. An `Err` is for want of memory.
fn name_bytes(alloc: Global, digits: &[u8]) -> Result<Vec<u8>, AllocError>
    requires { length digits.now ≤ 3 }
    ensures { IfOk result (λ bytes. bytes.items ≡ Workload.name_with digits.now) }
{
    let size = digits.len() as u8 + 1;
    let mut bytes = Vec::with_capacity(alloc, 14)?;
    bytes.extend_from_slice(&[size, b'h'])?;
    bytes.extend_from_slice(digits)?;
    bytes.extend_from_slice(b"\x07example\0")?;
    Ok(bytes)
}

// The name that is asked for. An `Err` is for want of memory.
pub(crate) fn name_of(alloc: Global, drawn: u64) -> Result<Name, AllocError>
    ensures { IfOk result (λ name. name ≡ Workload.name_of drawn) }
{
    let mut buffer = Buffer::new();
    let digits = buffer.format(drawn % 1000);
    let bytes = name_bytes(alloc, digits.as_bytes())?;
    Name::from_slice(alloc, bytes.as_slice())
}
