//! What stands after the blocks of a file.

ghost use Rattle.std.specs.Prelude.{◌≡◌, ◌++◌, OnOk, OnErr};
ghost use Rattle.cd_file.specs.Files.{file_end};

use cd_bytes::Out;
use std::alloc::AllocError;

// The break, which ends an array of indefinite length (RFC 8949 3.2.1).
const BREAK: u8 = 0xff;

/// Writes the break that ends the array of blocks, and with it the file. An `Err` is for want of memory, and writes
/// nothing.
pub fn end_bytes(out: &mut Out) -> Result<(), AllocError>
    ensures ok { OnOk result (out.new ≡ out.old ++ file_end) }
    ensures err { OnErr result (out.new ≡ out.old) }
{
    out.push_slice(&[BREAK])
}
