//! The sum of the bytes of a file.

ghost use Rattle.std.specs.Prelude.{◌≡◌};
ghost use Rattle.cd_workload.specs.Workload;

/// The sum of some bytes modulo 2^32.
pub fn file_sum(bytes: &[u8]) -> u32
    ensures { result ≡ Workload.file_sum bytes.now }
{
    let mut total: u32 = 0;
    'bytes: for byte in bytes {
        total = total.wrapping_add(u32::from(*byte));
    }
    total
}
