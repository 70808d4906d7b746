ghost use Rattle.std.specs.Prelude.{◌≡◌};
ghost use Rattle.cd_pairing.specs.Waiting.{digest_of};

// An odd number near 2^64 over the golden ratio: bytes that differ a little then seldom have one digest.
const FACTOR: u64 = 0x9e37_79b9_7f4a_7c15;

// A digest of some bytes: bytes whose digests differ are not the same.
#[tactic(auto, unfolding(crate::specs::Waiting::digest_of))]
pub(crate) fn digest_of(bytes: &[u8]) -> u64
    ensures { result ≡ digest_of bytes.now }
{
    let mut digest = 0u64;
    'bytes: for byte in bytes {
        digest = digest.wrapping_mul(FACTOR).wrapping_add(u64::from(*byte));
    }
    digest
}
