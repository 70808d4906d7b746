ghost use Rattle.std.specs.Prelude.{◌≡◌, ◌%◌, ◌^◌, ◌<◌, ◌≤◌, ◌++◌, length, sum};
ghost use Rattle.cd_bytes.specs.Checksum.{words, carried, checksum_of};

// So many bytes are summed before the carry is added, an even number. The sum of their words is below 2^48.
const BLOCK: usize = 0x1_0000_0000;

// The total with its high bits added to its low 16, until none are left.
fn with_carry(total: u64) -> u16
    ensures { result ≡ carried total }
{
    let mut sum = total;
    'carry: while sum > 0xffff {
        sum = sum % 0x1_0000 + sum / 0x1_0000;
    }
    sum as u16
}

// The sum of the words of a block.
fn block_sum(bytes: &[u8]) -> u64
    requires { length bytes.now ≤ BLOCK }
    ensures words { result ≡ sum (words bytes.now) }
    ensures bound { result < 2 ^ 48 }
{
    let mut sum = 0;
    let mut rest = bytes;
    'words: while let [high, low, tail @ ..] = rest {
        sum += u64::from(*high) * 0x100 + u64::from(*low);
        rest = tail;
    }
    if let [last] = rest {
        sum += u64::from(*last) * 0x100;
    }
    sum
}

// The sum of the words of any bytes, with its carry.
#[tactic(auto, using(crate::proofs::Summing::sums_on))]
fn carried_sum(bytes: &[u8]) -> u16
    ensures { result ≡ carried (sum (words bytes.now)) }
{
    let mut sum = 0;
    let mut rest = bytes;
    'pieces: while !rest.is_empty() {
        let (block, tail) = rest.split_at(rest.len().min(BLOCK));
        sum = with_carry(u64::from(sum) + block_sum(block));
        rest = tail;
    }
    sum
}

/// The Internet checksum of `first` followed by `second`: the complement of the sum of their 16-bit big-endian words, with
/// end-around carry. An odd last byte is followed by 0 (RFC 1071, 1). `first` has an even length, so that no word lies in both.
#[tactic(auto, using(crate::proofs::Summing::sums_joined))]
pub fn checksum(first: &[u8], second: &[u8]) -> u16
    requires { length first.now % 2 ≡ 0 }
    ensures { result ≡ checksum_of (first.now ++ second.now) }
{
    !with_carry(u64::from(carried_sum(first)) + u64::from(carried_sum(second)))
}
