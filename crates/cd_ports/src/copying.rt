//! What the sources in memory share.

ghost use Rattle.std.specs.Prelude.{◌≡◌, ◌≤◌, take, drop, ◌++◌, length, min};

/// Copies what is left into the buffer, as much as fits and at most some bytes, and answers how much.
#[tactic(auto, using(crate::proofs::Giving::given))]
pub fn give_front(left: &[u8], most: usize, buf: &mut [u8]) -> usize
    ensures count { result ≡ min (length left.now) (min most (length buf.old)) }
    ensures same_room { length buf.new ≡ length buf.old }
    ensures bytes { left.now ≡ take result buf.new ++ drop result left.now }
{
    let count = left.len().min(most.min(buf.len()));
    buf[..count].copy_from_slice(&left[..count]);
    count
}
