//! One read into the front of a buffer.

ghost use Rattle.std.specs.Prelude.{◌≡◌, ℕ, ◌<◌, ◌&&◌, ◌||◌, length, is_err};
ghost use Rattle.std.specs.Io.KnownBytes.{ReadConsumes};
ghost use Rattle.cd_ports.specs.Counter.{next_count};
ghost use Rattle.cd_ports.specs.Reading.{HasCause, gives_byte};
ghost use Rattle.cd_drive.specs.Chunks.{is_end, IsWithin};

use cd_ports::{Failed, Source};

// Reads at most `most` bytes into the front of a slice.
#[tactic(auto, using(std::proofs::lemmas::List::take_at, std::proofs::lemmas::List::take_min))]
fn read_slice<S: Source>(src: &mut S, chunk: &mut [u8], most: u64) -> Result<usize, Failed>
    requires some { 0 < most }
    requires room { 0 < length chunk.old }
    ensures bytes { ReadConsumes (S.means src.old).left (S.means src.new).left result chunk.new }
    ensures within { IsWithin result most (length chunk.new) }
    ensures cause { HasCause (S.means src.old).faults (S.means src.new).faults result }
    ensures ended { (S.means src.new).ended ≡ is_end result }
    ensures failed { (S.means src.new).failed ≡ ((S.means src.old).failed || is_err result) }
    ensures calls { (S.means src.new).calls ≡ next_count (S.means src.old).calls }
    ensures late { (S.means src.new).late ≡
        ((S.means src.old).late || ((S.means src.old).failed && gives_byte result)) }
{
    let room = if most < chunk.len() as u64 {
        most as usize
    } else {
        chunk.len()
    };
    src.read(&mut chunk[..room])
}

/// Reads at most `most` bytes into the front of a buffer, and answers how many: 0 where the source tells its end. At an
/// `Err` no byte was taken.
pub fn read_front<S: Source>(src: &mut S, chunk: &mut Vec<u8>, most: u64) -> Result<usize, Failed>
    requires some { 0 < most }
    requires room { 0 < length chunk.old.items }
    ensures bytes { ReadConsumes (S.means src.old).left (S.means src.new).left result chunk.new.items }
    ensures within { IsWithin result most (length chunk.new.items) }
    ensures same_room { length chunk.new.items ≡ length chunk.old.items }
    ensures cause { HasCause (S.means src.old).faults (S.means src.new).faults result }
    ensures ended { (S.means src.new).ended ≡ is_end result }
    ensures failed { (S.means src.new).failed ≡ ((S.means src.old).failed || is_err result) }
    ensures calls { (S.means src.new).calls ≡ next_count (S.means src.old).calls }
    ensures late { (S.means src.new).late ≡
        ((S.means src.old).late || ((S.means src.old).failed && gives_byte result)) }
{
    read_slice(src, chunk.as_mut_slice(), most)
}
