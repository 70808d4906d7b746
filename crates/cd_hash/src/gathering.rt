//! Single bytes, gathered into words.

ghost use Rattle.std.specs.Prelude.{◌≡◌, ◌<◌, ◌≤◌};
ghost use Rattle.cd_hash.specs.Gathering.{with_byte};
ghost use Rattle.cd_hash.specs.Gathering;

use std::hash::{BuildHasherDefault, FoldHasher, Hasher};

/// Makes a `ByteHasher` for each key of a map.
pub type ByteHash = BuildHasherDefault<ByteHasher>;

/// A hasher that gathers single bytes, eight of them into a word.
#[derive(Clone, Copy)]
pub struct ByteHasher {
    inner: FoldHasher,
    // The bytes gathered, the last in the low eight bits.
    word: u64,
    // How many they are.
    count: u8,
}

impl Default for ByteHasher {
    ghost is_default = { λ h. (h.word ≡ 0) × (h.count ≡ 0) };

    fn default() -> ByteHasher {
        ByteHasher {
            inner: FoldHasher::default(),
            word: 0,
            count: 0,
        }
    }
}

impl ByteHasher {
    fn gather(&mut self, byte: u8)
        ensures { self.new ≡ with_byte self.old byte }
    {
        let word = self.word << 8 | u64::from(byte);
        if self.count < 7 {
            self.word = word;
            self.count += 1;
        } else {
            self.inner.write(&word.to_le_bytes());
            self.word = 0;
            self.count = 0;
        }
    }
}

impl Hasher for ByteHasher {
    ghost write = { Gathering.write };

    ghost finish = { Gathering.finish };

    #[inline(always)]
    fn finish(&self) -> u64 {
        let mut inner = self.inner;
        inner.write(&self.word.to_le_bytes());
        inner.finish()
    }

    #[inline(always)]
    fn write(&mut self, bytes: &[u8]) {
        if bytes.len() == 1 {
            self.gather(bytes[0]);
        } else {
            self.inner.write(bytes);
        }
    }
}
