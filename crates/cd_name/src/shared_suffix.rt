//! Suffixes of a name that share its bytes.

ghost use Rattle.std.specs.Prelude.{◌≡◌, ◌≤◌, length, drop, IfOk};
ghost use Rattle.std.proofs.Common.{rules};
ghost use Rattle.std.specs.Str.{bytes_eq};
ghost use Rattle.std.specs.Hash as fed;
ghost use Rattle.std.specs.Cmp.Lexicographic.{nat_list_eq_equiv};
ghost use Rattle.std.specs.Cmp.{partial_equiv_from_equiv};
ghost use Rattle.std.specs.Cmp.Rules.{hashing};

use std::alloc::{AllocError, Global};
use std::hash::{Hash, Hasher};
use std::marker::Model;
use std::rc::RcSlice;

/// A suffix of some bytes. Contracts see it as its own bytes.
#[derive(Drop)]
pub(crate) struct SharedSuffix {
    whole: RcSlice<u8>,
    start: usize,
}

impl Model for SharedSuffix {
    ghost use Rattle.std.specs.Prelude.{List, ℕ, ◌≤◌, length, drop};
    ghost use Rattle.std.specs.Rc.{rc_slice_items};

    ghost Value = { List ℕ };

    ghost view = { λ s. drop s.start (rc_slice_items s.whole) };

    ghost invariant = { λ s. s.start ≤ length (rc_slice_items s.whole) };
}

impl SharedSuffix {
    /// All of some bytes, which it copies.
    pub(crate) fn from_slice(alloc: Global, bytes: &[u8]) -> Result<SharedSuffix, AllocError>
        ensures { IfOk result (λ s. s ≡ bytes.now) }
    {
        let whole = RcSlice::from_slice(alloc, bytes)?;
        Ok(SharedSuffix { whole, start: 0 })
    }

    /// The bytes from an offset on, which are not copied.
    pub(crate) fn suffix(&self, at: usize) -> Result<SharedSuffix, AllocError>
        requires { at ≤ length self.now }
        ensures { IfOk result (λ s. s ≡ drop at self.now) }
    {
        let whole = self.whole.clone()?;
        Ok(SharedSuffix {
            whole,
            start: self.start + at,
        })
    }

    /// The bytes.
    pub(crate) fn as_slice(&self) -> &[u8]
        ensures { result.now ≡ self.now }
    {
        &self.whole.as_slice()[self.start..]
    }
}

impl PartialEq for SharedSuffix {
    ghost eq = { bytes_eq };

    ghost laws = { partial_equiv_from_equiv nat_list_eq_equiv };

    fn eq(&self, other: &Self) -> bool {
        self.as_slice() == other.as_slice()
    }
}

impl Eq for SharedSuffix {
    ghost laws = { nat_list_eq_equiv };
}

impl Hash for SharedSuffix {
    ghost hash_input = { λ s. fed.slice fed.u8 s };

    ghost respects_eq = { Prim.search (hashing, rules) };

    fn hash<H: Hasher>(&self, state: &mut H) {
        self.as_slice().hash(state);
    }
}
