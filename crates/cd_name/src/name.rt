//! Names without pointers (RFC 1035 3.1).

ghost use Rattle.std.specs.Prelude.{◌≡◌, ◌↔◌, IsTrue, IfOk, map};
ghost use Rattle.std.proofs.Common.{rules};
ghost use Rattle.std.proofs.Props.{props};
ghost use Rattle.std.specs.Str.{bytes_eq};
ghost use Rattle.std.specs.Hash as fed;
ghost use Rattle.std.specs.Cmp.Lexicographic.{nat_list_eq_equiv};
ghost use Rattle.std.specs.Cmp.{partial_equiv_from_equiv};
ghost use Rattle.std.specs.Cmp.Rules.{hashing};
ghost use Rattle.cd_name.specs.NameSizes;
ghost use Rattle.cd_name.specs.Names.{IsName, lower_case};

use crate::piece::MAX_LABEL;
use std::alloc::{AllocError, Global};
use std::hash::{Hash, Hasher};
use std::marker::Model;

/// A name without pointers: labels of 1 to 63 bytes, each after its length byte, and the root, in 1 to 255 bytes
/// (RFC 1035 3.1). Contracts see it as its bytes.
#[derive(Debug, Drop)]
pub struct Name {
    bytes: Vec<u8>,
    ghost named: { IsName bytes.items } by { Prim.hlevel props },
}

impl Model for Name {
    ghost use Rattle.std.specs.Prelude.{List, ℕ};

    ghost Value = { List ℕ };

    ghost view = { λ n. n.bytes.items };
}

impl Name {
    /// The name of some bytes, which it keeps.
    pub(crate) fn from_vec(bytes: Vec<u8>) -> Name
        requires { IsName bytes.items }
        ensures { result ≡ bytes.items }
    {
        Name { bytes }
    }

    /// The name of some bytes, which it copies. `is_name` tells whether bytes are a name. An `Err` is for want of
    /// memory.
    pub fn from_slice(alloc: Global, bytes: &[u8]) -> Result<Name, AllocError>
        requires { IsName bytes.now }
        ensures { IfOk result (λ n. n ≡ bytes.now) }
    {
        let bytes = Vec::from_slice(alloc, bytes)?;
        Ok(Name::from_vec(bytes))
    }

    /// The bytes of the name, 1 to 255, with the length bytes and the root.
    pub fn as_slice(&self) -> &[u8]
        ensures bytes { result.now ≡ self.now }
        ensures named { IsName self.now }
    {
        self.bytes.as_slice()
    }
}

impl PartialEq for Name {
    ghost eq = { bytes_eq };

    ghost laws = { partial_equiv_from_equiv nat_list_eq_equiv };

    fn eq(&self, other: &Self) -> bool {
        self.as_slice() == other.as_slice()
    }
}

impl Eq for Name {
    ghost laws = { nat_list_eq_equiv };
}

impl Hash for Name {
    ghost hash_input = { λ n. fed.slice fed.u8 n };

    ghost respects_eq = { Prim.search (hashing, rules) };

    fn hash<H: Hasher>(&self, state: &mut H) {
        self.as_slice().hash(state);
    }
}

/// The greatest number of bytes of a name (RFC 1035 3.1).
pub(crate) const MAX_NAME: usize = 255;

/// The number of bytes of the name without pointers that some bytes begin with, if they begin with one (RFC 1035 3.1).
pub fn name_size(bytes: &[u8]) -> Option<usize>
    ensures { result ≡ NameSizes.name_size bytes.now }
{
    let mut here = 0;
    'labels: while here < bytes.len() && here < MAX_NAME {
        let size = usize::from(bytes[here]);
        if size == 0 {
            return Some(here + 1);
        }
        if size > MAX_LABEL {
            return None;
        }
        here += size + 1;
    }
    None
}

/// Whether the bytes are a name without pointers: labels of 1 to 63 bytes, each after its length byte, and the root as
/// the last byte, in 1 to 255 bytes (RFC 1035 3.1).
pub fn is_name(bytes: &[u8]) -> bool
    ensures { IsTrue result ↔ IsName bytes.now }
{
    name_size(bytes) == Some(bytes.len())
}

// The bytes in lower case: 0x41 to 0x5a become 0x61 to 0x7a, and the others stay.
fn lower_case_bytes(alloc: Global, bytes: &[u8]) -> Result<Vec<u8>, AllocError>
    ensures { IfOk result (λ v. v.items ≡ map lower_case bytes.now) }
{
    bytes
        .iter()
        .map(|byte| byte.to_ascii_lowercase())
        .collect(alloc)
}

/// The name in lower case: its bytes 0x41 to 0x5a become 0x61 to 0x7a, and the others stay, so that names that differ
/// only in case have equal bytes (RFC 1035 2.3.3). Length bytes are below 0x40 and stay. An `Err` is for want of
/// memory.
pub fn fold(alloc: Global, name: &Name) -> Result<Name, AllocError>
    ensures { IfOk result (λ f. f ≡ map lower_case name.now) }
{
    let bytes = lower_case_bytes(alloc, name.as_slice())?;
    Ok(Name { bytes })
}
