//! Writes heads.

ghost use Rattle.std.specs.Prelude.{◌≡◌, ◌++◌, OnOk, OnErr};
ghost use Rattle.cd_cbor.specs.MajorTypes.{major_number};
ghost use Rattle.cd_cbor.specs.Spelling.{head};

use crate::major_type::MajorType;
use cd_bytes::Out;
use std::alloc::AllocError;

/// Writes the shortest head of a major type with an argument, 1 to 9 bytes (RFC 8949 3). An `Err` is for want of
/// memory, and writes nothing.
#[tactic(auto, unfolding(crate::specs::Spelling::head))]
pub fn push_head(out: &mut Out, major: MajorType, argument: u64) -> Result<(), AllocError>
    ensures ok { OnOk result (out.new ≡ out.old ++ head (major_number major) argument) }
    ensures err { OnErr result (out.new ≡ out.old) }
{
    let kind = 32 * major.number();
    if argument < 24 {
        return out.push_slice(&[kind + argument as u8]);
    }
    if argument < 0x100 {
        return out.push_slice(&[kind + 24, argument as u8]);
    }
    if argument < 0x1_0000 {
        let [a, b] = (argument as u16).to_be_bytes();
        return out.push_slice(&[kind + 25, a, b]);
    }
    if argument < 0x1_0000_0000 {
        let [a, b, c, d] = (argument as u32).to_be_bytes();
        return out.push_slice(&[kind + 26, a, b, c, d]);
    }
    let [a, b, c, d, e, f, g, h] = argument.to_be_bytes();
    out.push_slice(&[kind + 27, a, b, c, d, e, f, g, h])
}

/// Writes the head of an array of so many items, which have to follow. An `Err` is for want of memory, and writes
/// nothing.
pub fn push_array_head(out: &mut Out, count: u64) -> Result<(), AllocError>
    ensures ok { OnOk result (out.new ≡ out.old ++ head 4 count) }
    ensures err { OnErr result (out.new ≡ out.old) }
{
    push_head(out, MajorType::Array, count)
}

/// Writes the head of a map of so many pairs, which have to follow, each key before its value. An `Err` is for want of
/// memory, and writes nothing.
pub fn push_map_head(out: &mut Out, count: u64) -> Result<(), AllocError>
    ensures ok { OnOk result (out.new ≡ out.old ++ head 5 count) }
    ensures err { OnErr result (out.new ≡ out.old) }
{
    push_head(out, MajorType::Map, count)
}
