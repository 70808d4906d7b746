//! Writes numbers and strings.

ghost use Rattle.std.specs.Prelude.{◌≡◌, ◌++◌, OnOk, OnErr};
ghost use Rattle.cd_cbor.specs.Spelling.{spelling};
ghost use Rattle.cd_cbor.specs.Items.{unsigned, negative, bytes, text};
ghost use Rattle.cd_cbor.specs.Integers.{integer_item};

use crate::head::push_head;
use crate::integer::Integer;
use crate::major_type::MajorType;
use cd_bytes::Out;
use std::alloc::AllocError;

/// Writes a number from 0. An `Err` is for want of memory, and writes nothing.
#[tactic(auto, using(crate::proofs::Spelled::spelling_unsigned))]
pub fn push_unsigned(out: &mut Out, n: u64) -> Result<(), AllocError>
    ensures ok { OnOk result (out.new ≡ out.old ++ spelling (unsigned n)) }
    ensures err { OnErr result (out.new ≡ out.old) }
{
    push_head(out, MajorType::Unsigned, n)
}

/// Writes the number -1 - n. An `Err` is for want of memory, and writes nothing.
#[tactic(auto, using(crate::proofs::Spelled::spelling_negative))]
pub fn push_negative(out: &mut Out, n: u64) -> Result<(), AllocError>
    ensures ok { OnOk result (out.new ≡ out.old ++ spelling (negative n)) }
    ensures err { OnErr result (out.new ≡ out.old) }
{
    push_head(out, MajorType::Negative, n)
}

/// Writes an integer. An `Err` is for want of memory, and writes nothing.
pub fn push_integer(out: &mut Out, n: Integer) -> Result<(), AllocError>
    ensures ok { OnOk result (out.new ≡ out.old ++ spelling (integer_item n)) }
    ensures err { OnErr result (out.new ≡ out.old) }
{
    match n {
        Integer::Unsigned(n) => push_unsigned(out, n),
        Integer::Negative(n) => push_negative(out, n),
    }
}

/// Writes a string of bytes. An `Err` is for want of memory, and may write a front of its spelling.
#[tactic(auto, using(std::proofs::lemmas::List::append_assoc, crate::proofs::Spelled::spelling_bytes))]
pub fn push_bytes(out: &mut Out, content: &[u8]) -> Result<(), AllocError>
    ensures { OnOk result (out.new ≡ out.old ++ spelling (bytes content.now)) }
{
    push_head(out, MajorType::Bytes, content.len() as u64)?;
    out.push_slice(content)
}

/// Writes a text, by its bytes in UTF-8. An `Err` is for want of memory, and may write a front of its spelling.
#[tactic(auto, using(std::proofs::lemmas::List::append_assoc, crate::proofs::Spelled::spelling_text))]
pub fn push_text(out: &mut Out, content: &[u8]) -> Result<(), AllocError>
    ensures { OnOk result (out.new ≡ out.old ++ spelling (text content.now)) }
{
    push_head(out, MajorType::Text, content.len() as u64)?;
    out.push_slice(content)
}
