//! Writes items.

ghost use Rattle.std.specs.Prelude.{◌≡◌, ◌++◌, OnOk};
ghost use Rattle.cd_cbor.specs.Spelling.{spelling};

use crate::head::{push_array_head, push_map_head};
use crate::item::Item;
use crate::values::{push_bytes, push_negative, push_text, push_unsigned};
use cd_bytes::Out;
use std::alloc::AllocError;

/// Writes the spelling of an item: the shortest heads and definite lengths (RFC 8949 4.2.1), items and pairs in their
/// order. The bytes of an `Other` and of a `Text` are written as they are, so what is written is well-formed where each
/// `Other` holds one tagged value, simple value or float that is, and valid where each `Text` is UTF-8. An `Err` is for
/// want of memory, and may write a front of the spelling.
#[tactic(auto, unfolding(crate::specs::Spelling::spelling, crate::specs::Items::unsigned, crate::specs::Items::negative, crate::specs::Items::bytes, crate::specs::Items::text))]
pub fn encode(item: &Item, out: &mut Out) -> Result<(), AllocError>
    ensures { OnOk result (out.new ≡ out.old ++ spelling item.now) }
{
    match item {
        Item::Uint(n) => push_unsigned(out, *n),
        Item::Nint(n) => push_negative(out, *n),
        Item::Bytes(content) => push_bytes(out, content.as_slice()),
        Item::Text(content) => push_text(out, content.as_slice()),
        Item::Array(items) => {
            let items = items.as_slice();
            push_array_head(out, items.len() as u64)?;
            'items: for inner in items {
                encode(inner, out)?;
            }
            Ok(())
        }
        Item::Map(pairs) => {
            let pairs = pairs.as_slice();
            push_map_head(out, pairs.len() as u64)?;
            'pairs: for pair in pairs {
                encode(&pair.0, out)?;
                encode(&pair.1, out)?;
            }
            Ok(())
        }
        Item::Other(content) => out.push_slice(content.as_slice()),
    }
}
