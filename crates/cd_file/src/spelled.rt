//! Values that are written as items, alone, in arrays and under keys.

ghost use Rattle.std.specs.Prelude.{◌≡◌, ◌≤◌, ◌++◌, map, Some, OnOk};
ghost use Rattle.std.specs.Option.{option_map};
ghost use Rattle.cd_cbor.specs.declared.item.Item.{Item};
ghost use Rattle.cd_cbor.specs.Items.{unsigned, bytes, array};
ghost use Rattle.cd_cbor.specs.Integers.{signed};
ghost use Rattle.cd_cbor.specs.Spelling.{spelling};
ghost use Rattle.cd_file.specs.Maps.{numbers, optional_array, there, entry_spelling};

use cd_bytes::Out;
use cd_cbor::{Integer, push_array_head, push_bytes, push_integer, push_unsigned};
use cd_name::{Blob, List};
use std::alloc::AllocError;

/// A value that is written as a CBOR item. An `Err` is for want of memory, and may write a front of it.
pub trait Spelled {
    ghost item: { Self → Item };

    fn push(&self, out: &mut Out) -> Result<(), AllocError>
        ensures { OnOk result (out.new ≡ out.old ++ spelling (item self.now)) };
}

impl Spelled for u16 {
    ghost item = { λ n. unsigned n };

    fn push(&self, out: &mut Out) -> Result<(), AllocError> {
        push_unsigned(out, *self as u64)
    }
}

impl Spelled for u64 {
    ghost item = { λ n. unsigned n };

    fn push(&self, out: &mut Out) -> Result<(), AllocError> {
        push_unsigned(out, *self)
    }
}

impl Spelled for i64 {
    ghost item = { λ n. signed n };

    fn push(&self, out: &mut Out) -> Result<(), AllocError> {
        push_integer(out, Integer::of_signed(*self))
    }
}

impl Spelled for Blob {
    ghost item = { λ b. bytes b };

    fn push(&self, out: &mut Out) -> Result<(), AllocError> {
        push_bytes(out, self.as_slice())
    }
}

impl Spelled for List<u16> {
    ghost item = { λ l. numbers l };

    fn push(&self, out: &mut Out) -> Result<(), AllocError> {
        push_array(out, self)
    }
}

impl Spelled for List<u64> {
    ghost item = { λ l. numbers l };

    fn push(&self, out: &mut Out) -> Result<(), AllocError> {
        push_array(out, self)
    }
}

/// Writes an array of these values.
pub fn push_array<T: Spelled>(out: &mut Out, values: &List<T>) -> Result<(), AllocError>
    ensures { OnOk result (out.new ≡ out.old ++ spelling (array (map T.item values.now))) }
{
    let values = values.as_slice();
    push_array_head(out, values.len() as u64)?;
    'values: for value in values {
        value.push(out)?;
    }
    Ok(())
}

/// Writes a key and its value.
pub fn push_required<T: Spelled>(out: &mut Out, key: u64, value: &T) -> Result<(), AllocError>
    ensures { OnOk result (out.new ≡ out.old ++ entry_spelling key (Some (T.item value.now))) }
{
    push_unsigned(out, key)?;
    value.push(out)?;
    Ok(())
}

/// 1 where there are values, else 0.
pub fn array_count<T: Spelled>(values: &List<T>) -> u64
    ensures exact { result ≡ there (optional_array (map T.item values.now)) }
    ensures few { result ≤ 1 }
{
    if values.as_slice().is_empty() { 0 } else { 1 }
}

/// Writes a key and an array of these values, where there are any.
pub fn push_optional_array<T: Spelled>(
    out: &mut Out,
    key: u64,
    values: &List<T>,
) -> Result<(), AllocError>
    ensures { OnOk result (out.new ≡ out.old ++ entry_spelling key (optional_array (map T.item values.now))) }
{
    if array_count(values) == 0 {
        return Ok(());
    }
    push_unsigned(out, key)?;
    push_array(out, values)?;
    Ok(())
}

/// 1 where the value is there, else 0.
pub fn value_count<T: Spelled>(value: &Option<T>) -> u64
    ensures exact { result ≡ there (option_map T.item value.now) }
    ensures few { result ≤ 1 }
{
    match value {
        Some(_) => 1,
        None => 0,
    }
}

/// Writes a key and its value, where it is there.
pub fn push_optional<T: Spelled>(
    out: &mut Out,
    key: u64,
    value: &Option<T>,
) -> Result<(), AllocError>
    ensures { OnOk result (out.new ≡ out.old ++ entry_spelling key (option_map T.item value.now)) }
{
    match value {
        Some(value) => push_required(out, key, value),
        None => Ok(()),
    }
}
