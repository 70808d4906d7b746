//! Puts what is read into the fields of a map.

ghost use Rattle.std.specs.Prelude.{◌≡◌, ℕ, ◌≤◌, Some, Ok};
ghost use Rattle.cd_cbor.specs.Spells.{most_depth};
ghost use Rattle.cd_cbor.specs.declared.item.Item.{Item};
ghost use Rattle.cd_file.specs.ItemReading.{ItemAt};
ghost use Rattle.cd_file.specs.Putting.{Places};

use super::fault::ItemFault;
use cd_cbor::item_end;

/// Puts a value that was read into a place, and gives the offset behind it.
pub fn put<V: Drop>(read: Result<(V, usize), ItemFault>, place: &mut V) -> Result<usize, ItemFault>
    ensures { Places (λ value. place.new ≡ value) read result }
{
    match read {
        Ok((value, next)) => {
            *place = value;
            Ok(next)
        }
        Err(fault) => Err(fault),
    }
}

/// Puts a value that was read into a place that may be absent, and gives the offset behind it.
pub fn put_some<V: Drop>(
    read: Result<(V, usize), ItemFault>,
    place: &mut Option<V>,
) -> Result<usize, ItemFault>
    ensures { Places (λ value. place.new ≡ Some value) read result }
{
    match read {
        Ok((value, next)) => {
            *place = Some(value);
            Ok(next)
        }
        Err(fault) => Err(fault),
    }
}

/// Passes over the item at an offset, and gives the offset behind it.
pub fn passed_over(bytes: &[u8], depth: usize, at: usize) -> Result<usize, ItemFault>
    requires { depth ≤ most_depth }
    ensures { (item : Item) (end : ℕ) → ItemAt depth bytes.now at item end → result ≡ Ok end }
{
    Ok(item_end(depth, bytes, at))
}

/// Gives the offset behind a value that was read and is not kept.
pub fn leave_out<V: Drop>(read: Result<(V, usize), ItemFault>) -> Result<usize, ItemFault>
    ensures { Places (λ value. Unit {0}) read result }
{
    match read {
        Ok((_value, next)) => Ok(next),
        Err(fault) => Err(fault),
    }
}
