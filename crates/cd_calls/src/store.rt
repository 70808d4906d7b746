ghost use Rattle.std.specs.Prelude.{◌≡◌, ◌≤◌, [], Some, IsSome, IfOk};
ghost use Rattle.cd_chain.specs.Contents.{list_at};
ghost use Rattle.cd_calls.specs.Rows.{HasRow};

use cd_chain::Store;
use std::alloc::{AllocError, Global};

#[test]
fn a_store_has_room_and_an_empty_list(rt: HostRuntime) -> Result<(), AllocError> {
    let mut store: Store<u8> = Store::new(rt.alloc());
    store.reserve(3)?;
    assert!(rt; store.spare_slots() >= 3);
    let list = store.add_list(0)?;
    let first = store.first(0, list);
    assert!(rt; first.is_none());
    Ok(())
}

// A store with one list in each lane, and three slots that stand in all of them.
#[derive(Drop)]
struct Row {
    store: Store<u8>,
    first: u32,
    second: u32,
    third: u32,
    x: u32,
    y: u32,
    z: u32,
}

// Puts three values into slots that stand in these lists.
fn fill(mut store: Store<u8>, first: u32, second: u32, third: u32, values: [u8; 3]) -> Row
    requires spare { 3 ≤ store.spare }
    requires first { list_at store 0 first ≡ Some [] }
    requires second { list_at store 1 second ≡ Some [] }
    requires third { list_at store 2 third ≡ Some [] }
    ensures { HasRow result.store result.first result.second result.third result.x result.y result.z }
{
    let x = store.put_reserved(values[0], [Some(first), Some(second), Some(third)]);
    let y = store.put_reserved(values[1], [Some(first), Some(second), Some(third)]);
    let z = store.put_reserved(values[2], [Some(first), Some(second), Some(third)]);
    Row {
        store,
        first,
        second,
        third,
        x,
        y,
        z,
    }
}

// A store with three slots that stand in one list of each lane.
fn row_of(alloc: Global, values: [u8; 3]) -> Result<Row, AllocError>
    ensures { IfOk result (λ r. HasRow r.store r.first r.second r.third r.x r.y r.z) }
{
    let mut store: Store<u8> = Store::new(alloc);
    let first = store.add_list(0)?;
    let second = store.add_list(1)?;
    let third = store.add_list(2)?;
    store.reserve(3)?;
    Ok(fill(store, first, second, third, values))
}

// Whether a list has these values, walked from its first slot on.
fn shows(store: &Store<u8>, lane: u8, list: u32, values: &[u8]) -> bool
    requires { IsSome (list_at store.now lane list) }
{
    let mut slot = store.first(lane, list);
    'values: for value in values {
        match slot {
            None => return false,
            Some(here) => {
                if *store.get(here) != *value {
                    return false;
                }
                slot = store.next(lane, here);
            }
        }
    }
    slot.is_none()
}

#[test]
fn a_slot_goes_from_one_list_and_from_all(rt: HostRuntime) -> Result<(), AllocError> {
    let Row {
        mut store,
        first,
        second,
        third,
        y,
        z,
        ..
    } = row_of(rt.alloc(), [7, 8, 9])?;
    store.unlink(1, y);
    assert!(rt; shows(&store, 0, first, &[7, 8, 9]));
    assert!(rt; shows(&store, 1, second, &[7, 9]));
    assert!(rt; shows(&store, 2, third, &[7, 8, 9]));
    let value = store.remove(y);
    assert_eq!(rt; value, 8);
    assert!(rt; shows(&store, 0, first, &[7, 9]));
    assert!(rt; shows(&store, 1, second, &[7, 9]));
    assert!(rt; shows(&store, 2, third, &[7, 9]));
    let after = store.next(0, z);
    assert!(rt; after.is_none());
    Ok(())
}
