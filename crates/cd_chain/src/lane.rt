ghost use Rattle.std.specs.Prelude.{◌≡◌, ◌<◌, ◌+◌, ◌^◌, ◌∷◌, [], ◌++◌, ℕ, length, slice_set, vec_len, OnOk, OnErr, IfOk, Some, None};
ghost use Rattle.cd_chain.specs.Lanes.{rows_in, free_in, row_at};
ghost use Rattle.cd_chain.specs.Lists.{IsThere, AddsRow, DropsRow, no_ends};
ghost use Rattle.cd_chain.specs.Cells.{AreFree, row_cells, used_cells};
ghost use Rattle.cd_chain.specs.declared.lane.Row.TheVariants.{There, Free};

use std::alloc::{AllocError, Global};

// The ends of a list.
#[derive(Clone, Copy, Debug)]
pub(crate) struct Ends {
    pub(crate) first: Option<u32>,
    pub(crate) last: Option<u32>,
}

// The ends of a list without slots.
pub(crate) const NO_ENDS: Ends = Ends {
    first: None,
    last: None,
};

// What stands under the number of a list.
#[derive(Clone, Copy, Debug)]
pub(crate) enum Row {
    There(Ends),
    // With the next free number.
    Free(Option<u32>),
}

// The numbers of the lists of a lane.
#[derive(Drop)]
pub(crate) struct Lane {
    pub(crate) rows: Vec<Row>,
    // The free number that is given out next.
    pub(crate) free: Option<u32>,
}

// The three lanes.
#[derive(Drop)]
pub(crate) struct Lanes {
    pub(crate) first: Lane,
    pub(crate) second: Lane,
    pub(crate) third: Lane,
}

// A lane without lists.
pub(crate) fn no_lists(alloc: Global) -> Lane
    ensures rows { result.rows.items ≡ [] }
    ensures free { result.free ≡ None }
{
    Lane {
        rows: Vec::new(alloc),
        free: None,
    }
}

// The rows of a lane.
pub(crate) fn rows_in(lanes: &Lanes, lane: u8) -> &[Row]
    ensures { result.now ≡ rows_in lanes.now lane }
{
    match lane {
        0 => &lanes.first.rows,
        1 => &lanes.second.rows,
        2 => &lanes.third.rows,
        _ => &[],
    }
}

// The free number of a lane that is given out next.
pub(crate) fn free_in(lanes: &Lanes, lane: u8) -> Option<u32>
    ensures { result ≡ free_in lanes.now lane }
{
    match lane {
        0 => lanes.first.free,
        1 => lanes.second.free,
        2 => lanes.third.free,
        _ => None,
    }
}

// The ends of a list that is there.
pub(crate) fn ends_of(rows: &[Row], list: usize) -> Ends
    requires within { list < length rows.now }
    requires there { IsThere (row_at rows.now list) }
    ensures { row_at rows.now list ≡ There result }
{
    match rows[list] {
        Row::There(ends) => ends,
        Row::Free(_) => NO_ENDS,
    }
}

// Writes what stands under a number of a lane.
pub(crate) fn set_row(lanes: &mut Lanes, lane: u8, list: usize, row: Row)
    requires lane { lane < 3 }
    requires list { list < length (rows_in lanes.old lane) }
    ensures rows { rows_in lanes.new lane ≡ slice_set (rows_in lanes.old lane) list row }
    ensures others { (l : ℕ) → (l ≡ lane → ⊥) → rows_in lanes.new l ≡ rows_in lanes.old l }
    ensures free { (l : ℕ) → free_in lanes.new l ≡ free_in lanes.old l }
{
    match lane {
        0 => lanes.first.rows[list] = row,
        1 => lanes.second.rows[list] = row,
        _ => lanes.third.rows[list] = row,
    }
}

// Writes which free number of a lane is given out next.
pub(crate) fn set_free(lanes: &mut Lanes, lane: u8, free: Option<u32>)
    requires { lane < 3 }
    ensures free { free_in lanes.new lane ≡ free }
    ensures others { (l : ℕ) → (l ≡ lane → ⊥) → free_in lanes.new l ≡ free_in lanes.old l }
    ensures rows { (l : ℕ) → rows_in lanes.new l ≡ rows_in lanes.old l }
{
    match lane {
        0 => lanes.first.free = free,
        1 => lanes.second.free = free,
        _ => lanes.third.free = free,
    }
}

// Puts a list without slots under one more number of a lane.
pub(crate) fn push_row(lanes: &mut Lanes, lane: u8) -> Result<(), AllocError>
    requires { lane < 3 }
    ensures rows { OnOk result (rows_in lanes.new lane ≡ rows_in lanes.old lane ++ There no_ends ∷ []) }
    ensures err { OnErr result (rows_in lanes.new lane ≡ rows_in lanes.old lane) }
    ensures others { (l : ℕ) → (l ≡ lane → ⊥) → rows_in lanes.new l ≡ rows_in lanes.old l }
    ensures free { (l : ℕ) → free_in lanes.new l ≡ free_in lanes.old l }
{
    let row = Row::There(NO_ENDS);
    match lane {
        0 => lanes.first.rows.push(row)?,
        1 => lanes.second.rows.push(row)?,
        _ => lanes.third.rows.push(row)?,
    }
    Ok(())
}

// The free number after this one.
pub(crate) fn next_free(rows: &[Row], list: usize) -> Option<u32>
    requires within { list < length rows.now }
    requires free { IsThere (row_at rows.now list) → ⊥ }
    ensures { row_at rows.now list ≡ Free result }
{
    match rows[list] {
        Row::There(_) => None,
        Row::Free(next) => next,
    }
}

// Adds a list without slots to a lane, under its first free number or else under one more.
pub(crate) fn add_row(lanes: &mut Lanes, lane: u8) -> Result<u32, AllocError>
    requires lane { lane < 3 }
    requires frees { AreFree (row_cells (rows_in lanes.old lane)) (free_in lanes.old lane) }
    requires room { used_cells (row_cells (rows_in lanes.old lane)) < 2 ^ 31 }
    ensures ok { IfOk result (λ list.
        AddsRow (rows_in lanes.old lane) (rows_in lanes.new lane) (free_in lanes.new lane) list) }
    ensures others { (l : ℕ) → (l ≡ lane → ⊥) → rows_in lanes.new l ≡ rows_in lanes.old l }
    ensures others_free { (l : ℕ) → (l ≡ lane → ⊥) → free_in lanes.new l ≡ free_in lanes.old l }
    ensures err { OnErr result (rows_in lanes.new lane ≡ rows_in lanes.old lane) }
    ensures err_free { OnErr result (free_in lanes.new lane ≡ free_in lanes.old lane) }
{
    match free_in(lanes, lane) {
        Some(list) => {
            let next = next_free(rows_in(lanes, lane), list as usize);
            set_row(lanes, lane, list as usize, Row::There(NO_ENDS));
            set_free(lanes, lane, next);
            Ok(list)
        }
        None => {
            let list = rows_in(lanes, lane).len() as u32;
            push_row(lanes, lane)?;
            Ok(list)
        }
    }
}

// Frees the number of a list.
pub(crate) fn drop_row(lanes: &mut Lanes, lane: u8, list: u32)
    requires lane { lane < 3 }
    requires list { list < length (rows_in lanes.old lane) }
    requires there { IsThere (row_at (rows_in lanes.old lane) list) }
    requires frees { AreFree (row_cells (rows_in lanes.old lane)) (free_in lanes.old lane) }
    ensures row { DropsRow (rows_in lanes.old lane) (rows_in lanes.new lane) list }
    ensures free { free_in lanes.new lane ≡ Some list }
    ensures others { (l : ℕ) → (l ≡ lane → ⊥) → rows_in lanes.new l ≡ rows_in lanes.old l }
    ensures others_free { (l : ℕ) → (l ≡ lane → ⊥) → free_in lanes.new l ≡ free_in lanes.old l }
{
    let next = free_in(lanes, lane);
    set_row(lanes, lane, list as usize, Row::Free(next));
    set_free(lanes, lane, Some(list));
}
