//! What follows from the definition of the block of a kept block.

ghost use Rattle.cd_block.specs.Tables.{indexed};
ghost use Rattle.cd_block.specs.declared.kept.KeptBlock.{KeptBlock};
ghost use Rattle.cd_table.specs.Once.{HoldsEachOnce};

/// Each table of the block of a kept block holds each of its values once.
pub fn tables_hold_each_value_once()
    ensures { (kept : KeptBlock) → HoldsEachOnce (indexed kept) }
{}
