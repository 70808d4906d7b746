//! Laws of rebuilt blocks, each the contract of a function that does nothing.

ghost use Rattle.cd_rebuild.specs.Laws.{OneOrder};

/// Packets are put in the order of their times, and those of one time stay in their order. There is one such order.
pub fn packets_have_one_order()
    ensures { OneOrder }
{}
