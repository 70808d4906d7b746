ghost use Rattle.cd_window.specs.Keys.{IsAlone};

use crate::key::Key;

// An event that waits for its partner, with the clock and the sum of weights at its position.
#[derive(Drop)]
pub(crate) struct Waiter {
    // The key of its primary alone.
    pub(crate) alone: Key,
    // The key of its primary and its secondary.
    pub(crate) whole: Key,
    pub(crate) position: u64,
    pub(crate) clock: u64,
    pub(crate) weight_sum: u64,
    pub(crate) weight: u64,
    ghost alone_is: { IsAlone alone whole },
}
