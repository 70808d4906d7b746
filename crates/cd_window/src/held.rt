// An event that is held, with the clock and the sum of weights at its position, and the position of its partner.
#[derive(Drop)]
pub(crate) struct Held<E> {
    pub(crate) event: E,
    pub(crate) clock: u64,
    pub(crate) weight_sum: u64,
    pub(crate) partner: Option<u64>,
}
