//! The numbers that lookups are made of.

ghost use Rattle.std.specs.Prelude.{◌≡◌};
ghost use Rattle.cd_workload.specs.Workload;

// The generator is linear and congruential, modulo 2^64: what it multiplies by, and what it adds.
const MULTIPLIER: u64 = 6_364_136_223_846_793_005;

const INCREMENT: u64 = 1_442_695_040_888_963_407;

// The state after this one.
pub(crate) fn next_state(state: u64) -> u64
    ensures { result ≡ Workload.next_state state }
{
    state.wrapping_mul(MULTIPLIER).wrapping_add(INCREMENT)
}

// The number that is drawn at a state: its high 31 bits.
pub(crate) fn draw(state: u64) -> u64
    ensures { result ≡ Workload.draw state }
{
    state >> 33
}
