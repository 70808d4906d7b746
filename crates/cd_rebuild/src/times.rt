//! When a message was sent (RFC 8618 7.3.2.1, 7.3.2.4).

ghost use Rattle.std.specs.Prelude.{◌≡◌, ◌<◌, ◌≤◌, ◌^◌};
ghost use Rattle.cd_packet.specs.Time.{end_of_time};
ghost use Rattle.cd_rebuild.specs.Times;

use cd_block::Stamp;

// A second in nanoseconds.
const SECOND: u128 = 1_000_000_000;

// The last nanosecond that is a time: the one before 2^32 seconds.
const LAST_TIME: u128 = 4_294_967_295_999_999_999;

// The tick of the earliest time of a block.
fn earliest_tick(ticks: u64, earliest: Option<Stamp>) -> u128
    requires { ticks ≤ 1000000000 }
    ensures tick { result ≡ Times.earliest_tick ticks earliest }
    ensures bound { result < 2 ^ 95 }
{
    match earliest {
        Some(stamp) => { u128::from(stamp.seconds) * u128::from(ticks) + u128::from(stamp.ticks) }
        None => 0,
    }
}

// The tick of an item or of a malformed message, so many ticks after the earliest time.
pub(crate) fn offset_tick(ticks: u64, earliest: Option<Stamp>, offset: Option<u64>) -> u128
    requires { ticks ≤ 1000000000 }
    ensures tick { result ≡ Times.offset_tick ticks earliest offset }
    ensures bound { result < 2 ^ 96 }
{
    earliest_tick(ticks, earliest) + u128::from(offset.unwrap_or(0))
}

// A tick so many ticks later, or earlier, but not before 1970.
fn moved_by(delay: i64, tick: u128) -> u128
    requires { tick < 2 ^ 96 }
    ensures tick { result ≡ Times.moved_by delay tick }
    ensures bound { result < 2 ^ 97 }
{
    let ticks = u128::from(delay.unsigned_abs());
    if delay >= 0 {
        tick + ticks
    } else {
        tick.saturating_sub(ticks)
    }
}

// The tick of the response of an item with this tick: for a pair so long after it as the response delay says.
pub(crate) fn response_tick(is_pair: bool, delay: Option<i64>, tick: u128) -> u128
    requires { tick < 2 ^ 96 }
    ensures tick { result ≡ Times.response_tick is_pair delay tick }
    ensures bound { result < 2 ^ 97 }
{
    if is_pair {
        moved_by(delay.unwrap_or(0), tick)
    } else {
        tick
    }
}

// The nanoseconds of a tick, rounded down, and no more than those of the last time.
pub(crate) fn nanoseconds(ticks: u64, tick: u128) -> u64
    requires least { 0 < ticks }
    requires bound { tick < 2 ^ 97 }
    ensures time { result ≡ Times.nanoseconds ticks tick }
    ensures timely { result < end_of_time }
{
    let nanos = tick * SECOND / u128::from(ticks);
    nanos.min(LAST_TIME) as u64
}
