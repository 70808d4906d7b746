//! Times in ticks.

ghost use Rattle.std.specs.Prelude.{◌≡◌, ◌-◌, ◌≤◌, ◌<◌, pos, ◌-ℤ◌};
ghost use Rattle.cd_packet.specs.Time.{end_of_time};
ghost use Rattle.cd_hints.specs.declared.settings.options.NumberOption.TheVariants.{Ticks};
ghost use Rattle.cd_hints.specs.Options.{Admits};
ghost use Rattle.cd_hints.specs.Ticks as times;

use cd_block::Stamp;

// A second in nanoseconds.
const SECOND: u64 = 1_000_000_000;

/// The tick of a time since 1970 in nanoseconds, rounded down, where a second has so many ticks: 1,000,000 or
/// 1,000,000,000 (RFC 8618 7.3.1.1.1).
pub fn tick_of(ticks: u64, time: u64) -> u64
    requires { Admits Ticks ticks }
    ensures tick { result ≡ times.tick_of ticks time }
    ensures bound { result ≤ time }
{
    time / (SECOND / ticks)
}

// Ticks from the earliest time of a block to a time that is not before it.
pub(crate) fn ticks_since(ticks: u64, earliest: Stamp, time: u64) -> u64
    requires ticks { Admits Ticks ticks }
    requires earliest { times.IsAtOrBefore ticks earliest time }
    ensures { result ≡ times.tick_of ticks time - times.stamp_tick ticks earliest }
{
    tick_of(ticks, time) - (earliest.seconds * ticks + earliest.ticks)
}

// Ticks from one time to another, fewer than 0 where the other is earlier.
pub(crate) fn ticks_between(ticks: u64, from: u64, to: u64) -> i64
    requires ticks { Admits Ticks ticks }
    requires from { from < end_of_time }
    requires to { to < end_of_time }
    ensures { result ≡ pos (times.tick_of ticks to) -ℤ pos (times.tick_of ticks from) }
{
    tick_of(ticks, to) as i64 - tick_of(ticks, from) as i64
}
