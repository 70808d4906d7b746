//! The clock of an interface (the pcapng draft, 4.2 and 4.3).

ghost use Rattle.std.specs.Prelude.{◌≡◌, ◌<◌, ◌^◌};
ghost use Rattle.cd_packet.specs.Time.{when_at};
ghost use Rattle.cd_pcapng.specs.Times.{is_resolution, units_in_second, nanos_of, moved_by};
ghost use Rattle.cd_pcapng.specs.Sections.{time_on};

use crate::interface::Interface;
use cd_packet::When;

const NANOS_IN_SECOND: u128 = 1_000_000_000;

// The first nanosecond that is no time: 2^32 seconds.
const END_OF_TIME: u128 = 4_294_967_296_000_000_000;

// The bit of a resolution that says that it is a power of 2.
const POWER_OF_TWO: u8 = 128;

/// Whether a resolution is in range: down to 10^-12 or 2^-63 seconds.
pub fn is_resolution(resolution: u8) -> bool
    ensures { result ≡ is_resolution resolution }
{
    if resolution < POWER_OF_TWO {
        resolution < 13
    } else {
        resolution < 192
    }
}

// So many units of 10^-resolution seconds in nanoseconds, rounded down. Below a unit of 10^-28 seconds they are none.
fn decimal_nanos(resolution: u8, ticks: u64) -> u128
    requires { resolution < 128 }
    ensures { result ≡ nanos_of (10 ^ resolution) ticks }
{
    if resolution <= 9 {
        u128::from(ticks) * u128::from(10u64.pow(u32::from(9 - resolution)))
    } else if resolution <= 28 {
        u128::from(ticks / 10u64.pow(u32::from(resolution - 9)))
    } else {
        0
    }
}

// So many units of this resolution in nanoseconds, rounded down.
fn nanos_of(resolution: u8, ticks: u64) -> u128
    ensures { result ≡ nanos_of (units_in_second resolution) ticks }
{
    if resolution < POWER_OF_TWO {
        decimal_nanos(resolution, ticks)
    } else {
        u128::from(ticks) * NANOS_IN_SECOND >> u32::from(resolution - POWER_OF_TWO)
    }
}

// The time of so many nanoseconds since 1970.
fn when_at(nanos: u128) -> When
    ensures { result ≡ when_at nanos }
{
    if nanos < END_OF_TIME {
        When::At(nanos as u64)
    } else {
        When::Outside
    }
}

// The time of so many nanoseconds since 1970, moved by an offset in seconds.
fn moved_by(offset: i64, nanos: u128) -> When
    requires { nanos < 2 ^ 94 }
    ensures { result ≡ moved_by offset nanos }
{
    let seconds = u128::from(offset.unsigned_abs()) * NANOS_IN_SECOND;
    if offset >= 0 {
        when_at(nanos + seconds)
    } else if nanos < seconds {
        When::Outside
    } else {
        when_at(nanos - seconds)
    }
}

/// The time of so many units of an interface's clock.
#[tactic(auto, using(crate::proofs::Units::nanos_small))]
pub fn time_on(interface: &Interface, ticks: u64) -> When
    ensures { result ≡ time_on interface.now ticks }
{
    moved_by(interface.offset, nanos_of(interface.resolution, ticks))
}
